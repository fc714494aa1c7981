// The function of `sm4_timing` as C calls it, under the same name, one call of the function there with the same clause.
// No part of what is shipped.
#![tactic(auto)]

ghost use Rattle.sm4_timing.specs.Promise.{Timed};

#[unsafe(no_mangle)]
pub extern "C" fn timing_sm4_cbc(key: &[u8], iv: &[u8], body: &mut [u8])
    ensures { Timed key.now iv.now body.old body.new }
{
    sm4_timing::timing_sm4_cbc(key, iv, body);
}
