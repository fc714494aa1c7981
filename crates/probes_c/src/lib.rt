// The functions of `probes` as C calls them, under the same names, each one call of the function there with the same
// clauses. No part of what is shipped.
#![tactic(auto)]

ghost use Rattle.std.specs.Prelude.{◌≡◌};
ghost use Rattle.probes.specs.Probes.{verified_for};
ghost use Rattle.probes.specs.Promise.{MacedParts};

#[unsafe(no_mangle)]
pub extern "C" fn probe_hmac_verify(key: &[u8], message: &[u8], tag: &[u8]) -> u32
    ensures { result ≡ verified_for key.now message.now tag.now }
{
    probes::probe_hmac_verify(key, message, tag)
}

#[unsafe(no_mangle)]
pub extern "C" fn probe_hmac_parts(
    key: &[u8],
    first: &[u8],
    second: &[u8],
    third: &[u8],
    out: &mut [u8],
) -> u32
    ensures { MacedParts key.now first.now second.now third.now out.old result out.new }
{
    probes::probe_hmac_parts(key, first, second, third, out)
}
