// SM4 as the timing program calls it, and no part of what is shipped: the key expansion, and then CBC in place over a
// body. An empty body times the expansion alone.
#![tactic(auto)]

ghost use Rattle.std.specs.Prelude.{◌≡◌};
ghost use Rattle.sm4_timing.specs.Promise.{Timed};
ghost use Rattle.sm4_timing.specs.Timing.{fitted};

use sm4::Sm4Cipher;

// The bytes of s in a block, zeros behind them where they are fewer.
fn fit(s: &[u8]) -> [u8; 16]
    ensures { result ≡ fitted s.now }
{
    let mut block = [0u8; 16];
    words::copy_at(&mut block, 0, s);
    block
}

#[unsafe(no_mangle)]
pub extern "C" fn timing_sm4_cbc(key: &[u8], iv: &[u8], body: &mut [u8])
    ensures { Timed key.now iv.now body.old body.new }
{
    let cipher = Sm4Cipher::new(fit(key));
    cbc::encipher_cbc(cipher, fit(iv), body);
}
