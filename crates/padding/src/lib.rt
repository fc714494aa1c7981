// The padding of a deciphered body, read without a branch on its bytes, from check_tls_padding_ct of the Rust's
// tlcp/record.rs. The body's length is public; its bytes, and so the padding's length, are not.
#![tactic(auto)]

ghost use Rattle.std.specs.Prelude.{cond, ◌&&◌, ◌≡◌, ◌+◌, eqb, ltb};
ghost use Rattle.words.specs.Word.{◌⊕◌};
ghost use Rattle.record.specs.Opened.{last_byte, pad_fits, good_pad};
ghost use Rattle.padding.specs.Scan.{checked};

use record::MAC_LEN;

// pad_ok is 1 where the padding is good, else 0; held is the length at which the MAC is worked out and compared. Two
// numbers and no Option, which could be read by a branch on the mark alone; and the scope makes this pair a struct.
#[derive(Clone, Copy)]
pub struct Padding {
    pub pad_ok: u8,
    pub held: usize,
}

// What the byte i places before the last differs from the padding's by; 0 where the padding does not reach it.
fn differs(byte: u8, padlen: u8, i: usize) -> u8
    ensures { result ≡ cond (ltb i (padlen + 1)) (byte ⊕ padlen) 0 }
{
    let in_pad = masks::ct_lt_usize(i, (padlen as usize) + 1);
    masks::select(0, byte ^ padlen, in_pad)
}

// The differences of the bytes that the padding reaches, ORed: 0 where a padding that fits is good. As many bytes are
// looked at, from the last one back, as the longest padding has, or all: the loop ends neither at the padding's first
// byte nor at one that differs.
fn differences(body: &[u8], padlen: u8) -> u8
    requires { padlen ≡ last_byte body.now }
    ensures { good_pad body.now ≡ (pad_fits body.now && eqb result 0) }
{
    let mut bad: u8 = 0;
    for (i, byte) in body.iter().rev().take(256).enumerate() {
        bad |= differs(*byte, padlen, i);
    }
    bad
}

// The padding of any body; one with no room for a MAC and a length byte has no good padding.
pub fn check_tls_padding_ct(body: &[u8]) -> Padding
    ensures { result ≡ checked body.now }
{
    let n = body.len();
    // The length is public.
    if n <= MAC_LEN {
        return Padding { pad_ok: 0, held: 0 };
    }
    let padlen = body[n - 1];
    let p = padlen as usize;
    let fits = masks::ct_lt_usize(p, n - MAC_LEN);
    let pad_ok = fits & masks::ct_eq(differences(body, padlen), 0);
    // p may be above what is left of the body: it is taken off only where the padding is good.
    let most = n - (MAC_LEN + 1);
    let pad = masks::select(0, p, pad_ok);
    let held = most - pad;
    Padding { pad_ok, held }
}
