// The end of an opening without a branch on what was deciphered: the MAC copied from its place, one verdict, and the
// bytes that are no text cleared, from extract_mac_ct and the merge in deprotect_cbc of the Rust's tlcp/record.rs.
// Lengths of slices are public; the text's length, the marks and all bytes are not.
#![tactic(auto)]

ghost use Rattle.std.specs.Prelude.{cond, ◌≡◌, ◌%◌, eqb};
ghost use Rattle.verdict.specs.Promise.{Cleared};
ghost use Rattle.verdict.specs.Verdict.{extracted, verdict_of};

use answers::{DONE, Refusal};
use record::MAC_LEN;

// An answer with a length beside it and no Option: either is chosen by masks, and nothing branches on which of them it
// is.
#[derive(Clone, Copy)]
pub struct Verdict {
    pub answer: u8,
    pub length: usize,
}

// part where the lowest bit of hit is 1, else out: each byte is read and written either way. By the place, since
// nothing is known of what a zip with `iter_mut` leaves; `keep` of mac_blocks says why its like stands there.
fn copy_where(out: &mut [u8; MAC_LEN], part: &[u8; MAC_LEN], hit: u8)
    ensures { out.new ≡ cond (eqb (hit % 2) 1) part.now out.old }
{
    for (j, byte) in out.iter_mut().enumerate() {
        *byte = masks::select(*byte, part[j], hit);
    }
}

// The MAC behind plaintext_len bytes of body, by a scan over all places that a MAC in front of a length byte can have;
// zeros where it has none of them.
pub fn extract_mac_ct(body: &[u8], plaintext_len: usize) -> [u8; MAC_LEN]
    ensures { result ≡ extracted body.now plaintext_len }
{
    let mut out = [0u8; MAC_LEN];
    if let Some((_, front)) = body.split_last() {
        // how many places there are in front of the last byte follows from the body's length alone, and each is read
        for (i, part) in front.array_windows::<MAC_LEN>().enumerate() {
            copy_where(&mut out, part, masks::ct_eq(i, plaintext_len));
        }
    }
    out
}

// Answer 0 with the length held exactly if the padding is good and the MACs agree, else answer 6 with length 0.
pub fn verdict_ct(
    pad_ok: bool,
    received: [u8; MAC_LEN],
    computed: [u8; MAC_LEN],
    held: usize,
) -> Verdict
    ensures { result ≡ verdict_of pad_ok received computed held }
{
    // both tests as numbers, so that neither is left out where the other fails
    let ok = (pad_ok as u8) & hmac::ct_eq(received, computed);
    let answer = masks::select(Refusal::BadRecord.number(), DONE, ok);
    let length = masks::select(0, held, ok);
    Verdict { answer, length }
}

// The first keep bytes of body stay, all behind them become zero: every byte is written, whatever keep is.
pub fn clear_from_ct(body: &mut [u8], keep: usize)
    ensures { Cleared body.old keep body.new }
{
    // as many turns as there are bytes, which is public
    for (i, byte) in body.iter_mut().enumerate() {
        *byte = masks::select(0, *byte, masks::ct_lt_usize(i, keep));
    }
}
