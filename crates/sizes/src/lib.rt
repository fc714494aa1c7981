// The sizes of a record to open, and the number of steps that opening it takes: public, and known before any byte is
// read. From the length guards of deprotect_cbc and from ct_inner_blocks in the Rust's tlcp/record.rs.
#![tactic(auto)]

ghost use Rattle.std.specs.Prelude.{◌≡◌};
ghost use Rattle.answers.specs.Answers.{number_of};
ghost use Rattle.sizes.specs.Sizes.{size_answer, allowed as allowedBody, mac_steps, total_steps};

use answers::Refusal;
use record::IV_LEN;

// The IV, a MAC and one block of padding.
pub const MIN_RECORD: usize = 64;

// The longest text that is sealed, its MAC and one block of padding.
pub const MAX_BODY: usize = 16432;

// Refused with 3, 4 or 5, tested in this order, where no record of this length is opened.
#[tactic(auto, unfolding(crate::specs::Sizes::size_answer))]
pub fn size_answer(record_len: usize) -> Result<(), Refusal>
    ensures { number_of result ≡ size_answer record_len }
{
    if record_len < MIN_RECORD {
        return Err(Refusal::Short);
    }
    let n = record_len - IV_LEN;
    if n % 16 != 0 {
        return Err(Refusal::Ragged);
    }
    if MAX_BODY < n {
        return Err(Refusal::TooBig);
    }
    Ok(())
}

// Whether a body of n bytes is opened at all.
#[tactic(auto, unfolding(crate::specs::Sizes::allowed))]
pub fn allowed(n: usize) -> bool
    ensures { result ≡ allowedBody n }
{
    (MIN_RECORD - IV_LEN..=MAX_BODY).contains(&n) && n % 16 == 0
}

// The steps that compress header and text, for a body of n bytes: enough for the longest text that it can hold.
#[tactic(auto, unfolding(crate::specs::Sizes::mac_steps))]
pub fn mac_steps(n: usize) -> usize
    ensures { result ≡ mac_steps n }
{
    words::div_ceil(n.saturating_sub(11), 64)
}

// All steps of opening a body of n bytes.
#[tactic(auto, unfolding(crate::specs::Sizes::total_steps, crate::specs::Sizes::mac_steps))]
pub fn total_steps(n: usize) -> usize
    ensures { result ≡ total_steps n }
{
    n / 16 + mac_steps(n) + 4
}
