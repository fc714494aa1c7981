// Functions for runs that need what the library does not export, and no part of what is shipped: the streamed MAC, and
// its verification. A tag of another size than 32 is answer 9, before all else. Lengths are public; key, message and
// tag are not.
#![tactic(auto)]

ghost use Rattle.std.specs.Prelude.{◌≡◌};
ghost use Rattle.answers.specs.Answers.{number_of};
ghost use Rattle.probes.specs.Probes.{answer_for, sized, filled, verified_for};
ghost use Rattle.probes.specs.Promise.{MacedParts};

use answers::{Refusal, number_of};
use hmac::HmacSm3;
use sm3::DIGEST_SIZE;

// The bytes into out, if it has room for just them: as in border, which is no part of this; one function for both would
// need a crate with a promise and a law for five lines.
#[tactic(auto, unfolding(crate::specs::Probes::answer_for, crate::specs::Probes::sized, crate::specs::Probes::filled))]
fn put_tag(out: &mut [u8], bytes: [u8; DIGEST_SIZE]) -> Result<(), Refusal>
    ensures answers { number_of result ≡ answer_for (sized out.old) }
    ensures leaves { out.new ≡ filled bytes out.old }
{
    if out.len() != DIGEST_SIZE {
        return Err(Refusal::WrongSize);
    }
    out.copy_from_slice(&bytes);
    Ok(())
}

// 1 where the tag is the MAC of the message under the key, 0 where it is not, 9 where it has not 32 bytes: a number,
// which C reads.
#[unsafe(no_mangle)]
pub extern "C" fn probe_hmac_verify(key: &[u8], message: &[u8], tag: &[u8]) -> u32
    ensures { result ≡ verified_for key.now message.now tag.now }
{
    if tag.len() != DIGEST_SIZE {
        return Refusal::WrongSize.number() as u32;
    }
    let mut expected = [0u8; DIGEST_SIZE];
    expected.copy_from_slice(tag);
    let taken = HmacSm3::new(key).update(message).unwrap();
    taken.verify(expected).unwrap() as u32
}

// The MAC of three parts one after the other, each taken in by an update of its own, into 32 bytes.
#[unsafe(no_mangle)]
pub extern "C" fn probe_hmac_parts(
    key: &[u8],
    first: &[u8],
    second: &[u8],
    third: &[u8],
    out: &mut [u8],
) -> u32
    ensures { MacedParts key.now first.now second.now third.now out.old result out.new }
{
    let tag = hmac::hmac_sm3_parts(key, &[first, second, third]);
    number_of(put_tag(out, tag)) as u32
}
