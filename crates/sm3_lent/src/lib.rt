// The running hash SM3 where it stands: `start` and `update` alter a state that is lent to them, `finish` reads one, in
// place of the Rust's methods over `&mut self` (sm3.rs). Each is thin: the state goes by value to a function that the
// checker covers, and what comes back is stored whole. Lengths and the fill are public, and only they are branched on.
#![tactic(auto)]

ghost use Rattle.std.specs.Prelude.{◌∷◌, ◌++◌, [], ◌≡◌};
ghost use Rattle.answers.specs.Answers.{number_of};
ghost use Rattle.sm3.specs.Cutting.{fed};
ghost use Rattle.sm3.specs.State.{fresh, hashed};
ghost use Rattle.sm3_lent.specs.Promise.{Started, Taken, Digested};

use answers::Refusal;
use sm3::{DIGEST_SIZE, Sm3};

// A fresh state, whatever stood there.
pub fn start(h: &mut Sm3)
    ensures { Started h.new }
{
    *h = Sm3::new();
}

// data is taken in; refused, and the state as found, where its fill is above 63.
pub fn update(h: &mut Sm3, data: &[u8]) -> Result<(), Refusal>
    ensures { Taken h.old «data».now (number_of result) h.new }
{
    *h = h.update(data)?;
    Ok(())
}

// The digest of all bytes so far into 32 bytes, the state as it was. A digest of another size is refused before all
// else and stays as found; where the state's fill is above 63 it becomes zeros.
pub fn finish(h: &Sm3, digest: &mut [u8]) -> Result<(), Refusal>
    ensures { Digested h.now digest.old (number_of result) digest.new }
{
    if digest.len() != DIGEST_SIZE {
        return Err(Refusal::WrongSize);
    }
    match h.finalize() {
        Ok(bytes) => {
            digest.copy_from_slice(&bytes);
            Ok(())
        }
        Err(why) => {
            digest.copy_from_slice(&[0; DIGEST_SIZE]);
            Err(why)
        }
    }
}

// The state after two parts, which one lent state takes in. The answers are not looked at: a fresh state is in range, and
// stays so.
fn fed_twice(first: &[u8], second: &[u8]) -> Sm3
    ensures { result ≡ fed fresh (first.now ∷ second.now ∷ []) }
{
    let mut h = Sm3::new();
    let _taken = update(&mut h, first);
    let _taken = update(&mut h, second);
    h
}

// The digest of a message in two parts, by one state that is lent twice. Its caller lends none.
pub fn hash_two(first: &[u8], second: &[u8]) -> [u8; DIGEST_SIZE]
    ensures { result ≡ (hashed (first.now ++ second.now)).bytes }
{
    fed_twice(first, second).finalize().unwrap()
}
