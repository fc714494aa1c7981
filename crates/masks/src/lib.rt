// What the Rust takes from the crate `subtle`: comparisons as numbers 0 or 1, and selects by a mask made of one, each
// over every type that has the `Bits` of words. No branch on what is compared or selected. Definitions and laws in
// words.
#![tactic(auto)]

ghost use Rattle.std.specs.Prelude.{◌≡◌, eqb, ltb};
ghost use Rattle.words.specs.Choice.{bit, chosen};

use words::Bits;

// 1 where a and b are equal, else 0. A comparison taken as a number: no branch on either.
pub fn ct_eq<T: Bits>(a: T, b: T) -> u8
    ensures { result ≡ bit (T.eq a b) }
{
    (a == b) as u8
}

// 1 where a is below b, else 0.
pub fn ct_lt_usize(a: usize, b: usize) -> u8
    ensures { result ≡ bit (ltb a b) }
{
    (a < b) as u8
}

// 1 where d is 0, else 0: the sum of its halves taken off 2^33. A shift and no comparison: of a comparison that chooses
// between eight words in a row, the compiler makes a branch for x86-64.
pub fn ct_is_zero_usize(d: usize) -> u8
    ensures { result ≡ bit (eqb d 0) }
{
    let halves = (d >> 32) + (d % 0x1_0000_0000);
    ((0x2_0000_0000 - halves) >> 33) as u8
}

// a where the lowest bit of choice is 0, b where it is 1: the bits in which they differ are put on a, or none, and no
// branch.
pub fn select<T: Bits>(a: T, b: T, choice: u8) -> T
    ensures { result ≡ chosen choice a b }
{
    a.xor(a.xor(b).masked(choice))
}
