// Words and spans: what the Rust takes from its language, as total functions. The trait `Bits`, arrays put on one
// another, rotate_left, sums of words, div_ceil; bounded copies and fills. Definitions in specs/, laws for the crates
// above in proofs/.
#![tactic(auto)]

ghost use Rattle.std.specs.Prelude.{◌≡◌, ◌+◌, ◌-◌, ◌/◌, ◌%◌, ◌^◌, bit_xor};
ghost use Rattle.words.specs.Choice.{chosen};
ghost use Rattle.words.specs.Lists.{zip_with};
ghost use Rattle.words.specs.Word.{◌⋘◌};
ghost use Rattle.words.specs.Promise.{Copied, Filled};

// What `xor_each`, and `select` and `ct_eq` of masks, need of a type. `xor` is not the library's `BitXor`, which says
// what it gives by a relation: the contract of `xor_each` is an equation, and needs a function.
pub trait Bits: Copy + Ord {
    ghost none: { Self };

    ghost xored: { Self → Self → Self };

    // self ^ other: what is put on twice is gone.
    fn xor(self, other: Self) -> Self
        ensures value { result ≡ xored self other }
        ensures twice { xored self (xored self other) ≡ other }
        ensures alone { xored self none ≡ self };

    // self where the lowest bit of choice is 1, else no bit of it: all ones or all zeros as a mask, and no branch.
    fn masked(self, choice: u8) -> Self
        ensures { result ≡ chosen choice none self };
}

// An impl for each type, written out: the gate refuses one that a macro of the repository writes.
impl Bits for u8 {
    ghost none = { 0 };

    ghost xored = { bit_xor };

    fn xor(self, other: u8) -> u8 {
        self ^ other
    }

    fn masked(self, choice: u8) -> u8 {
        self & ((choice % 2) * 0xff)
    }
}

impl Bits for u32 {
    ghost none = { 0 };

    ghost xored = { bit_xor };

    fn xor(self, other: u32) -> u32 {
        self ^ other
    }

    fn masked(self, choice: u8) -> u32 {
        self & ((choice % 2) as u32 * 0xffff_ffff)
    }
}

impl Bits for usize {
    ghost none = { 0 };

    ghost xored = { bit_xor };

    fn xor(self, other: usize) -> usize {
        self ^ other
    }

    fn masked(self, choice: u8) -> usize {
        self & ((choice % 2) as usize * 0xffff_ffff_ffff_ffff)
    }
}

// Each element of a with that of b. By the index of one: after a `zip` of `iter_mut` nothing is known of what was
// written.
pub fn xor_each<T: Bits, const N: usize>(a: [T; N], b: [T; N]) -> [T; N]
    ensures { result ≡ zip_with T.xored a b }
{
    let mut out = b;
    for (i, x) in out.iter_mut().enumerate() {
        *x = a[i].xor(*x);
    }
    out
}

// x rotated left by n, taken modulo 32.
pub fn rotate_left(x: u32, n: u32) -> u32
    ensures { result ≡ x ⋘ (n % 32) }
{
    x.rotate_left(n)
}

// The sum of three words modulo 2^32. SM3's round has sums of three and of four: over a slice it would be a loop.
pub fn wrapping_add3(x: u32, y: u32, z: u32) -> u32
    ensures { result ≡ (x + y + z) % 2 ^ 32 }
{
    x.wrapping_add(y).wrapping_add(z)
}

// The sum of four words modulo 2^32.
pub fn wrapping_add4(w: u32, x: u32, y: u32, z: u32) -> u32
    ensures { result ≡ (w + x + y + z) % 2 ^ 32 }
{
    wrapping_add3(w, x, y).wrapping_add(z)
}

// a / b rounded up; 0 where b is 0.
pub fn div_ceil(a: usize, b: usize) -> usize
    ensures { result ≡ (a + (b - 1)) / b }
{
    if b == 0 { 0 } else { a.div_ceil(b) }
}

// src laid over out from index at on, as much of it as there is room for. A store each: of `copy_from_slice` the compiler
// makes a call of memmove where both are lent from C, a name that the library would need from outside.
pub fn copy_at(out: &mut [u8], at: usize, src: &[u8])
    ensures { Copied out.old at src.now out.new }
{
    if at < out.len() {
        let n = src.len().min(out.len() - at);
        for j in 0..n {
            out[at + j] = src[j];
        }
    }
}

// count bytes of one value laid over out from index at on, as many as there is room for.
pub fn fill_at(out: &mut [u8], at: usize, count: usize, byte: u8)
    ensures { Filled out.old at count byte out.new }
{
    if at < out.len() {
        let n = count.min(out.len() - at);
        out[at..at + n].fill(byte);
    }
}
