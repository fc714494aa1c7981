// The compression function CF of SM3, GB/T 32905-2016, section 5.3: `compress` of the Rust's sm3.rs.
// No branch and no index depends on the words or the block: j is public.
#![tactic(auto)]

ghost use Rattle.std.specs.Prelude.{◌≡◌, ◌+◌, ◌*◌, ◌≤◌, ◌<◌};
ghost use Rattle.sm3_compress.specs.Rounds.{rounds_from};
ghost use Rattle.sm3_compress.specs.Standard.{T, FF, GG, P0, P1, at, words, recurrence, W, W', round, rounds, CF};

use std::array;
use words::{rotate_left, wrapping_add3, wrapping_add4};

const T_J_LOW: u32 = 0x79cc_4519;

const T_J_HIGH: u32 = 0x7a87_9d8a;

fn t(j: u32) -> u32
    ensures { result ≡ T j }
{
    if j < 16 { T_J_LOW } else { T_J_HIGH }
}

fn ff(j: u32, x: u32, y: u32, z: u32) -> u32
    ensures { result ≡ FF j x y z }
{
    if j < 16 {
        x ^ y ^ z
    } else {
        (x & y) | (x & z) | (y & z)
    }
}

fn gg(j: u32, x: u32, y: u32, z: u32) -> u32
    ensures { result ≡ GG j x y z }
{
    if j < 16 {
        x ^ y ^ z
    } else {
        (x & y) | (!x & z)
    }
}

// P0 and P1, each a line of the standard, by its own name.
fn p0(x: u32) -> u32
    ensures { result ≡ P0 x }
{
    x ^ rotate_left(x, 9) ^ rotate_left(x, 17)
}

fn p1(x: u32) -> u32
    ensures { result ≡ P1 x }
{
    x ^ rotate_left(x, 15) ^ rotate_left(x, 23)
}

// The words A to H after round j, with W_j and W'_j.
fn one_round(v: [u32; 8], j: u32, w: u32, wp: u32) -> [u32; 8]
    ensures { result ≡ round j v w wp }
{
    let [a, b, c, d, e, f, g, h] = v;
    let a12 = rotate_left(a, 12);
    let ss1 = rotate_left(wrapping_add3(a12, e, rotate_left(t(j), j)), 7);
    let ss2 = ss1 ^ a12;
    let tt1 = wrapping_add4(ff(j, a, b, c), d, ss2, wp);
    let tt2 = wrapping_add4(gg(j, e, f, g), h, ss1, w);
    let b9 = rotate_left(b, 9);
    let f19 = rotate_left(f, 19);
    let e_next = p0(tt2);
    [tt1, a, b9, c, e_next, e, f19, g]
}

// W_0 to W_15: the block's own words. By number here and in `primes`, as the standard has them.
fn load(block: &[u8; 64]) -> [u32; 16]
    ensures { result ≡ words block.now }
{
    let (quads, _) = block.as_chunks::<4>();
    array::from_fn(|i| big_endian::u32_from_be_bytes(quads[i]))
}

// W_j, of the words before it.
fn next(w: &[u32; 68], j: usize) -> u32
    requires { (16 ≤ j) × (j < 68) }
    ensures { result ≡ recurrence w.now j }
{
    p1(w[j - 16] ^ w[j - 9] ^ rotate_left(w[j - 3], 15)) ^ rotate_left(w[j - 13], 7) ^ w[j - 6]
}

// W_0 to W_67. j is counted by hand: each word is made of those before it in the same array, and no iterator lends them
// beside it.
fn expand(block: &[u8; 64]) -> [u32; 68]
    ensures { result ≡ W block.now }
{
    let mut w = [0u32; 68];
    w[..16].copy_from_slice(&load(block));
    for j in 16..68 {
        w[j] = next(&w, j);
    }
    w
}

// W'_0 to W'_63.
fn primes(w: &[u32; 68]) -> [u32; 64]
    ensures { result ≡ W' w.now }
{
    array::from_fn(|j| w[j] ^ w[j + 4])
}

// Round j, with its two words. W and W' stay two arrays, as in the standard's CF and in the definitions.
fn round_at(v: [u32; 8], j: usize, w: &[u32; 68], wp: &[u32; 64]) -> [u32; 8]
    requires { j < 64 }
    ensures { result ≡ round j v (at w.now j) (at wp.now j) }
{
    one_round(v, j as u32, w[j], wp[j])
}

// TURNS * 4 rounds, the first of them round FIRST; the number of a round is one of its operands. Behind four rounds
// each word is at its place again, and none has to be moved.
fn rounds_of_four<const FIRST: usize, const TURNS: usize>(
    state: [u32; 8],
    w: &[u32; 68],
    wp: &[u32; 64],
) -> [u32; 8]
    requires { FIRST + TURNS * 4 ≤ 64 }
    ensures { result ≡ rounds_from w.now wp.now FIRST (TURNS * 4) state }
{
    let mut v = state;
    for i in 0..TURNS {
        let j = i * 4 + FIRST;
        let v1 = round_at(v, j, w, wp);
        let v2 = round_at(v1, j + 1, w, wp);
        let v3 = round_at(v2, j + 2, w, wp);
        v = round_at(v3, j + 3, w, wp);
    }
    v
}

// All 64 rounds. The first 16 are apart from the others, since t, ff and gg change behind them.
fn all_rounds(state: [u32; 8], w: &[u32; 68], wp: &[u32; 64]) -> [u32; 8]
    ensures { result ≡ rounds w.now wp.now 64 state }
{
    let v = rounds_of_four::<0, 4>(state, w, wp);
    rounds_of_four::<16, 12>(v, w, wp)
}

// One block into the state.
pub fn compress(state: [u32; 8], block: [u8; 64]) -> [u32; 8]
    ensures { result ≡ CF state block }
{
    let w = expand(&block);
    let wp = primes(&w);
    let last = all_rounds(state, &w, &wp);
    words::xor_each(last, state)
}
