// The block cipher SM4, GB/T 32907-2016: `Sm4Cipher` (new, encrypt_block, decrypt_block), the byte-table path of the
// Rust's sm4/cipher.rs. Key, round keys and block are secret: no branch and no index depends on them. The number of a
// round and the direction are public.
#![tactic(auto)]

ghost use Rattle.std.specs.Prelude.{[], ◌∷◌, ◌≡◌, ℕ};
ghost use Rattle.words.specs.Word.{◌⊕◌};
ghost use Rattle.sm4_sbox.specs.Standard.{Sbox};
ghost use Rattle.sm4.specs.Standard.{
  tau,
  L,
  L',
  moved,
  words_of,
  bytes_of,
  encrypt,
  decrypt,
  key_start,
  keys_from,
  cipher_of,
};

use masks::{ct_eq, select};
use sm4_sbox::{COUNT, S_BOX};
use words::rotate_left;

pub const BLOCK_SIZE: usize = 16;

pub const KEY_SIZE: usize = 16;

// The system parameter FK, section 7.3.
pub const FK: [u32; 4] = [0xa3b1_bac6, 0x56aa_3350, 0x677d_9197, 0xb270_22dc];

// The fixed parameter CK, section 7.3: byte j of CK_i is (4 i + j) * 7 modulo 256.
pub const CK: [u32; 32] = [
    0x0007_0e15,
    0x1c23_2a31,
    0x383f_464d,
    0x545b_6269,
    0x7077_7e85,
    0x8c93_9aa1,
    0xa8af_b6bd,
    0xc4cb_d2d9,
    0xe0e7_eef5,
    0xfc03_0a11,
    0x181f_262d,
    0x343b_4249,
    0x5057_5e65,
    0x6c73_7a81,
    0x888f_969d,
    0xa4ab_b2b9,
    0xc0c7_ced5,
    0xdce3_eaf1,
    0xf8ff_060d,
    0x141b_2229,
    0x3037_3e45,
    0x4c53_5a61,
    0x686f_767d,
    0x848b_9299,
    0xa0a7_aeb5,
    0xbcc3_cad1,
    0xd8df_e6ed,
    0xf4fb_0209,
    0x1017_1e25,
    0x2c33_3a41,
    0x484f_565d,
    0x646b_7279,
];

// A cipher under one key: its 32 round keys.
#[derive(Clone, Copy)]
pub struct Sm4Cipher {
    pub round_keys: [u32; 32],
}

// Four words in a row of the sequence X of a block, or K of a key.
#[derive(Clone, Copy)]
pub struct Quad {
    pub x0: u32,
    pub x1: u32,
    pub x2: u32,
    pub x3: u32,
}

// The S-box at a, b, c, d: `sbox_ct` four times in one pass over the whole table, so that each entry is read once for
// the four. The places are read off COUNT. The bytes come one by one: with [u8; 4] in their place there was a byte swap
// more in each round on x86-64, and CBC made 14.3 to 14.7 MB/s, not 15.0.
fn select4(a: u8, b: u8, c: u8, d: u8) -> [u8; 4]
    ensures { result ≡ Sbox a ∷ Sbox b ∷ Sbox c ∷ Sbox d ∷ [] }
{
    let [mut ra, mut rb, mut rc, mut rd] = [0u8; 4];
    for (entry, place) in S_BOX.iter().zip(&COUNT) {
        ra += select(0, *entry, ct_eq(*place, a));
        rb += select(0, *entry, ct_eq(*place, b));
        rc += select(0, *entry, ct_eq(*place, c));
        rd += select(0, *entry, ct_eq(*place, d));
    }
    [ra, rb, rc, rd]
}

// The S-box at each byte of a.
fn tau(a: u32) -> u32
    ensures { result ≡ tau a }
{
    let [a0, a1, a2, a3] = big_endian::u32_to_be_bytes(a);
    big_endian::u32_from_be_bytes(select4(a0, a1, a2, a3))
}

fn l_round(b: u32) -> u32
    ensures { result ≡ L b }
{
    b ^ rotate_left(b, 2) ^ rotate_left(b, 10) ^ rotate_left(b, 18) ^ rotate_left(b, 24)
}

fn l_prime(b: u32) -> u32
    ensures { result ≡ L' b }
{
    b ^ rotate_left(b, 13) ^ rotate_left(b, 23)
}

// The four words of a block or a key.
fn load(b: [u8; 16]) -> Quad
    ensures { result ≡ words_of b }
{
    let (words, _) = b.as_chunks::<4>();
    Quad {
        x0: big_endian::u32_from_be_bytes(words[0]),
        x1: big_endian::u32_from_be_bytes(words[1]),
        x2: big_endian::u32_from_be_bytes(words[2]),
        x3: big_endian::u32_from_be_bytes(words[3]),
    }
}

// The bytes of four words, written out: the library does not say what an array ends as behind `as_chunks_mut`.
fn store(q: Quad) -> [u8; 16]
    ensures { result ≡ bytes_of q }
{
    let a = big_endian::u32_to_be_bytes(q.x0);
    let b = big_endian::u32_to_be_bytes(q.x1);
    let c = big_endian::u32_to_be_bytes(q.x2);
    let d = big_endian::u32_to_be_bytes(q.x3);
    [
        a[0], a[1], a[2], a[3], b[0], b[1], b[2], b[3], c[0], c[1], c[2], c[3], d[0], d[1], d[2],
        d[3],
    ]
}

// One round, on a block by L or on a key by L'.
fn round<F: Fn(u32) -> u32>(x: Quad, k: u32, linear: F) -> Quad
    requires { F.IsAlwaysCallable linear }
    ensures { (y : ℕ) × F.post linear (tau (x.x1 ⊕ x.x2 ⊕ x.x3 ⊕ k)) y
        × (result ≡ moved x (x.x0 ⊕ y)) }
{
    Quad {
        x0: x.x1,
        x1: x.x2,
        x2: x.x3,
        x3: x.x0 ^ linear(tau(x.x1 ^ x.x2 ^ x.x3 ^ k)),
    }
}

// K_0 to K_3.
fn key_start(key: [u8; 16]) -> Quad
    ensures { result ≡ key_start key }
{
    let mk = load(key);
    Quad {
        x0: mk.x0 ^ FK[0],
        x1: mk.x1 ^ FK[1],
        x2: mk.x2 ^ FK[2],
        x3: mk.x3 ^ FK[3],
    }
}

// The 32 round keys, from K_0 to K_3: each takes the place of the CK that it is made with.
fn expand(start: Quad) -> [u32; 32]
    ensures { result ≡ keys_from start 0 32 }
{
    let mut k = start;
    let mut keys = CK;
    for key in keys.iter_mut() {
        k = round(k, *key, l_prime);
        *key = k.x3;
    }
    keys
}

impl Sm4Cipher {
    // The cipher under a key, by the key expansion.
    pub fn new(key: [u8; KEY_SIZE]) -> Sm4Cipher
        ensures { result ≡ cipher_of key }
    {
        Sm4Cipher {
            round_keys: expand(key_start(key)),
        }
    }

    // The 32 rounds on a block.
    pub fn encrypt_block(self, block: [u8; BLOCK_SIZE]) -> [u8; BLOCK_SIZE]
        ensures { result ≡ encrypt self.round_keys block }
    {
        let mut x = load(block);
        for rk in self.round_keys.iter() {
            x = round(x, *rk, l_round);
        }
        store(Quad {
            x0: x.x3,
            x1: x.x2,
            x2: x.x1,
            x3: x.x0,
        })
    }

    // The same with the round keys from the last to the first.
    pub fn decrypt_block(self, block: [u8; BLOCK_SIZE]) -> [u8; BLOCK_SIZE]
        ensures { result ≡ decrypt self.round_keys block }
    {
        let mut reversed = self;
        reversed.round_keys.reverse();
        reversed.encrypt_block(block)
    }
}
