// HMAC-SM3, RFC 2104 over SM3: `hmac_sm3` and the running `HmacSm3` (new, update, finalize, verify), from the Rust's
// hmac.rs. A state goes by value and comes back; one whose inner or outer fill is above 63 is refused (answer 7).
// Lengths and fills are public; the key, the message and the digests are not branched on.
#![tactic(auto)]

ghost use Rattle.std.specs.Prelude.{◌≡◌, replicate};
ghost use Rattle.words.specs.Choice.{bit};
ghost use Rattle.words.specs.Lists.{xor_each, agree};
ghost use Rattle.sm3.specs.Cutting.{joined};
ghost use Rattle.sm3.specs.State.{fresh, taken, digest_by};
ghost use Rattle.hmac.specs.Cutting.{lent};
ghost use Rattle.hmac.specs.Rfc2104.{B, K'};
ghost use Rattle.hmac.specs.State.{hash_bytes, started, updated, finalized, verified, mac, keyed_of, verified_by};

use answers::Refusal;
use sm3::{BLOCK_SIZE, DIGEST_SIZE, Sm3};

pub const IPAD: u8 = 0x36;

pub const OPAD: u8 = 0x5c;

// A running MAC: the inner hash, with K' XOR ipad and the message so far, and the outer one, with K' XOR opad.
#[derive(Clone, Copy)]
pub struct HmacSm3 {
    pub inner: Sm3,
    pub outer: Sm3,
}

// The key in one block, zeros behind it; hashed first where it is longer.
fn k_prime(key: &[u8]) -> [u8; BLOCK_SIZE]
    ensures { result ≡ K' hash_bytes key.now }
{
    let mut k = [0u8; BLOCK_SIZE];
    if BLOCK_SIZE < key.len() {
        words::copy_at(&mut k, 0, &sm3::hash(key));
    } else {
        words::copy_at(&mut k, 0, key);
    }
    k
}

// Each byte of the block XOR pad.
pub fn xor_pad(block: [u8; BLOCK_SIZE], pad: u8) -> [u8; BLOCK_SIZE]
    ensures { result ≡ xor_each block (replicate B pad) }
{
    words::xor_each(block, [pad; BLOCK_SIZE])
}

// A fresh hash that has taken in a block.
fn with_block(block: [u8; BLOCK_SIZE]) -> Sm3
    ensures { result ≡ taken fresh block }
{
    Sm3::new().update(&block).unwrap()
}

// 1 where all 32 bytes agree, else 0: every byte is looked at, and their differences are gathered.
pub fn ct_eq(a: [u8; DIGEST_SIZE], b: [u8; DIGEST_SIZE]) -> u8
    ensures { result ≡ bit (agree a b) }
{
    let mut differ: u8 = 0;
    for bits in &words::xor_each(a, b) {
        differ |= bits;
    }
    masks::ct_eq(differ, 0)
}

impl HmacSm3 {
    // A MAC under a key of any length, nothing taken in yet.
    pub fn new(key: &[u8]) -> HmacSm3
        ensures { result ≡ (started key.now).mac }
    {
        let k = k_prime(key);
        HmacSm3 {
            inner: with_block(xor_pad(k, IPAD)),
            outer: with_block(xor_pad(k, OPAD)),
        }
    }

    // The state that has taken in data too; refused where either hash is out of range, and then the state stays as
    // given.
    pub fn update(self, data: &[u8]) -> Result<HmacSm3, Refusal>
        ensures { keyed_of self result ≡ updated self «data».now }
    {
        if BLOCK_SIZE <= self.outer.buffer_len {
            return Err(Refusal::BadState);
        }
        let inner = self.inner.update(data)?;
        Ok(HmacSm3 { inner, ..self })
    }

    // The MAC of all bytes so far; refused where either hash is out of range.
    pub fn finalize(self) -> Result<[u8; DIGEST_SIZE], Refusal>
        ensures { digest_by result ≡ finalized self }
    {
        if BLOCK_SIZE <= self.outer.buffer_len {
            return Err(Refusal::BadState);
        }
        let digest = self.inner.finalize()?;
        self.outer.update(&digest)?.finalize()
    }

    // Whether the MAC of all bytes so far is the expected one; refused where either hash is out of range.
    pub fn verify(self, expected: [u8; DIGEST_SIZE]) -> Result<bool, Refusal>
        ensures { verified_by result ≡ verified self expected }
    {
        let computed = self.finalize()?;
        Ok(ct_eq(computed, expected) == 1)
    }
}

// The MAC of a message in parts, which the running MAC takes one after the other: they are never joined.
pub fn hmac_sm3_parts(key: &[u8], parts: &[&[u8]]) -> [u8; DIGEST_SIZE]
    ensures { result ≡ (mac key.now (joined (lent parts.now))).bytes }
{
    let mut m = HmacSm3::new(key);
    for part in parts {
        m = m.update(part).unwrap();
    }
    m.finalize().unwrap()
}

// The MAC of a whole message.
pub fn hmac_sm3(key: &[u8], message: &[u8]) -> [u8; DIGEST_SIZE]
    ensures { result ≡ (mac key.now message.now).bytes }
{
    hmac_sm3_parts(key, &[message])
}
