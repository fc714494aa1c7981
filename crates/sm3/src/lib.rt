// The hash function SM3, GB/T 32905-2016: the running hash `Sm3` (new, update, finalize) and `hash`, from the Rust's
// sm3.rs. A state goes by value and comes back; a state whose fill is above 63 is refused (answer 7). Lengths and
// the fill are public, and only they are branched on.
#![tactic(auto)]

ghost use Rattle.std.specs.Prelude.{◌≡◌, ◌+◌, ◌-◌, ◌<◌, ◌≤◌, ◌∷◌, ◌++◌, length, take, drop, replicate};
ghost use Rattle.sm3.specs.Standard.{bytes_of, iteration, count};
ghost use Rattle.sm3.specs.State.{fresh, absorbed, pending, base, taken, updated, finalized, hashed, update_of, digest_by};

use answers::Refusal;
use sm3_compress::compress;

// The eight starting words, section 4.1.
pub const IV: [u32; 8] = [
    0x7380_166f,
    0x4914_b2b9,
    0x1724_42d7,
    0xda8a_0600,
    0xa96f_30bc,
    0x1631_38aa,
    0xe38d_ee4d,
    0xb0fb_0e4e,
];

pub const DIGEST_SIZE: usize = 32;

pub const BLOCK_SIZE: usize = 64;

// A running hash: the words after the whole blocks, the buffer with the bytes since, how many of its bytes those are,
// and the count of all bytes, modulo 2^64. The fields are C's, a fill beside its buffer among them, and any value may
// stand in them: so that the fill is below 64 is asked for where a call leads to it, since a type that has it would
// hold all four fields again.
#[repr(C)]
#[derive(Clone, Copy)]
pub struct Sm3 {
    pub state: [u32; 8],
    pub buffer: [u8; 64],
    pub buffer_len: usize,
    pub total_len: u64,
}

// The words after the whole blocks of data.
fn blocks(state: [u32; 8], data: &[u8]) -> [u32; 8]
    ensures { result ≡ iteration state «data».now }
{
    let (whole, _) = data.as_chunks::<BLOCK_SIZE>();
    let mut v = state;
    for block in whole {
        let next = compress(v, *block);
        v = next;
    }
    v
}

// data where no byte waits: whole blocks straight out of it, and the rest over the front of the buffer.
fn absorb(state: [u32; 8], buffer: [u8; 64], total: u64, data: &[u8]) -> Sm3
    ensures { result ≡ absorbed state buffer total «data».now }
{
    let (_, rest) = data.as_chunks::<BLOCK_SIZE>();
    let mut kept = buffer;
    words::copy_at(&mut kept, 0, rest);
    Sm3 {
        state: blocks(state, data),
        buffer: kept,
        buffer_len: rest.len(),
        total_len: total,
    }
}

// data where bytes wait in the buffer: laid behind them, and where that completes a block, the block through and then
// the rest.
fn absorb_behind(h: Sm3, total: u64, data: &[u8]) -> Sm3
    requires { (0 < h.buffer_len) × (h.buffer_len < 64) }
    ensures { result ≡ absorbed h.state (base h (pending h «data».now)) total (pending h «data».now) }
{
    let fill = h.buffer_len;
    let state = h.state;
    let mut buffer = h.buffer;
    let need = BLOCK_SIZE - fill;
    if data.len() < need {
        words::copy_at(&mut buffer, fill, data);
        return Sm3 {
            state,
            buffer,
            buffer_len: fill + data.len(),
            total_len: total,
        };
    }
    words::copy_at(&mut buffer, fill, &data[..need]);
    let next = compress(state, buffer);
    absorb(next, buffer, total, &data[need..])
}

// The first fill bytes of the buffer, the ending's 0x80, and zeros.
fn mark(buffer: [u8; 64], fill: usize) -> [u8; 64]
    requires { fill < 64 }
    ensures { result ≡ take fill buffer ++ (0x80 ∷ replicate (63 - fill) 0) }
{
    let mut block = buffer;
    block[fill] = 0x80;
    words::fill_at(&mut block, fill + 1, 64, 0);
    block
}

// The block with the bit count of total bytes, modulo 2^64, in its last 8 bytes.
fn put_count(block: [u8; 64], total: u64) -> [u8; 64]
    ensures { result ≡ take 56 block ++ count total }
{
    let mut last = block;
    let bytes = big_endian::u64_to_be_bytes(total << 3);
    words::copy_at(&mut last, 56, &bytes);
    last
}

// The words' bytes, each word's highest first. By the word's number: the library does not say what `chunks_exact_mut`
// leaves.
pub fn digest_of(v: [u32; 8]) -> [u8; DIGEST_SIZE]
    ensures { result ≡ bytes_of v }
{
    let mut out = [0u8; DIGEST_SIZE];
    for (i, word) in v.iter().enumerate() {
        words::copy_at(&mut out, i * 4, &big_endian::u32_to_be_bytes(*word));
    }
    out
}

impl Sm3 {
    pub fn new() -> Sm3
        ensures { result ≡ fresh }
    {
        let buffer = [0u8; 64];
        Sm3 {
            state: IV,
            buffer,
            buffer_len: 0,
            total_len: 0,
        }
    }

    // The state with data taken in, where its fill is below 64.
    fn take_in(self, data: &[u8]) -> Sm3
        requires { self.buffer_len < 64 }
        ensures { result ≡ taken self «data».now }
    {
        let total = self.total_len.wrapping_add(data.len() as u64);
        if self.buffer_len == 0 {
            absorb(self.state, self.buffer, total, data)
        } else {
            absorb_behind(self, total, data)
        }
    }

    // The digest of all bytes so far, where the fill is below 64.
    fn digest(self) -> [u8; DIGEST_SIZE]
        requires { self.buffer_len < 64 }
        ensures { result ≡ (finalized self).bytes }
    {
        let block = mark(self.buffer, self.buffer_len);
        if self.buffer_len < 56 {
            return digest_of(compress(self.state, put_count(block, self.total_len)));
        }
        // no room for the count: a block of zeros carries it
        let next = compress(self.state, block);
        digest_of(compress(next, put_count([0; 64], self.total_len)))
    }

    // The state that has taken in data too; refused where the fill is above 63, and then the state stays as given.
    #[tactic(auto, unfolding(crate::specs::State::updated))]
    pub fn update(self, data: &[u8]) -> Result<Sm3, Refusal>
        ensures { update_of self result ≡ updated self «data».now }
    {
        if BLOCK_SIZE <= self.buffer_len {
            return Err(Refusal::BadState);
        }
        Ok(self.take_in(data))
    }

    // The digest of all bytes so far; refused where the fill is above 63.
    #[tactic(auto, unfolding(crate::specs::State::finalized), using(crate::proofs::Ending::digest_done))]
    pub fn finalize(self) -> Result<[u8; DIGEST_SIZE], Refusal>
        ensures { digest_by result ≡ finalized self }
    {
        if BLOCK_SIZE <= self.buffer_len {
            return Err(Refusal::BadState);
        }
        Ok(self.digest())
    }
}

// The digest of a whole message.
pub fn hash(message: &[u8]) -> [u8; DIGEST_SIZE]
    ensures { result ≡ (hashed message.now).bytes }
{
    Sm3::new().take_in(message).digest()
}
