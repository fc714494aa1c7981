// The record's MAC in blocks, from the parts of mac_ct in the Rust's tlcp/record.rs: the same work for every text
// length up to a public bound. The number of bytes lent and the block's number are public; the text's length, the
// header, which ends in it, and the text's bytes are not, so every byte of a block is selected by masks or read at a
// public place, and the words are kept by a mask.
#![tactic(auto)]

ghost use Rattle.std.specs.Prelude.{cond, [], ◌∷◌, ◌++◌, ◌≡◌, ◌+◌, ◌%◌, ◌<◌, ◌^◌, eqb, get_or, take, replicate};
ghost use Rattle.words.specs.Choice.{bit};
ghost use Rattle.words.specs.Lists.{xor_each};
ghost use Rattle.sm3_compress.specs.Standard.{CF};
ghost use Rattle.sm3.specs.Standard.{IV, count, SM3};
ghost use Rattle.hmac.specs.Rfc2104.{K'};
ghost use Rattle.mac_blocks.specs.Schedule.{byte_at, count_in, schedule, final, inner_key, inner_block, outer_key, outer_digest};

use hmac::{IPAD, OPAD};
use masks::select;
use sm3::BLOCK_SIZE;
use sm3_compress::compress;
use std::marker::Model;

// As long as a header of record; said here again, since no crate below this one has it.
const HEADER_LEN: usize = 13;

// The chaining words, and the inner hash once the final block is past.
#[derive(Clone, Copy)]
pub struct MacWords {
    pub words: [u32; 8],
    pub kept: [u32; 8],
}

// The words after the block of the MAC key, zeros behind it, each byte XOR pad.
fn key_words(mac_key: [u8; 32], pad: u8) -> [u32; 8]
    ensures { result ≡ CF IV (xor_each (K' SM3 mac_key) (replicate 64 pad)) }
{
    let mut key = [0u8; BLOCK_SIZE];
    key[..mac_key.len()].copy_from_slice(&mac_key);
    compress(sm3::IV, hmac::xor_pad(key, pad))
}

// The words after the block of the MAC key XOR 0x36.
pub fn inner_key(mac_key: [u8; 32]) -> [u32; 8]
    ensures { result ≡ inner_key mac_key }
{
    key_words(mac_key, IPAD)
}

// The number of bits of total bytes, modulo 2^64, in 8 bytes.
fn count_of(total: usize) -> [u8; 8]
    ensures { result ≡ count total }
{
    big_endian::u64_to_be_bytes((total as u64) << 3)
}

// Byte p of header and data, zero behind them: p and the lengths are public.
fn candidate(header: &[u8; 13], data: &[u8], p: usize) -> u8
    ensures { result ≡ get_or (header.now ++ «data».now) p 0 }
{
    if p < HEADER_LEN {
        header[p]
    } else {
        data.get(p - HEADER_LEN).copied().unwrap_or(0)
    }
}

// What is authenticated: the header, and behind it the text, the first held bytes of data. How many bytes are lent is
// public.
#[derive(Drop)]
struct Message<'a> {
    header: [u8; 13],
    data: &'a [u8],
    held: usize,
}

impl<'a> Model for Message<'a> {
    ghost use Rattle.std.specs.Prelude.{List, ℕ, ◌++◌, ◌≤◌, length, take};

    ghost Value = { List ℕ };

    ghost view = { λ m. m.header ++ take m.held m.«data».now };

    ghost invariant = { λ m. m.held ≤ length m.«data».now };
}

impl<'a> Message<'a> {
    // The text's length, at most that of what is lent: by a mask, since it is secret.
    fn new(header: [u8; 13], data: &'a [u8], plaintext_len: usize) -> Self
        ensures { result ≡ header ++ take plaintext_len «data».now }
    {
        let lent = data.len();
        let longer = masks::ct_lt_usize(lent, plaintext_len);
        let held = masks::select(plaintext_len, lent, longer);
        Message { header, data, held }
    }

    // 1 where block b is the final one, which has room for the count behind the text and 0x80; else 0. The block's
    // number is made by a shift, since held is secret, and no comparison tells it, since `keep` chooses eight words by
    // it.
    fn is_final(&self, b: usize) -> u8
        ensures { result ≡ bit (eqb b (final self.now)) }
    {
        masks::ct_is_zero_usize(b ^ ((HEADER_LEN + self.held + 8) >> 6))
    }

    // Byte p of header, text and 0x80, zero behind them: the text ends at held, by masks.
    fn marked_byte(&self, p: usize) -> u8
        ensures { result ≡ get_or (self.now ++ (0x80 ∷ [])) p 0 }
    {
        let end = HEADER_LEN + self.held;
        let in_text = masks::ct_lt_usize(p, end);
        let text = masks::select(0, candidate(&self.header, self.data, p), in_text);
        masks::select(text, 0x80, masks::ct_eq(p, end))
    }

    // The count of all bytes where block b is the final one, else zeros. It is chosen once for a block: a choice inside
    // the loop over a block's bytes, where it never changes, would be taken out of the loop by the compiler, as a
    // branch.
    fn count_in(&self, b: usize) -> [u8; 8]
        ensures { result ≡ count_in self.now b }
    {
        // the key's block is counted too
        let total = BLOCK_SIZE + HEADER_LEN + self.held;
        count_of(masks::select(0, total, self.is_final(b)))
    }

    // Byte i of block b, which has this count in it or zeros: no byte of text or 0x80 stands where a count does.
    fn byte_at(&self, counted: &[u8; 8], b: usize, i: usize) -> u8
        requires { (b < 2 ^ 58) × (i < 64) × (counted.now ≡ count_in self.now b) }
        ensures { result ≡ byte_at self.now b i }
    {
        let byte = self.marked_byte(b * BLOCK_SIZE + i);
        // public
        if i < BLOCK_SIZE - 8 {
            return byte;
        }
        byte ^ counted[i - (BLOCK_SIZE - 8)]
    }

    // Block b of header and text with their ending: 64 bytes, each selected by masks.
    fn block(&self, b: usize) -> [u8; 64]
        ensures { result ≡ schedule self.now b }
    {
        let mut block = [0u8; BLOCK_SIZE];
        // public: behind the last block that any text of data can have, all is zero
        if self.data.len() / BLOCK_SIZE + 1 < b {
            return block;
        }
        let counted = self.count_in(b);
        for (i, byte) in block.iter_mut().enumerate() {
            *byte = self.byte_at(&counted, b, i);
        }
        block
    }
}

// words where the lowest bit of choice is 1, else kept: all eight by one mask. By the place, since nothing is known of
// what a zip with `iter_mut` leaves. `copy_where` of verdict does so with bytes: one function for both would lend
// across crates, with a promise, a law and wrong programs of its own, for a loop of one line.
fn keep(kept: &mut [u32; 8], words: &[u32; 8], choice: u8)
    ensures { kept.new ≡ cond (eqb (choice % 2) 1) words.now kept.old }
{
    for (i, word) in kept.iter_mut().enumerate() {
        *word = select(*word, words[i], choice);
    }
}

// One block more of header and text, where the text is the first plaintext_len bytes of data. The words are kept where
// the block is the final one.
pub fn inner_block(
    so_far: MacWords,
    header: [u8; 13],
    data: &[u8],
    plaintext_len: usize,
    b: usize,
) -> MacWords
    ensures { result ≡ inner_block so_far (header ++ take plaintext_len «data».now) b }
{
    let message = Message::new(header, data, plaintext_len);
    let words = compress(so_far.words, message.block(b));
    let mut kept = so_far.kept;
    keep(&mut kept, &words, message.is_final(b));
    MacWords { words, kept }
}

// The words after the block of the MAC key XOR 0x5c.
pub fn outer_key(mac_key: [u8; 32]) -> [u32; 8]
    ensures { result ≡ outer_key mac_key }
{
    key_words(mac_key, OPAD)
}

// The words after the inner digest with its ending, which fill one block.
pub fn outer_digest(words: [u32; 8], kept: [u32; 8]) -> [u32; 8]
    ensures { result ≡ outer_digest words kept }
{
    let mut block = [0u8; BLOCK_SIZE];
    block[..sm3::DIGEST_SIZE].copy_from_slice(&sm3::digest_of(kept));
    block[sm3::DIGEST_SIZE] = 0x80;
    block[BLOCK_SIZE - 8..].copy_from_slice(&count_of(BLOCK_SIZE + sm3::DIGEST_SIZE));
    compress(words, block)
}
