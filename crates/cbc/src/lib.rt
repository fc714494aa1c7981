// The mode CBC over SM4, from the CBC part of the Rust's tlcp/record.rs: a body enciphered in place, and one block of a
// record deciphered. Lengths and block numbers are public; no branch and no index depends on a key or on what is
// enciphered or deciphered.
#![tactic(auto)]

ghost use Rattle.std.specs.Prelude.{◌≡◌, ◌+◌, ◌≤◌, length, take, drop};
ghost use Rattle.words.specs.Lists.{xor_each};
ghost use Rattle.cbc.specs.Promise.{Enciphered, Deciphered};

use sm4::Sm4Cipher;

// The 16 bytes of data from at on.
fn block_at(data: &[u8], at: usize) -> [u8; 16]
    requires { at + 16 ≤ length «data».now }
    ensures { result ≡ take 16 (drop at «data».now) }
{
    *data[at..].first_chunk().unwrap()
}

// Each byte of a with that of b: the call of words for bytes, so that the clauses here speak of `xor_each`.
fn xor_blocks(a: [u8; 16], b: [u8; 16]) -> [u8; 16]
    ensures { result ≡ xor_each a b }
{
    words::xor_each(a, b)
}

// The whole blocks of body enciphered in place; the last (length mod 16) bytes stay as found. By the number of the
// block: the library does not say what a slice ends as behind `chunks_exact_mut`.
pub fn encipher_cbc(cipher: Sm4Cipher, iv: [u8; 16], body: &mut [u8])
    ensures { Enciphered cipher iv body.old body.new }
{
    let m = body.len() / 16;
    let mut prev = iv;
    for k in 0..m {
        let at = k * 16;
        let plain = block_at(body, at);
        let next = cipher.encrypt_block(xor_blocks(prev, plain));
        words::copy_at(body, at, &next);
        prev = next;
    }
}

// Plain block k of record, whose first 16 bytes are the IV, laid into block k of out. Where record has no whole block
// k + 1 or out no whole block k, nothing changes.
pub fn decipher_block_cbc(cipher: Sm4Cipher, record: &[u8], k: usize, out: &mut [u8])
    ensures { Deciphered cipher «record».now k out.old out.new }
{
    // in this order, so that k + 1 can't wrap
    if k < out.len() / 16 && k + 1 < record.len() / 16 {
        let at = k * 16;
        let prev = block_at(record, at);
        let opened = cipher.decrypt_block(block_at(record, at + 16));
        words::copy_at(out, at, &xor_blocks(prev, opened));
    }
}
