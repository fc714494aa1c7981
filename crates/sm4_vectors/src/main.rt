// Runs SM4 on the examples of GB/T 32907-2016, annex A, and its mode CBC on bodies of some lengths and on block numbers
// in range and out of it, and writes what it answers, one line each. The file stdout has the values of the standard and
// of another implementation, which the script `expected` gathers and names.
#![tactic(auto)]

use cbc_lines::both_cbc;
use programs::{Hex, spread};
use sm4::Sm4Cipher;
use std::io;

// GB/T 32907-2016, annex A, both examples: one block, and a block enciphered 1,000,000 times over.
fn annex_a(rt: &impl Print) -> io::Result<()> {
    let key = 0x0123456789abcdeffedcba9876543210u128.to_be_bytes();
    let cipher = Sm4Cipher::new(key);
    let once = cipher.encrypt_block(key);
    println!(rt; "A.1-encrypt {}", Hex(&once))?;
    println!(rt; "A.1-decrypt {}", Hex(&cipher.decrypt_block(once)))?;
    let mut many = key;
    for _ in 0..1000000 {
        many = cipher.encrypt_block(many);
    }
    println!(rt; "A.2 {}", Hex(&many))
}

// The cipher of what follows.
fn cipher() -> Sm4Cipher {
    let mut key = [0u8; 16];
    spread(11, 5, &mut key);
    Sm4Cipher::new(key)
}

// A body of the pattern's first n bytes.
fn body(rt: &impl Print, name: &[u8], n: u8) -> io::Result<()> {
    let mut iv = [0u8; 16];
    spread(13, 1, &mut iv);
    let mut m = [0u8; 256];
    spread(7, 3, &mut m);
    both_cbc(rt, name, cipher(), iv, &m[..usize::from(n)])
}

// A line: all of an output of room bytes after block k of a record of size bytes is asked for. Where there is no such
// block, nothing changes.
fn block(rt: &impl Print, size: u8, room: u8, k: usize) -> io::Result<()> {
    let mut m = [0u8; 256];
    spread(7, 3, &mut m);
    let mut held = [0xeeu8; 256];
    let record = &m[..usize::from(size)];
    let out = &mut held[..usize::from(room)];
    cbc::decipher_block_cbc(cipher(), record, k, out);
    println!(rt; "block-{size}-{room}-{k} {}", Hex(out))
}

fn main(rt: HostRuntime) -> io::Result<()> {
    annex_a(&rt)?;
    let bodies: [(&[u8], u8); 7] = [
        (b"body-16", 16),
        (b"body-32", 32),
        (b"body-48", 48),
        (b"body-64", 64),
        (b"body-128", 128),
        (b"body-53", 53),
        (b"body-15", 15),
    ];
    for (name, n) in bodies {
        body(&rt, name, n)?;
    }
    for (size, room, k) in [
        (48, 32, 1),
        (48, 32, 2),
        (47, 32, 1),
        (48, 31, 1),
        (64, 32, 2),
        (32, 64, 1),
        (16, 16, 0),
        (0, 16, 0),
        // the highest number, and those about 2^60, whose place is byte 2^64
        (128, 64, usize::MAX),
        (128, 64, 1152921504606846976),
        (128, 64, 1152921504606846975),
    ] {
        block(&rt, size, room, k)?;
    }
    Ok(())
}
