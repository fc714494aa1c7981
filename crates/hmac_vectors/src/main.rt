// Runs HMAC-SM3 on published vectors, on lengths about the end of a block and on states, and writes what it answers,
// one line each. The file stdout has the values of other implementations, which the script `expected` gathers and
// names.
#![tactic(auto)]

use answers::{Refusal, number_of};
use hmac::HmacSm3;
use programs::{Hex, State, odd, spread};
use std::{fmt, io};

// What `verify` says of a MAC, as a line has it: a refusal is its number and no.
#[derive(Clone, Copy)]
struct Verdict(Result<bool, Refusal>);

impl fmt::Display for Verdict {
    fn fmt<W: fmt::Write>(&self, f: &mut fmt::Formatter<W>) -> fmt::Result {
        let word = if self.0.unwrap_or(false) { "yes" } else { "no" };
        write!(f, "{} {word}", number_of(self.0))
    }
}

// Four from the documentation of the Rust, and four of GM/T 0042-2015, D.3.
fn published(rt: &impl Print) -> io::Result<()> {
    let mut counted = [0u8; 37];
    spread(1, 1, &mut counted);
    let cases: [(&str, &[u8], &[u8]); 8] = [
        ("rust-1", &[0x0b; 20], b"Hi There"),
        ("rust-2", b"Jefe", b"what do ya want for nothing?"),
        (
            "rust-3",
            &[0xaa; 131],
            b"Test Using Larger Than Block-Size Key - Hash Key First",
        ),
        ("rust-4", b"", b""),
        (
            "D.3-1",
            &counted[..32],
            b"abcdbcdecdefdefgefghfghighijhijkijkljklmklmnlmnomnopnopqabcdbcdecdefdefgefghfghighijhijkijkljklmklmnlmnomnopnopq",
        ),
        ("D.3-2", &counted, &[0xcd; 50]),
        ("D.3-3", &[0x0b; 32], b"Hi There"),
        ("D.3-4", b"Jefe", b"what do ya want for nothing?"),
    ];
    for (name, key, message) in cases {
        println!(rt; "{name} {}", Hex(&hmac::hmac_sm3(key, message)))?;
    }
    Ok(())
}

// A MAC in one call, and in two updates cut in the middle.
fn both(rt: &impl Print, key: &[u8], message: &[u8]) -> io::Result<()> {
    let (k, n) = (key.len(), message.len());
    println!(rt; "whole-{k}-{n} {}", Hex(&hmac::hmac_sm3(key, message)))?;
    let (first, second) = message.split_at(n / 2);
    let mut mac = HmacSm3::new(key);
    for part in [first, second] {
        mac = mac.update(part).unwrap_or(mac);
    }
    println!(rt; "cut-{k}-{n} {}", Hex(&mac.finalize().unwrap_or([0; 32])))
}

// The first bytes of one pattern as a key, and those of another as a message.
fn lengths(rt: &impl Print) -> io::Result<()> {
    let mut key = [0u8; 256];
    let mut m = [0u8; 256];
    spread(11, 5, &mut key);
    spread(7, 3, &mut m);
    for k in [0u8, 1, 63, 64, 65, 131] {
        for n in [0u8, 54, 55, 56, 63, 64, 65, 119, 120] {
            both(rt, &key[..usize::from(k)], &m[..usize::from(n)])?;
        }
    }
    Ok(())
}

// The MAC of D.3-4 as it is published, with the bits of flip changed in byte at.
fn verified(rt: &impl Print, at: usize, flip: u8) -> io::Result<()> {
    let mut mac =
        *b"\x2e\x87\xf1\xd1\x68\x62\xe6\xd9\x64\xb5\x0a\x52\x00\xbf\x2b\x10\xb7\x64\xfa\xa9\x68\x0a\x29\x6a\x24\x05\xf2\x4b\xec\x39\xf8\x82";
    if let Some(byte) = mac.get_mut(at) {
        *byte ^= flip;
    }
    let m = HmacSm3::new(b"Jefe").update(b"what do ya want for nothing?");
    println!(rt;
        "verify-{at}-{flip} {}",
        Verdict(m.and_then(|m| m.verify(mac)))
    )
}

// An update, a digest and a verdict of a state that is refused. Behind its number an update has the state as given, a
// digest zeros. The MAC to verify is those zeros.
fn refused(rt: &impl Print, inner: usize, outer: usize) -> io::Result<()> {
    let m = HmacSm3 {
        inner: odd(inner, 64),
        outer: odd(outer, 64),
    };
    let u = m.update(b"Hi There");
    let after = u.unwrap_or(m);
    println!(rt;
        "update-{inner}-{outer} {} {} {}",
        number_of(u),
        State(after.inner),
        State(after.outer)
    )?;
    let d = m.finalize();
    println!(rt;
        "finalize-{inner}-{outer} {} {}",
        number_of(d),
        Hex(&d.unwrap_or([0; 32]))
    )?;
    println!(rt; "refused-{inner}-{outer} {}", Verdict(m.verify([0; 32])))
}

fn main(rt: HostRuntime) -> io::Result<()> {
    published(&rt)?;
    lengths(&rt)?;
    for (at, flip) in [
        (0, 0),
        (0, 1),
        (16, 1),
        (31, 1),
        (0, 128),
        (16, 128),
        (31, 128),
    ] {
        verified(&rt, at, flip)?;
    }
    for (inner, outer) in [(64, 0), (0, 64), (64, 64), (usize::MAX, 63)] {
        refused(&rt, inner, outer)?;
    }
    Ok(())
}
