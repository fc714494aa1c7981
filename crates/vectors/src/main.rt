// Runs the hash on published vectors and on states, and writes what it answers, one line each. The file stdout has the
// values of other implementations, which the script `expected` gathers and names.
#![tactic(auto)]

use answers::number_of;
use programs::{Hex, State, odd, spread};
use sm3::Sm3;
use std::io;

// A line: the digest of a message, behind its name.
fn digest(rt: &impl Print, name: &str, message: &[u8]) -> io::Result<()> {
    println!(rt; "{name} {}", Hex(&sm3::hash(message)))
}

// The digest of the pattern's first n bytes.
fn bytes(rt: &impl Print, n: u8) -> io::Result<()> {
    let mut m = [0u8; 256];
    spread(7, 3, &mut m);
    println!(rt; "bytes-{n} {}", Hex(&sm3::hash(&m[..usize::from(n)])))
}

// The state after an update of each size, with the pattern's bytes in turn: byte i + 256 is byte i.
fn cut(rt: &impl Print, sizes: &[u8]) -> io::Result<()> {
    let mut m = [0u8; 512];
    spread(7, 3, &mut m);
    let mut h = Sm3::new();
    let mut at = 0u8;
    print!(rt; "state")?;
    for &size in sizes {
        print!(rt; "-{size}")?;
        let start = usize::from(at);
        h = h.update(&m[start..start + usize::from(size)]).unwrap_or(h);
        at = at.wrapping_add(size);
    }
    println!(rt; " {}", State(h))
}

// A million times the letter a, in updates of 1,000 bytes.
fn million(rt: &impl Print) -> io::Result<()> {
    let mut h = Sm3::new();
    for _ in 0..1000 {
        h = h.update(&[b'a'; 1000]).unwrap_or(h);
    }
    println!(rt; "million {}", Hex(&h.finalize().unwrap_or([0; 32])))
}

// An update and a digest of a state that no message leads to, as the calls of C have them: a refused update leaves the
// lent state as given, and a refused digest is zeros, whatever stood there.
fn update_and_finish(rt: &impl Print, fill: usize, total: u64) -> io::Result<()> {
    let h = odd(fill, total);
    let mut part = [0u8; 10];
    spread(7, 195, &mut part);
    let mut after = h;
    let taken = sm3_lent::update(&mut after, &part);
    println!(rt;
        "update-{fill}-{total} {} {}",
        number_of(taken),
        State(after)
    )?;
    let mut digest = [0xeeu8; 32];
    let finished = sm3_lent::finish(&h, &mut digest);
    println!(rt;
        "finalize-{fill}-{total} {} {}",
        number_of(finished),
        Hex(&digest)
    )
}

fn main(rt: HostRuntime) -> io::Result<()> {
    digest(&rt, "A.1", b"abc")?;
    digest(
        &rt,
        "A.2",
        b"abcdabcdabcdabcdabcdabcdabcdabcdabcdabcdabcdabcdabcdabcdabcdabcd",
    )?;
    digest(&rt, "empty", b"")?;
    for n in [55, 56, 63, 64, 65, 119, 120, 128] {
        bytes(&rt, n)?;
    }
    million(&rt)?;
    let cuts: [&[u8]; 11] = [
        &[64],
        &[1, 63],
        &[63, 1],
        &[3, 61, 64],
        &[10, 54, 100],
        &[64, 64],
        &[1, 127],
        &[130],
        &[0],
        &[55, 1, 8],
        &[20, 20, 20, 20],
    ];
    for sizes in cuts {
        cut(&rt, sizes)?;
    }
    for (fill, total) in [(64, 64), (usize::MAX, 5), (5, u64::MAX - 2), (60, 7)] {
        update_and_finish(&rt, fill, total)?;
    }
    Ok(())
}
