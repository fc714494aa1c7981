// What the programs of vectors share: printing, bytes made by a rule, and states that no message leads to. No part of
// the library. What is printed is no part of a contract, since none can say what is written to a file: the gate
// compares each program's output with its file stdout.
// A program keeps what it makes in arrays of a fixed size, and slices of them: it takes no heap.
#![tactic(auto)]

ghost use Rattle.std.specs.Prelude.{◌≡◌};
ghost use Rattle.programs.specs.Odd.{odd};
ghost use Rattle.programs.specs.Promise.{Spread};

use sm3::Sm3;
use std::fmt;

// Bytes as a line has them: in hexadecimal.
#[derive(Clone, Copy)]
pub struct Hex<'a>(pub &'a [u8]);

impl fmt::Display for Hex<'_> {
    fn fmt<W: fmt::Write>(&self, f: &mut fmt::Formatter<W>) -> fmt::Result {
        for byte in self.0 {
            write!(f, "{byte:02x}")?;
        }
        Ok(())
    }
}

// A running hash as a line has it: the words, the buffer, the fill and the total.
#[derive(Clone, Copy)]
pub struct State(pub Sm3);

impl fmt::Display for State {
    fn fmt<W: fmt::Write>(&self, f: &mut fmt::Formatter<W>) -> fmt::Result {
        let h = self.0;
        let words = sm3::digest_of(h.state);
        write!(
            f,
            "{} {} {} {}",
            Hex(&words),
            Hex(&h.buffer),
            h.buffer_len,
            h.total_len
        )
    }
}

// Byte i of out is made first + step i, modulo 256.
pub fn spread(step: u8, first: u8, out: &mut [u8])
    ensures { Spread step first out.old out.new }
{
    let mut x = first;
    for byte in out.iter_mut() {
        *byte = x;
        x = x.wrapping_add(step);
    }
}

// A hash with this fill and total, which no message leads to: its words count from 1, and its buffer is a pattern.
pub fn odd(fill: usize, total: u64) -> Sm3
    ensures { result ≡ odd fill total }
{
    let mut buffer = [0u8; 64];
    spread(7, 3, &mut buffer);
    Sm3 {
        state: [1, 2, 3, 4, 5, 6, 7, 8],
        buffer,
        buffer_len: fill,
        total_len: total,
    }
}
