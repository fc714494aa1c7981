// What is printed for a line.
use answers::{DONE, Refusal};
use programs::{Hex, State};
use sm3::Sm3;
use std::fmt;

// Bytes, or why they are refused.
pub type Outcome<'a> = Result<&'a [u8], Refusal>;

#[derive(Clone, Copy)]
pub enum Answer<'a> {
    Derived(Outcome<'a>),
    Sealed(Outcome<'a>),
    // the number that an opening answers, and the text
    Opened(u8, &'a [u8]),
    State(Sm3),
}

impl<'a> fmt::Display for Answer<'a> {
    fn fmt<W: fmt::Write>(&self, f: &mut fmt::Formatter<W>) -> fmt::Result {
        match self {
            Answer::Derived(Ok(bytes)) => write!(f, "{}", Bytes(bytes)),
            Answer::Derived(Err(why)) => write!(f, "{}", why.number()),
            Answer::Sealed(Ok(bytes)) => write!(f, "{}", Record(DONE, bytes)),
            Answer::Sealed(Err(why)) => write!(f, "{}", Record(why.number(), &[])),
            // The Rust has no steps: where their number stands it prints a question mark.
            Answer::Opened(answer, text) => write!(f, "{} ?", Record(*answer, text)),
            Answer::State(h) => write!(f, "{}", State(*h)),
        }
    }
}

// Bytes as a line of the comparison has them: in hexadecimal, `-` where there are none.
#[derive(Clone, Copy)]
struct Bytes<'a>(&'a [u8]);

impl<'a> fmt::Display for Bytes<'a> {
    fn fmt<W: fmt::Write>(&self, f: &mut fmt::Formatter<W>) -> fmt::Result {
        if self.0.is_empty() {
            return write!(f, "-");
        }
        write!(f, "{}", Hex(self.0))
    }
}

// A record, or a text, behind its answer; none with a refusal.
#[derive(Clone, Copy)]
struct Record<'a>(u8, &'a [u8]);

// What the Rust says `none` for; any other number stands as it is.
const SILENT: [Refusal; 5] = [
    Refusal::TooLong,
    Refusal::Short,
    Refusal::Ragged,
    Refusal::TooBig,
    Refusal::BadRecord,
];

impl<'a> fmt::Display for Record<'a> {
    fn fmt<W: fmt::Write>(&self, f: &mut fmt::Formatter<W>) -> fmt::Result {
        let Record(answer, bytes) = *self;
        if answer == DONE {
            write!(f, "0 {}", Bytes(bytes))
        } else if SILENT.iter().any(|why| why.number() == answer) {
            write!(f, "none -")
        } else {
            write!(f, "{answer} -")
        }
    }
}
