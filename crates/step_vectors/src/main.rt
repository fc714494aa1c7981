// Opens records step by step and writes every field of the state, and a digest of the whole output, after each step:
// records that are accepted and refused, states that were tampered with, ended openings and refused starts. The file
// stdout has the values of a model that was written from the rules, which the script `expected` runs.
#![tactic(auto)]

use made_records::{NUMBER, TYPE};
use programs::{Hex, spread};
use record::{IV_LEN, TLCP_RECORD_VERSION};
use std::{fmt, io};
use steps::{OpeningCbc, Stepped};

// Answer, length, count and every field of the state, in its order, as a line has them.
#[derive(Clone, Copy)]
struct Report(Stepped);

impl fmt::Display for Report {
    fn fmt<W: fmt::Write>(&self, f: &mut fmt::Formatter<W>) -> fmt::Result {
        let s = self.0;
        let o = s.opening;
        write!(f, "{} {} {}", s.answer, s.length, s.count)?;
        write!(
            f,
            " {} {}",
            Hex(&sm3::digest_of(o.words)),
            Hex(&sm3::digest_of(o.kept))
        )?;
        write!(f, " {} {}", Hex(&o.mac_key), Hex(&o.enc_key))?;
        write!(f, " {} {} {}", o.seq, o.content_type, Hex(&o.version))?;
        write!(f, " {} {} {} {}", o.n, o.total, o.done, o.held)?;
        write!(
            f,
            " {} {} {}",
            u8::from(o.pad_ok),
            u8::from(o.ended),
            o.answer
        )
    }
}

// A record, and an output that it is opened into, under the name that their lines have: as many bytes of two arrays, so
// that the program takes no heap.
#[derive(Clone, Copy)]
struct Run<'a, const N: usize> {
    name: &'a str,
    record: [u8; N],
    record_len: usize,
    out: [u8; N],
    room: usize,
}

impl<const N: usize> Run<'_, N> {
    // A line: what a start, as step 0, or step k has found, and the digest of the output.
    fn report(&self, rt: &impl Print, k: usize, s: Stepped) -> io::Result<OpeningCbc> {
        println!(rt;
            "{}-{k} {} {}",
            self.name,
            Report(s),
            Hex(&sm3::hash(&self.out[..self.room.min(N)]))
        )?;
        Ok(s.opening)
    }

    fn step(&mut self, rt: &impl Print, k: usize, opening: OpeningCbc) -> io::Result<OpeningCbc> {
        let s = steps::step_cbc(
            opening,
            &self.record[..self.record_len.min(N)],
            &mut self.out[..self.room.min(N)],
        );
        self.report(rt, k, s)
    }

    // Steps first to last.
    fn steps(
        &mut self,
        rt: &impl Print,
        first: usize,
        last: usize,
        from: OpeningCbc,
    ) -> io::Result<OpeningCbc> {
        let mut opening = from;
        for k in first..=last {
            opening = self.step(rt, k, opening)?;
        }
        Ok(opening)
    }

    // The start, with an output that holds a pattern, and the steps up to step last.
    fn open(&mut self, rt: &impl Print, last: usize) -> io::Result<OpeningCbc> {
        spread(11, 5, &mut self.out);
        let s = started(self.record_len, self.room);
        let opening = self.report(rt, 0, s)?;
        self.steps(rt, 1, last, opening)
    }
}

fn started(record_len: usize, room: usize) -> Stepped {
    steps::start_cbc(
        made_records::keys(),
        NUMBER,
        TYPE,
        TLCP_RECORD_VERSION,
        record_len,
        room,
    )
}

// Room for the records that are made and for their outputs.
const ROOM: usize = 160;

// A record of a body of n bytes: the text's length, the padding's, and the byte of the body that is made 0x5a.
fn made(n: u8, len: u16, padlen: u8, wrong: Option<u8>) -> [u8; ROOM] {
    let mut bytes = [0u8; ROOM];
    let record = &mut bytes[..(IV_LEN + usize::from(n)).min(ROOM)];
    made_records::lay_body(len, padlen, record);
    if let Some(at) = wrong {
        words::fill_at(record, IV_LEN + usize::from(at), 1, 0x5a);
    }
    made_records::close(record);
    bytes
}

// A body of 48 bytes, accepted.
fn short(rt: &impl Print) -> io::Result<()> {
    let mut run = Run {
        name: "short",
        record: made(48, 5, 10, None),
        record_len: IV_LEN + 48,
        out: [0; ROOM],
        room: 50,
    };
    run.open(rt, 8)?;
    Ok(())
}

// A body of 128 bytes.
fn long<'a>(name: &'a str, len: u16, padlen: u8, wrong: Option<u8>) -> Run<'a, ROOM> {
    Run {
        name,
        record: made(128, len, padlen, wrong),
        record_len: IV_LEN + 128,
        out: [0; ROOM],
        room: 160,
    }
}

// That opened to its end.
fn whole(rt: &impl Print, mut run: Run<'_, ROOM>) -> io::Result<OpeningCbc> {
    run.open(rt, 14)
}

// That with the opening changed before the first step of the MAC, in a way that no rule refuses. Handed back is the
// opening as it was before.
fn changed<F: FnOnce(OpeningCbc) -> OpeningCbc>(
    rt: &impl Print,
    mut run: Run<'_, ROOM>,
    change: F,
) -> io::Result<OpeningCbc>
    requires { F.IsAlwaysCallable change }
{
    let opening = run.open(rt, 9)?;
    run.steps(rt, 10, 14, change(opening))?;
    Ok(opening)
}

// The longest record of zeros, and the most room.
const MOST: usize = 16464;

// A line: a step with a record of zeros and an output, both of these sizes.
fn sized(
    rt: &impl Print,
    name: &str,
    k: usize,
    opening: OpeningCbc,
    record_len: usize,
    room: usize,
) -> io::Result<()> {
    let mut run = Run {
        name,
        record: [0; MOST],
        record_len,
        out: [0xee; MOST],
        room,
    };
    run.step(rt, k, opening)?;
    Ok(())
}

// An opening that has ended: answer 8, and 7 before it.
fn ended(rt: &impl Print, opening: OpeningCbc) -> io::Result<()> {
    let done = OpeningCbc {
        done: 14,
        ..opening
    };
    let held = OpeningCbc { held: 96, ..done };
    for (name, k, opening, record_len, room) in [
        ("ended", 15, opening, 144, 160),
        ("ended-record", 143, opening, 143, 160),
        ("ended-room", 127, opening, 144, 127),
        ("ended-done", 14, done, 144, 160),
        ("ended-held", 96, held, 144, 160),
    ] {
        sized(rt, name, k, opening, record_len, room)?;
    }
    Ok(())
}

// T that is not of n, T or more steps done, and a held length above n - 33.
fn out_of_range(rt: &impl Print, opening: OpeningCbc) -> io::Result<()> {
    for total in [13, 15] {
        let other = OpeningCbc { total, ..opening };
        sized(rt, "total", total, other, 144, 160)?;
    }
    for done in [14, 15] {
        let other = OpeningCbc { done, ..opening };
        sized(rt, "done", done, other, 144, 160)?;
    }
    let held = OpeningCbc {
        held: 96,
        ..opening
    };
    sized(rt, "held", 96, held, 144, 160)
}

// Sizes that are not those of the opening.
fn other_sizes(rt: &impl Print, opening: OpeningCbc) -> io::Result<()> {
    sized(rt, "record", 143, opening, 143, 160)?;
    sized(rt, "record", 145, opening, 145, 160)?;
    sized(rt, "room", 127, opening, 144, 127)
}

// A length that no body has, with T, a record and an output that would be of it: two short ones, and one block above
// the longest.
fn other_bodies(rt: &impl Print, opening: OpeningCbc) -> io::Result<()> {
    for (n, held) in [(32u16, 0), (136, 0), (16448, opening.held)] {
        let other = OpeningCbc {
            n: usize::from(n),
            total: sizes::total_steps(usize::from(n)),
            held,
            ..opening
        };
        sized(rt, "n", other.n, other, IV_LEN + other.n, other.n)?;
    }
    Ok(())
}

// A start by its sizes, and a step on what it hands back.
fn start(rt: &impl Print, record_len: usize, room: usize) -> io::Result<()> {
    let s = started(record_len, room);
    println!(rt;
        "start-{record_len}-{room} {} {}",
        Report(s),
        Hex(&sm3::hash(b""))
    )?;
    sized(rt, "start-room", room, s.opening, 144, 160)
}

// Records about the least length and the greatest, and rooms about the length of the body.
fn starts(rt: &impl Print) -> io::Result<()> {
    for (record_len, room) in [
        (63, 160),
        (65, 0),
        (64, 47),
        (64, 48),
        (16448, 16431),
        (16448, 16432),
        (16464, 16448),
    ] {
        start(rt, record_len, room)?;
    }
    Ok(())
}

fn main(rt: HostRuntime) -> io::Result<()> {
    short(&rt)?;
    // text and what the MAC adds to it are one block, so that the second of the MAC's steps has none
    let accepted = whole(&rt, long("accepted", 42, 53, None))?;
    ended(&rt, accepted)?;
    whole(&rt, long("padding", 43, 52, Some(100)))?;
    whole(&rt, long("mac", 95, 0, Some(126)))?;
    // put right, and so accepted
    changed(
        &rt,
        long("padding-changed", 43, 52, Some(100)),
        |o| OpeningCbc {
            held: 43,
            pad_ok: true,
            ..o
        },
    )?;
    let opening = changed(
        &rt,
        long("mac-changed", 95, 0, Some(126)),
        |o| OpeningCbc {
            held: 20,
            pad_ok: false,
            ..o
        },
    )?;
    out_of_range(&rt, opening)?;
    other_sizes(&rt, opening)?;
    other_bodies(&rt, opening)?;
    starts(&rt)
}
