// Reads lines of hexadecimal, one record a line, and prints for each the record's length, its size answer and the
// number of steps that opening it takes, or `long` or `bad`. What is printed is made by `lines`: here bytes are read
// and written. The buffers stay as they are, however long a line or the input is.
#![tactic(auto)]

ghost use Rattle.std.specs.Prelude.{◌≡◌, ◌≤◌, length, IfOk, IfSome};
ghost use Rattle.std.specs.ControlFlow.{ForBreak};
ghost use Rattle.lines.specs.Reading.{fresh, begun};

use lines::{Line, MOST_TEXT};
use std::io;
use std::io::Read as _;
use std::ops::ControlFlow;

// The most bytes of one read, and room for all that can be told of them.
const CHUNK: usize = 4096;

const ROOM: usize = MOST_TEXT * CHUNK;

// Prints the lines that end in a chunk, and returns the one that it leaves begun.
fn pass(rt: &impl Print, line: Line, chunk: &[u8]) -> io::Result<Line>
    requires { length chunk.now ≤ 4096 }
    ensures { IfOk result (λ left. left ≡ begun line chunk.now) }
{
    let mut out = [0u8; ROOM];
    let Ok(told) = lines::tell(line, chunk, &mut out) else {
        unreachable!();
    };
    rt.write_all(&out[..told.length])?;
    Ok(told.line)
}

// Prints the line that is begun where the input ends, and returns a fresh one.
fn finish(rt: &impl Print, line: Line) -> io::Result<Line>
    ensures { IfOk result (λ left. left ≡ fresh) }
{
    let mut out = [0u8; MOST_TEXT];
    let Ok(told) = lines::tell_last(line, &mut out) else {
        unreachable!();
    };
    rt.write_all(&out[..told.length])?;
    Ok(told.line)
}

// Reads once. A read that fails ends the input, as one that finds nothing does, and the line begun stays.
fn read_some(rt: &(impl Input + Print), line: Line) -> io::Result<ControlFlow<Line, Line>>
    ensures { IfOk result (λ read. ForBreak read (λ left. left ≡ line)) }
{
    let mut buffer = [0u8; CHUNK];
    let n = rt.reader().read(&mut buffer).unwrap_or(0);
    if n == 0 {
        return Ok(ControlFlow::Break(line));
    }
    Ok(ControlFlow::Continue(pass(rt, line, &buffer[..n])?))
}

// The line that is begun where the reading ends, and after how many reads that is, if the input still goes on.
#[derive(Clone, Copy)]
struct Ended {
    line: Line,
    going_on: Option<u64>,
}

// Reads to the end of the input. A proved loop has to end, and nothing says that an input does: so it counts its reads,
// up to a number that no run uses up, and stops before the end of the input only there.
fn read_all(rt: &(impl Input + Print)) -> io::Result<Ended>
    ensures { IfOk result (λ ended. IfSome ended.going_on (λ reads. reads ≡ 18446744073709551615)) }
{
    let mut line = lines::start_line();
    let mut reads = 0;
    for i in 0..u64::MAX {
        match read_some(rt, line)? {
            ControlFlow::Continue(longer) => line = longer,
            ControlFlow::Break(line) => return Ok(Ended {
                line,
                going_on: None,
            }),
        }
        reads = i + 1;
    }
    Ok(Ended {
        line,
        going_on: Some(reads),
    })
}

fn main(rt: HostRuntime) -> io::Result<()> {
    let ended = read_all(&rt)?;
    finish(&rt, ended.line)?;
    Ok(())
}
