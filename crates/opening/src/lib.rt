// Opening a record by one call, from deprotect_cbc of the Rust's tlcp/record.rs: the start, and then all its steps.
#![tactic(auto)]

ghost use Rattle.opening.specs.Promise.{Deprotected};

use record::RecordKeysCbc;

// Answer, text length and the number of steps that were made. The answer is a number and no Result, as in `Stepped`:
// masks make the verdict, and SameReports and RefusalsAlike (crates/demands/specs/Steppers.antt) speak of all three on
// every path.
#[derive(Clone, Copy)]
pub struct Opened {
    pub answer: u8,
    pub length: usize,
    pub count: usize,
}

// The record's text laid over the front of out, zeros behind it up to the body's length n, the rest of out as found;
// the text's length is reported. Wrong padding or a wrong MAC is answer 6, with the first n bytes zero. Answers 3, 4, 5
// and 2, tested in this order, leave out as found. The loop's bound is public, and no answer is looked at. Keys,
// number, type and version stay apart, as in `start_cbc`.
pub fn deprotect_cbc(
    keys: RecordKeysCbc,
    seq: u64,
    content_type: u8,
    version: [u8; 2],
    record: &[u8],
    out: &mut [u8],
) -> Opened
    ensures { Deprotected keys seq content_type version «record».now out.old result out.new }
{
    let mut s = steps::start_cbc(keys, seq, content_type, version, record.len(), out.len());
    // a refused start has no steps
    for _ in 0..s.opening.total {
        s = steps::step_cbc(s.opening, record, out);
    }
    Opened {
        answer: s.answer,
        length: s.length,
        count: s.count,
    }
}
