// There and back: a text is sealed and its record opened again by one call. What the two functions promise, taken
// together, says that the text comes back.
#![tactic(auto)]

ghost use Rattle.there_and_back.specs.Promise.{ThereAndBack};

use opening::Opened;
use record::RecordKeysCbc;

// plaintext sealed into record, and the sealed part of it opened into out: the text, zeros up to the body's length n,
// the rest of out as found; bytes of record behind what was sealed stay as found. A refusal of sealing is reported with
// length 0 and count 0, and leaves both buffers as found; less room in out than n is answer 2 and leaves out as found.
// Keys, number, type and version stay apart, as in the two functions that are called, and the report is that of the
// second.
pub fn seal_and_open(
    keys: RecordKeysCbc,
    seq: u64,
    content_type: u8,
    version: [u8; 2],
    iv: [u8; 16],
    plaintext: &[u8],
    record: &mut [u8],
    out: &mut [u8],
) -> Opened
    ensures { ThereAndBack keys seq content_type version iv plaintext.now «record».old out.old result «record».new out.new }
{
    let sealed = record::protect_cbc(keys, seq, content_type, version, iv, plaintext, record);
    match sealed {
        Ok(length) => opening::deprotect_cbc(
            keys,
            seq,
            content_type,
            version,
            &record[..length],
            out,
        ),
        Err(why) => Opened {
            answer: why.number(),
            length: 0,
            count: 0,
        },
    }
}
