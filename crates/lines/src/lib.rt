// Lines of hexadecimal, read in parts of any size, judged by their length, and told of in bytes: what the program
// `lengths` stands on.
// A character is a byte. Of the line being read only a count and a mark are kept, so that no line is too long to be
// read. Nothing here is secret.
#![tactic(auto)]

ghost use Rattle.std.specs.Prelude.{◌≡◌, ◌∷◌, [], ◌+◌, ◌<◌, ◌≤◌, length};
ghost use Rattle.lines.specs.Hexadecimal.{is_hex, all_hex};
ghost use Rattle.lines.specs.Input.{front};
ghost use Rattle.lines.specs.Reading.{fresh, taken, advanced, is_begun};
ghost use Rattle.lines.specs.Judgement.{max_line_len, steps_of, sized, judged_line};
ghost use Rattle.lines.specs.Text.{decimal, numeral, numbers, text_of, PutAt};
ghost use Rattle.lines.specs.Telling.{most_text};
ghost use Rattle.lines.specs.Promise.{JudgedPut, ChunkTold, LastTold};

use answers::Refusal;
use record::IV_LEN;

// A line so far: how many characters, counted no further than a usize goes, and whether each is a lower-case digit.
// The count is kept beside a mark that says no: a line over the limit is `long`, whatever it holds.
#[derive(Clone, Copy, Debug, PartialEq, Eq)]
pub struct Line {
    pub count: usize,
    pub hex: bool,
}

// What one step over a part of the input leaves.
#[derive(Clone, Copy, Debug, PartialEq, Eq)]
pub enum Step {
    // A whole line, which a newline ended, and how many bytes are done with.
    Ended { line: Line, used: usize },
    // The line so far; all bytes are done with.
    Begun(Line),
}

// A line of which nothing is read yet.
#[tactic(auto, unfolding(crate::specs::Reading::fresh))]
pub fn start_line() -> Line
    ensures { result ≡ fresh }
{
    Line {
        count: 0,
        hex: true,
    }
}

// Whether a byte is 0 to 9 or a to f; upper case is not.
#[tactic(auto, unfolding(crate::specs::Hexadecimal::is_hex))]
pub fn is_hex(byte: u8) -> bool
    ensures { result ≡ is_hex byte }
{
    matches!(byte, b'0'..=b'9' | b'a'..=b'f')
}

// Whether every byte of a part is a digit; so in an empty one.
pub fn all_hex(part: &[u8]) -> bool
    ensures { result ≡ all_hex part.now }
{
    part.iter().all(|&b| is_hex(b))
}

// The index of the first newline, or the length where there is none.
pub fn line_end(input: &[u8]) -> usize
    ensures { result ≡ length (front input.now) }
{
    input
        .iter()
        .position(|&b| b == b'\n')
        .unwrap_or(input.len())
}

// The line with a part behind it; the part is taken as it stands, and a newline in it is one more character.
#[tactic(auto, unfolding(crate::specs::Reading::taken))]
pub fn take_part(line: Line, part: &[u8]) -> Line
    ensures { result ≡ taken line part.now }
{
    Line {
        count: line.count.saturating_add(part.len()),
        hex: line.hex && all_hex(part),
    }
}

// One step: the line with what stands before the first newline, or with all of the input where there is none.
#[tactic(auto, unfolding(crate::specs::Reading::advanced), using(crate::proofs::Front::advancing))]
pub fn advance(line: Line, input: &[u8]) -> Step
    ensures { result ≡ advanced line input.now }
{
    let end = line_end(input);
    let longer = take_part(line, &input[..end]);
    if end < input.len() {
        Step::Ended {
            line: longer,
            used: end + 1,
        }
    } else {
        Step::Begun(longer)
    }
}

// Whether the line begun counts where the input ends: it does if it is not empty.
pub fn is_begun(line: Line) -> bool
    ensures { result ≡ is_begun line }
{
    0 < line.count
}

// The most characters of a line that is not `long`.
pub const MAX_LINE: usize = 33000;

// What is said of a line: that it is a record of some size, or too long, or no record in hexadecimal.
#[derive(Clone, Copy, Debug, PartialEq, Eq)]
pub enum Judged {
    // The record's length, its size answer, and the steps that opening it takes, 0 where the size is refused.
    // Numbers, as they are printed: any answer is printed beside any total.
    Sized {
        record_len: usize,
        answer: u8,
        total: usize,
    },
    Long,
    Bad,
}

// The steps that opening a record of this length takes, or why its size is refused.
#[tactic(auto, using(crate::proofs::Sizes::sizing))]
fn steps_of(record_len: usize) -> Result<usize, Refusal>
    ensures { result ≡ steps_of record_len }
{
    sizes::size_answer(record_len)?;
    Ok(sizes::total_steps(record_len - IV_LEN))
}

// A line of two digits for each of record_len bytes.
#[tactic(auto, unfolding(crate::specs::Judgement::sized), using(crate::proofs::Sizes::said))]
fn sized_line(record_len: usize) -> Judged
    ensures { result ≡ sized record_len }
{
    let total = steps_of(record_len);
    Judged::Sized {
        record_len,
        answer: answers::number_of(total),
        total: total.unwrap_or(0),
    }
}

// A whole line, judged: over the limit it is `Long`, whatever it holds.
#[tactic(auto, unfolding(crate::specs::Judgement::judgement))]
pub fn judge(line: Line, max_line: usize) -> Judged
    ensures { result ≡ judged_line max_line line }
{
    if max_line < line.count {
        return Judged::Long;
    }
    if line.count % 2 != 0 || !line.hex {
        return Judged::Bad;
    }
    sized_line(line.count / 2)
}

// A whole line, judged by the limit of `lengths`.
pub fn judge_line(line: Line) -> Judged
    ensures { result ≡ judged_line max_line_len line }
{
    judge(line, MAX_LINE)
}

// The most bytes of a text: 20, 3 and 20 digits, two spaces and a newline.
pub const MOST_TEXT: usize = 46;

// One byte at an index, and the next index.
fn put_byte(byte: u8, out: &mut [u8], at: usize) -> usize
    requires { at < length out.old }
    ensures { PutAt (byte ∷ []) out.old at result out.new }
{
    out[at] = byte;
    at + 1
}

// The digits of n from an index on, the highest first, and the index behind them. Written out, and not by a library
// beside std: so all that is printed is proved here.
fn put_decimal(n: usize, out: &mut [u8], at: usize) -> usize
    requires { at + length (decimal n) ≤ length out.old }
    ensures { PutAt (decimal n) out.old at result out.new }
{
    let last = (n % 10) as u8;
    if n < 10 {
        return put_byte(b'0' + last, out, at);
    }
    let end = put_decimal(n / 10, out, at);
    put_byte(b'0' + last, out, end)
}

// A number and one byte more from an index on, and the index behind them.
fn put_numeral(n: usize, mark: u8, out: &mut [u8], at: usize) -> usize
    requires { at + length (decimal n) < length out.old }
    ensures { PutAt (numeral n mark) out.old at result out.new }
{
    let end = put_decimal(n, out, at);
    put_byte(mark, out, end)
}

// Three numbers with a space between them and a newline behind, and how many bytes they take.
fn put_numbers(a: usize, b: usize, c: usize, out: &mut [u8]) -> usize
    requires { length (numbers a b c) ≤ length out.old }
    ensures { PutAt (numbers a b c) out.old 0 result out.new }
{
    let first = put_numeral(a, b' ', out, 0);
    let second = put_numeral(b, b' ', out, first);
    put_numeral(c, b'\n', out, second)
}

// A word, and how many bytes it takes.
fn put_word(word: &[u8], out: &mut [u8]) -> usize
    ensures { PutAt word.now out.old 0 result out.new }
{
    words::copy_at(out, 0, word);
    word.len()
}

// The text of a judgement, in front, and how many bytes it takes.
fn put_text(judged: Judged, out: &mut [u8]) -> usize
    requires { most_text ≤ length out.old }
    ensures laid { PutAt (text_of judged) out.old 0 result out.new }
    ensures room { result ≤ most_text }
{
    match judged {
        Judged::Sized {
            record_len,
            answer,
            total,
        } => put_numbers(record_len, usize::from(answer), total, out),
        Judged::Long => put_word(b"long\n", out),
        Judged::Bad => put_word(b"bad\n", out),
    }
}

// The text of a judgement, laid over out from index at on, as much of it as there is room for; and how many bytes it is
// long.
// An index, and no part of out: at may stand behind its end, where nothing is laid.
pub fn put_judged(judged: Judged, out: &mut [u8], at: usize) -> usize
    ensures { JudgedPut judged out.old at result out.new }
{
    let mut text = [0; MOST_TEXT];
    let n = put_text(judged, &mut text);
    words::copy_at(out, at, &text[..n]);
    n
}

// What telling of a part of the input leaves: the line begun, and how many bytes of the output are written.
// A length, since the bytes stand in the output that the caller lends: the library has no heap.
#[derive(Clone, Copy, Debug, PartialEq, Eq)]
pub struct Told {
    pub line: Line,
    pub length: usize,
}

// Writes the texts of the lines that end in a chunk, the first of them begun before it. Refused where the output has no
// room for a text of each byte of the chunk: the line is then as it was, and the output as found.
pub fn tell(line: Line, chunk: &[u8], out: &mut [u8]) -> Result<Told, Refusal>
    ensures { ChunkTold line chunk.now out.old result out.new }
{
    if out.len() / MOST_TEXT < chunk.len() {
        return Err(Refusal::NoRoom);
    }
    let mut current = line;
    let mut rest = chunk;
    let mut length = 0;
    loop {
        match advance(current, rest) {
            Step::Ended { line: whole, used } => {
                length += put_judged(judge_line(whole), out, length);
                current = start_line();
                rest = &rest[used..];
            }
            Step::Begun(line) => return Ok(Told { line, length }),
        }
    }
}

// Writes the text of the line that is begun where the input ends, if it is not empty. Refused where the output has no
// room for a text: the line is then as it was, and the output as found.
pub fn tell_last(line: Line, out: &mut [u8]) -> Result<Told, Refusal>
    ensures { LastTold line out.old result out.new }
{
    if out.len() < MOST_TEXT {
        return Err(Refusal::NoRoom);
    }
    let length = if is_begun(line) {
        put_judged(judge_line(line), out, 0)
    } else {
        0
    };
    Ok(Told {
        line: start_line(),
        length,
    })
}
