// Opening a record as steps: `start_cbc` tests the sizes, and each `step_cbc` does one small piece of the work that the
// Rust's deprotect_cbc (tlcp/record.rs) does in one go. Which piece follows from the body's length and the number of
// steps done, both public. Keys, deciphered bytes, the length held and the padding mark are secret and pass through
// masks only; the one test on such a value is `held_too_long`.
#![tactic(auto)]

ghost use Rattle.std.specs.Prelude.{false, not, ◌&&◌, [], ◌≡◌, ◌+◌, ◌-◌, ◌/◌, ◌≤◌, ◌<◌, leb, ltb, length};
ghost use Rattle.answers.specs.Answers.{number, number_of};
ghost use Rattle.record.specs.Limits.{iv_len};
ghost use Rattle.steps.specs.Promise.{Step};
ghost use Rattle.steps.specs.State.{started, ended_with, start_answer, report};
ghost use Rattle.steps.specs.Step.{broken, changed, report_by, output_by};
ghost use Rattle.steps.specs.Work.{work_at};

use answers::{DONE, Refusal};
use mac_blocks::MacWords;
use record::{IV_LEN, MAC_LEN, RecordKeysCbc};
use sm4::Sm4Cipher;

// An opening that has been started: what the steps so far have found, and the number of steps done. All zero before a
// start. The fields, the ended mark beside its answer among them, are those that the scope lists and that `Place` and
// `InRange` of crates/demands/specs/Steppers.antt read.
#[derive(Clone, Copy)]
pub struct OpeningCbc {
    pub words: [u32; 8],
    pub kept: [u32; 8],
    pub mac_key: [u8; 32],
    pub enc_key: [u8; 16],
    pub seq: u64,
    pub content_type: u8,
    pub version: [u8; 2],
    pub n: usize,
    pub total: usize,
    pub done: usize,
    pub held: usize,
    pub pad_ok: bool,
    pub ended: bool,
    pub answer: u8,
}

// The opening after a start or a step, and the report: answer, text length, steps done. The answer is a number and no
// Result: masks make the verdict, so that a Result would be a branch on it, and SameReports, SameCount and RefusedStart
// (there) speak of all four on every path.
#[derive(Clone, Copy)]
pub struct Stepped {
    pub opening: OpeningCbc,
    pub answer: u8,
    pub length: usize,
    pub count: usize,
}

// An opening that has ended keeps its sizes and its answer, and nothing of what was deciphered.
#[tactic(auto, unfolding(crate::specs::State::ended_with))]
fn ended_with(n: usize, total: usize, ended: bool, answer: u8) -> OpeningCbc
    ensures { result ≡ ended_with n total ended answer }
{
    OpeningCbc {
        words: [0; 8],
        kept: [0; 8],
        mac_key: [0; 32],
        enc_key: [0; 16],
        seq: 0,
        content_type: 0,
        version: [0; 2],
        n,
        total,
        done: 0,
        held: 0,
        pad_ok: false,
        ended,
        answer,
    }
}

// A refusal: the opening as given, no text and no step.
fn refusal(opening: OpeningCbc, why: Refusal) -> Stepped
    ensures { result ≡ report opening (number why) 0 0 }
{
    Stepped {
        opening,
        answer: why.number(),
        length: 0,
        count: 0,
    }
}

// The size answer, then 2 where the output is shorter than the body.
fn start_answer(record_len: usize, room: usize) -> Result<(), Refusal>
    ensures { number_of result ≡ start_answer record_len room }
{
    sizes::size_answer(record_len)?;
    if room < record_len - IV_LEN {
        return Err(Refusal::NoRoom);
    }
    Ok(())
}

// An opening of a record of record_len bytes into an output of room bytes; no byte of either is read. A refusal (3, 4,
// 5, then 2) hands back the all-zero opening. Keys, number, type and version stay apart, in the Rust's order: `Sealer`
// and `Given` of crates/demands/specs are functions of these.
#[tactic(auto, unfolding(crate::specs::State::started, crate::specs::State::begun, crate::specs::State::ended_with), using(crate::proofs::Sound::started_has_iv))]
pub fn start_cbc(
    keys: RecordKeysCbc,
    seq: u64,
    content_type: u8,
    version: [u8; 2],
    record_len: usize,
    room: usize,
) -> Stepped
    ensures { result ≡ started keys seq content_type version record_len room }
{
    let zero = ended_with(0, 0, false, DONE);
    if let Err(why) = start_answer(record_len, room) {
        return refusal(zero, why);
    }
    let RecordKeysCbc { mac_key, enc_key } = keys;
    let n = record_len - IV_LEN;
    let opening = OpeningCbc {
        mac_key,
        enc_key,
        seq,
        content_type,
        version,
        n,
        total: sizes::total_steps(n),
        ..zero
    };
    Stepped {
        opening,
        answer: DONE,
        length: 0,
        count: 0,
    }
}

// The length held is more than the body has room for. The one test on a deciphered value: it is no in every opening
// that a start and steps lead to.
fn held_too_long(held: usize, n: usize) -> bool
    requires { 33 ≤ n }
    ensures { result ≡ ltb (n - 33) held }
{
    n - (MAC_LEN + 1) < held
}

// T or more steps done, in an opening that has not ended.
fn out_of_steps(opening: OpeningCbc) -> bool
    ensures { result ≡ (not opening.ended && leb opening.total opening.done) }
{
    !opening.ended && opening.total <= opening.done
}

// The opening breaks its ranges, or does not belong to this record and output: answer 7.
#[tactic(auto, unfolding(crate::specs::Step::broken), using(crate::proofs::Sound::allowed_least, crate::proofs::Sound::allowed_most))]
fn is_broken(opening: OpeningCbc, record_len: usize, room: usize) -> bool
    ensures { result ≡ broken opening record_len room }
{
    !sizes::allowed(opening.n)
        || opening.total != sizes::total_steps(opening.n)
        || out_of_steps(opening)
        || held_too_long(opening.held, opening.n)
        || record_len != opening.n + IV_LEN
        || room < opening.n
}

// The work of a step. The type is public since the definitions of specs/ speak of it, and so theorems of other crates
// do.
#[derive(Clone, Copy)]
pub enum Work {
    // body block k, from 0
    Decipher(usize),
    ReadPadding,
    // block j, from 0, of header and text
    Inner(usize),
    OuterPad,
    OuterHash,
    Answering,
}

impl Work {
    // The work for a body of n bytes with this number of steps done: m blocks, the padding, B blocks, and the last
    // three. The bounds follow from n, so that no pattern has them.
    #[tactic(auto, unfolding(crate::specs::Work::work_at, sizes::specs::Sizes::mac_steps))]
    fn at(n: usize, done: usize) -> Work
        ensures { result ≡ work_at n done }
    {
        let m = n / 16;
        let hashed = m + 1 + sizes::mac_steps(n);
        if done < m {
            Work::Decipher(done)
        } else if done == m {
            Work::ReadPadding
        } else if done < hashed {
            Work::Inner(done - (m + 1))
        } else if done == hashed {
            Work::OuterPad
        } else if done == hashed + 1 {
            Work::OuterHash
        } else {
            Work::Answering
        }
    }
}

// An opening that is not broken and has not ended, so that a step is left: what each piece of work may count on. Record
// and output are lent beside it: inside, a clause would name what was written by its place, `self.exit.1.1.0.now`.
#[derive(Clone, Copy)]
struct Live {
    opening: OpeningCbc,
    ghost unfinished: { opening.done < opening.total },
    ghost least: { 33 ≤ opening.n },
    ghost most: { opening.n ≤ 16432 },
    ghost text: { opening.held ≤ opening.n - 33 },
}

#[tactic(auto, unfolding(crate::specs::Step::report_by, crate::specs::Step::opening_by, crate::specs::Step::output_by, crate::specs::Step::changed))]
impl Live {
    // The report of a step before the last: next, with one step more done.
    fn moved(self, next: OpeningCbc) -> Stepped
        requires { next.done ≡ self.opening.done }
        ensures { result ≡ report (changed next next.words next.kept next.held next.pad_ok) 0 0 (self.opening.done + 1) }
    {
        let done = self.opening.done + 1;
        Stepped {
            opening: OpeningCbc { done, ..next },
            answer: DONE,
            length: 0,
            count: done,
        }
    }

    // Block k of the body, deciphered into the output. The key is expanded again, since the opening carries no round
    // keys.
    fn decipher(self, k: usize, record: &[u8], out: &mut [u8]) -> Stepped
        requires { (k < self.opening.n / 16) × (length «record».now ≡ self.opening.n + iv_len) × (self.opening.n ≤ length out.old) }
        ensures state { result ≡ report_by (Work.Decipher k) self.opening out.old }
        ensures output { out.new ≡ output_by (Work.Decipher k) self.opening «record».now out.old }
    {
        cbc::decipher_block_cbc(Sm4Cipher::new(self.opening.enc_key), record, k, out);
        self.moved(self.opening)
    }

    // The padding read, and the first block of the inner hash.
    fn read_padding(self, out: &[u8]) -> Stepped
        requires { self.opening.n ≤ length out.now }
        ensures { result ≡ report_by Work.ReadPadding self.opening out.now }
    {
        let p = padding::check_tls_padding_ct(&out[..self.opening.n]);
        self.moved(OpeningCbc {
            words: mac_blocks::inner_key(self.opening.mac_key),
            held: p.held,
            pad_ok: p.pad_ok == 1,
            ..self.opening
        })
    }

    // Block j of header and text. The part of the output that is lent is as long as the longest text.
    fn inner(self, j: usize, out: &[u8]) -> Stepped
        requires { self.opening.n ≤ length out.now }
        ensures { result ≡ report_by (Work.Inner j) self.opening out.now }
    {
        let s = self.opening;
        let header = record::record_header(s.seq, s.content_type, s.version, s.held as u16);
        let text = &out[..s.n - (MAC_LEN + 1)];
        let OpeningCbc { words, kept, .. } = s;
        let so_far = MacWords { words, kept };
        let MacWords { words, kept } = mac_blocks::inner_block(so_far, header, text, s.held, j);
        self.moved(OpeningCbc { words, kept, ..s })
    }

    // The first block of the outer hash.
    fn outer_pad(self) -> Stepped
        ensures { result ≡ report_by Work.OuterPad self.opening [] }
    {
        self.moved(OpeningCbc {
            words: mac_blocks::outer_key(self.opening.mac_key),
            ..self.opening
        })
    }

    // The second, the kept digest with its ending.
    fn outer_hash(self) -> Stepped
        ensures { result ≡ report_by Work.OuterHash self.opening [] }
    {
        self.moved(OpeningCbc {
            words: mac_blocks::outer_digest(self.opening.words, self.opening.kept),
            ..self.opening
        })
    }

    // The last step: one verdict by masks, all bytes of the body written, whatever it is.
    fn answering(self, out: &mut [u8]) -> Stepped
        requires { self.opening.n ≤ length out.old }
        ensures state { result ≡ report_by Work.Answering self.opening out.old }
        ensures output { out.new ≡ output_by Work.Answering self.opening [] out.old }
    {
        let s = self.opening;
        let received = verdict::extract_mac_ct(&out[..s.n], s.held);
        let v = verdict::verdict_ct(s.pad_ok, received, sm3::digest_of(s.words), s.held);
        verdict::clear_from_ct(&mut out[..s.n], v.length);
        Stepped {
            opening: ended_with(s.n, s.total, true, v.answer),
            answer: v.answer,
            length: v.length,
            count: s.total,
        }
    }

    // The work that follows from the sizes and the number of steps done.
    #[tactic(auto, unfolding(crate::specs::Step::report_by, crate::specs::Step::opening_by, crate::specs::Step::output_by), using(crate::proofs::Sound::decipher_below))]
    fn work(self, record: &[u8], out: &mut [u8]) -> Stepped
        requires { (length «record».now ≡ self.opening.n + iv_len) × (self.opening.n ≤ length out.old) }
        ensures state { result ≡ report_by (work_at self.opening.n self.opening.done) self.opening out.old }
        ensures output { out.new ≡ output_by (work_at self.opening.n self.opening.done) self.opening «record».now out.old }
    {
        match Work::at(self.opening.n, self.opening.done) {
            Work::Decipher(k) => self.decipher(k, record, out),
            Work::ReadPadding => self.read_padding(out),
            Work::Inner(j) => self.inner(j, out),
            Work::OuterPad => self.outer_pad(),
            Work::OuterHash => self.outer_hash(),
            Work::Answering => self.answering(out),
        }
    }
}

// One step. Answer 7, then answer 8, leave opening and output as they are; record and output are read only where the
// step's work says so.
#[tactic(auto, unfolding(crate::specs::Step::stepped, crate::specs::Step::output_after), using(crate::proofs::Sound::sound, crate::proofs::Sound::one_more))]
pub fn step_cbc(opening: OpeningCbc, record: &[u8], out: &mut [u8]) -> Stepped
    ensures { Step opening «record».now out.old result out.new }
{
    if is_broken(opening, record.len(), out.len()) {
        return refusal(opening, Refusal::BadState);
    }
    if opening.ended {
        return refusal(opening, Refusal::Ended);
    }
    Live { opening }.work(record, out)
}
