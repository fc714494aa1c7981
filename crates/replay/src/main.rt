// Reads lines of the comparison with the Rust, does what each asks for and prints the answer. The file stdin is a list
// of such lines and stdout what the Rust answered to them; ORIGIN says which Rust, and how both were recorded. A line
// that is malformed, over 4,096 characters or of another command is answered `bad`.
#![tactic(auto)]

ghost use Rattle.std.specs.Prelude.{◌≡◌, length};

mod answer;
mod command;

use answer::Answer;
use answers::Refusal;
use command::{Command, MAX_LINE};
use hmac::HmacSm3;
use key_schedule::TlcpRole;
use protocol::{count, decode, is_word, number_at};
use record::RecordKeysCbc;
use sm3::Sm3;
use sm4::Sm4Cipher;
use std::io;
use std::io::{Read as _, Write as _};

// ---- what a line asks for, done

// `used` is how many bytes of the output's last page are written, before a call and behind it: so of each function here.
fn run(rt: &impl Print, line: &[u8], used: &mut usize) -> io::Result<()> {
    let Ok(command) = Command::try_from(line) else {
        return bad(rt, used);
    };
    match command {
        Command::Seal => seal(rt, line, used),
        Command::Open => open(rt, line, used),
        Command::Sm3 => sm3_whole(rt, line, used),
        Command::Sm3Parts => digest(rt, hash_parts(line).finalize(), used),
        Command::Sm3State => print_answer(rt, Answer::State(hash_parts(line)), used),
        Command::Hmac => hmac_whole(rt, line, used),
        Command::HmacParts => digest(rt, mac_parts(line).finalize(), used),
        Command::Enc => {
            let cipher = Sm4Cipher::new(array(line, 1));
            derived(rt, &cipher.encrypt_block(array(line, 2)), used)
        }
        Command::Dec => {
            let cipher = Sm4Cipher::new(array(line, 1));
            derived(rt, &cipher.decrypt_block(array(line, 2)), used)
        }
        Command::Master => master(rt, line, used),
        Command::KeyBlock => key_block(rt, line, used),
        Command::Finished => finished(rt, line, used),
    }
}

// ---- fields

// The first n bytes, or all where there are fewer.
fn front(bytes: &[u8], n: usize) -> &[u8] {
    &bytes[..n.min(bytes.len())]
}

// The bytes of field k, which are laid into room.
fn bytes<'a>(line: &[u8], k: usize, room: &'a mut [u8]) -> &'a [u8] {
    let n = decode(line, k, room);
    front(room, n)
}

// The bytes of field k, which has N.
fn array<const N: usize>(line: &[u8], k: usize) -> [u8; N]
    ensures { length result ≡ N }
{
    let mut out = [0; N];
    decode(line, k, &mut out);
    out
}

fn number(line: &[u8], k: usize) -> u64 {
    number_at(line, k).unwrap_or(0)
}

fn role(line: &[u8], k: usize) -> TlcpRole {
    if is_word(line, k, b"c") {
        TlcpRole::Client
    } else {
        TlcpRole::Server
    }
}

// ---- answers

// A pipe holds what is written in pages, and begins a new one for a write that the last has no room for. So a write
// ends where a page of the output does: a pipe then takes as many bytes as it has room for.
const PAGE: usize = 4096;

fn put(rt: &impl Print, text: &[u8], used: &mut usize) -> io::Result<()> {
    let first = text.len().min(PAGE.saturating_sub(*used));
    rt.write_all(&text[..first])?;
    rt.write_all(&text[first..])?;
    *used = used.wrapping_add(text.len()) % PAGE;
    Ok(())
}

fn bad(rt: &impl Print, used: &mut usize) -> io::Result<()> {
    put(rt, b"bad\n", used)
}

// The most bytes of a text, and of a field, of a line; and of an answer with its newline: a number, a space and the
// bytes in hexadecimal.
const ROOM: usize = 2112;

const MOST_TEXT: usize = 3 + 2 * ROOM;

fn print_answer(rt: &impl Print, said: Answer, used: &mut usize) -> io::Result<()> {
    let mut text = [0; MOST_TEXT];
    let mut rest = &mut text[..];
    writeln!(rest, "{said}")?;
    let n = MOST_TEXT.saturating_sub(rest.len());
    put(rt, front(&text, n), used)
}

fn derived(rt: &impl Print, bytes: &[u8], used: &mut usize) -> io::Result<()> {
    print_answer(rt, Answer::Derived(Ok(bytes)), used)
}

// Bytes that are all of out, or why they are refused.
fn outcome(
    rt: &impl Print,
    refused: Result<(), Refusal>,
    out: &[u8],
    used: &mut usize,
) -> io::Result<()> {
    print_answer(rt, Answer::Derived(refused.map(|()| out)), used)
}

// ---- records: behind the command stand SIDE KEYBLOCK NUMBER TYPE VERSION

fn keys(line: &[u8]) -> RecordKeysCbc {
    RecordKeysCbc::from_key_block(role(line, 1), &array::<128>(line, 2)).unwrap()
}

fn content_type(line: &[u8]) -> u8 {
    array::<1>(line, 4)[0]
}

fn seal(rt: &impl Print, line: &[u8], used: &mut usize) -> io::Result<()> {
    let mut text = [0; ROOM];
    let mut out = [0; ROOM];
    let sealed = record::protect_cbc(
        keys(line),
        number(line, 3),
        content_type(line),
        array(line, 5),
        array(line, 6),
        bytes(line, 7, &mut text),
        &mut out,
    );
    print_answer(rt, Answer::Sealed(sealed.map(|n| front(&out, n))), used)
}

fn open(rt: &impl Print, line: &[u8], used: &mut usize) -> io::Result<()> {
    let mut sealed = [0; ROOM];
    let mut out = [0; ROOM];
    let o = opening::deprotect_cbc(
        keys(line),
        number(line, 3),
        content_type(line),
        array(line, 5),
        bytes(line, 6, &mut sealed),
        &mut out,
    );
    print_answer(rt, Answer::Opened(o.answer, front(&out, o.length)), used)
}

// ---- hash and MAC

fn sm3_whole(rt: &impl Print, line: &[u8], used: &mut usize) -> io::Result<()> {
    let mut message = [0; ROOM];
    derived(rt, &sm3::hash(bytes(line, 1, &mut message)), used)
}

fn hmac_whole(rt: &impl Print, line: &[u8], used: &mut usize) -> io::Result<()> {
    let mut key = [0; ROOM];
    let mut message = [0; ROOM];
    let mac = hmac::hmac_sm3(bytes(line, 1, &mut key), bytes(line, 2, &mut message));
    derived(rt, &mac, used)
}

// Zeros stand for a digest that is refused; none is, since each state here comes of a fresh one.
fn digest(rt: &impl Print, d: Result<[u8; 32], Refusal>, used: &mut usize) -> io::Result<()> {
    derived(rt, &d.unwrap_or([0; 32]), used)
}

// The state after an update for each field from field k on: protocol reads a field by its number.
fn after_fields<S: Drop, F: Fn(S, &[u8]) -> S>(line: &[u8], k: usize, mut state: S, update: F) -> S
    requires { F.IsAlwaysCallable update }
{
    let mut part = [0; ROOM];
    for i in k..=count(line) {
        state = update(state, bytes(line, i, &mut part));
    }
    state
}

fn hash_parts(line: &[u8]) -> Sm3 {
    after_fields(line, 1, Sm3::new(), |h, part| {
        h.update(part).unwrap_or(h)
    })
}

// The key, and an update for each field behind it.
fn mac_parts(line: &[u8]) -> HmacSm3 {
    let mut key = [0; ROOM];
    let keyed = HmacSm3::new(bytes(line, 1, &mut key));
    after_fields(line, 2, keyed, |m, part| { m.update(part).unwrap_or(m) })
}

// ---- key schedule

fn master(rt: &impl Print, line: &[u8], used: &mut usize) -> io::Result<()> {
    let mut out = [0; 48];
    let refused = key_schedule::derive_master_secret(
        &array::<48>(line, 1),
        &array::<32>(line, 2),
        &array::<32>(line, 3),
        &mut out,
    );
    outcome(rt, refused, &out, used)
}

// Of more than 1,024 bytes it is the Rust's alone, and bad here.
fn key_block(rt: &impl Print, line: &[u8], used: &mut usize) -> io::Result<()> {
    let len = number(line, 4);
    if 1024 < len {
        return bad(rt, used);
    }
    let n = len as usize;
    let mut out = [0; 1024];
    let refused = key_schedule::derive_key_block(
        &array::<48>(line, 1),
        &array::<32>(line, 2),
        &array::<32>(line, 3),
        &mut out[..n],
    );
    outcome(rt, refused, front(&out, n), used)
}

fn finished(rt: &impl Print, line: &[u8], used: &mut usize) -> io::Result<()> {
    let mut out = [0; 12];
    let refused = key_schedule::finished_verify_data(
        &array::<48>(line, 1),
        role(line, 2),
        &array::<32>(line, 3),
        &mut out,
    );
    outcome(rt, refused, &out, used)
}

// ---- lines

// Of a line that is too long one character more is kept than a line may have.
const LINE: usize = MAX_LINE + 1;

// A line, as far as it is read, in place: the program takes no memory as it runs.
#[derive(Drop)]
struct Line {
    bytes: [u8; LINE],
    count: usize,
}

impl Line {
    fn as_slice(&self) -> &[u8] {
        front(&self.bytes, self.count)
    }

    // One byte more, left out where there is no room.
    fn push(&mut self, byte: u8) {
        if self.count < LINE {
            self.bytes[self.count] = byte;
            self.count += 1;
        }
    }
}

// Takes in what is read. A line that ends in it is answered.
fn take(rt: &impl Print, line: &mut Line, input: &[u8], used: &mut usize) -> io::Result<()> {
    for &byte in input {
        if byte == b'\n' {
            run(rt, line.as_slice(), used)?;
            line.count = 0;
        } else {
            line.push(byte);
        }
    }
    Ok(())
}

// Input is read in blocks of so many bytes.
const BLOCK: usize = 4096;

// Reads until the input ends at the begin of a block. An end that follows some bytes of a block, as a terminal may give
// one, begins a new block, and so does a read that fails. A proved loop has to end, and nothing says that an input
// does: so the turns are counted, up to a number that no run uses up.
fn read(rt: &(impl Input + Print), line: &mut Line, used: &mut usize) -> io::Result<()> {
    let mut input = rt.reader();
    let mut block = [0; BLOCK];
    let mut done = 0;
    for _ in 0..u64::MAX {
        let n = input.read(&mut block[done..]).unwrap_or(0);
        if n == 0 && done == 0 {
            break;
        }
        take(rt, line, &block[done..done + n], used)?;
        done = if n == 0 { 0 } else { (done + n) % BLOCK };
    }
    Ok(())
}

// What is begun of a line at the end is answered.
fn main(rt: HostRuntime) -> io::Result<()> {
    let mut line = Line {
        bytes: [0; LINE],
        count: 0,
    };
    let mut used = 0;
    read(&rt, &mut line, &mut used)?;
    if 0 < line.count {
        run(&rt, line.as_slice(), &mut used)?;
    }
    Ok(())
}
