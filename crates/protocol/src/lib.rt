// The lines of the comparison with the Rust: fields with one space between them, the command first, which is field 0. A
// field is a side, c or s, a number in decimal, or bytes in lower-case hexadecimal, `-` for none. A character is a
// byte. Nothing here is secret.
#![tactic(auto)]

ghost use Rattle.std.specs.Prelude.{◌≡◌};
ghost use Rattle.words.specs.Lists.{agree};
ghost use Rattle.protocol.specs.Fields.{times, field_of, digit_of, size_of, with_digit, number_of};
ghost use Rattle.protocol.specs.Kinds.{is_kind, fits_line, all_bytes};
ghost use Rattle.protocol.specs.Promise.{Decoded};

// What a field may be: `Sized` is so many bytes, `Bytes` any number of them.
#[derive(Clone, Copy, Debug, PartialEq, Eq)]
pub enum Kind {
    Side,
    Number,
    Bytes,
    Sized(usize),
}

// How many fields stand behind the command: one behind each space.
#[tactic(auto, using(crate::proofs::Parts::times_count))]
pub fn count(line: &[u8]) -> usize
    ensures { result ≡ times 0x20 line.now }
{
    line.iter().filter(|c| **c == b' ').count()
}

// Field k, empty where there is none.
fn field(line: &[u8], k: usize) -> &[u8]
    ensures { result.now ≡ field_of k line.now }
{
    line.split(|c| *c == b' ').nth(k).unwrap_or(&[])
}

// The value of a digit, 0 to 9 or a to f; of another character some number below 16. `to_digit` gives none there, and
// `decode` would need a case for it.
#[tactic(auto, unfolding(crate::specs::Fields::digit_of))]
fn digit(c: u8) -> u8
    ensures { result ≡ digit_of c }
{
    if c < b'a' { c % 16 } else { (c % 16 + 9) % 16 }
}

// How many bytes a field is in hexadecimal, `-` for none.
#[tactic(auto, using(crate::proofs::Agree::is_agree), unfolding(crate::specs::Fields::size_of))]
fn size(f: &[u8]) -> Option<usize>
    ensures { result ≡ size_of f.now }
{
    if f == b"-".as_slice() {
        return Some(0);
    }
    if f.is_empty() || f.len() % 2 != 0 || !lines::all_hex(f) {
        return None;
    }
    Some(f.len() / 2)
}

// A number with one more digit behind it.
#[tactic(auto, using(crate::proofs::Numbers::one_digit), unfolding(crate::specs::Fields::with_digit))]
fn with_digit(value: u64, c: u8) -> Option<u64>
    ensures { result ≡ with_digit value c }
{
    let d = (c as char).to_digit(10)?;
    value.checked_mul(10)?.checked_add(d as u64)
}

// A field in decimal; none where it is empty, has another character or is above 2^64 - 1.
#[tactic(auto, using(crate::proofs::Numbers::all_digits), unfolding(crate::specs::Fields::number_of))]
fn number(f: &[u8]) -> Option<u64>
    ensures { result ≡ number_of f.now }
{
    if f.is_empty() {
        return None;
    }
    let mut value = 0;
    for c in f {
        value = with_digit(value, *c)?;
    }
    Some(value)
}

// Whether field k is the word.
#[tactic(auto, using(crate::proofs::Agree::is_agree))]
pub fn is_word(line: &[u8], k: usize, word: &[u8]) -> bool
    ensures { result ≡ agree (field_of k line.now) word.now }
{
    field(line, k) == word
}

// Field k as a number.
pub fn number_at(line: &[u8], k: usize) -> Option<u64>
    ensures { result ≡ number_of (field_of k line.now) }
{
    number(field(line, k))
}

// Whether a field is of a kind.
#[tactic(auto, using(crate::proofs::Agree::is_agree), unfolding(crate::specs::Kinds::is_kind))]
fn is(f: &[u8], kind: Kind) -> bool
    ensures { result ≡ is_kind f.now kind }
{
    match kind {
        Kind::Side => f == b"c".as_slice() || f == b"s".as_slice(),
        Kind::Number => number(f).is_some(),
        Kind::Bytes => size(f).is_some(),
        Kind::Sized(n) => size(f) == Some(n),
    }
}

// Whether the fields behind the command are of these kinds, one each.
pub fn fits(line: &[u8], kinds: &[Kind]) -> bool
    ensures { result ≡ fits_line line.now kinds.now }
{
    let as_many = count(line) == kinds.len();
    as_many
        && line
            .split(|c| *c == b' ')
            .skip(1)
            .zip(kinds)
            .all(|(f, kind)| is(f, *kind))
}

// Whether all fields behind the command are bytes.
pub fn all_bytes(line: &[u8]) -> bool
    ensures { result ≡ all_bytes line.now }
{
    line.split(|c| *c == b' ')
        .skip(1)
        .all(|f| is(f, Kind::Bytes))
}

// The bytes of field k into the front of out, and how many they are; none and out as found where it has no room for
// them. No `Option`: `Decoded` promises the number. By the place: nothing is known of what a zip with `iter_mut`
// leaves.
pub fn decode(line: &[u8], k: usize, out: &mut [u8]) -> usize
    ensures { Decoded line.now k out.old result out.new }
{
    let f = field(line, k);
    let n = f.len() / 2;
    if out.len() < n {
        return 0;
    }
    for (i, pair) in f.chunks_exact(2).enumerate() {
        let high = digit(pair[0]);
        let low = digit(pair[1]);
        out[i] = 16 * high + low;
    }
    n
}
