// What a line asks for: its first field is a command's word, and the fields behind it are as that command takes them.
use protocol::Kind::{self, Bytes, Number, Side, Sized};
use protocol::{all_bytes, count, fits, is_word};

#[derive(Clone, Copy, Debug, PartialEq, Eq)]
pub enum Command {
    Seal,
    Open,
    Sm3,
    Sm3Parts,
    Sm3State,
    Hmac,
    HmacParts,
    Enc,
    Dec,
    Master,
    KeyBlock,
    Finished,
}

const COMMANDS: [Command; 12] = [
    Command::Seal,
    Command::Open,
    Command::Sm3,
    Command::Sm3Parts,
    Command::Sm3State,
    Command::Hmac,
    Command::HmacParts,
    Command::Enc,
    Command::Dec,
    Command::Master,
    Command::KeyBlock,
    Command::Finished,
];

// The most characters of a line.
pub const MAX_LINE: usize = 4096;

impl Command {
    fn word(self) -> &'static [u8] {
        match self {
            Command::Seal => b"seal",
            Command::Open => b"open",
            Command::Sm3 => b"sm3",
            Command::Sm3Parts => b"sm3parts",
            Command::Sm3State => b"sm3state",
            Command::Hmac => b"hmac",
            Command::HmacParts => b"hmacparts",
            Command::Enc => b"enc",
            Command::Dec => b"dec",
            Command::Master => b"master",
            Command::KeyBlock => b"keyblock",
            Command::Finished => b"finished",
        }
    }

    // Whether the fields behind the word are as the command takes them.
    fn takes(self, line: &[u8]) -> bool {
        match self {
            Command::Seal => fits(
                line,
                &[
                    Side,
                    Sized(128),
                    Number,
                    Sized(1),
                    Sized(2),
                    Sized(16),
                    Bytes,
                ],
            ),
            Command::Open => fits(line, &[Side, Sized(128), Number, Sized(1), Sized(2), Bytes]),
            Command::Sm3 => fits(line, &[Bytes]),
            Command::Sm3Parts | Command::Sm3State => all_bytes(line),
            Command::Hmac => fits(line, &[Bytes, Bytes]),
            Command::HmacParts => 0 < count(line) && all_bytes(line),
            Command::Enc | Command::Dec => fits(line, &[Sized(16), Sized(16)]),
            Command::Master => fits(line, &[Sized(48), Sized(32), Sized(32)]),
            Command::KeyBlock => fits(line, &[Sized(48), Sized(32), Sized(32), Number]),
            Command::Finished => fits(line, &[Sized(48), Side, Sized(32)]),
        }
    }
}

// A line that is too long, malformed or of another command.
#[derive(Clone, Copy, Debug, PartialEq, Eq)]
pub struct Bad;

impl<'a> TryFrom<&'a [u8]> for Command {
    type Error = Bad;

    fn try_from(line: &'a [u8]) -> Result<Command, Bad> {
        if MAX_LINE < line.len() {
            return Err(Bad);
        }
        COMMANDS
            .iter()
            .copied()
            .find(|command| is_word(line, 0, command.word()) && command.takes(line))
            .ok_or(Bad)
    }
}
