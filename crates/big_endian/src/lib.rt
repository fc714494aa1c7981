// Numbers as bytes and back, the highest byte first: the library's methods, under the definitions of words. One
// function for each width, since each is one call: a trait over them would have the same six bodies, and its laws
// besides.
#![tactic(auto)]

ghost use Rattle.std.specs.Prelude.{◌≡◌};
ghost use Rattle.words.specs.Bytes.{be, number};

pub fn u16_from_be_bytes(b: [u8; 2]) -> u16
    ensures { result ≡ number b }
{
    u16::from_be_bytes(b)
}

pub fn u32_from_be_bytes(b: [u8; 4]) -> u32
    ensures { result ≡ number b }
{
    u32::from_be_bytes(b)
}

pub fn u64_from_be_bytes(b: [u8; 8]) -> u64
    ensures { result ≡ number b }
{
    u64::from_be_bytes(b)
}

// The bytes of a number, the highest first.
pub fn u16_to_be_bytes(x: u16) -> [u8; 2]
    ensures { result ≡ be 2 x }
{
    u16::to_be_bytes(x)
}

pub fn u32_to_be_bytes(x: u32) -> [u8; 4]
    ensures { result ≡ be 4 x }
{
    u32::to_be_bytes(x)
}

pub fn u64_to_be_bytes(x: u64) -> [u8; 8]
    ensures { result ≡ be 8 x }
{
    u64::to_be_bytes(x)
}
