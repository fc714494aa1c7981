// Records that the programs of vectors open, made by hand: a text by a rule, its MAC, padding of any length, and all
// that enciphered. No part of the library, whose sealing takes the shortest padding only.
#![tactic(auto)]

ghost use Rattle.std.specs.Prelude.{◌≡◌};
ghost use Rattle.made_records.specs.Made.{keys};
ghost use Rattle.made_records.specs.Promise.{Laid, Closed};

use programs::spread;
use record::{IV_LEN, MAC_LEN, RecordKeysCbc, TLCP_RECORD_VERSION};
use sm4::Sm4Cipher;

// What the header of each record has.
pub const NUMBER: u64 = 0x0102_0304_0506_0708;

pub const TYPE: u8 = 23;

// The client's keys of a key block made by a rule.
pub fn keys() -> RecordKeysCbc
    ensures { result ≡ keys }
{
    let mut key_block = [0u8; 128];
    spread(13, 1, &mut key_block);
    RecordKeysCbc::client_half(&key_block).unwrap()
}

// A text of len bytes, its MAC, and padding as far as there is room, laid behind the place of the IV. A record that has
// no room for the text stays as found.
pub fn lay_body(len: u16, padlen: u8, record: &mut [u8])
    ensures { Laid len padlen «record».old «record».new }
{
    let end = IV_LEN + usize::from(len);
    if record.len() < end {
        return;
    }
    // byte i behind the IV is 7 i + 94; right in front of it stands what else the MAC covers, till the IV is laid there
    spread(7, 238, record);
    let header = record::record_header(NUMBER, TYPE, TLCP_RECORD_VERSION, len);
    words::copy_at(record, 3, &header);
    let mac = hmac::hmac_sm3(&keys().mac_key, &record[3..end]);
    words::copy_at(record, end, &mac);
    words::fill_at(record, end + MAC_LEN, usize::from(padlen) + 1, padlen);
}

// The IV laid in front of the body, which is enciphered where it stands. A record that has no room for the IV stays as
// found.
pub fn close(record: &mut [u8])
    ensures { Closed «record».old «record».new }
{
    if record.len() < IV_LEN {
        return;
    }
    let iv = [0xa5u8; IV_LEN];
    words::copy_at(record, 0, &iv);
    cbc::encipher_cbc(Sm4Cipher::new(keys().enc_key), iv, &mut record[IV_LEN..]);
}
