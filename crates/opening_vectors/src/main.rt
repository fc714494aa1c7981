// Opens records by the one call: every length of padding, the sizes about each limit, texts longer than what is sealed,
// wrong padding, wrong MACs, headers of another record, and rooms. A line has the answer, the length, the count and a
// digest of the whole output. The file stdout has the values of other implementations, which the script `expected`
// gathers.
#![tactic(auto)]

use made_records::{NUMBER, TYPE};
use programs::{Hex, spread};
use record::{IV_LEN, TLCP_RECORD_VERSION};
use std::io;

// The longest record that is made, and the most room: parts of arrays of this size, so that the program takes no heap.
const MOST: usize = 16464;

// A record and how it is opened.
#[derive(Clone, Copy)]
struct Case {
    // of the body, of the text in it, and of the padding behind that and its MAC
    n: u16,
    len: u16,
    padlen: u8,
    // the bits of mask are turned in this byte of the body
    at: u16,
    mask: u8,
    // what the opening is told of the header
    seq: u64,
    content_type: u8,
    version: [u8; 2],
    // how much of the record is there, zeros behind its end, and how much room
    record_len: usize,
    room: usize,
}

impl Case {
    // A whole record under the header that its MAC covers, and five bytes more room than its body needs.
    fn new(n: u16, len: u16, padlen: u8) -> Self {
        Case {
            n,
            len,
            padlen,
            at: 0,
            mask: 0,
            seq: NUMBER,
            content_type: TYPE,
            version: TLCP_RECORD_VERSION,
            record_len: IV_LEN + usize::from(n),
            room: usize::from(n) + 5,
        }
    }

    // The rest of a line: the report, and the digest of the output, which held another pattern.
    fn open(self, rt: &impl Print) -> io::Result<()> {
        let mut record = [0u8; MOST];
        let whole = &mut record[..(IV_LEN + usize::from(self.n)).min(MOST)];
        made_records::lay_body(self.len, self.padlen, whole);
        if let Some(byte) = whole.get_mut(IV_LEN + usize::from(self.at)) {
            *byte ^= self.mask;
        }
        made_records::close(whole);
        let mut held = [0u8; MOST];
        let out = &mut held[..self.room.min(MOST)];
        spread(11, 5, out);
        let o = opening::deprotect_cbc(
            made_records::keys(),
            self.seq,
            self.content_type,
            self.version,
            &record[..self.record_len.min(MOST)],
            out,
        );
        println!(rt;
            " {} {} {} {}",
            o.answer,
            o.length,
            o.count,
            Hex(&sm3::hash(out))
        )
    }
}

// A body of 304 bytes with each length of padding that a byte can name.
fn every_padding(rt: &impl Print) -> io::Result<()> {
    for padlen in 0..=255u8 {
        print!(rt; "padding-304-{padlen}")?;
        Case::new(304, 271 - u16::from(padlen), padlen).open(rt)?;
    }
    Ok(())
}

// The longest texts that a body of the largest size holds; all but the first are longer than what is sealed.
fn longest_texts(rt: &impl Print) -> io::Result<()> {
    for spare in 0..16u8 {
        let len = 16399 - u16::from(spare);
        print!(rt; "text-{len}-{spare}")?;
        Case::new(16432, len, spare).open(rt)?;
    }
    Ok(())
}

// Texts about as long as their bodies leave room for, with padding that may not fit.
fn edges(rt: &impl Print) -> io::Result<()> {
    for (n, len, padlen) in [
        (48, 15, 0),
        (48, 1, 14),
        (48, 0, 15),
        (48, 0, 16),
        (48, 0, 255),
        (64, 0, 31),
        (64, 0, 32),
        (272, 0, 239),
        (272, 0, 240),
        (272, 0, 255),
        (288, 1, 254),
        (288, 0, 255),
        (16432, 16144, 255),
    ] {
        print!(rt; "edge-{n}-{padlen}")?;
        Case::new(n, len, padlen).open(rt)?;
    }
    Ok(())
}

// A wrong byte in a text of 100 bytes, its MAC up to 132, and padding of 172 bytes. The last byte becomes 170, 0 (good
// padding, and so the MAC is looked for elsewhere) and 255.
fn wrong_bytes(rt: &impl Print) -> io::Result<()> {
    for (at, mask) in [
        (0, 1),
        (99, 0x80),
        (132, 1),
        (133, 0x80),
        (200, 0x10),
        (287, 1),
        (288, 2),
        (302, 0xff),
        (303, 1),
        (303, 0xab),
        (303, 0x54),
    ] {
        print!(rt; "turned-{at}-{mask}")?;
        let case = Case {
            at,
            mask,
            ..Case::new(304, 100, 171)
        };
        case.open(rt)?;
    }
    Ok(())
}

// One bit wrong in each byte of the MAC.
fn wrong_macs(rt: &impl Print, mask: u8) -> io::Result<()> {
    for i in 0..32u16 {
        print!(rt; "mac-{i}-{mask}")?;
        let case = Case {
            at: 20 + i,
            mask,
            ..Case::new(80, 20, 27)
        };
        case.open(rt)?;
    }
    Ok(())
}

// The header that the MAC covers, and another number, type or version.
fn other_headers(rt: &impl Print) -> io::Result<()> {
    let headers = [
        (NUMBER, TYPE, [1, 1]),
        (NUMBER + 1, TYPE, [1, 1]),
        (NUMBER, 22, [1, 1]),
        (NUMBER, TYPE, [1, 0]),
    ];
    for (k, &(seq, content_type, version)) in headers.iter().enumerate() {
        print!(rt; "header-80-{k}")?;
        let case = Case {
            seq,
            content_type,
            version,
            ..Case::new(80, 20, 27)
        };
        case.open(rt)?;
    }
    Ok(())
}

// Records of which only so many bytes are there, or more, and rooms.
fn sizes(rt: &impl Print) -> io::Result<()> {
    let small = Case::new(48, 0, 15);
    let middle = Case::new(64, 3, 28);
    let large = Case::new(16432, 16384, 15);
    let too_large = Case::new(16448, 16384, 31);
    for (whole, record_len, room) in [
        (small, 0, 0),
        (small, 16, 0),
        (small, 63, 48),
        (small, 63, 0),
        (small, 64, 48),
        (small, 64, 47),
        (small, 65, 64),
        (small, 65, 0),
        (middle, 79, 64),
        (middle, 80, 64),
        (middle, 80, 63),
        (large, 16448, 16432),
        (large, 16448, 16431),
        (large, 16449, 16464),
        (too_large, 16464, 16448),
        (too_large, 16464, 0),
    ] {
        print!(rt; "size-{record_len}-{room}")?;
        let case = Case {
            record_len,
            room,
            ..whole
        };
        case.open(rt)?;
    }
    Ok(())
}

fn main(rt: HostRuntime) -> io::Result<()> {
    every_padding(&rt)?;
    longest_texts(&rt)?;
    edges(&rt)?;
    wrong_bytes(&rt)?;
    wrong_macs(&rt, 1)?;
    wrong_macs(&rt, 128)?;
    other_headers(&rt)?;
    sizes(&rt)
}
