// Takes the halves of a key block and seals texts about the ends of blocks and of the limit, and writes what is
// answered, one line each. The file stdout has the values of other implementations, which the script `expected`
// gathers.
#![tactic(auto)]

use answers::number_of;
use key_schedule::TlcpRole;
use programs::{Hex, spread};
use record::{RecordKeysCbc, TLCP_RECORD_VERSION};
use std::io;

// What stands for the keys of a half that is refused.
const NO_KEYS: RecordKeysCbc = RecordKeysCbc {
    mac_key: [0; 32],
    enc_key: [0; 16],
};

// The halves of the pattern's first n bytes, by name and by role: a line each has the answer and the keys.
fn halves(rt: &impl Print, n: u8) -> io::Result<()> {
    let mut m = [0u8; 256];
    spread(7, 3, &mut m);
    let key_block = &m[..usize::from(n)];
    for (name, half) in [
        ("client", RecordKeysCbc::client_half(key_block)),
        ("server", RecordKeysCbc::server_half(key_block)),
        (
            "role-client",
            RecordKeysCbc::from_key_block(TlcpRole::Client, key_block),
        ),
        (
            "role-server",
            RecordKeysCbc::from_key_block(TlcpRole::Server, key_block),
        ),
    ] {
        let keys = half.unwrap_or(NO_KEYS);
        println!(rt;
            "{name}-{n} {} {} {}",
            number_of(half),
            Hex(&keys.mac_key),
            Hex(&keys.enc_key)
        )?;
    }
    Ok(())
}

// The longest text and the most room that are tried: the program takes no heap.
const MOST_TEXT: usize = 16385;

const MOST_ROOM: usize = 16464;

// A line: the pattern's first n bytes sealed under the keys of a role, into room bytes that held 0xee before. Its first
// 128 bytes are the key block. The lengths of both, the answer, the record's length or 0, and all of out afterwards, or
// its digest where it is long.
fn seal(rt: &impl Print, role: TlcpRole, n: usize, room: usize) -> io::Result<()> {
    let mut key_block = [0u8; 128];
    spread(7, 3, &mut key_block);
    let keys = RecordKeysCbc::from_key_block(role, &key_block).unwrap_or(NO_KEYS);
    let mut iv = [0u8; 16];
    spread(15, 15, &mut iv);
    let mut m = [0u8; MOST_TEXT];
    spread(7, 3, &mut m);
    let mut held = [0xeeu8; MOST_ROOM];
    let out = &mut held[..room.min(MOST_ROOM)];
    let sealed = record::protect_cbc(
        keys,
        0x0102_0304_0506_0708,
        23,
        TLCP_RECORD_VERSION,
        iv,
        &m[..n.min(MOST_TEXT)],
        out,
    );
    print!(rt;
        "seal-{n}-{room} {} {} ",
        number_of(sealed),
        sealed.unwrap_or(0)
    )?;
    if room <= 96 {
        println!(rt; "{}", Hex(out))
    } else {
        println!(rt; "{}", Hex(&sm3::hash(out)))
    }
}

fn main(rt: HostRuntime) -> io::Result<()> {
    for n in [128, 127, 129] {
        halves(&rt, n)?;
    }
    for (role, n, room) in [
        (TlcpRole::Client, 0, 64),
        (TlcpRole::Client, 1, 65),
        (TlcpRole::Server, 15, 80),
        (TlcpRole::Server, 16, 80),
        (TlcpRole::Client, 17, 96),
        (TlcpRole::Client, 31, 90),
        (TlcpRole::Server, 32, 96),
        (TlcpRole::Client, 255, 320),
        (TlcpRole::Client, 256, 320),
        (TlcpRole::Client, 256, 336),
        (TlcpRole::Server, 16383, 16464),
        (TlcpRole::Client, 16384, 16448),
        // no room, too long, and both at once
        (TlcpRole::Client, 0, 63),
        (TlcpRole::Client, 16384, 16447),
        (TlcpRole::Client, 16385, 16464),
        (TlcpRole::Client, 16385, 0),
    ] {
        seal(&rt, role, n, room)?;
    }
    Ok(())
}
