// Runs SM4, block by block and in mode CBC, on vectors that other implementations publish, and writes what it answers,
// one line each. The file stdout has their values, which the script `expected` gathers and names.
#![tactic(auto)]

use cbc_lines::both_cbc;
use programs::Hex;
use sm4::Sm4Cipher;
use std::io;

// A line: what turn makes of each block by itself.
fn turned<F: Fn([u8; 16]) -> [u8; 16]>(
    rt: &impl Print,
    name: &str,
    way: &str,
    blocks: &[u128],
    turn: &F,
) -> io::Result<()>
    requires { F.IsAlwaysCallable turn.now }
{
    print!(rt; "{name}-{way} ")?;
    for block in blocks {
        print!(rt; "{}", Hex(&turn(block.to_be_bytes())))?;
    }
    println!(rt; "")
}

// Name, key, plain blocks and cipher blocks, as each is published.
const ECBS: [(&str, u128, &[u128], &[u128]); 6] = [
    (
        "openssl-ecb",
        0x0123456789abcdeffedcba9876543210,
        &[0x0123456789abcdeffedcba9876543210],
        &[0x681edf34d206965e86b3e94f536e4246],
    ),
    (
        "libgcrypt-ecb-1",
        0x0123456789abcdeffedcba9876543210,
        &[
            0xaaaaaaaabbbbbbbbccccccccdddddddd,
            0xeeeeeeeeffffffffaaaaaaaabbbbbbbb,
        ],
        &[
            0x5ec8143de509cff7b5179f8f474b8619,
            0x2f1d305a7fb17df985f81c8482192304,
        ],
    ),
    (
        "libgcrypt-ecb-2",
        0xfedcba98765432100123456789abcdef,
        &[
            0xaaaaaaaabbbbbbbbccccccccdddddddd,
            0xeeeeeeeeffffffffaaaaaaaabbbbbbbb,
        ],
        &[
            0xc5876897e4a59bbba72a10c83872245b,
            0x12dd90bc2d200692b529a4155ac9e600,
        ],
    ),
    (
        "botan-ecb",
        0x681edf34d206965e86b3e94f536e4246,
        &[
            0xf42131b002425b6f5cf52a810682a09d,
            0x07bcae6a8388e14651fed84b3749d386,
            0xf4762615b32c000a165e1d722d708052,
            0xba3c19d8926356ed1491c6e4e528782f,
        ],
        &[
            0xec4b7b1757fee9ce455197e5bf9c3a90,
            0x89f2c41ed97dbb1b74a2ad93b903bbc9,
            0xf45a41052f9bf3d5b65df8cc1c75b4cf,
            0x3e1f30d57df4b60694f566de44484faf,
        ],
    ),
    (
        "crypto++-ecb-1",
        0xeb23add6454757555747395b76661c9a,
        &[0xd294d879a1f02c7c5906d6c2d0c54d9f],
        &[0x865de90d6b6e99273e2d44859d9c16df],
    ),
    (
        "crypto++-ecb-2",
        0xf11235535318fa844a3cbe643169f59e,
        &[0xa27ee076e48e6f389710ec7b5e8a3be5],
        &[0x94cfe3f59e8507fec41dbe738ccd53e1],
    ),
];

// The plain blocks of each are enciphered, and the cipher blocks deciphered.
fn ecbs(rt: &impl Print) -> io::Result<()> {
    for (name, key, plain, closed) in ECBS {
        let cipher = Sm4Cipher::new(key.to_be_bytes());
        turned(rt, name, "encrypt", plain, &|b| cipher.encrypt_block(b))?;
        turned(rt, name, "decrypt", closed, &|b| cipher.decrypt_block(b))?;
    }
    Ok(())
}

// Name, key, IV and plain blocks.
const CBCS: [(&str, u128, u128, [u128; 2]); 4] = [
    (
        "openssl-cbc",
        0x0123456789abcdeffedcba9876543210,
        0x0123456789abcdeffedcba9876543210,
        [
            0x0123456789abcdeffedcba9876543210,
            0x0123456789abcdeffedcba9876543210,
        ],
    ),
    (
        "crypto++-cbc-1",
        0xb60b64598b7c3b4cace7f79e0e6a04e4,
        0x3976d813a095b411050652196b88f85d,
        [
            0x20d88fa20206e4c05b173659b9eb4093,
            0x4534c3528544b7ec1160143c612ba781,
        ],
    ),
    (
        "crypto++-cbc-2",
        0x088d295d113c7293d6bcf4672acfa99a,
        0x06eac32d27f8f7daabe4c11249abf9ac,
        [
            0x43696982bc5872405f545d4aa5cfb2db,
            0xd7f08a55dafef734174b32f3f349efe6,
        ],
    ),
    (
        "crypto++-cbc-3",
        0x17f2c0b6780285e8c55ca80b16a8405e,
        0x6568f64cc25c82a46ab2aa72a096dab9,
        [
            0xe76c0998ab76a337d27a5d2a135d8fd8,
            0x5176919a6ba41e824c816b678969fbce,
        ],
    ),
];

// The plain blocks of each are enciphered, and what comes of them is deciphered.
fn cbcs(rt: &impl Print) -> io::Result<()> {
    for (name, key, iv, [first, second]) in CBCS {
        let mut body = [0; 32];
        body[..16].copy_from_slice(&first.to_be_bytes());
        body[16..].copy_from_slice(&second.to_be_bytes());
        both_cbc(
            rt,
            name.as_bytes(),
            Sm4Cipher::new(key.to_be_bytes()),
            iv.to_be_bytes(),
            &body,
        )?;
    }
    Ok(())
}

fn main(rt: HostRuntime) -> io::Result<()> {
    ecbs(&rt)?;
    cbcs(&rt)
}
