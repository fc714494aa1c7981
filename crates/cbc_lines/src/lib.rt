// CBC both ways, as two lines that the programs of SM4's vectors print. No part of the library. As in `programs`, what
// is printed is no part of a contract.
#![tactic(auto)]

ghost use Rattle.std.specs.Prelude.{◌≡◌, IfOk};

use programs::Hex;
use sm4::Sm4Cipher;
use std::io;

// The most bytes of a body that are taken, and where it stands behind its IV.
const MOST: usize = 128;

const IV_LEN: usize = 16;

// A line: a copy of the body enciphered where it stands behind its IV. Another: what that deciphers to, block by block,
// over bytes 0xee. Of a body above 128 bytes only (length mod 129) are taken.
pub fn both_cbc(
    rt: &impl Print,
    name: &[u8],
    cipher: Sm4Cipher,
    iv: [u8; 16],
    body: &[u8],
) -> io::Result<()>
    ensures { IfOk result (λ v. v ≡ tt) }
{
    let n = body.len() % (MOST + 1);
    let mut room = [0u8; IV_LEN + MOST];
    let record = &mut room[..IV_LEN + n];
    record[..IV_LEN].copy_from_slice(&iv);
    record[IV_LEN..].copy_from_slice(&body[..n]);
    cbc::encipher_cbc(cipher, iv, &mut record[IV_LEN..]);
    rt.write_all(name)?;
    println!(rt; "-encrypt {}", Hex(&record[IV_LEN..]))?;
    let mut opened = [0xeeu8; MOST];
    let out = &mut opened[..n];
    // k is the number of a block of the body, which `decipher_block_cbc` takes
    for k in 0..n / 16 {
        cbc::decipher_block_cbc(cipher, record, k, out);
    }
    rt.write_all(name)?;
    println!(rt; "-decrypt {}", Hex(out))
}
