// Runs the three derivations on right lengths and on lengths one off, and writes what each answers and leaves in its
// output, one line each. The file stdout has the values of OpenSSL, which the script `expected` gathers.
#![tactic(auto)]

ghost use Rattle.std.specs.Prelude.{◌≡◌, length};

use answers::{Refusal, number_of};
use key_schedule::TlcpRole;
use programs::{Hex, spread};
use std::{fmt, io};

#[derive(Clone, Copy)]
enum Derivation {
    MasterSecret,
    KeyBlock,
    Finished(TlcpRole),
}

impl fmt::Display for Derivation {
    fn fmt<W: fmt::Write>(&self, f: &mut fmt::Formatter<W>) -> fmt::Result {
        f.write_str(match self {
            Derivation::MasterSecret => "master-secret",
            Derivation::KeyBlock => "key-block",
            Derivation::Finished(TlcpRole::Client) => "client-finished",
            Derivation::Finished(TlcpRole::Server) => "server-finished",
        })
    }
}

impl Derivation {
    // A Finished message has no second part.
    fn derive(
        self,
        secret: &[u8],
        first: &[u8],
        second: &[u8],
        out: &mut [u8],
    ) -> Result<(), Refusal> {
        match self {
            Derivation::MasterSecret => {
                key_schedule::derive_master_secret(secret, first, second, out)
            }
            Derivation::KeyBlock => key_schedule::derive_key_block(secret, first, second, out),
            Derivation::Finished(role) => {
                key_schedule::finished_verify_data(secret, role, first, out)
            }
        }
    }
}

// The most bytes of an input and of an output that are tried.
const MOST_IN: usize = 64;

const MOST_OUT: usize = 1025;

// N bytes of a pattern.
fn pattern<const N: usize>(step: u8, first: u8) -> [u8; N]
    ensures { length result ≡ N }
{
    let mut bytes = [0; N];
    spread(step, first, &mut bytes);
    bytes
}

// A line: a derivation on inputs of these lengths and an output of n bytes, the answer, and the output or a dash for
// none. No two inputs begin with the same byte, and the output is filled beforehand.
fn run(rt: &impl Print, derivation: Derivation, lengths: [usize; 3], n: usize) -> io::Result<()> {
    let [a, b, c] = lengths;
    let secret = pattern::<MOST_IN>(11, 1);
    let first = pattern::<MOST_IN>(11, 2);
    let second = pattern::<MOST_IN>(11, 3);
    let mut held = pattern::<MOST_OUT>(7, 3);
    let out = &mut held[..n.min(MOST_OUT)];
    let answer = number_of(derivation.derive(
        &secret[..a.min(MOST_IN)],
        &first[..b.min(MOST_IN)],
        &second[..c.min(MOST_IN)],
        out,
    ));
    print!(rt; "{derivation}-{a}-{b}-{c}-{n} {answer} ")?;
    if out.is_empty() {
        println!(rt; "-")
    } else {
        println!(rt; "{}", Hex(out))
    }
}

fn master_secrets(rt: &impl Print) -> io::Result<()> {
    for (lengths, n) in [
        ([48, 32, 32], 48),
        ([47, 32, 32], 48),
        ([49, 32, 32], 48),
        ([48, 31, 32], 48),
        ([48, 33, 32], 48),
        ([48, 32, 31], 48),
        ([48, 32, 33], 48),
        ([48, 32, 32], 47),
        ([48, 32, 32], 49),
    ] {
        run(rt, Derivation::MasterSecret, lengths, n)?;
    }
    Ok(())
}

// Outputs of several lengths, and then inputs of wrong ones.
fn key_blocks(rt: &impl Print) -> io::Result<()> {
    for n in [0, 1, 31, 32, 33, 40, 64, 128, 1023, 1024, 1025] {
        run(rt, Derivation::KeyBlock, [48, 32, 32], n)?;
    }
    for (lengths, n) in [
        ([47, 32, 32], 128),
        ([49, 32, 32], 128),
        ([48, 31, 32], 128),
        ([48, 33, 32], 128),
        ([48, 32, 31], 128),
        ([48, 32, 33], 128),
        ([47, 32, 32], 0),
    ] {
        run(rt, Derivation::KeyBlock, lengths, n)?;
    }
    Ok(())
}

fn finished(rt: &impl Print) -> io::Result<()> {
    for (role, lengths, n) in [
        (TlcpRole::Client, [48, 32, 0], 12),
        (TlcpRole::Server, [48, 32, 0], 12),
        (TlcpRole::Client, [47, 32, 0], 12),
        (TlcpRole::Server, [49, 32, 0], 12),
        (TlcpRole::Client, [48, 31, 0], 12),
        (TlcpRole::Server, [48, 33, 0], 12),
        (TlcpRole::Client, [48, 32, 0], 11),
        (TlcpRole::Server, [48, 32, 0], 13),
    ] {
        run(rt, Derivation::Finished(role), lengths, n)?;
    }
    Ok(())
}

fn main(rt: HostRuntime) -> io::Result<()> {
    master_secrets(&rt)?;
    key_blocks(&rt)?;
    finished(&rt)
}
