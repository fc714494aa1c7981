// TLCP's key schedule, GB/T 38636-2020 section 6.5, from the Rust's key_schedule.rs: P_hash of RFC 5246 with HMAC-SM3,
// and the three derivations made of it. A length out of place is refused (answer 9), before all else, and the output
// stays as found. Lengths, labels, the role and the output's length are public; the secrets and what is made of them
// are not branched on.
#![tactic(auto)]

ghost use Rattle.std.specs.Prelude.{◌++◌, ◌≡◌, ◌≤◌, length};
ghost use Rattle.answers.specs.Answers.{number_of};
ghost use Rattle.sm3.specs.Standard.{SM3};
ghost use Rattle.hmac.specs.Rfc2104.{HMAC};
ghost use Rattle.key_schedule.specs.Promise.{MasterSecret, KeyBlock, Finished};
ghost use Rattle.key_schedule.specs.Rest.{rest};
ghost use Rattle.key_schedule.specs.Sizes.{max_key_block, inputs_right, Asked, Small};
ghost use Rattle.key_schedule.specs.Standard.{PRF, label_of};

use answers::Refusal;
use sm3::DIGEST_SIZE;

// Of the pre-master secret and of the master secret.
pub const MASTER_SECRET_LEN: usize = 48;

pub const FINISHED_VERIFY_DATA_LEN: usize = 12;

// Of each random, and of the transcript's hash.
pub const RANDOM_LEN: usize = 32;

pub const MAX_KEY_BLOCK: usize = 1024;

// Whose Finished message it is.
#[derive(Clone, Copy)]
pub enum TlcpRole {
    Client,
    Server,
}

impl TlcpRole {
    // What the seed of its Finished message begins with.
    fn label(self) -> &'static [u8]
        ensures { result.now ≡ label_of self }
    {
        match self {
            TlcpRole::Client => b"client finished",
            TlcpRole::Server => b"server finished",
        }
    }
}

// What an expansion is made of: the secret, and the seed in its three parts. They are so short that no count of
// HMAC-SM3 wraps.
#[derive(Clone, Copy)]
struct Expansion<'a> {
    secret: &'a [u8],
    label: &'a [u8],
    first: &'a [u8],
    second: &'a [u8],
    ghost small: { Small secret.now label.now first.now second.now },
}

impl<'a> Expansion<'a> {
    // HMAC-SM3 of a and the seed end to end: the running MAC takes the parts one after the other.
    fn mac(&self, a: &[u8]) -> [u8; DIGEST_SIZE]
        requires { length a.now ≤ 64 }
        ensures { result ≡ HMAC SM3 self.now.secret.now (a.now ++ (self.now.label.now ++ (self.now.first.now ++ self.now.second.now))) }
    {
        hmac::hmac_sm3_parts(self.secret, &[a, self.label, self.first, self.second])
    }

    // HMAC-SM3 of A(i): A(i + 1).
    fn next_a(&self, a: [u8; DIGEST_SIZE]) -> [u8; DIGEST_SIZE]
        ensures { result ≡ HMAC SM3 self.now.secret.now a }
    {
        hmac::hmac_sm3(self.secret, &a)
    }

    // The output from A(i) = a on: one block, cut where out is shorter, and what remains by a call of itself from A(i +
    // 1). One call for each block: the measure is the number of blocks that out takes, which falls with every call and
    // is 1 to 32 at each (one-to-32 of proofs/Depth.antt), so at most 32 calls stand on the stack.
    fn p_sm3(&self, a: [u8; DIGEST_SIZE], out: &mut [u8])
        requires { Asked (length out.old) }
        ensures { out.new ≡ rest (HMAC SM3) self.now.secret.now (self.now.label.now ++ (self.now.first.now ++ self.now.second.now)) a (length out.old) }
    {
        let block = self.mac(&a);
        words::copy_at(out, 0, &block);
        if DIGEST_SIZE < out.len() {
            let next = self.next_a(a);
            self.p_sm3(next, &mut out[DIGEST_SIZE..]);
        }
    }

    // P_hash from its start: A(1) is the MAC of the seed. Nothing is worked out where nothing is asked for.
    fn prf(&self, out: &mut [u8])
        requires { length out.old ≤ max_key_block }
        ensures { out.new ≡ PRF self.now.secret.now self.now.label.now (self.now.first.now ++ self.now.second.now) (length out.old) }
    {
        if 0 < out.len() {
            self.p_sm3(self.mac(b""), out);
        }
    }
}

// Whether a secret and two randoms have the lengths that both derivations from them ask for.
#[tactic(auto, unfolding(crate::specs::Sizes::inputs_right))]
fn inputs_right(secret: &[u8], client_random: &[u8], server_random: &[u8]) -> bool
    ensures { result ≡ inputs_right secret.now client_random.now server_random.now }
{
    secret.len() == MASTER_SECRET_LEN
        && client_random.len() == RANDOM_LEN
        && server_random.len() == RANDOM_LEN
}

// The master secret from the pre-master secret, the client's random first.
pub fn derive_master_secret(
    pre_master: &[u8],
    client_random: &[u8],
    server_random: &[u8],
    out: &mut [u8],
) -> Result<(), Refusal>
    ensures { MasterSecret pre_master.now client_random.now server_random.now out.old (number_of result) out.new }
{
    if !inputs_right(pre_master, client_random, server_random) || out.len() != MASTER_SECRET_LEN {
        return Err(Refusal::WrongSize);
    }
    let expansion = Expansion {
        secret: pre_master,
        label: b"master secret",
        first: client_random,
        second: server_random,
    };
    expansion.prf(out);
    Ok(())
}

// The key block from the master secret, as long as out. The server's random comes first here.
pub fn derive_key_block(
    master_secret: &[u8],
    client_random: &[u8],
    server_random: &[u8],
    out: &mut [u8],
) -> Result<(), Refusal>
    ensures { KeyBlock master_secret.now client_random.now server_random.now out.old (number_of result) out.new }
{
    if !inputs_right(master_secret, client_random, server_random) || MAX_KEY_BLOCK < out.len() {
        return Err(Refusal::WrongSize);
    }
    let expansion = Expansion {
        secret: master_secret,
        label: b"key expansion",
        first: server_random,
        second: client_random,
    };
    expansion.prf(out);
    Ok(())
}

// What a Finished message carries, from the master secret and the hash of the handshake's messages before it.
pub fn finished_verify_data(
    master_secret: &[u8],
    role: TlcpRole,
    transcript_hash: &[u8],
    out: &mut [u8],
) -> Result<(), Refusal>
    ensures { Finished master_secret.now role transcript_hash.now out.old (number_of result) out.new }
{
    if master_secret.len() != MASTER_SECRET_LEN
        || transcript_hash.len() != RANDOM_LEN
        || out.len() != FINISHED_VERIFY_DATA_LEN
    {
        return Err(Refusal::WrongSize);
    }
    let expansion = Expansion {
        secret: master_secret,
        label: role.label(),
        first: transcript_hash,
        second: b"",
    };
    expansion.prf(out);
    Ok(())
}
