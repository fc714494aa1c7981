// TLCP's record under SM4 in CBC, GB/T 38636-2020 section 6.3, from the CBC part of the Rust's tlcp/record.rs: the
// halves of a key block, the MAC's header, and sealing. Lengths, the role, number, type and version are public; keys
// and text are not branched on. The length given to record_header is secret where an opening calls it; it is only
// copied.
#![tactic(auto)]

ghost use Rattle.std.specs.Prelude.{◌++◌, ◌≡◌, ◌+◌, ◌≤◌, length};
ghost use Rattle.words.specs.Lists.{put};
ghost use Rattle.sm3.specs.Standard.{SM3};
ghost use Rattle.hmac.specs.Rfc2104.{HMAC};
ghost use Rattle.record.specs.KeyBlock.{client_keys, server_keys, keys_at, half_by, halved_by, keys_of};
ghost use Rattle.record.specs.Limits.{tlcp_record_version, max_plaintext, mac_len, cbc_key_block_len};
ghost use Rattle.record.specs.Promise.{Protected};
ghost use Rattle.record.specs.Sealing.{reported};
ghost use Rattle.record.specs.Standard.{header, padding, pad_of, sealed_length};

use answers::Refusal;
use key_schedule::TlcpRole;
use sm4::Sm4Cipher;

// TLCP 1.1. Callers pass the version of each record; this is the usual one.
pub const TLCP_RECORD_VERSION: [u8; 2] = [1, 1];

// That constant is the definition's; nothing calls it.
fn record_version() -> [u8; 2]
    ensures { result ≡ tlcp_record_version }
{
    TLCP_RECORD_VERSION
}

pub const CBC_KEY_BLOCK_LEN: usize = 128;

pub const MAX_PLAINTEXT: usize = 16384;

pub const MAC_LEN: usize = 32;

pub const HEADER_LEN: usize = 13;

// Of the IV, one block in front of the body.
pub const IV_LEN: usize = 16;

// The keys of one direction.
#[derive(Clone, Copy)]
pub struct RecordKeysCbc {
    pub mac_key: [u8; 32],
    pub enc_key: [u8; 16],
}

// The keys that start at mac and at enc in the key block; refused where it has another length. Copied, as `array` of border
// does.
fn half_at(key_block: &[u8], mac: usize, enc: usize) -> Result<RecordKeysCbc, Refusal>
    requires { (mac + 32 ≤ cbc_key_block_len) × (enc + 16 ≤ cbc_key_block_len) }
    ensures { half_by result ≡ halved_by (keys_at mac enc) key_block.now }
{
    if key_block.len() != CBC_KEY_BLOCK_LEN {
        return Err(Refusal::WrongSize);
    }
    let mut mac_key = [0u8; 32];
    let mut enc_key = [0u8; 16];
    mac_key.copy_from_slice(&key_block[mac..mac + 32]);
    enc_key.copy_from_slice(&key_block[enc..enc + 16]);
    Ok(RecordKeysCbc { mac_key, enc_key })
}

impl RecordKeysCbc {
    // The client's keys: bytes 0..32 for the MAC, 64..80 for the cipher. A key block of another length is refused.
    pub fn client_half(key_block: &[u8]) -> Result<RecordKeysCbc, Refusal>
        ensures { half_by result ≡ halved_by client_keys key_block.now }
    {
        half_at(key_block, 0, 64)
    }

    // The server's keys: bytes 32..64 for the MAC, 80..96 for the cipher. A key block of another length is refused.
    pub fn server_half(key_block: &[u8]) -> Result<RecordKeysCbc, Refusal>
        ensures { half_by result ≡ halved_by server_keys key_block.now }
    {
        half_at(key_block, 32, 80)
    }

    // The keys that the side named by role seals with.
    pub fn from_key_block(role: TlcpRole, key_block: &[u8]) -> Result<RecordKeysCbc, Refusal>
        ensures { half_by result ≡ halved_by (keys_of role) key_block.now }
    {
        match role {
            TlcpRole::Client => RecordKeysCbc::client_half(key_block),
            TlcpRole::Server => RecordKeysCbc::server_half(key_block),
        }
    }
}

// What the MAC covers in front of the text; len is the text's length, not the record's.
pub fn record_header(seq: u64, content_type: u8, version: [u8; 2], len: u16) -> [u8; 13]
    ensures { result ≡ header seq content_type version len }
{
    let number = big_endian::u64_to_be_bytes(seq);
    let length = big_endian::u16_to_be_bytes(len);
    let mut h = [0u8; HEADER_LEN];
    words::copy_at(&mut h, 0, &number);
    h[8] = content_type;
    words::copy_at(&mut h, 9, &version);
    words::copy_at(&mut h, 11, &length);
    h
}

// The record's MAC: the running MAC takes the header and then the text, which are never joined.
fn record_mac(mac_key: [u8; 32], covered: [u8; 13], text: &[u8]) -> [u8; 32]
    requires { length text.now ≤ max_plaintext }
    ensures { result ≡ HMAC SM3 mac_key (covered ++ text.now) }
{
    hmac::hmac_sm3_parts(&mac_key, &[&covered, text])
}

// Text, MAC and the shortest padding laid over the front of body, which has room for them.
fn lay_body(text: &[u8], mac: [u8; 32], body: &mut [u8])
    requires { length text.now + mac_len + 1 + pad_of (length text.now) ≤ length body.old }
    ensures { body.new ≡ put 0 (text.now ++ (mac ++ padding (pad_of (length text.now)))) body.old }
{
    let len = text.len();
    let pad = 15 - len % 16;
    let pad_at = len + MAC_LEN;
    words::copy_at(body, 0, text);
    words::copy_at(body, len, &mac);
    words::fill_at(body, pad_at, pad + 1, pad as u8);
}

// How long the sealed record of len text bytes is.
fn sealed_length(len: usize) -> usize
    requires { len ≤ max_plaintext }
    ensures { result ≡ sealed_length len }
{
    16 * (len / 16 + 4)
}

// The sealed record laid over the front of out: the IV, then text, MAC and padding enciphered; bytes behind it stay as
// found. Its length is handed back. More text than MAX_PLAINTEXT is refused first, then less room than the record
// takes; either leaves out as found. That nobody can guess the IV, and that no number is used twice under one key, is
// the caller's duty. Keys, number, type and version stay apart, as in `start_cbc` of steps.
pub fn protect_cbc(
    keys: RecordKeysCbc,
    seq: u64,
    content_type: u8,
    version: [u8; 2],
    iv: [u8; 16],
    plaintext: &[u8],
    out: &mut [u8],
) -> Result<usize, Refusal>
    ensures { Protected keys seq content_type version iv plaintext.now out.old (reported result) out.new }
{
    let len = plaintext.len();
    if MAX_PLAINTEXT < len {
        return Err(Refusal::TooLong);
    }
    let total = sealed_length(len);
    if out.len() < total {
        return Err(Refusal::NoRoom);
    }
    let covered = record_header(seq, content_type, version, len as u16);
    let mac = record_mac(keys.mac_key, covered, plaintext);
    // the part behind the IV is lent on: first to lay the body there, then to encipher it where it stands
    words::copy_at(out, 0, &iv);
    lay_body(plaintext, mac, &mut out[IV_LEN..]);
    cbc::encipher_cbc(Sm4Cipher::new(keys.enc_key), iv, &mut out[IV_LEN..total]);
    Ok(total)
}
