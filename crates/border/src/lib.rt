// The C-callable functions: numbers and byte slices, a slice as a pointer and a length. A key schedule argument, cipher
// key, record MAC key, key block to be cut, IV, block, digest or MAC of another size than its own is answer 9, before
// all else, and what was lent stays as found; reported numbers are written on every call, 0 with a refusal (but the
// count is T with answer 6).
#![tactic(auto)]

ghost use Rattle.std.specs.Prelude.{◌&&◌, ◌≡◌, length};
ghost use Rattle.answers.specs.Answers.{number_of};
ghost use Rattle.words.specs.Lists.{put};
ghost use Rattle.record.specs.Limits.{mac_len, iv_len};
ghost use Rattle.border.specs.Border.{
  key_size,
  has,
  answer_for,
  sized,
  filled,
  key_sizes,
  keys_from,
  block_sizes,
  halves_sizes,
  role_of,
};
ghost use Rattle.border.specs.Promise.{
  Hashed,
  Maced,
  SealedFor,
  OpenedFor,
  EncipheredFor,
  DecipheredFor,
  MasterSecretFor,
  KeyBlockFor,
  KeyHalvesFor,
  FinishedFor,
  StartedFor,
  TakenFor,
  DigestedFor,
};

use answers::{DONE, Refusal, number_of};
use key_schedule::TlcpRole;
use record::RecordKeysCbc;
use sm3::{DIGEST_SIZE, Sm3};
use sm4::{BLOCK_SIZE, KEY_SIZE, Sm4Cipher};

// The bytes into out, if it has room for just them.
#[tactic(auto, unfolding(crate::specs::Border::answer_for, crate::specs::Border::sized, crate::specs::Border::filled, crate::specs::Border::has))]
fn put_digest(out: &mut [u8], bytes: [u8; DIGEST_SIZE]) -> Result<(), Refusal>
    ensures answers { number_of result ≡ answer_for (sized out.old) }
    ensures leaves { out.new ≡ filled bytes out.old }
{
    if out.len() != DIGEST_SIZE {
        return Err(Refusal::WrongSize);
    }
    out.copy_from_slice(&bytes);
    Ok(())
}

// SM3 of the message into a digest of 32 bytes.
#[unsafe(no_mangle)]
pub extern "C" fn noustrel_sm3(message: &[u8], digest: &mut [u8]) -> u32
    ensures { Hashed message.now digest.old result digest.new }
{
    number_of(put_digest(digest, sm3::hash(message))) as u32
}

// HMAC-SM3 of the message under the key into a MAC of 32 bytes.
#[unsafe(no_mangle)]
pub extern "C" fn noustrel_hmac_sm3(key: &[u8], message: &[u8], mac: &mut [u8]) -> u32
    ensures { Maced key.now message.now mac.old result mac.new }
{
    number_of(put_digest(mac, hmac::hmac_sm3(key, message))) as u32
}

// All the bytes as an array. `TryFrom` gives a result of which it would have to be proved that it is no error.
fn array<const N: usize>(x: &[u8]) -> [u8; N]
    requires { length x.now ≡ N }
    ensures { result ≡ x.now }
{
    let mut a = [0u8; N];
    a.copy_from_slice(x);
    a
}

// Whether the keys of a record have their sizes.
fn key_sizes(mac_key: &[u8], enc_key: &[u8]) -> bool
    ensures { result ≡ key_sizes mac_key.now enc_key.now }
{
    mac_key.len() == record::MAC_LEN && enc_key.len() == KEY_SIZE
}

// Whether they and the IV have their sizes.
fn seal_sizes(mac_key: &[u8], enc_key: &[u8], iv: &[u8]) -> bool
    ensures { result ≡ (key_sizes mac_key.now enc_key.now && has iv_len iv.now) }
{
    key_sizes(mac_key, enc_key) && iv.len() == record::IV_LEN
}

// The keys of a record, as arrays.
fn keys_from(mac_key: &[u8], enc_key: &[u8]) -> RecordKeysCbc
    requires { (length mac_key.now ≡ mac_len) × (length enc_key.now ≡ key_size) }
    ensures { result ≡ keys_from mac_key.now enc_key.now }
{
    RecordKeysCbc {
        mac_key: array(mac_key),
        enc_key: array(enc_key),
    }
}

// The sealed record of a text into the front of out, its length into length. The version goes as one number, high byte
// first.
#[unsafe(no_mangle)]
pub extern "C" fn noustrel_seal(
    mac_key: &[u8],
    enc_key: &[u8],
    number: u64,
    content_type: u8,
    version: u16,
    iv: &[u8],
    text: &[u8],
    out: &mut [u8],
    length: &mut usize,
) -> u32
    ensures { SealedFor mac_key.now enc_key.now number content_type version iv.now text.now out.old result out.new length.new }
{
    if !seal_sizes(mac_key, enc_key, iv) {
        *length = 0;
        return Refusal::WrongSize.number() as u32;
    }
    let keys = keys_from(mac_key, enc_key);
    let high_first = big_endian::u16_to_be_bytes(version);
    let sealed = record::protect_cbc(keys, number, content_type, high_first, array(iv), text, out);
    *length = sealed.unwrap_or(0);
    number_of(sealed) as u32
}

// The record's text into the front of out, its length into length, the steps made into count.
#[unsafe(no_mangle)]
pub extern "C" fn noustrel_open(
    mac_key: &[u8],
    enc_key: &[u8],
    number: u64,
    content_type: u8,
    version: u16,
    record: &[u8],
    out: &mut [u8],
    length: &mut usize,
    count: &mut usize,
) -> u32
    ensures { OpenedFor mac_key.now enc_key.now number content_type version «record».now out.old result out.new length.new count.new }
{
    if !key_sizes(mac_key, enc_key) {
        *length = 0;
        *count = 0;
        return Refusal::WrongSize.number() as u32;
    }
    let keys = keys_from(mac_key, enc_key);
    let high_first = big_endian::u16_to_be_bytes(version);
    let opened = opening::deprotect_cbc(keys, number, content_type, high_first, record, out);
    *length = opened.length;
    *count = opened.count;
    opened.answer as u32
}

// Whether key, block and output have a block's size.
fn block_sizes(key: &[u8], block: &[u8], out: &[u8]) -> bool
    ensures { result ≡ block_sizes key.now block.now out.now }
{
    key.len() == KEY_SIZE && (block.len() == BLOCK_SIZE && out.len() == BLOCK_SIZE)
}

// Twins of which C names both. One function over the direction, by a closure or handed an optional cipher and block, is
// not covered by the borrow checker or tells its caller nothing.
// The block enciphered under the key, into out.
#[unsafe(no_mangle)]
pub extern "C" fn noustrel_sm4_encrypt_block(key: &[u8], block: &[u8], out: &mut [u8]) -> u32
    ensures { EncipheredFor key.now block.now out.old result out.new }
{
    if !block_sizes(key, block, out) {
        return Refusal::WrongSize.number() as u32;
    }
    let cipher = Sm4Cipher::new(array(key));
    out.copy_from_slice(&cipher.encrypt_block(array(block)));
    DONE as u32
}

// The block deciphered under the key, into out.
#[unsafe(no_mangle)]
pub extern "C" fn noustrel_sm4_decrypt_block(key: &[u8], block: &[u8], out: &mut [u8]) -> u32
    ensures { DecipheredFor key.now block.now out.old result out.new }
{
    if !block_sizes(key, block, out) {
        return Refusal::WrongSize.number() as u32;
    }
    let cipher = Sm4Cipher::new(array(key));
    out.copy_from_slice(&cipher.decrypt_block(array(block)));
    DONE as u32
}

// The master secret of 48 bytes; the sizes are the key schedule's own.
#[unsafe(no_mangle)]
pub extern "C" fn noustrel_master_secret(
    pre_master: &[u8],
    client_random: &[u8],
    server_random: &[u8],
    out: &mut [u8],
) -> u32
    ensures { MasterSecretFor pre_master.now client_random.now server_random.now out.old result out.new }
{
    let derived = key_schedule::derive_master_secret(pre_master, client_random, server_random, out);
    number_of(derived) as u32
}

// The key block, as long as out.
#[unsafe(no_mangle)]
pub extern "C" fn noustrel_key_block(
    master_secret: &[u8],
    client_random: &[u8],
    server_random: &[u8],
    out: &mut [u8],
) -> u32
    ensures { KeyBlockFor master_secret.now client_random.now server_random.now out.old result out.new }
{
    let derived = key_schedule::derive_key_block(master_secret, client_random, server_random, out);
    number_of(derived) as u32
}

// Whether a key block has its size, and what is lent for each key too.
fn halves_sizes(
    key_block: &[u8],
    client_mac_key: &[u8],
    server_mac_key: &[u8],
    client_enc_key: &[u8],
    server_enc_key: &[u8],
) -> bool
    ensures { result ≡ halves_sizes key_block.now client_mac_key.now server_mac_key.now client_enc_key.now server_enc_key.now }
{
    key_block.len() == record::CBC_KEY_BLOCK_LEN
        && (key_sizes(client_mac_key, client_enc_key) && key_sizes(server_mac_key, server_enc_key))
}

// The keys of one direction, each into its own span.
fn put_keys(keys: RecordKeysCbc, mac_key: &mut [u8], enc_key: &mut [u8])
    ensures mac { mac_key.new ≡ put 0 keys.mac_key mac_key.old }
    ensures enc { enc_key.new ≡ put 0 keys.enc_key enc_key.old }
{
    words::copy_at(mac_key, 0, &keys.mac_key);
    words::copy_at(enc_key, 0, &keys.enc_key);
}

// The keys of either side out of a key block of 128 bytes, MAC keys of 32 and cipher keys of 16. All four stay as found
// where any size is wrong.
#[unsafe(no_mangle)]
pub extern "C" fn noustrel_key_halves(
    key_block: &[u8],
    client_mac_key: &mut [u8],
    server_mac_key: &mut [u8],
    client_enc_key: &mut [u8],
    server_enc_key: &mut [u8],
) -> u32
    ensures { KeyHalvesFor key_block.now client_mac_key.old server_mac_key.old client_enc_key.old server_enc_key.old result client_mac_key.new server_mac_key.new client_enc_key.new server_enc_key.new }
{
    if !halves_sizes(
        key_block,
        client_mac_key,
        server_mac_key,
        client_enc_key,
        server_enc_key,
    ) {
        return Refusal::WrongSize.number() as u32;
    }
    let client = RecordKeysCbc::client_half(key_block).unwrap();
    let server = RecordKeysCbc::server_half(key_block).unwrap();
    put_keys(client, client_mac_key, client_enc_key);
    put_keys(server, server_mac_key, server_enc_key);
    DONE as u32
}

// 0 is the client, any other number the server. No `From`, which would stand in key_schedule: the numbers are C's.
fn role_of(role: u32) -> TlcpRole
    ensures { result ≡ role_of role }
{
    if role == 0 {
        TlcpRole::Client
    } else {
        TlcpRole::Server
    }
}

// What a Finished message of the role carries, 12 bytes.
#[unsafe(no_mangle)]
pub extern "C" fn noustrel_finished(
    master_secret: &[u8],
    role: u32,
    transcript_hash: &[u8],
    out: &mut [u8],
) -> u32
    ensures { FinishedFor master_secret.now role transcript_hash.now out.old result out.new }
{
    let side = role_of(role);
    let derived = key_schedule::finished_verify_data(master_secret, side, transcript_hash, out);
    number_of(derived) as u32
}

// A fresh running hash in the state lent, whatever stood there.
#[unsafe(no_mangle)]
pub extern "C" fn noustrel_sm3_start(h: &mut Sm3)
    ensures { StartedFor h.new }
{
    sm3_lent::start(h);
}

// data is taken in; answer 7 and the state as found where its fill is above 63.
#[unsafe(no_mangle)]
pub extern "C" fn noustrel_sm3_update(h: &mut Sm3, data: &[u8]) -> u32
    ensures { TakenFor h.old «data».now result h.new }
{
    number_of(sm3_lent::update(h, data)) as u32
}

// The digest of all bytes so far into 32 bytes, the state as it was. Answer 9 and the digest as found where it has not
// 32 bytes, before all else; answer 7 and zeros where the state's fill is above 63.
#[unsafe(no_mangle)]
pub extern "C" fn noustrel_sm3_finish(h: &Sm3, digest: &mut [u8]) -> u32
    ensures { DigestedFor h.now digest.old result digest.new }
{
    number_of(sm3_lent::finish(h, digest)) as u32
}
