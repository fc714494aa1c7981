// The functions of `border` as C calls them, under the same names, each one call of the function there with the same
// clauses: a static library exports, and no crate can stand on it. Numbers and byte slices, a slice as a pointer and a
// length.
#![tactic(auto)]

ghost use Rattle.border.specs.Promise.{
  Hashed,
  Maced,
  SealedFor,
  OpenedFor,
  EncipheredFor,
  DecipheredFor,
  MasterSecretFor,
  KeyBlockFor,
  KeyHalvesFor,
  FinishedFor,
  StartedFor,
  TakenFor,
  DigestedFor,
};

use sm3::Sm3;

#[unsafe(no_mangle)]
pub extern "C" fn noustrel_sm3(message: &[u8], digest: &mut [u8]) -> u32
    ensures { Hashed message.now digest.old result digest.new }
{
    border::noustrel_sm3(message, digest)
}

#[unsafe(no_mangle)]
pub extern "C" fn noustrel_hmac_sm3(key: &[u8], message: &[u8], mac: &mut [u8]) -> u32
    ensures { Maced key.now message.now mac.old result mac.new }
{
    border::noustrel_hmac_sm3(key, message, mac)
}

#[unsafe(no_mangle)]
pub extern "C" fn noustrel_seal(
    mac_key: &[u8],
    enc_key: &[u8],
    number: u64,
    content_type: u8,
    version: u16,
    iv: &[u8],
    text: &[u8],
    out: &mut [u8],
    length: &mut usize,
) -> u32
    ensures { SealedFor mac_key.now enc_key.now number content_type version iv.now text.now out.old result out.new length.new }
{
    border::noustrel_seal(
        mac_key,
        enc_key,
        number,
        content_type,
        version,
        iv,
        text,
        out,
        length,
    )
}

#[unsafe(no_mangle)]
pub extern "C" fn noustrel_open(
    mac_key: &[u8],
    enc_key: &[u8],
    number: u64,
    content_type: u8,
    version: u16,
    record: &[u8],
    out: &mut [u8],
    length: &mut usize,
    count: &mut usize,
) -> u32
    ensures { OpenedFor mac_key.now enc_key.now number content_type version «record».now out.old result out.new length.new count.new }
{
    border::noustrel_open(
        mac_key,
        enc_key,
        number,
        content_type,
        version,
        record,
        out,
        length,
        count,
    )
}

#[unsafe(no_mangle)]
pub extern "C" fn noustrel_sm4_encrypt_block(key: &[u8], block: &[u8], out: &mut [u8]) -> u32
    ensures { EncipheredFor key.now block.now out.old result out.new }
{
    border::noustrel_sm4_encrypt_block(key, block, out)
}

#[unsafe(no_mangle)]
pub extern "C" fn noustrel_sm4_decrypt_block(key: &[u8], block: &[u8], out: &mut [u8]) -> u32
    ensures { DecipheredFor key.now block.now out.old result out.new }
{
    border::noustrel_sm4_decrypt_block(key, block, out)
}

#[unsafe(no_mangle)]
pub extern "C" fn noustrel_master_secret(
    pre_master: &[u8],
    client_random: &[u8],
    server_random: &[u8],
    out: &mut [u8],
) -> u32
    ensures { MasterSecretFor pre_master.now client_random.now server_random.now out.old result out.new }
{
    border::noustrel_master_secret(pre_master, client_random, server_random, out)
}

#[unsafe(no_mangle)]
pub extern "C" fn noustrel_key_block(
    master_secret: &[u8],
    client_random: &[u8],
    server_random: &[u8],
    out: &mut [u8],
) -> u32
    ensures { KeyBlockFor master_secret.now client_random.now server_random.now out.old result out.new }
{
    border::noustrel_key_block(master_secret, client_random, server_random, out)
}

#[unsafe(no_mangle)]
pub extern "C" fn noustrel_key_halves(
    key_block: &[u8],
    client_mac_key: &mut [u8],
    server_mac_key: &mut [u8],
    client_enc_key: &mut [u8],
    server_enc_key: &mut [u8],
) -> u32
    ensures { KeyHalvesFor key_block.now client_mac_key.old server_mac_key.old client_enc_key.old server_enc_key.old result client_mac_key.new server_mac_key.new client_enc_key.new server_enc_key.new }
{
    border::noustrel_key_halves(
        key_block,
        client_mac_key,
        server_mac_key,
        client_enc_key,
        server_enc_key,
    )
}

#[unsafe(no_mangle)]
pub extern "C" fn noustrel_finished(
    master_secret: &[u8],
    role: u32,
    transcript_hash: &[u8],
    out: &mut [u8],
) -> u32
    ensures { FinishedFor master_secret.now role transcript_hash.now out.old result out.new }
{
    border::noustrel_finished(master_secret, role, transcript_hash, out)
}

#[unsafe(no_mangle)]
pub extern "C" fn noustrel_sm3_start(h: &mut Sm3)
    ensures { StartedFor h.new }
{
    border::noustrel_sm3_start(h);
}

#[unsafe(no_mangle)]
pub extern "C" fn noustrel_sm3_update(h: &mut Sm3, data: &[u8]) -> u32
    ensures { TakenFor h.old «data».now result h.new }
{
    border::noustrel_sm3_update(h, data)
}

#[unsafe(no_mangle)]
pub extern "C" fn noustrel_sm3_finish(h: &Sm3, digest: &mut [u8]) -> u32
    ensures { DigestedFor h.now digest.old result digest.new }
{
    border::noustrel_sm3_finish(h, digest)
}
