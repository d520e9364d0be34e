// MACs of a whole message.
ghost use Rattle.std.specs.Prelude.{◌≡◌, ◌≤◌, ℕ, true, length, take};
ghost use Rattle.crypto_specs.specs.Prelude.{IsKey, aes_encrypt, cmac};
ghost use Rattle.alg_encoding.specs.{Encoding.base_of, declared.table.Class.TheVariants.Mac};
ghost use Rattle.store_model.specs.Prelude.{buffer_after, cmac_base, mac_of, mac_reply, verified_reply};
ghost use Rattle.service_calls.specs.Answers.{AnswersLength, plain_reply};
ghost use Rattle.key_policy.specs.Names.{IsOfClass, NamesMac, is_cmac, whole_length, whole_mac_by};

use cmac_ops::cmac;
use hmac_ops::hmac;
use key_policy::{MacAlgorithm, MacKind, NamedAlgorithm, TOTAL_LIMIT, aes_key};
use multipart::{give_front, is_front, move_to_front};
use psa_status::Status;

// Writes CMAC's whole MAC of a message to the front of `out`.
fn put_cmac(key: &[u8], message: &[u8], out: &mut [u8; 64])
    requires { IsKey key.now }
    ensures { take 16 out.new ≡ cmac (aes_encrypt key.now) message.now }
{
    let mut aes = aes_key(key);
    let mut tag = cmac(&aes, message);
    aes.wipe();
    move_to_front(&mut tag, out);
}

// Writes the whole MAC of a message to the front of `out`.
fn put_whole_mac(kind: MacKind, key: &[u8], message: &[u8], out: &mut [u8; 64])
    requires { is_cmac kind ≡ true → IsKey key.now }
    ensures { take (whole_length kind) out.new ≡ whole_mac_by kind key.now message.now }
{
    match kind {
        MacKind::Hmac(which) => {
            hmac(which, key, message, out);
        }
        MacKind::Cmac => put_cmac(key, message, out),
    }
}

// Writes the MAC of a message, which is the front of the whole one, to the front of `out`, and answers its length.
fn put_mac(mac: MacAlgorithm, key: &[u8], message: &[u8], out: &mut [u8; 64]) -> usize
    requires key { is_cmac mac.kind ≡ true → IsKey key.now }
    requires within { mac.length ≤ whole_length mac.kind }
    ensures length { result ≡ mac.length }
    ensures bound { result ≤ 64 }
    ensures mac { (alg : ℕ) → NamesMac alg mac → take result out.new ≡ mac_of alg key.now message.now }
{
    put_whole_mac(mac.kind, key, message, out);
    usize::from(mac.length)
}

/// Writes the MAC of a message to the front of a buffer that has room for it, and answers its length. `InvalidArgument`
/// where the message is longer than 2^32 - 1 bytes, and `BufferTooSmall`.
pub fn mac_compute(
    alg: NamedAlgorithm,
    key: &[u8],
    input: &[u8],
    out: &mut [u8],
) -> Result<usize, Status>
    requires algorithm { IsOfClass Mac alg.0 }
    requires key { base_of alg.0 ≡ cmac_base → IsKey key.now }
    ensures reply { AnswersLength result (mac_reply alg.0 key.now input.now (length out.old)) }
    ensures buffer { out.new ≡ buffer_after out.old (mac_reply alg.0 key.now input.now (length out.old)) }
{
    let mac = alg.mac()?;
    if input.len() > TOTAL_LIMIT {
        return Err(Status::InvalidArgument);
    }
    if out.len() < usize::from(mac.length) {
        return Err(Status::BufferTooSmall);
    }
    let mut own = [0; 64];
    let length = put_mac(mac, key, input, &mut own);
    give_front(&mut own, length, out)
}

/// Compares a MAC with that of a message. `InvalidArgument` where the message is longer than 2^32 - 1 bytes, and
/// `InvalidSignature` where a byte or the length differs.
pub fn mac_verify(alg: NamedAlgorithm, key: &[u8], input: &[u8], mac: &[u8]) -> Result<(), Status>
    requires algorithm { IsOfClass Mac alg.0 }
    requires key { base_of alg.0 ≡ cmac_base → IsKey key.now }
    ensures { plain_reply result ≡ verified_reply alg.0 key.now input.now mac.now }
{
    let algorithm = alg.mac()?;
    if input.len() > TOTAL_LIMIT {
        return Err(Status::InvalidArgument);
    }
    let mut own = [0; 64];
    let length = put_mac(algorithm, key, input, &mut own);
    if is_front(mac, &mut own, length) {
        Ok(())
    } else {
        Err(Status::InvalidSignature)
    }
}
