// AEADs of a whole message.
ghost use Rattle.std.specs.Prelude.{◌≡◌, ℕ, ◌+◌, ◌≤◌, length, replicate, bytes_eq, IsTrue, MatchBool};
ghost use Rattle.crypto_specs.specs.Prelude.{IsKey};
ghost use Rattle.store_model.specs.Prelude.{buffer_after};
ghost use Rattle.store_model.specs.Aeads as model;
ghost use Rattle.service_calls.specs.Answers.{AnswersLength, AnswersOrSpoils};
ghost use Rattle.alg_encoding.specs.declared.table.Class.TheVariants.{Aead};
ghost use Rattle.key_policy.specs.Names.{IsOfClass, IsTagLength, NamesAead, is_ccm, permits_lengths_by};

use aes_core::AesKey;
use key_policy::{AeadAlgorithm, AeadKind, NamedAlgorithm, TOTAL_LIMIT, aes_key};
use psa_status::Status;

// Whether the algorithm takes so many bytes of a nonce, of associated data, and of a payload.
fn permits_lengths(kind: AeadKind, nonce: usize, ad: usize, payload: usize) -> bool
    ensures typed { result ≡ permits_lengths_by kind nonce ad payload }
    ensures value { (alg : ℕ) → is_ccm kind ≡ model.is_ccm alg → result ≡ model.permits_lengths alg nonce ad payload }
{
    ad <= TOTAL_LIMIT && kind.permits_nonce(nonce, payload)
}

// Enciphers a text in place, and writes its tag.
fn seal(aead: AeadAlgorithm, key: &AesKey, nonce: &[u8], ad: &[u8], text: &mut [u8], tag: &mut [u8])
    requires key { IsKey key.now }
    requires algorithm { IsTagLength aead.kind aead.tag_length }
    requires lengths { IsTrue (permits_lengths_by aead.kind (length nonce.now) (length ad.now) (length text.old)) }
    requires tag { length tag.old ≡ aead.tag_length }
    ensures text { (alg : ℕ) → NamesAead alg aead → text.new ≡ model.aead_text alg key.now nonce.now text.old }
    ensures tag { (alg : ℕ) → NamesAead alg aead → tag.new ≡ model.aead_tag alg key.now nonce.now ad.now text.old text.new }
{
    match aead.kind {
        AeadKind::Ccm => aead_ccm::seal(key, nonce, ad, text, tag),
        AeadKind::Gcm => aead_gcm::seal(key, nonce, ad, text, tag),
    }
}

// Deciphers a text in place where the tag is its tag, and otherwise makes it zeros.
fn open(
    aead: AeadAlgorithm,
    key: &AesKey,
    nonce: &[u8],
    ad: &[u8],
    text: &mut [u8],
    tag: &[u8],
) -> bool
    requires key { IsKey key.now }
    requires algorithm { IsTagLength aead.kind aead.tag_length }
    requires lengths { IsTrue (permits_lengths_by aead.kind (length nonce.now) (length ad.now) (length text.old)) }
    requires tag { length tag.now ≡ aead.tag_length }
    ensures tag { (alg : ℕ) → NamesAead alg aead → result ≡
        bytes_eq tag.now (model.aead_tag alg key.now nonce.now ad.now (model.aead_text alg key.now nonce.now text.old) text.old) }
    ensures text { (alg : ℕ) → NamesAead alg aead → MatchBool result
        (text.new ≡ model.aead_text alg key.now nonce.now text.old)
        (text.new ≡ replicate (length text.old) 0) }
{
    match aead.kind {
        AeadKind::Ccm => aead_ccm::open(key, nonce, ad, text, tag),
        AeadKind::Gcm => aead_gcm::open(key, nonce, ad, text, tag),
    }
}

// Fills a buffer with the ciphertext of a text and its tag.
fn seal_into(
    aead: AeadAlgorithm,
    key: &AesKey,
    nonce: &[u8],
    ad: &[u8],
    input: &[u8],
    out: &mut [u8],
)
    requires key { IsKey key.now }
    requires algorithm { IsTagLength aead.kind aead.tag_length }
    requires lengths { IsTrue (permits_lengths_by aead.kind (length nonce.now) (length ad.now) (length input.now)) }
    requires room { length out.old ≡ length input.now + aead.tag_length }
    ensures { (alg : ℕ) → NamesAead alg aead → out.new ≡ model.sealed alg key.now nonce.now ad.now input.now }
{
    let (text, tag) = out.split_at_mut(input.len());
    text.copy_from_slice(input);
    seal(aead, key, nonce, ad, text, tag);
}

// Fills a buffer with the text of a ciphertext whose tag this is, and otherwise with zeros.
fn open_into(
    aead: AeadAlgorithm,
    key: &AesKey,
    nonce: &[u8],
    ad: &[u8],
    cipher: &[u8],
    tag: &[u8],
    out: &mut [u8],
) -> bool
    requires key { IsKey key.now }
    requires algorithm { IsTagLength aead.kind aead.tag_length }
    requires lengths { IsTrue (permits_lengths_by aead.kind (length nonce.now) (length ad.now) (length cipher.now)) }
    requires tag { length tag.now ≡ aead.tag_length }
    requires room { length out.old ≡ length cipher.now }
    ensures tag { (alg : ℕ) → NamesAead alg aead → result ≡
        bytes_eq tag.now (model.aead_tag alg key.now nonce.now ad.now (model.aead_text alg key.now nonce.now cipher.now) cipher.now) }
    ensures text { (alg : ℕ) → NamesAead alg aead → MatchBool result
        (out.new ≡ model.aead_text alg key.now nonce.now cipher.now)
        (out.new ≡ replicate (length cipher.now) 0) }
{
    out.copy_from_slice(cipher);
    open(aead, key, nonce, ad, out, tag)
}

/// Writes the ciphertext of a text and its tag to the front of a buffer that has room for them, and answers how many
/// bytes they are. `InvalidArgument` where the algorithm doesn't take so many bytes, and `BufferTooSmall`.
pub fn aead_encrypt(
    alg: NamedAlgorithm,
    key: &[u8],
    nonce: &[u8],
    ad: &[u8],
    input: &[u8],
    out: &mut [u8],
) -> Result<usize, Status>
    requires key { IsKey key.now }
    requires algorithm { IsOfClass Aead alg.0 }
    ensures reply { AnswersLength result (model.sealed_reply alg.0 key.now nonce.now ad.now input.now (length out.old)) }
    ensures buffer { out.new ≡ buffer_after out.old (model.sealed_reply alg.0 key.now nonce.now ad.now input.now (length out.old)) }
{
    let aead = alg.aead()?;
    if !permits_lengths(aead.kind, nonce.len(), ad.len(), input.len()) {
        return Err(Status::InvalidArgument);
    }
    let needed = input.len() + usize::from(aead.tag_length);
    if out.len() < needed {
        return Err(Status::BufferTooSmall);
    }
    let mut aes = aes_key(key);
    seal_into(aead, &aes, nonce, ad, input, &mut out[..needed]);
    aes.wipe();
    Ok(needed)
}

/// Writes the text of a ciphertext, which its tag ends, to the front of a buffer that has room for it, and answers its
/// length. `InvalidSignature` where the tag isn't its tag: the buffer then has zeros in the text's place.
/// `InvalidArgument` where the algorithm doesn't take so many bytes, and `BufferTooSmall`.
pub fn aead_decrypt(
    alg: NamedAlgorithm,
    key: &[u8],
    nonce: &[u8],
    ad: &[u8],
    input: &[u8],
    out: &mut [u8],
) -> Result<usize, Status>
    requires key { IsKey key.now }
    requires algorithm { IsOfClass Aead alg.0 }
    ensures reply { AnswersOrSpoils result (model.opened_reply alg.0 key.now nonce.now ad.now input.now (length out.old)) }
    ensures buffer { out.new ≡ buffer_after out.old (model.opened_reply alg.0 key.now nonce.now ad.now input.now (length out.old)) }
{
    let aead = alg.aead()?;
    let tag_length = usize::from(aead.tag_length);
    if input.len() < tag_length {
        return Err(Status::InvalidArgument);
    }
    let needed = input.len() - tag_length;
    if !permits_lengths(aead.kind, nonce.len(), ad.len(), needed) {
        return Err(Status::InvalidArgument);
    }
    if out.len() < needed {
        return Err(Status::BufferTooSmall);
    }
    let (cipher, tag) = input.split_at(needed);
    let mut aes = aes_key(key);
    let is_opened = open_into(aead, &aes, nonce, ad, cipher, tag, &mut out[..needed]);
    aes.wipe();
    if is_opened {
        Ok(needed)
    } else {
        Err(Status::InvalidSignature)
    }
}
