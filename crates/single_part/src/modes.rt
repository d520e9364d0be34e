// The modes of the cipher algorithms, on whole messages.
ghost use Rattle.std.specs.Prelude.{◌≡◌, ◌+◌, ◌-◌, ◌%◌, ◌<◌, ◌≤◌, true, ◌++◌, ◌^◌, length, take, drop, Some, None, MatchOption};
ghost use Rattle.crypto_specs.specs.Prelude.{IsKey, pkcs7_padded, pkcs7_unpadded};
ghost use Rattle.store_model.specs.Prelude.{buffer_after, mode_of, iv_length, takes_whole_blocks, enciphered, enciphered_length, deciphered, is_ciphertext_length, plain_or_zeros};
ghost use Rattle.service_calls.specs.Answers.{AnswersOrSpoils};
ghost use Rattle.key_policy.specs.Modes.{model_mode};
ghost use Rattle.single_part.specs.Modes.{deciphered_blocks};

use aes_core::AesKey;
use cipher_modes::{cbc_decrypt, cbc_encrypt, ctr_xor, ecb_decrypt, ecb_encrypt, unpad};
use key_policy::{Mode, iv_length};
use psa_status::Status;

// The block of these bytes.
fn block_of(bytes: &[u8]) -> [u8; 16]
    requires { length bytes.now ≡ 16 }
    ensures { result ≡ bytes.now }
{
    let mut block = [0; 16];
    block.copy_from_slice(bytes);
    block
}

// Fills a buffer with a text and its PKCS#7 padding (RFC 5652 section 6.3).
fn fill_padded(text: &[u8], out: &mut [u8])
    requires { length out.old ≡ length text.now + (16 - length text.now % 16) }
    ensures { out.new ≡ pkcs7_padded text.now }
{
    let (front, padding) = out.split_at_mut(text.len());
    front.copy_from_slice(text);
    padding.fill((16 - text.len() % 16) as u8);
}

// Fills a buffer with the ciphertext of a text.
fn encipher(mode: Mode, key: &AesKey, iv: &[u8], text: &[u8], out: &mut [u8])
    requires key { IsKey key.now }
    requires iv { length iv.now ≡ iv_length (model_mode mode) }
    requires whole { takes_whole_blocks (model_mode mode) ≡ true → length text.now % 16 ≡ 0 }
    requires room { length out.old ≡ enciphered_length (model_mode mode) (length text.now) }
    ensures { out.new ≡ enciphered (model_mode mode) key.now iv.now text.now }
{
    match mode {
        Mode::Ctr => {
            out.copy_from_slice(text);
            ctr_xor(key, &block_of(iv), out);
        }
        Mode::CbcNoPadding => {
            out.copy_from_slice(text);
            cbc_encrypt(key, &block_of(iv), out);
        }
        Mode::CbcPkcs7 => {
            fill_padded(text, out);
            cbc_encrypt(key, &block_of(iv), out);
        }
        Mode::EcbNoPadding => {
            out.copy_from_slice(text);
            ecb_encrypt(key, out);
        }
    }
}

/// Writes the ciphertext of a text behind its initialisation vector, with which the buffer begins.
pub fn encipher_behind(mode: Mode, key: &AesKey, text: &[u8], out: &mut [u8])
    requires key { IsKey key.now }
    requires whole { takes_whole_blocks (model_mode mode) ≡ true → length text.now % 16 ≡ 0 }
    requires room { length out.old ≡ iv_length (model_mode mode) + enciphered_length (model_mode mode) (length text.now) }
    ensures { out.new ≡ take (iv_length (model_mode mode)) out.old
        ++ enciphered (model_mode mode) key.now (take (iv_length (model_mode mode)) out.old) text.now }
{
    let (iv, cipher) = out.split_at_mut(iv_length(mode));
    encipher(mode, key, iv, text, cipher);
}

// Fills a buffer with the text of a ciphertext, any padding included.
fn decipher_blocks(mode: Mode, key: &AesKey, iv: &[u8], cipher: &[u8], out: &mut [u8])
    requires key { IsKey key.now }
    requires iv { length iv.now ≡ iv_length (model_mode mode) }
    requires whole { is_ciphertext_length (model_mode mode) (length cipher.now) ≡ true }
    requires room { length out.old ≡ length cipher.now }
    ensures { out.new ≡ deciphered_blocks (model_mode mode) key.now iv.now cipher.now }
{
    out.copy_from_slice(cipher);
    match mode {
        Mode::Ctr => ctr_xor(key, &block_of(iv), out),
        Mode::CbcNoPadding | Mode::CbcPkcs7 => cbc_decrypt(key, &block_of(iv), out),
        Mode::EcbNoPadding => ecb_decrypt(key, out),
    }
}

// How many bytes of a text are left without its PKCS#7 padding; `None` exactly where no padding ends it.
fn unpadded_length(text: &[u8]) -> Option<usize>
    requires { 16 ≤ length text.now }
    ensures { MatchOption result (pkcs7_unpadded text.now ≡ None)
        (λ kept. (kept ≤ length text.now) × (pkcs7_unpadded text.now ≡ Some (take kept text.now))) }
{
    let (front, last) = text.split_at(text.len() - 16);
    let mut block = block_of(last);
    let unpadded = unpad(&block);
    block.fill(0);
    match unpadded {
        Some(kept) => Some(front.len() + kept),
        None => None,
    }
}

// Makes the padding of a text zeros, and answers the length without it. The whole text becomes zeros where no padding
// ends it.
fn strip(text: &mut [u8]) -> Result<usize, Status>
    requires { 16 ≤ length text.old }
    ensures reply { AnswersOrSpoils result (plain_or_zeros (length text.old) (pkcs7_unpadded text.old)) }
    ensures buffer { text.new ≡ buffer_after text.old (plain_or_zeros (length text.old) (pkcs7_unpadded text.old)) }
{
    match unpadded_length(text) {
        Some(kept) => {
            text[kept..].fill(0);
            Ok(kept)
        }
        None => {
            text.fill(0);
            Err(Status::InvalidPadding)
        }
    }
}

/// Fills a buffer with the text of a ciphertext, and with zeros from its end on; with zeros alone where the text has no
/// padding and should. Answers the length of the text.
pub fn decipher(
    mode: Mode,
    key: &AesKey,
    iv: &[u8],
    cipher: &[u8],
    out: &mut [u8],
) -> Result<usize, Status>
    requires key { IsKey key.now }
    requires iv { length iv.now ≡ iv_length (model_mode mode) }
    requires whole { is_ciphertext_length (model_mode mode) (length cipher.now) ≡ true }
    requires room { length out.old ≡ length cipher.now }
    ensures reply { AnswersOrSpoils result (plain_or_zeros (length cipher.now) (deciphered (model_mode mode) key.now iv.now cipher.now)) }
    ensures buffer { out.new ≡ buffer_after out.old (plain_or_zeros (length cipher.now) (deciphered (model_mode mode) key.now iv.now cipher.now)) }
{
    decipher_blocks(mode, key, iv, cipher, out);
    match mode {
        Mode::CbcPkcs7 => strip(out),
        Mode::Ctr | Mode::CbcNoPadding | Mode::EcbNoPadding => Ok(out.len()),
    }
}
