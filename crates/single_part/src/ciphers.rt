// Ciphers of a whole message.
ghost use Rattle.std.specs.Prelude.{◌≡◌, ◌+◌, ◌-◌, ◌%◌, ◌<◌, ◌≤◌, ◌^◌, true, length, OnOk, IfOk};
ghost use Rattle.psa_status.specs.Rows.{first_row, unless};
ghost use Rattle.crypto_specs.specs.Prelude.{IsKey};
ghost use Rattle.random_streams.specs.RandomWords.{drawn_from, next_bytes};
ghost use Rattle.store_model.specs.Prelude.{buffer_after, mode_of, iv_length, takes_whole_blocks, enciphered_length, is_ciphertext_length, encrypt_rows, decrypt_rows, encrypted, decrypted_reply};
ghost use Rattle.service_calls.specs.Answers.{AnswersLength, AnswersOrSpoils};
ghost use Rattle.alg_encoding.specs.declared.table.Class.TheVariants.{Cipher};
ghost use Rattle.key_policy.specs.{Modes.model_mode, Names.IsOfClass};

use crate::modes::{decipher, encipher_behind};
use key_policy::{
    Mode, NamedAlgorithm, TOTAL_LIMIT, aes_key, enciphered_length, is_ciphertext_length, iv_length,
    takes_whole_blocks,
};
use psa_status::Status;
use random_streams::Stream;

// How many bytes the initialisation vector and the ciphertext of so many bytes need, or the refusal of that number or
// of the room for them.
fn check_plain(mode: Mode, bytes: usize, room: usize) -> Result<usize, Status>
    ensures value { result ≡ unless (first_row (encrypt_rows (model_mode mode) bytes room))
        (iv_length (model_mode mode) + enciphered_length (model_mode mode) bytes) }
    ensures whole { OnOk result (takes_whole_blocks (model_mode mode) ≡ true → bytes % 16 ≡ 0) }
    ensures room { IfOk result (λ needed. needed ≤ room) }
{
    if (takes_whole_blocks(mode) && bytes % 16 != 0) || bytes > TOTAL_LIMIT {
        return Err(Status::InvalidArgument);
    }
    let needed = iv_length(mode) + enciphered_length(mode, bytes);
    if room < needed {
        return Err(Status::BufferTooSmall);
    }
    Ok(needed)
}

// How many bytes the text of a ciphertext needs that comes with its initialisation vector in so many bytes, or the
// refusal of that number or of the room for it.
fn check_cipher(mode: Mode, bytes: usize, room: usize) -> Result<usize, Status>
    ensures value { result ≡ unless (first_row (decrypt_rows (model_mode mode) bytes room)) (bytes - iv_length (model_mode mode)) }
    ensures vector { OnOk result (iv_length (model_mode mode) ≤ bytes) }
    ensures whole { IfOk result (λ needed. is_ciphertext_length (model_mode mode) needed ≡ true) }
    ensures room { IfOk result (λ needed. needed ≤ room) }
{
    if bytes < iv_length(mode) || bytes > TOTAL_LIMIT {
        return Err(Status::InvalidArgument);
    }
    let needed = bytes - iv_length(mode);
    if !is_ciphertext_length(mode, needed) {
        return Err(Status::InvalidArgument);
    }
    if room < needed {
        return Err(Status::BufferTooSmall);
    }
    Ok(needed)
}

// Writes the caller's next random bytes as initialisation vector and the ciphertext of a text behind it.
fn encrypt(
    stream: &mut Stream,
    mode: Mode,
    key: &[u8],
    input: &[u8],
    out: &mut [u8],
) -> Result<usize, Status>
    requires key { IsKey key.now }
    requires words { stream.old.place + 256 ≤ 2 ^ 60 }
    ensures reply { AnswersLength result
        (encrypted (model_mode mode) (next_bytes stream.old (iv_length (model_mode mode))) key.now input.now (length out.old)).reply }
    ensures buffer { out.new ≡ buffer_after out.old
        (encrypted (model_mode mode) (next_bytes stream.old (iv_length (model_mode mode))) key.now input.now (length out.old)).reply }
    ensures stream { stream.new ≡ drawn_from stream.old
        (encrypted (model_mode mode) (next_bytes stream.old (iv_length (model_mode mode))) key.now input.now (length out.old)).drawn }
{
    let needed = check_plain(mode, input.len(), out.len())?;
    let mut aes = aes_key(key);
    stream.fill(&mut out[..iv_length(mode)]);
    encipher_behind(mode, &aes, input, &mut out[..needed]);
    aes.wipe();
    Ok(needed)
}

/// Writes a fresh initialisation vector, the caller's next random bytes, and the ciphertext of a text to the front of a
/// buffer that has room for them, and answers how many bytes they are. `InvalidArgument` where the algorithm doesn't take
/// so many bytes, and `BufferTooSmall`; a refusal draws no random word.
pub fn cipher_encrypt(
    stream: &mut Stream,
    alg: NamedAlgorithm,
    key: &[u8],
    input: &[u8],
    out: &mut [u8],
) -> Result<usize, Status>
    requires algorithm { IsOfClass Cipher alg.0 }
    requires key { IsKey key.now }
    requires words { stream.old.place + 256 ≤ 2 ^ 60 }
    ensures reply { AnswersLength result
        (encrypted (mode_of alg.0) (next_bytes stream.old (iv_length (mode_of alg.0))) key.now input.now (length out.old)).reply }
    ensures buffer { out.new ≡ buffer_after out.old
        (encrypted (mode_of alg.0) (next_bytes stream.old (iv_length (mode_of alg.0))) key.now input.now (length out.old)).reply }
    ensures stream { stream.new ≡ drawn_from stream.old
        (encrypted (mode_of alg.0) (next_bytes stream.old (iv_length (mode_of alg.0))) key.now input.now (length out.old)).drawn }
{
    encrypt(stream, alg.cipher()?, key, input, out)
}

fn decrypt(mode: Mode, key: &[u8], input: &[u8], out: &mut [u8]) -> Result<usize, Status>
    requires { IsKey key.now }
    ensures reply { AnswersOrSpoils result (decrypted_reply (model_mode mode) key.now input.now (length out.old)) }
    ensures buffer { out.new ≡ buffer_after out.old (decrypted_reply (model_mode mode) key.now input.now (length out.old)) }
{
    let needed = check_cipher(mode, input.len(), out.len())?;
    let (iv, cipher) = input.split_at(iv_length(mode));
    let mut aes = aes_key(key);
    let answer = decipher(mode, &aes, iv, cipher, &mut out[..needed]);
    aes.wipe();
    answer
}

/// Writes the text of a ciphertext, before which its initialisation vector stands, to the front of a buffer that has
/// room for the whole ciphertext, and answers the text's length. `InvalidPadding` where no padding ends the text and one
/// should: the buffer then has zeros in its place. `InvalidArgument` where the algorithm doesn't take so many bytes, and
/// `BufferTooSmall`.
pub fn cipher_decrypt(
    alg: NamedAlgorithm,
    key: &[u8],
    input: &[u8],
    out: &mut [u8],
) -> Result<usize, Status>
    requires algorithm { IsOfClass Cipher alg.0 }
    requires key { IsKey key.now }
    ensures reply { AnswersOrSpoils result (decrypted_reply (mode_of alg.0) key.now input.now (length out.old)) }
    ensures buffer { out.new ≡ buffer_after out.old (decrypted_reply (mode_of alg.0) key.now input.now (length out.old)) }
{
    decrypt(alg.cipher()?, key, input, out)
}
