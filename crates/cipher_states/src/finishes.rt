// The end of a text.
ghost use Rattle.std.specs.{Prelude.◌≡◌, Prelude.◌≤◌, Prelude.IfOk, Prelude.[], Prelude.length, Prelude.true, Prelude.is_some, Prelude.if◌then◌else◌, Result.is_ok};
ghost use Rattle.crypto_specs.specs.Prelude.{IsKey, pkcs7_unpadded};
ghost use Rattle.store_model.specs.Prelude.{buffer_after, InError, Inactive, plain_or_zeros, CipherFinish, CipherWork, cipher_step, is_whole_text, last_length, last_part, takes_text, whole_text};
ghost use Rattle.service_calls.specs.Answers.{AnswersOrSpoils};
ghost use Rattle.key_policy.specs.Modes.{model_mode};
ghost use Rattle.cipher_states.specs.States.{HoldsCipher};

use crate::running::RunningCipher;
use cipher_modes::unpad;
use psa_status::Status;

impl RunningCipher {
    // Fills a buffer with the last block of a text that ends in padding, and answers its length; without the padding,
    // and with zeros in its place, in decryption. Where there is no padding nothing is left to be written.
    fn last_part(&self, out: &mut [u8]) -> Result<usize, Status>
        requires key { IsKey self.now.key }
        requires room { length out.old ≡ last_length (model_mode self.now.mode) }
        ensures within { IfOk result (λ n. n ≤ length out.old) }
        ensures reply { (w : CipherWork) → HoldsCipher self.now w → takes_text w ≡ true → is_whole_text w ≡ true →
            AnswersOrSpoils result (last_part w (whole_text w)).reply }
        ensures buffer { (w : CipherWork) → HoldsCipher self.now w → takes_text w ≡ true → is_whole_text w ≡ true →
            out.new ≡ buffer_after out.old (last_part w (whole_text w)).reply }
        ensures operation { (w : CipherWork) → HoldsCipher self.now w → takes_text w ≡ true → is_whole_text w ≡ true →
            (last_part w (whole_text w)).operation ≡ (if is_ok result then Inactive else InError) }
    {
        if out.is_empty() {
            return Ok(0);
        }
        if self.encrypts {
            out.copy_from_slice(&self.blocks.padded(&self.key));
            Ok(16)
        } else {
            put_unpadded(&self.blocks.last(&self.key), out)
        }
    }

    /// Ends the text: writes the rest of the output to the front of a buffer, and answers its length. `BadState` where
    /// the initialisation vector is missing; `InvalidArgument` where a text of this length may not end;
    /// `BufferTooSmall` where the last block has no room; `InvalidPadding` where no padding ends the text and one
    /// should, and the buffer then has zeros in the last block's place.
    pub(crate) fn finish(&self, out: &mut [u8]) -> Result<usize, Status>
        requires { IsKey self.now.key }
        ensures within { IfOk result (λ n. n ≤ length out.old) }
        ensures reply { (w : CipherWork) → HoldsCipher self.now w →
            AnswersOrSpoils result (cipher_step [] w (CipherFinish (length out.old))).reply }
        ensures buffer { (w : CipherWork) → HoldsCipher self.now w →
            out.new ≡ buffer_after out.old (cipher_step [] w (CipherFinish (length out.old))).reply }
        ensures operation { (w : CipherWork) → HoldsCipher self.now w →
            (cipher_step [] w (CipherFinish (length out.old))).operation ≡ (if is_ok result then Inactive else InError) }
    {
        let needed = self.check_finish(out.len())?;
        self.last_part(&mut out[..needed])
    }
}

// Writes a block without its padding, and zeros in the padding's place; zeros alone where it has none.
fn put_unpadded(block: &[u8; 16], out: &mut [u8]) -> Result<usize, Status>
    requires { length out.old ≡ 16 }
    ensures within { IfOk result (λ n. n ≤ 16) }
    ensures padding { is_ok result ≡ is_some (pkcs7_unpadded block.now) }
    ensures reply { AnswersOrSpoils result (plain_or_zeros 16 (pkcs7_unpadded block.now)) }
    ensures buffer { out.new ≡ buffer_after out.old (plain_or_zeros 16 (pkcs7_unpadded block.now)) }
{
    match unpad(block) {
        Some(kept) => {
            out.copy_from_slice(block);
            out[kept..].fill(0);
            Ok(kept)
        }
        None => {
            out.fill(0);
            Err(Status::InvalidPadding)
        }
    }
}
