// A cipher that runs over a text which comes piece by piece.
ghost use Rattle.std.specs.{Prelude.◌≡◌, Prelude.◌-◌, Prelude.◌%◌, Prelude.◌≤◌, Prelude.ℕ, Prelude.List, Prelude.IfOk, Prelude.OnOk, Prelude.length, Prelude.true, Result.result_err};
ghost use Rattle.psa_status.specs.Rows.{first_row, unless};
ghost use Rattle.crypto_specs.specs.Prelude.{IsKey};
ghost use Rattle.store_model.specs.Prelude.{total_limit, buffer_after, given, reply_unless, CipherWork, cipher_step, cipher_finish_rows, cipher_fresh, cipher_update_rows, is_whole_text, last_length, takes_iv, takes_text, with_text, mode_of};
ghost use Rattle.key_policy.specs.Modes.{model_mode};
ghost use Rattle.service_calls.specs.{Meanings.model_cipher_step, Random.takes_iv_bytes};
ghost use Rattle.cipher_states.specs.Modes.{is_stream};

use crate::block_text::BlockText;
use aead_streams::KeyStream;
use aes_core::AesKey;
use key_policy::{Mode, TOTAL_LIMIT, is_ciphertext_length, iv_length, takes_whole_blocks};
use multipart::{Stepped, Steps};
use psa_status::Status;
use service_calls::CipherStep;

/// A text that is enciphered or deciphered piece by piece, and its key. Of the key stream and the blocks the mode uses
/// one.
#[derive(Drop)]
pub struct RunningCipher {
    pub(crate) encrypts: bool,
    pub(crate) mode: Mode,
    pub(crate) key: AesKey,
    pub(crate) has_iv: bool,
    pub(crate) total: usize,
    pub(crate) stream: KeyStream,
    pub(crate) blocks: BlockText,
    ghost limited: { total ≤ total_limit },
}

// Whether a mode gives each byte at once.
fn is_stream(mode: Mode) -> bool
    ensures { result ≡ is_stream (model_mode mode) }
{
    matches!(mode, Mode::Ctr)
}

// The bytes that a finish needs room for.
fn last_length(mode: Mode) -> usize
    ensures value { result ≡ last_length (model_mode mode) }
    ensures blocks { result % 16 ≡ 0 }
{
    match mode {
        Mode::CbcPkcs7 => 16,
        Mode::Ctr | Mode::CbcNoPadding | Mode::EcbNoPadding => 0,
    }
}

impl RunningCipher {
    ghost use Rattle.cipher_states.specs.States.{HoldsCipher, due_now};

    // Whether text may come: the initialisation vector is there, or the mode has none.
    pub(crate) fn takes_text(&self) -> bool
        ensures { (w : CipherWork) → HoldsCipher self.now w → result ≡ takes_text w }
    {
        self.has_iv || iv_length(self.mode) == 0
    }

    // Whether an initialisation vector is needed, and isn't there.
    pub(crate) fn takes_iv(&self) -> bool
        ensures { (w : CipherWork) → HoldsCipher self.now w → result ≡ takes_iv w }
    {
        iv_length(self.mode) != 0 && !self.has_iv
    }

    // Whether the text may end here.
    fn is_whole_text(&self) -> bool
        ensures { (w : CipherWork) → HoldsCipher self.now w → result ≡ is_whole_text w }
    {
        if self.encrypts {
            !takes_whole_blocks(self.mode) || self.total % 16 == 0
        } else {
            is_ciphertext_length(self.mode, self.total)
        }
    }

    // How many bytes of output so many bytes of input give.
    fn due(&self, more: usize) -> usize
        requires { more ≤ total_limit }
        ensures { result ≡ due_now self.now more }
    {
        if is_stream(self.mode) {
            more
        } else {
            self.blocks.due(more)
        }
    }

    // The output that so many bytes of input need room for, or the refusal of that number or of the room.
    pub(crate) fn check_update(&self, more: usize, room: usize) -> Result<usize, Status>
        ensures value { (w : CipherWork) → HoldsCipher self.now w → (input : List ℕ) → length input ≡ more →
            result ≡ unless (first_row (cipher_update_rows w input room)) (length (cipher_fresh w (with_text w input))) }
        ensures ready { (w : CipherWork) → HoldsCipher self.now w → OnOk result (takes_text w ≡ true) }
        ensures total { OnOk result (more ≤ total_limit - self.now.total) }
        ensures count { IfOk result (λ n. n ≡ due_now self.now more) }
        ensures room { IfOk result (λ n. n ≤ room) }
    {
        if !self.takes_text() {
            return Err(Status::BadState);
        }
        if more > TOTAL_LIMIT - self.total {
            return Err(Status::InvalidArgument);
        }
        let due = self.due(more);
        if room < due {
            return Err(Status::BufferTooSmall);
        }
        Ok(due)
    }

    // The bytes that a finish needs room for, or its refusal.
    pub(crate) fn check_finish(&self, room: usize) -> Result<usize, Status>
        ensures value { (w : CipherWork) → HoldsCipher self.now w →
            result ≡ unless (first_row (cipher_finish_rows w room)) (last_length (mode_of w.alg)) }
        ensures ready { (w : CipherWork) → HoldsCipher self.now w → OnOk result (takes_text w ≡ true) }
        ensures whole { (w : CipherWork) → HoldsCipher self.now w → OnOk result (is_whole_text w ≡ true) }
        ensures count { IfOk result (λ n. n ≡ last_length (model_mode self.now.mode)) }
        ensures room { IfOk result (λ n. n ≤ room) }
    {
        if !self.takes_text() {
            return Err(Status::BadState);
        }
        if !self.is_whole_text() {
            return Err(Status::InvalidArgument);
        }
        let needed = last_length(self.mode);
        if room < needed {
            return Err(Status::BufferTooSmall);
        }
        Ok(needed)
    }

    // Takes in a piece, and fills a buffer with the output that it makes due.
    fn take_in(&mut self, input: &[u8], out: &mut [u8])
        requires key { IsKey self.old.key }
        requires total { length input.now ≤ total_limit - self.old.total }
        requires room { length out.old ≡ due_now self.old (length input.now) }
        ensures key { self.new.key ≡ self.old.key }
        ensures out { (w : CipherWork) → HoldsCipher self.old w → takes_text w ≡ true →
            out.new ≡ cipher_fresh w (with_text w input.now) }
        ensures holds { (w : CipherWork) → HoldsCipher self.old w → takes_text w ≡ true →
            HoldsCipher self.new (with_text w input.now) }
    {
        self.total += input.len();
        if is_stream(self.mode) {
            out.copy_from_slice(input);
            self.stream.xor(&self.key, out);
        } else {
            self.blocks.update(&self.key, input, out);
        }
    }

    /// Takes in a piece of the text, writes the output that it makes due to the front of a buffer, and answers its
    /// length. `BadState` where the initialisation vector is missing; `InvalidArgument` where the text would be longer
    /// than it may be; `BufferTooSmall` where the output has no room.
    pub(crate) fn update(&mut self, input: &[u8], out: &mut [u8]) -> Result<usize, Status>
        requires { IsKey self.old.key }
        ensures key { self.new.key ≡ self.old.key }
        ensures refusal { (w : CipherWork) → HoldsCipher self.old w →
            result_err result ≡ first_row (cipher_update_rows w input.now (length out.old)) }
        ensures length { (w : CipherWork) → HoldsCipher self.old w →
            IfOk result (λ n. n ≡ length (cipher_fresh w (with_text w input.now))) }
        ensures within { IfOk result (λ n. n ≤ length out.old) }
        ensures holds { (w : CipherWork) → HoldsCipher self.old w →
            OnOk result (HoldsCipher self.new (with_text w input.now)) }
        ensures buffer { (w : CipherWork) → HoldsCipher self.old w →
            out.new ≡ buffer_after out.old (reply_unless (first_row (cipher_update_rows w input.now (length out.old)))
            (given (cipher_fresh w (with_text w input.now)))) }
    {
        let due = self.check_update(input.len(), out.len())?;
        self.take_in(input, &mut out[..due]);
        Ok(due)
    }
}

impl<'a> Steps<CipherStep<'a>> for RunningCipher {
    ghost use Rattle.cipher_states.specs.States.{HoldsCipher};

    ghost Given = { CipherWork };

    ghost has = { HoldsCipher };

    ghost meaning = { λ random w step room. cipher_step random w (model_cipher_step step room) };

    ghost takes = { takes_iv_bytes };

    fn takes_random(step: &CipherStep<'a>) -> bool {
        matches!(step, CipherStep::GenerateIv)
    }

    fn draws(&self, step: &CipherStep<'a>, room: usize) -> usize {
        match step {
            CipherStep::GenerateIv => self.iv_draws(room),
            _ => 0,
        }
    }

    #[tactic(auto, using(multipart::proofs::Stepping::going_on, crate::proofs::Finishing::finished))]
    fn advance(&mut self, step: CipherStep<'a>, random: &[u8; 16], out: &mut [u8]) -> Stepped {
        match step {
            CipherStep::GenerateIv => Stepped::giving_bytes(self.generate_iv(random, out)),
            CipherStep::SetIv(iv) => Stepped::going_on(self.set_iv(iv)),
            CipherStep::Update(input) => Stepped::giving_bytes(self.update(input, out)),
            CipherStep::Finish => Stepped::ending_with_bytes(self.finish(out)),
        }
    }
}
