// The start of a text: its key, and its initialisation vector.
ghost use Rattle.std.specs.{Prelude.◌≡◌, Prelude.◌≤◌, Prelude.ℕ, Prelude.List, Prelude.[], Prelude.IfOk, Prelude.IsTrue, Prelude.OnOk, Prelude.length, Prelude.true, Result.result_err};
ghost use Rattle.psa_status.specs.Rows.{first_row};
ghost use Rattle.crypto_specs.specs.Prelude.{IsKey, block_number};
ghost use Rattle.aead_streams.specs.{declared.counter_width.CounterWidth.TheVariants.Whole, Streams.IsAt};
ghost use Rattle.store_model.specs.Prelude.{buffer_after, given, reply_unless, CipherGenerateIv, CipherWork, cipher_step, cipher_work, generate_iv_rows, set_iv_rows, takes_iv, with_iv};
ghost use Rattle.key_policy.specs.{Keys.is_key, Modes.model_mode, Names.NamesMode};
ghost use Rattle.cipher_states.specs.{States.HoldsCipher, States.IsClearRunningCipher, Modes.keeps_last, Texts.RunsBlocks, Ways.chains, Ways.way_of};

use crate::block_text::BlockText;
use crate::running::RunningCipher;
use crate::ways::Way;
use aead_streams::{CounterWidth, KeyStream};
use key_policy::{Mode, aes_key};
use multipart::Work;
use psa_status::Status;

// Whether the last block is kept back: it may hold the padding.
fn keeps_last(mode: Mode, encrypts: bool) -> bool
    ensures { result ≡ keeps_last (model_mode mode) encrypts }
{
    matches!(mode, Mode::CbcPkcs7) && !encrypts
}

impl RunningCipher {
    // Begins the text from an initialisation vector.
    fn begin_text(&mut self, iv: &[u8; 16])
        ensures encrypts { self.new.encrypts ≡ self.old.encrypts }
        ensures mode { self.new.mode ≡ self.old.mode }
        ensures key { self.new.key ≡ self.old.key }
        ensures has_iv { self.new.has_iv ≡ self.old.has_iv }
        ensures total { self.new.total ≡ self.old.total }
        ensures stream { (e : List ℕ → List ℕ) → IsAt self.new.stream e Whole (block_number iv.now) 0 }
        ensures blocks { (key given : List ℕ) →
            (chains (way_of (model_mode self.old.mode) self.old.encrypts) ≡ true → iv.now ≡ given) →
            RunsBlocks self.new.blocks (way_of (model_mode self.old.mode) self.old.encrypts)
            (keeps_last (model_mode self.old.mode) self.old.encrypts) key given [] }
    {
        let way = Way::of(self.mode, self.encrypts);
        self.stream = KeyStream::new(CounterWidth::Whole, u128::from_be_bytes(*iv));
        self.blocks = BlockText::new(way, keeps_last(self.mode, self.encrypts), iv);
    }

    /// The empty text under this key. Where the mode has an initialisation vector, that comes next.
    pub(crate) fn begun(encrypts: bool, mode: Mode, key: &[u8]) -> RunningCipher
        requires { IsKey key.now }
        ensures key { IsKey result.key }
        ensures holds { (alg : ℕ) → NamesMode alg mode → HoldsCipher result (cipher_work encrypts alg key.now) }
    {
        let mut begun = RunningCipher {
            encrypts,
            mode,
            key: aes_key(key),
            has_iv: false,
            total: 0,
            stream: KeyStream::clear(),
            blocks: BlockText::clear(),
        };
        begun.begin_text(&[0; 16]);
        begun
    }

    // Takes the initialisation vector.
    fn take_iv(&mut self, iv: &[u8; 16])
        ensures key { self.new.key ≡ self.old.key }
        ensures holds { (w : CipherWork) → HoldsCipher self.old w → takes_iv w ≡ true →
            HoldsCipher self.new (with_iv w iv.now) }
    {
        self.begin_text(iv);
        self.has_iv = true;
    }

    /// Sets the initialisation vector. `BadState` where it is there, or the mode has none; `InvalidArgument` where it
    /// hasn't 16 bytes.
    pub(crate) fn set_iv(&mut self, iv: &[u8]) -> Result<(), Status>
        ensures key { self.new.key ≡ self.old.key }
        ensures refusal { (w : CipherWork) → HoldsCipher self.old w →
            result_err result ≡ first_row (set_iv_rows w iv.now) }
        ensures holds { (w : CipherWork) → HoldsCipher self.old w →
            OnOk result (HoldsCipher self.new (with_iv w iv.now)) }
    {
        if !self.takes_iv() {
            return Err(Status::BadState);
        }
        let Ok(block) = <[u8; 16]>::try_from(iv) else {
            return Err(Status::InvalidArgument);
        };
        self.take_iv(&block);
        Ok(())
    }

    /// How many random bytes `generate_iv` takes with an output buffer of so many bytes, decided before it is called.
    pub(crate) fn iv_draws(&self, room: usize) -> usize
        ensures bound { result ≤ 16 }
        ensures drawn { (random : List ℕ) (w : CipherWork) → HoldsCipher self.now w →
            result ≡ (cipher_step random w (CipherGenerateIv room)).drawn }
    {
        if self.encrypts && self.takes_iv() && 16 <= room {
            16
        } else {
            0
        }
    }

    /// Takes these random bytes as the initialisation vector, writes them to the front of a buffer, and answers their
    /// number. `BadState` in decryption, where the vector is there, or where the mode has none; `BufferTooSmall` where
    /// they have no room.
    pub(crate) fn generate_iv(&mut self, random: &[u8; 16], out: &mut [u8]) -> Result<usize, Status>
        ensures key { self.new.key ≡ self.old.key }
        ensures refusal { (w : CipherWork) → HoldsCipher self.old w →
            result_err result ≡ first_row (generate_iv_rows w (length out.old)) }
        ensures length { IfOk result (λ n. n ≡ length random.now) }
        ensures within { IfOk result (λ n. n ≤ length out.old) }
        ensures holds { (w : CipherWork) → HoldsCipher self.old w →
            OnOk result (HoldsCipher self.new (with_iv w random.now)) }
        ensures buffer { (w : CipherWork) → HoldsCipher self.old w →
            out.new ≡ buffer_after out.old (reply_unless (first_row (generate_iv_rows w (length out.old))) (given random.now)) }
    {
        if !(self.encrypts && self.takes_iv()) {
            return Err(Status::BadState);
        }
        if out.len() < 16 {
            return Err(Status::BufferTooSmall);
        }
        out[..16].copy_from_slice(random);
        self.take_iv(random);
        Ok(16)
    }
}

impl Work for RunningCipher {
    ghost Said = { CipherWork };

    ghost is_clear = { IsClearRunningCipher };

    ghost holds = { HoldsCipher };

    ghost runs = { λ s. IsTrue (is_key s.key) };

    // Forgets key and text.
    fn forget(&mut self) {
        self.key.wipe();
        self.total = 0;
        self.stream.wipe();
        self.blocks.wipe();
    }
}
