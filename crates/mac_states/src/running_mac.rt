// The MAC of a message that comes piece by piece.
ghost use Rattle.std.specs.{Prelude.◌≡◌, Prelude.◌≤◌, Prelude.◌++◌, Prelude.ℕ, Prelude.Bool, Prelude.IsTrue, Prelude.false, Prelude.true, Prelude.IfOk, Prelude.OnOk, Prelude.length, Prelude.take, Result.result_err};
ghost use Rattle.psa_status.specs.Rows.{first_row};
ghost use Rattle.crypto_specs.specs.Prelude.{IsKey};
ghost use Rattle.store_model.specs.{Prelude.mac_of, Prelude.mac_step, Prelude.tag_bytes, Prelude.whole_mac, Prelude.total_rows, Prelude.MacWork, Prelude.mac_work, Prelude.sign_rows, Prelude.buffer_after, Prelude.given, Prelude.reply_unless, MacOperations.verify_rows};
ghost use Rattle.service_calls.specs.Meanings.{model_mac_step};
ghost use Rattle.key_policy.specs.Names.{NamesMac, is_cmac};
ghost use Rattle.mac_states.specs.{Codes.is_keyed, MacStates.HoldsMac, MacStates.IsClearRunningMac};

use crate::total::Total;
use cmac_ops::CmacState;
use hmac_ops::HmacState;
use key_policy::{MacAlgorithm, MacKind, aes_key};
use multipart::{Stepped, Steps, Work, give_front, is_front, move_to_front};
use psa_status::Status;
use service_calls::MacStep;

/// What computes a MAC.
#[derive(Drop)]
pub enum Code {
    Hmac(HmacState),
    Cmac(CmacState),
}

/// A message that is authenticated piece by piece: it stands for its pieces, one after another. Its MAC is made, or
/// verified.
#[derive(Drop)]
pub struct RunningMac {
    length: u8,
    verifies: bool,
    total: Total,
    pub(crate) code: Code,
}

impl RunningMac {
    /// The empty message under this key.
    pub fn begun(verifies: bool, mac: MacAlgorithm, key: &[u8]) -> RunningMac
        requires { is_cmac mac.kind ≡ true → IsKey key.now }
        ensures keyed { IsTrue (is_keyed result.code) }
        ensures holds { (alg : ℕ) → NamesMac alg mac → HoldsMac result (mac_work verifies alg key.now) }
    {
        let code = match mac.kind {
            MacKind::Hmac(which) => Code::Hmac(HmacState::new(which, key)),
            MacKind::Cmac => Code::Cmac(CmacState::new(aes_key(key))),
        };
        RunningMac {
            length: mac.length,
            verifies,
            total: Total::none(),
            code,
        }
    }

    /// Adds a piece to the message; `InvalidArgument` where it would be longer than it may be.
    pub fn update(&mut self, input: &[u8]) -> Result<(), Status>
        requires { IsTrue (is_keyed self.old.code) }
        ensures keyed { IsTrue (is_keyed self.new.code) }
        ensures refusal { (w : MacWork) → HoldsMac self.old w →
            result_err result ≡ first_row (total_rows (length w.message) (length input.now)) }
        ensures holds { (w : MacWork) → HoldsMac self.old w →
            OnOk result (HoldsMac self.new (record w { message = w.message ++ input.now })) }
    {
        self.total.add(input.len())?;
        match &mut self.code {
            Code::Hmac(hmac) => hmac.update(input),
            Code::Cmac(cmac) => cmac.update(input),
        }
        Ok(())
    }

    // Writes the whole MAC of the message to the front of `out`, and answers its length.
    fn put_whole_mac(&mut self, out: &mut [u8; 64]) -> usize
        requires { IsTrue (is_keyed self.old.code) }
        ensures bound { result ≤ 64 }
        ensures mac { (w : MacWork) → HoldsMac self.old w → take result out.new ≡ whole_mac w.alg w.key w.message }
    {
        match &mut self.code {
            Code::Hmac(hmac) => hmac.finish(out),
            Code::Cmac(cmac) => move_to_front(&mut cmac.finish(), out),
        }
    }

    // Writes the MAC of the message, which is the front of the whole one, to the front of `out`, and answers its
    // length.
    fn put_mac(&mut self, out: &mut [u8; 64]) -> usize
        requires { IsTrue (is_keyed self.old.code) }
        ensures bound { result ≤ 64 }
        ensures tag { (w : MacWork) → HoldsMac self.old w → result ≤ tag_bytes w.alg }
        ensures mac { (w : MacWork) → HoldsMac self.old w → take result out.new ≡ mac_of w.alg w.key w.message }
    {
        let length = usize::from(self.length);
        self.put_whole_mac(out).min(length)
    }

    /// Writes the MAC of the message to the front of a buffer that has room for it, and answers its length.
    /// `BadState` where a MAC is verified.
    pub fn sign(&mut self, out: &mut [u8]) -> Result<usize, Status>
        requires { IsTrue (is_keyed self.old.code) }
        ensures refusal { (w : MacWork) → HoldsMac self.old w →
            result_err result ≡ first_row (sign_rows w (length out.old)) }
        ensures length { (w : MacWork) → HoldsMac self.old w →
            IfOk result (λ n. n ≡ length (mac_of w.alg w.key w.message)) }
        ensures buffer { (w : MacWork) → HoldsMac self.old w →
            out.new ≡ buffer_after out.old
            (reply_unless (first_row (sign_rows w (length out.old))) (given (mac_of w.alg w.key w.message))) }
    {
        if self.verifies {
            return Err(Status::BadState);
        }
        if out.len() < usize::from(self.length) {
            return Err(Status::BufferTooSmall);
        }
        let mut mac = [0; 64];
        let length = self.put_mac(&mut mac);
        give_front(&mut mac, length, out)
    }

    /// Compares the MAC of the message. `BadState` where it is made; `InvalidSignature` where a byte or the length
    /// differs.
    pub fn verify(&mut self, expected: &[u8]) -> Result<(), Status>
        requires { IsTrue (is_keyed self.old.code) }
        ensures { (w : MacWork) → HoldsMac self.old w → result_err result ≡ first_row (verify_rows w expected.now) }
    {
        if !self.verifies {
            return Err(Status::BadState);
        }
        let mut mac = [0; 64];
        let length = self.put_mac(&mut mac);
        if is_front(expected, &mut mac, length) {
            Ok(())
        } else {
            Err(Status::InvalidSignature)
        }
    }
}

impl Work for RunningMac {
    ghost Said = { MacWork };

    ghost is_clear = { IsClearRunningMac };

    ghost holds = { HoldsMac };

    ghost runs = { λ s. IsTrue (is_keyed s.code) };

    fn forget(&mut self) {
        self.total = Total::none();
        match &mut self.code {
            Code::Hmac(hmac) => hmac.wipe(),
            Code::Cmac(cmac) => cmac.wipe(),
        }
    }
}

impl<'a> Steps<MacStep<'a>> for RunningMac {
    ghost Given = { MacWork };

    ghost has = { HoldsMac };

    ghost meaning = { λ random w step room. mac_step w (model_mac_step step room) };

    ghost takes = { λ step. false };

    fn takes_random(_step: &MacStep<'a>) -> bool {
        false
    }

    fn draws(&self, _step: &MacStep<'a>, _room: usize) -> usize {
        0
    }

    #[tactic(auto, using(multipart::proofs::Stepping::going_on, multipart::proofs::Stepping::ending))]
    fn advance(&mut self, step: MacStep<'a>, _random: &[u8; 16], out: &mut [u8]) -> Stepped {
        match step {
            MacStep::Update(input) => Stepped::going_on(self.update(input)),
            MacStep::SignFinish => Stepped::ending_with_bytes(self.sign(out)),
            MacStep::VerifyFinish(expected) => Stepped::ending(self.verify(expected)),
        }
    }
}
