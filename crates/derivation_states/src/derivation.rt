// What a derivation runs.
ghost use Rattle.std.specs.{Prelude.◌≡◌, Prelude.◌≤◌, Prelude.◌++◌, Prelude.◌∷◌, Prelude.[], Prelude.false, Prelude.true, Prelude.nat_lt, Prelude.is_some, Prelude.bytes_eq, Prelude.Some, Prelude.IfOk, Prelude.OnOk, Prelude.length, Result.result_err};
ghost use Rattle.psa_status.specs.{declared.Status.TheVariants.InsufficientData, Rows.first_row, Rows.unless};
ghost use Rattle.store_model.specs.{DerivationOperations.stated_bytes, Prelude.DerivationWork, Prelude.Reply, Prelude.buffer_after, Prelude.compared, Prelude.derivation_step, Prelude.given, Prelude.input_bytes_rows, Prelude.input_integer_rows, Prelude.key_step_rows, Prelude.next_derived, Prelude.output_key_rows, Prelude.output_rows, Prelude.taken_from, Prelude.with_bytes, Prelude.with_key};
ghost use Rattle.service_calls.specs.{Answers.AnswersLength, Answers.plain_reply, Meanings.model_derivation_step};
ghost use Rattle.multipart.specs.Phases.{LeadsTo};
ghost use Rattle.multipart.specs.declared.Phase.TheVariants as phase;
ghost use Rattle.derivation_states.specs.States.{HoldsRunning, IsClearRunningDerivation};

use crate::inputs::Inputs;
use crate::output::OutputState;
use key_attributes::Attributes;
use multipart::{Stepped, Steps, Work};
use psa_status::{Memory, Status};
use service_calls::{DerivationStep, bytes, number, plain};
use std::alloc::Global;

/// The inputs that were given, and the bytes that can still be had.
#[derive(Drop)]
pub(crate) struct RunningDerivation {
    pub(crate) inputs: Inputs,
    pub(crate) output: OutputState,
}

impl Work for RunningDerivation {
    ghost Said = { DerivationWork };

    ghost is_clear = { IsClearRunningDerivation };

    ghost holds = { HoldsRunning };

    fn forget(&mut self) {
        self.inputs.wipe();
        self.output.wipe();
    }
}

impl<'a> Steps<DerivationStep<'a>> for RunningDerivation {
    ghost Given = { DerivationWork };

    ghost has = { HoldsRunning };

    ghost meaning = { λ random w step room. derivation_step w (model_derivation_step step room) };

    ghost takes = { λ step. false };

    fn takes_random(_step: &DerivationStep<'a>) -> bool {
        false
    }

    fn draws(&self, _step: &DerivationStep<'a>, _room: usize) -> usize {
        0
    }

    #[tactic(auto, using(multipart::proofs::Stepping::going_on))]
    fn advance(&mut self, step: DerivationStep<'a>, _random: &[u8; 16], out: &mut [u8]) -> Stepped {
        match step {
            DerivationStep::GetCapacity => Stepped::staying(number(Ok(self.output.capacity))),
            DerivationStep::SetCapacity(capacity) => Stepped::staying(plain(
                self.output.lower_capacity(capacity),
            )),
            DerivationStep::InputBytes { step, bytes } => Stepped::going_on(self.input_bytes(
                step, bytes,
            )),
            DerivationStep::InputInteger { step, value } => Stepped::going_on(self.input_integer(
                step, value,
            )),
            DerivationStep::OutputBytes => match self.check_secret() {
                Ok(()) => Stepped::staying(bytes(self.give_bytes(out))),
                Err(status) => Stepped::going_on(Err(status)),
            },
            DerivationStep::VerifyBytes(expected) => match self.check_secret() {
                Ok(()) => Stepped::staying(plain(self.verify_bytes(expected))),
                Err(status) => Stepped::going_on(Err(status)),
            },
        }
    }
}

impl RunningDerivation {
    // No inputs and no bytes; `Memory` where there is no room for the buffers.
    pub(crate) fn new(alloc: Global) -> Result<RunningDerivation, Memory>
        ensures { IfOk result (λ s. IsClearRunningDerivation s) }
    {
        Ok(RunningDerivation {
            inputs: Inputs::new(alloc)?,
            output: OutputState::new(),
        })
    }

    // Takes bytes at a step. `InvalidArgument` where the step takes none, `BadState` where it isn't due, and
    // `NotSupported` where it would have more than 1,024 bytes.
    fn input_bytes(&mut self, step: u16, bytes: &[u8]) -> Result<(), Status>
        ensures refusal { (w : DerivationWork) → HoldsRunning self.old w →
            result_err result ≡ first_row (input_bytes_rows w step bytes.now) }
        ensures holds { (w : DerivationWork) → HoldsRunning self.old w →
            OnOk result (HoldsRunning self.new (with_bytes w step bytes.now)) }
    {
        let has_begun = self.output.has_begun();
        self.inputs
            .take_bytes(self.output.kdf, has_begun, step, bytes)?;
        Ok(())
    }

    // Takes PBKDF2's cost. `InvalidArgument` at any other step and for 0, `BadState` for a second one, and `NotSupported`
    // above 100,000.
    fn input_integer(&mut self, step: u16, value: u64) -> Result<(), Status>
        ensures refusal { (w : DerivationWork) → HoldsRunning self.old w →
            result_err result ≡ first_row (input_integer_rows w step value) }
        ensures holds { (w : DerivationWork) → HoldsRunning self.old w →
            OnOk result (HoldsRunning self.new (record w { cost = Some value })) }
    {
        self.inputs.take_integer(self.output.kdf, step, value)
    }

    // Takes a key's bytes at a step.
    pub(crate) fn input_key(&mut self, step: u16, key: &[u8]) -> Result<(), Status>
        requires { length key.now ≤ 1024 }
        ensures refusal { (w : DerivationWork) → HoldsRunning self.old w →
            result_err result ≡ first_row (key_step_rows w step) }
        ensures holds { (w : DerivationWork) → HoldsRunning self.old w →
            OnOk result (HoldsRunning self.new (with_key w key.now)) }
    {
        self.inputs.check_key_step(self.output.kdf, step)?;
        self.inputs.put_key(self.output.kdf, key);
        Ok(())
    }

    // The refusal of output before the secret.
    pub(crate) fn check_secret(&self) -> Result<(), Status>
        ensures { (w : DerivationWork) → HoldsRunning self.now w → result ≡ unless (first_row (output_rows w)) tt }
    {
        if self.inputs.key.is_given() {
            Ok(())
        } else {
            Err(Status::BadState)
        }
    }

    // Fills `out` with the next bytes, and answers their number. `InsufficientData` where there aren't so many: then none
    // is left.
    fn give_bytes(&mut self, out: &mut [u8]) -> Result<usize, Status>
        ensures holds { (w : DerivationWork) → HoldsRunning self.old w → is_some w.secret ≡ true →
            LeadsTo phase.Active (HoldsRunning self.new) (taken_from w (length out.old) (given (next_derived w (length out.old)))).operation }
        ensures reply { (w : DerivationWork) → HoldsRunning self.old w → is_some w.secret ≡ true →
            AnswersLength result (taken_from w (length out.old) (given (next_derived w (length out.old)))).reply }
        ensures buffer { (w : DerivationWork) → HoldsRunning self.old w → is_some w.secret ≡ true →
            out.new ≡ buffer_after out.old (taken_from w (length out.old) (given (next_derived w (length out.old)))).reply }
    {
        self.output.check_capacity(out.len())?;
        self.output.fill(&self.inputs, out);
        Ok(out.len())
    }

    // Takes as many bytes as were expected. `InvalidSignature` where they are others, and the refusal of `give_bytes`.
    fn verify_bytes(&mut self, expected: &[u8]) -> Result<(), Status>
        ensures holds { (w : DerivationWork) → HoldsRunning self.old w → is_some w.secret ≡ true → (reply : Reply) →
            LeadsTo phase.Active (HoldsRunning self.new) (taken_from w (length expected.now) reply).operation }
        ensures reply { (w : DerivationWork) → HoldsRunning self.old w → is_some w.secret ≡ true →
            plain_reply result ≡ (taken_from w (length expected.now) (compared (bytes_eq expected.now (next_derived w (length expected.now))))).reply }
    {
        self.output.check_capacity(expected.len())?;
        if self.output.gives(&self.inputs, expected) {
            Ok(())
        } else {
            Err(Status::InvalidSignature)
        }
    }

    // The refusal of a key with these attributes, before the capacity is looked at.
    pub(crate) fn check_key_output(&self, attributes: &Attributes) -> Result<(), Status>
        ensures { (w : DerivationWork) → HoldsRunning self.now w →
            result ≡ unless (first_row (output_key_rows w attributes.now)) tt }
    {
        self.check_secret()?;
        if attributes.bits == 0 || attributes.bits % 8 != 0 {
            return Err(Status::InvalidArgument);
        }
        if attributes.lifetime.0 >> 8 != 0 {
            return Err(Status::NotSupported);
        }
        if !self.inputs.by_key {
            return Err(Status::NotPermitted);
        }
        Ok(())
    }

    // The refusal of a key with these attributes.
    pub(crate) fn check_derived_key(&self, attributes: &Attributes) -> Result<(), Status>
        ensures { (w : DerivationWork) → HoldsRunning self.now w →
            result ≡ unless (first_row (output_key_rows w attributes.now ++ (nat_lt w.capacity (stated_bytes attributes.now), InsufficientData) ∷ [])) tt }
    {
        self.check_key_output(attributes)?;
        if u64::from(attributes.bits / 8) > self.output.capacity {
            return Err(Status::InsufficientData);
        }
        Ok(())
    }
}
