//! The derivation of bytes and keys in several parts, by HKDF (RFC 5869) and PBKDF2 (RFC 8018).
//!
//! What is proved:
//!
//! - the setups of `DerivationState`, and its steps by `Family`: each is the model's change of one operation: the output
//!   that is due and no more, each refusal in its order (as that of a cost of PBKDF2 above 100,000), and what it leaves;
//!   after `wipe` keys and buffers are zeros, and hashers are those of the empty message.
#![tactic(auto)]

ghost use Rattle.std.specs.Prelude.{◌≡◌, ◌≤◌, ◌+◌, ◌/◌, false, min, IfOk, length};
ghost use Rattle.store_model.specs.Prelude.{Operation, Inactive, InError, is_inactive, DerivationWork, derivation_step, derived, refusal};
ghost use Rattle.service_calls.specs.{Answers.plain_reply, Meanings.model_derivation_step};
ghost use Rattle.multipart.specs.{Dues.DueGrows, Turns.is_active, Turns.loses_key, Turns.on_active};
ghost use Rattle.derivation_states.specs.{Replies.AnswersFront, States.IsClearDerivation, States.IsDerivationOperation};

use alg_encoding::Alg;
use derivation::RunningDerivation;
use key_attributes::Attributes;
use key_policy::NamedAlgorithm;
use multipart::{Family, OperationState, Phase, Steps};
use psa_status::{Memory, Status};
use service_calls::{DerivationStep, Output};
use std::alloc::Global;

mod derivation;
mod input;
mod inputs;
mod output;

/// The most bytes of a derived key that are written: one more than a key may have, so that a longer one is seen.
pub const KEY_ROOM: usize = 1025;

/// A derivation of bytes and keys, with all its buffers.
#[derive(Drop)]
pub struct DerivationState {
    state: OperationState<RunningDerivation>,
}

impl DerivationState {
    ghost use Rattle.derivation_states.specs.KeySteps.{derivation_setup, derived_key_bytes, key_given, key_step_refusal, output_key_refusal};

    /// An inactive derivation; `Memory` where there is no room for its buffers.
    pub fn new(alloc: Global) -> Result<DerivationState, Memory>
        ensures { IfOk result (λ s. IsDerivationOperation s Inactive) }
    {
        let work = RunningDerivation::new(alloc)?;
        Ok(DerivationState {
            state: OperationState::new(work),
        })
    }

    /// Whether it waits for a setup.
    pub fn is_inactive(&self) -> bool
        ensures { (op : Operation DerivationWork) → IsDerivationOperation self.now op → result ≡ is_inactive op }
    {
        self.state.is_inactive()
    }

    /// Whether it is active.
    pub fn is_active(&self) -> bool
        ensures { (op : Operation DerivationWork) → IsDerivationOperation self.now op → result ≡ is_active op }
    {
        self.state.is_active()
    }

    /// Forgets the derivation: it is inactive, and all buffers are zeros.
    pub fn wipe(&mut self)
        ensures clear { IsClearDerivation self.new }
        ensures inactive { IsDerivationOperation self.new Inactive }
    {
        self.state.wipe();
    }

    /// Forgets the derivation: it waits for its abort, and all buffers are zeros.
    pub fn fail(&mut self)
        ensures { IsDerivationOperation self.new InError }
    {
        self.state.settle(Phase::InError);
    }

    /// What a call answers where the key that was given is gone: `InvalidHandle`, and the operation is in error.
    pub fn lose_key(&mut self) -> Status
        ensures state { (op : Operation DerivationWork) → IsDerivationOperation self.old op
            → IsDerivationOperation self.new (loses_key op).operation }
        ensures reply { (op : Operation DerivationWork) → IsDerivationOperation self.old op
            → refusal result ≡ (loses_key op).reply }
    {
        self.state.lose_key()
    }

    /// Begins a derivation. `BadState` unless it is inactive, and the refusals of a number that is none of a derivation.
    pub fn key_derivation_setup(&mut self, alg: Alg) -> Result<(), Status>
        ensures state { (op : Operation DerivationWork) → IsDerivationOperation self.old op
            → IsDerivationOperation self.new (derivation_setup op alg.0).operation }
        ensures reply { (op : Operation DerivationWork) → IsDerivationOperation self.old op
            → plain_reply result ≡ (derivation_setup op alg.0).reply }
    {
        self.state.phase.check_inactive()?;
        let derivation = NamedAlgorithm::of(alg).derivation()?;
        self.state.work.output.start(derivation);
        self.state.phase = Phase::Active;
        Ok(())
    }

    /// What `key_derivation_input_key` would refuse whatever the key is.
    pub fn key_step_refusal(&self, step: u16) -> Option<Status>
        ensures { (op : Operation DerivationWork) → IsDerivationOperation self.now op
            → result ≡ key_step_refusal op step }
    {
        match self.state.phase.check_active() {
            Ok(()) => {
                let work = &self.state.work;
                work.inputs.check_key_step(work.output.kdf, step).err()
            }
            Err(status) => Some(status),
        }
    }

    /// Takes a key's bytes as the secret or the password.
    pub fn key_derivation_input_key(&mut self, step: u16, key: &[u8]) -> Result<(), Status>
        requires { length key.now ≤ 1024 }
        ensures state { (op : Operation DerivationWork) → IsDerivationOperation self.old op
            → IsDerivationOperation self.new (on_active op (λ w. key_given w step key.now)).operation }
        ensures reply { (op : Operation DerivationWork) → IsDerivationOperation self.old op
            → plain_reply result ≡ (on_active op (λ w. key_given w step key.now)).reply }
    {
        self.state.phase.check_active()?;
        let result = self.state.work.input_key(step, key);
        self.state.settle(Phase::after_step(result.is_ok()));
        result
    }

    /// What `key_derivation_output_key` would refuse.
    pub fn output_key_refusal(&self, attributes: &Attributes) -> Option<Status>
        ensures { (op : Operation DerivationWork) → IsDerivationOperation self.now op
            → result ≡ output_key_refusal op attributes.now }
    {
        match self.state.phase.check_active() {
            Ok(()) => self.state.work.check_derived_key(attributes).err(),
            Err(status) => Some(status),
        }
    }

    /// Takes the bytes of a key with these attributes, whose bits are stated. The first 1,025 of them are written to the
    /// front of `out`; the answer is how many were written.
    pub fn key_derivation_output_key(
        &mut self,
        attributes: &Attributes,
        out: &mut [u8; KEY_ROOM],
    ) -> Result<usize, Status>
        ensures state { (op : Operation DerivationWork) → IsDerivationOperation self.old op
            → IsDerivationOperation self.new (on_active op (λ w. derived_key_bytes w attributes.now)).operation }
        ensures key { (op : Operation DerivationWork) → IsDerivationOperation self.old op
            → AnswersFront 1025 result out.old out.new (on_active op (λ w. derived_key_bytes w attributes.now)).reply }
        ensures length { IfOk result (λ n. n ≡ min (attributes.now.bits / 8) 1025) }
    {
        self.state.phase.check_active()?;
        let checked = self.state.work.check_key_output(attributes);
        self.state.settle(Phase::after_step(checked.is_ok()));
        checked?;
        let count = usize::from(attributes.bits / 8);
        let work = &mut self.state.work;
        work.output.check_capacity(count)?;
        Ok(work.output.fill_front(&work.inputs, count, out))
    }
}

impl<'a> Family<DerivationStep<'a>> for DerivationState {
    ghost Work = { DerivationWork };

    ghost stands = { IsDerivationOperation };

    ghost meaning = { λ random w step room. derivation_step w (model_derivation_step step room) };

    ghost takes = { λ step. false };

    fn lose_key(&mut self) -> Status
        ensures state { (own : Operation DerivationWork) → IsDerivationOperation self.old own → IsDerivationOperation self.new (loses_key own).operation }
        ensures reply { (own : Operation DerivationWork) → IsDerivationOperation self.old own → refusal result ≡ (loses_key own).reply }
    {
        DerivationState::lose_key(self)
    }

    fn takes_random(step: &DerivationStep<'a>) -> bool {
        RunningDerivation::takes_random(step)
    }

    fn draws(&self, step: &DerivationStep<'a>, room: usize) -> usize {
        self.state.draws(step, room)
    }

    fn step(
        &mut self,
        step: DerivationStep<'a>,
        random: &[u8; 16],
        out: &mut [u8],
    ) -> Result<Output, Status> {
        self.state.step(step, random, out)
    }
}

/// More bytes only add to those that come first.
pub fn due_grows()
    ensures { (w : DerivationWork) → DueGrows (derived w) (λ n more. n + more) }
{}
