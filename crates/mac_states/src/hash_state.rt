// A hash in several parts.
ghost use Rattle.std.specs.Prelude.{◌≡◌, false};
ghost use Rattle.service_calls.specs.{Answers.plain_reply, Meanings.model_hash_step};
ghost use Rattle.store_model.specs.Prelude.{Operation, Inactive, is_inactive, refusal, HashWork, hash_step};
ghost use Rattle.mac_states.specs.{HashStates.IsClearHash, HashStates.IsHashOperation, Setups.hash_setup};
ghost use Rattle.multipart.specs.Turns.{is_active, loses_key};

use crate::running_hash::RunningHash;
use alg_encoding::Alg;
use hash_ops::Hash;
use key_policy::NamedAlgorithm;
use multipart::{Family, OperationState, Phase, Steps};
use psa_status::Status;
use service_calls::{HashStep, Output};

/// A hash in several parts: a setup, any number of updates, and a finish or a verify.
#[derive(Drop)]
pub struct HashOpState {
    pub(crate) state: OperationState<RunningHash>,
}

impl HashOpState {
    /// An inactive operation.
    pub fn new() -> HashOpState
        ensures { IsHashOperation result Inactive }
    {
        HashOpState {
            state: OperationState::new(RunningHash::new(Hash::Sha256)),
        }
    }

    /// Whether the operation is inactive.
    pub fn is_inactive(&self) -> bool
        ensures { (op : Operation HashWork) → IsHashOperation self.now op → result ≡ is_inactive op }
    {
        self.state.is_inactive()
    }

    /// Whether the operation is active.
    pub fn is_active(&self) -> bool
        ensures { (op : Operation HashWork) → IsHashOperation self.now op → result ≡ is_active op }
    {
        self.state.is_active()
    }

    /// Forgets everything: the operation is inactive.
    pub fn wipe(&mut self)
        ensures clear { IsClearHash self.new }
        ensures inactive { IsHashOperation self.new Inactive }
    {
        self.state.wipe();
    }

    /// Sets an inactive operation up to hash a message. `BadState` where it isn't inactive, and else the refusal of a
    /// number that is no hash's; a refused setup leaves the operation.
    pub fn hash_setup(&mut self, alg: Alg) -> Result<(), Status>
        ensures state { (op : Operation HashWork) → IsHashOperation self.old op →
            IsHashOperation self.new (hash_setup op alg.0).operation }
        ensures reply { (op : Operation HashWork) → IsHashOperation self.old op →
            plain_reply result ≡ (hash_setup op alg.0).reply }
    {
        self.state.phase.check_inactive()?;
        let which = NamedAlgorithm::of(alg).hash()?;
        self.state.work = RunningHash::new(which);
        self.state.phase = Phase::Active;
        Ok(())
    }
}

impl<'a> Family<HashStep<'a>> for HashOpState {
    ghost Work = { HashWork };

    ghost stands = { IsHashOperation };

    ghost meaning = { λ random w step room. hash_step w (model_hash_step step room) };

    ghost takes = { λ step. false };

    fn lose_key(&mut self) -> Status
        ensures state { (own : Operation HashWork) → IsHashOperation self.old own → IsHashOperation self.new (loses_key own).operation }
        ensures reply { (own : Operation HashWork) → IsHashOperation self.old own → refusal result ≡ (loses_key own).reply }
    {
        self.state.lose_key()
    }

    fn takes_random(step: &HashStep<'a>) -> bool {
        RunningHash::takes_random(step)
    }

    fn draws(&self, step: &HashStep<'a>, room: usize) -> usize {
        self.state.draws(step, room)
    }

    fn step(
        &mut self,
        step: HashStep<'a>,
        random: &[u8; 16],
        out: &mut [u8],
    ) -> Result<Output, Status> {
        self.state.step(step, random, out)
    }
}
