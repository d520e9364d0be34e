// The state of an operation, and how its phase changes.
ghost use Rattle.std.specs.Prelude.{◌≡◌, true, false};
ghost use Rattle.crypto_specs.specs.Prelude.{IsKey};
ghost use Rattle.service_calls.specs.{Answers.plain_reply, Meanings.model_aead_step, Random.takes_nonce_bytes};
ghost use Rattle.store_model.specs.Prelude.{Inactive, Operation, is_inactive, AeadWork, aead_step, refusal};
ghost use Rattle.alg_encoding.specs.declared.table.Class.TheVariants.{Aead};
ghost use Rattle.key_policy.specs.Names.{IsOfClass};
ghost use Rattle.multipart.specs.Turns.{is_active, loses_key};
ghost use Rattle.aead_states.specs.{Holding.IsAeadOperation, Holding.IsClearAead, Setups.aead_setup};

use crate::running::RunningAead;
use key_policy::NamedAlgorithm;
use multipart::{Family, OperationState, Phase, Steps};
use psa_status::Status;
use service_calls::{AeadStep, Output};

/// An AEAD in several parts: a setup with a key, the lengths and the nonce, associated data, text, and a finish, which
/// makes the tag or compares it.
#[derive(Drop)]
pub struct AeadState {
    pub(crate) state: OperationState<Option<RunningAead>>,
}

impl AeadState {
    /// An inactive operation.
    pub fn new() -> AeadState
        ensures { IsAeadOperation result Inactive }
    {
        AeadState {
            state: OperationState::new(None),
        }
    }

    /// Whether the operation is inactive.
    pub fn is_inactive(&self) -> bool
        ensures { (op : Operation AeadWork) → IsAeadOperation self.now op → result ≡ is_inactive op }
    {
        self.state.is_inactive()
    }

    /// Whether the operation is active.
    pub fn is_active(&self) -> bool
        ensures { (op : Operation AeadWork) → IsAeadOperation self.now op → result ≡ is_active op }
    {
        self.state.is_active()
    }

    /// Forgets everything: the operation is inactive.
    pub fn wipe(&mut self)
        ensures clear { IsClearAead self.new }
        ensures inactive { IsAeadOperation self.new Inactive }
    {
        self.state.wipe();
    }

    fn setup(&mut self, encrypts: bool, key: &[u8], alg: NamedAlgorithm) -> Result<(), Status>
        requires key { IsKey key.now }
        requires algorithm { IsOfClass Aead alg.0 }
        ensures state { (op : Operation AeadWork) → IsAeadOperation self.old op →
            IsAeadOperation self.new (aead_setup op encrypts alg.0 key.now).operation }
        ensures reply { (op : Operation AeadWork) → IsAeadOperation self.old op →
            plain_reply result ≡ (aead_setup op encrypts alg.0 key.now).reply }
    {
        self.state.phase.check_inactive()?;
        let aead = alg.aead()?;
        self.state.work = Some(RunningAead::begun(encrypts, key, aead));
        self.state.phase = Phase::Active;
        Ok(())
    }

    /// Sets an inactive operation up to encrypt a text under a key. `BadState` where it isn't inactive.
    pub fn aead_encrypt_setup(&mut self, key: &[u8], alg: NamedAlgorithm) -> Result<(), Status>
        requires key { IsKey key.now }
        requires algorithm { IsOfClass Aead alg.0 }
        ensures state { (op : Operation AeadWork) → IsAeadOperation self.old op →
            IsAeadOperation self.new (aead_setup op true alg.0 key.now).operation }
        ensures reply { (op : Operation AeadWork) → IsAeadOperation self.old op →
            plain_reply result ≡ (aead_setup op true alg.0 key.now).reply }
    {
        self.setup(true, key, alg)
    }

    /// Sets an inactive operation up to decrypt a text under a key. `BadState` where it isn't inactive.
    pub fn aead_decrypt_setup(&mut self, key: &[u8], alg: NamedAlgorithm) -> Result<(), Status>
        requires key { IsKey key.now }
        requires algorithm { IsOfClass Aead alg.0 }
        ensures state { (op : Operation AeadWork) → IsAeadOperation self.old op →
            IsAeadOperation self.new (aead_setup op false alg.0 key.now).operation }
        ensures reply { (op : Operation AeadWork) → IsAeadOperation self.old op →
            plain_reply result ≡ (aead_setup op false alg.0 key.now).reply }
    {
        self.setup(false, key, alg)
    }
}

impl<'a> Family<AeadStep<'a>> for AeadState {
    ghost Work = { AeadWork };

    ghost stands = { IsAeadOperation };

    ghost meaning = { λ random w step room. aead_step random w (model_aead_step step room) };

    ghost takes = { takes_nonce_bytes };

    fn lose_key(&mut self) -> Status
        ensures state { (own : Operation AeadWork) → IsAeadOperation self.old own → IsAeadOperation self.new (loses_key own).operation }
        ensures reply { (own : Operation AeadWork) → IsAeadOperation self.old own → refusal result ≡ (loses_key own).reply }
    {
        self.state.lose_key()
    }

    fn takes_random(step: &AeadStep<'a>) -> bool {
        <Option<RunningAead>>::takes_random(step)
    }

    fn draws(&self, step: &AeadStep<'a>, room: usize) -> usize {
        self.state.draws(step, room)
    }

    fn step(
        &mut self,
        step: AeadStep<'a>,
        random: &[u8; 16],
        out: &mut [u8],
    ) -> Result<Output, Status> {
        self.state.step(step, random, out)
    }
}
