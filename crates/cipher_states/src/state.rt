// A cipher in several parts.
ghost use Rattle.std.specs.{Prelude.◌≡◌, Prelude.IsTrue, Prelude.true, Prelude.false, Option.ForSome};
ghost use Rattle.crypto_specs.specs.Prelude.{IsKey};
ghost use Rattle.service_calls.specs.{Answers.plain_reply, Meanings.model_cipher_step, Random.takes_iv_bytes};
ghost use Rattle.store_model.specs.Prelude.{Operation, Inactive, is_inactive, CipherWork, cipher_step, refusal};
ghost use Rattle.multipart.specs.Turns.{is_active, loses_key};
ghost use Rattle.multipart.specs.declared.Phase.TheVariants as phases;
ghost use Rattle.alg_encoding.specs.declared.table.Class.TheVariants.{Cipher};
ghost use Rattle.key_policy.specs.{Names.IsOfClass, Keys.is_key};
ghost use Rattle.cipher_states.specs.Setups.{cipher_setup};

use crate::running::RunningCipher;
use key_policy::NamedAlgorithm;
use multipart::{Family, OperationState, Phase, Steps};
use psa_status::Status;
use service_calls::{CipherStep, Output};

/// A cipher in several parts: a setup with a key, the initialisation vector where the mode has one, any number of
/// updates, and a finish.
#[derive(Drop)]
pub struct CipherState {
    pub(crate) state: OperationState<Option<RunningCipher>>,
    ghost keyed: { state.phase ≡ phases.Active → ForSome state.work (λ work. IsTrue (is_key work.key)) },
}

impl CipherState {
    ghost use Rattle.cipher_states.specs.States.{IsCipherOperation, IsClearCipher};

    /// An inactive operation.
    pub fn new() -> CipherState
        ensures { IsCipherOperation result Inactive }
    {
        CipherState {
            state: OperationState::new(None),
        }
    }

    /// Whether the operation is inactive.
    pub fn is_inactive(&self) -> bool
        ensures { (op : Operation CipherWork) → IsCipherOperation self.now op → result ≡ is_inactive op }
    {
        self.state.is_inactive()
    }

    /// Whether the operation is active.
    pub fn is_active(&self) -> bool
        ensures { (op : Operation CipherWork) → IsCipherOperation self.now op → result ≡ is_active op }
    {
        self.state.is_active()
    }

    /// Forgets everything: the operation is inactive.
    pub fn wipe(&mut self)
        ensures clear { IsClearCipher self.new }
        ensures inactive { IsCipherOperation self.new Inactive }
    {
        self.state.wipe();
    }

    fn setup(&mut self, encrypts: bool, key: &[u8], alg: NamedAlgorithm) -> Result<(), Status>
        requires algorithm { IsOfClass Cipher alg.0 }
        requires key { IsKey key.now }
        ensures state { (op : Operation CipherWork) → IsCipherOperation self.old op →
            IsCipherOperation self.new (cipher_setup op encrypts alg.0 key.now).operation }
        ensures reply { (op : Operation CipherWork) → IsCipherOperation self.old op →
            plain_reply result ≡ (cipher_setup op encrypts alg.0 key.now).reply }
    {
        self.state.phase.check_inactive()?;
        let mode = alg.cipher()?;
        self.state.work = Some(RunningCipher::begun(encrypts, mode, key));
        self.state.phase = Phase::Active;
        Ok(())
    }

    /// Sets an inactive operation up to encrypt under an AES key. `BadState` where it isn't inactive.
    pub fn cipher_encrypt_setup(&mut self, key: &[u8], alg: NamedAlgorithm) -> Result<(), Status>
        requires algorithm { IsOfClass Cipher alg.0 }
        requires key { IsKey key.now }
        ensures state { (op : Operation CipherWork) → IsCipherOperation self.old op →
            IsCipherOperation self.new (cipher_setup op true alg.0 key.now).operation }
        ensures reply { (op : Operation CipherWork) → IsCipherOperation self.old op →
            plain_reply result ≡ (cipher_setup op true alg.0 key.now).reply }
    {
        self.setup(true, key, alg)
    }

    /// Sets an inactive operation up to decrypt under an AES key. `BadState` where it isn't inactive.
    pub fn cipher_decrypt_setup(&mut self, key: &[u8], alg: NamedAlgorithm) -> Result<(), Status>
        requires algorithm { IsOfClass Cipher alg.0 }
        requires key { IsKey key.now }
        ensures state { (op : Operation CipherWork) → IsCipherOperation self.old op →
            IsCipherOperation self.new (cipher_setup op false alg.0 key.now).operation }
        ensures reply { (op : Operation CipherWork) → IsCipherOperation self.old op →
            plain_reply result ≡ (cipher_setup op false alg.0 key.now).reply }
    {
        self.setup(false, key, alg)
    }
}

impl<'a> Family<CipherStep<'a>> for CipherState {
    ghost use Rattle.cipher_states.specs.States.{IsCipherOperation};

    ghost Work = { CipherWork };

    ghost stands = { IsCipherOperation };

    ghost meaning = { λ random w step room. cipher_step random w (model_cipher_step step room) };

    ghost takes = { takes_iv_bytes };

    fn lose_key(&mut self) -> Status
        ensures state { (own : Operation CipherWork) → IsCipherOperation self.old own → IsCipherOperation self.new (loses_key own).operation }
        ensures reply { (own : Operation CipherWork) → IsCipherOperation self.old own → refusal result ≡ (loses_key own).reply }
    {
        self.state.lose_key()
    }

    fn takes_random(step: &CipherStep<'a>) -> bool {
        <Option<RunningCipher>>::takes_random(step)
    }

    fn draws(&self, step: &CipherStep<'a>, room: usize) -> usize {
        self.state.draws(step, room)
    }

    fn step(
        &mut self,
        step: CipherStep<'a>,
        random: &[u8; 16],
        out: &mut [u8],
    ) -> Result<Output, Status> {
        self.state.step(step, random, out)
    }
}
