// A MAC in several parts.
ghost use Rattle.std.specs.{Prelude.◌≡◌, Prelude.IsTrue, Prelude.true, Prelude.false, Option.ForSome};
ghost use Rattle.crypto_specs.specs.Prelude.{IsKey};
ghost use Rattle.alg_encoding.specs.{Encoding.base_of, declared.table.Class.TheVariants.Mac};
ghost use Rattle.store_model.specs.Prelude.{cmac_base, Operation, Inactive, is_inactive, refusal, MacWork, mac_step};
ghost use Rattle.service_calls.specs.{Answers.plain_reply, Meanings.model_mac_step};
ghost use Rattle.key_policy.specs.Names.{IsOfClass};
ghost use Rattle.multipart.specs.Turns.{is_active, loses_key};
ghost use Rattle.multipart.specs.declared.Phase.TheVariants as phases;
ghost use Rattle.mac_states.specs.{Codes.is_keyed, Setups.mac_setup};

use crate::running_mac::RunningMac;
use key_policy::NamedAlgorithm;
use multipart::{Family, OperationState, Phase, Steps};
use psa_status::Status;
use service_calls::{MacStep, Output};

/// A MAC in several parts: a setup with a key, any number of updates, and a finish that makes the MAC or verifies one.
#[derive(Drop)]
pub struct MacState {
    pub(crate) state: OperationState<Option<RunningMac>>,
    ghost keyed: { state.phase ≡ phases.Active → ForSome state.work (λ work. IsTrue (is_keyed work.code)) },
}

impl MacState {
    ghost use Rattle.mac_states.specs.MacStates.{IsClearMac, IsMacOperation};

    /// An inactive operation.
    pub fn new() -> MacState
        ensures { IsMacOperation result Inactive }
    {
        MacState {
            state: OperationState::new(None),
        }
    }

    /// Whether the operation is inactive.
    pub fn is_inactive(&self) -> bool
        ensures { (op : Operation MacWork) → IsMacOperation self.now op → result ≡ is_inactive op }
    {
        self.state.is_inactive()
    }

    /// Whether the operation is active.
    pub fn is_active(&self) -> bool
        ensures { (op : Operation MacWork) → IsMacOperation self.now op → result ≡ is_active op }
    {
        self.state.is_active()
    }

    /// Forgets everything: the operation is inactive.
    pub fn wipe(&mut self)
        ensures clear { IsClearMac self.new }
        ensures inactive { IsMacOperation self.new Inactive }
    {
        self.state.wipe();
    }

    fn setup(&mut self, verifies: bool, key: &[u8], alg: NamedAlgorithm) -> Result<(), Status>
        requires algorithm { IsOfClass Mac alg.0 }
        requires aes { base_of alg.0 ≡ cmac_base → IsKey key.now }
        ensures state { (op : Operation MacWork) → IsMacOperation self.old op →
            IsMacOperation self.new (mac_setup op verifies alg.0 key.now).operation }
        ensures reply { (op : Operation MacWork) → IsMacOperation self.old op →
            plain_reply result ≡ (mac_setup op verifies alg.0 key.now).reply }
    {
        self.state.phase.check_inactive()?;
        let mac = alg.mac()?;
        self.state.work = Some(RunningMac::begun(verifies, mac, key));
        self.state.phase = Phase::Active;
        Ok(())
    }

    /// Sets an inactive operation up to make the MAC of a message under a key. `BadState` where it isn't inactive.
    pub fn mac_sign_setup(&mut self, key: &[u8], alg: NamedAlgorithm) -> Result<(), Status>
        requires algorithm { IsOfClass Mac alg.0 }
        requires aes { base_of alg.0 ≡ cmac_base → IsKey key.now }
        ensures state { (op : Operation MacWork) → IsMacOperation self.old op →
            IsMacOperation self.new (mac_setup op false alg.0 key.now).operation }
        ensures reply { (op : Operation MacWork) → IsMacOperation self.old op →
            plain_reply result ≡ (mac_setup op false alg.0 key.now).reply }
    {
        self.setup(false, key, alg)
    }

    /// Sets an inactive operation up to verify the MAC of a message under a key. `BadState` where it isn't inactive.
    pub fn mac_verify_setup(&mut self, key: &[u8], alg: NamedAlgorithm) -> Result<(), Status>
        requires algorithm { IsOfClass Mac alg.0 }
        requires aes { base_of alg.0 ≡ cmac_base → IsKey key.now }
        ensures state { (op : Operation MacWork) → IsMacOperation self.old op →
            IsMacOperation self.new (mac_setup op true alg.0 key.now).operation }
        ensures reply { (op : Operation MacWork) → IsMacOperation self.old op →
            plain_reply result ≡ (mac_setup op true alg.0 key.now).reply }
    {
        self.setup(true, key, alg)
    }
}

impl<'a> Family<MacStep<'a>> for MacState {
    ghost use Rattle.mac_states.specs.MacStates.{IsMacOperation};

    ghost Work = { MacWork };

    ghost stands = { IsMacOperation };

    ghost meaning = { λ random w step room. mac_step w (model_mac_step step room) };

    ghost takes = { λ step. false };

    fn lose_key(&mut self) -> Status
        ensures state { (own : Operation MacWork) → IsMacOperation self.old own → IsMacOperation self.new (loses_key own).operation }
        ensures reply { (own : Operation MacWork) → IsMacOperation self.old own → refusal result ≡ (loses_key own).reply }
    {
        self.state.lose_key()
    }

    fn takes_random(step: &MacStep<'a>) -> bool {
        <Option<RunningMac>>::takes_random(step)
    }

    fn draws(&self, step: &MacStep<'a>, room: usize) -> usize {
        self.state.draws(step, room)
    }

    fn step(
        &mut self,
        step: MacStep<'a>,
        random: &[u8; 16],
        out: &mut [u8],
    ) -> Result<Output, Status> {
        self.state.step(step, random, out)
    }
}
