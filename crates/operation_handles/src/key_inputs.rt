// A key as the secret or the password of a derivation.
ghost use Rattle.std.specs.Prelude.{◌≡◌, ◌≤◌, length, IfSome, IfNone, Some, None};
ghost use Rattle.psa_status.specs.Rows.{first_row};
ghost use Rattle.secret_bytes.specs.Buffer.{bytes_of};
ghost use Rattle.service_calls.specs.Answers.{plain_reply};
ghost use Rattle.store_model.specs.Prelude.{DerivationWork, key_step_rows, with_key, HandleOperation, KeyCreation, Deriving, derivation_part, part_of, Active, InError};
ghost use Rattle.operation_handles.specs.{Handles.IsOperation, KeyInputs.TakesKeyAt, KeyInputs.RefusesKeyAt, KeyInputs.key_refused};

use crate::handle::OperationHandle;
use key_policy::KeyUse;
use psa_status::Status;
use slot_table::Lease;

impl OperationHandle {
    /// What a key is looked for that is given at this step of a derivation. `None` where the step is refused before its key
    /// is looked at. A derivation that has a key has its secret, so that it takes no other one.
    pub fn wanted_at(&self, step: u16) -> Option<KeyUse>
        ensures found { IfSome result (λ wanted. (operation : HandleOperation) → IsOperation self.now operation →
            TakesKeyAt operation step wanted × (self.now.lease ≡ None)) }
        ensures refused { IfNone result ((operation : HandleOperation) → IsOperation self.now operation → RefusesKeyAt operation step) }
    {
        let states = &self.states;
        match states.derivation.key_step_refusal(step) {
            Some(_) => None,
            None => Some(KeyUse::Derivation {
                step,
                alg: states.alg,
            }),
        }
    }

    /// Refuses a key, whatever it is, at a step that takes none.
    pub fn refuse_key(&mut self, alive: bool, step: u16) -> Result<(), Status>
        requires { (operation : HandleOperation) → IsOperation self.old operation → RefusesKeyAt operation step }
        ensures state { (operation : HandleOperation) → IsOperation self.old operation →
            IsOperation self.new (key_refused alive operation step).operation }
        ensures reply { (operation : HandleOperation) → IsOperation self.old operation →
            plain_reply result ≡ (key_refused alive operation step).reply }
        ensures lease { self.new.lease ≡ self.old.lease }
    {
        let derivation = &mut self.states.derivation;
        if !alive {
            return Err(derivation.lose_key());
        }
        derivation.key_derivation_input_key(step, &[])
    }

    /// Takes a key at a step that takes one. The lease is kept.
    pub fn input_key(&mut self, step: u16, lease: Lease)
        requires short { length (bytes_of lease.buffer) ≤ 1024 }
        requires none { self.old.lease ≡ None }
        requires takes { (operation : HandleOperation) → IsOperation self.old operation →
            (w : DerivationWork) × (part_of derivation_part operation ≡ Active w) × (first_row (key_step_rows w step) ≡ None) }
        ensures state { (operation : HandleOperation) (w : DerivationWork) (key : KeyCreation) → IsOperation self.old operation →
            part_of derivation_part operation ≡ Active w → key.number ≡ lease.creation →
            IsOperation self.new (Active (record { key = Some key; work = Deriving (with_key w (bytes_of lease.buffer)) })) }
        ensures lease { self.new.lease ≡ Some lease }
    {
        let _ = self
            .states
            .derivation
            .key_derivation_input_key(step, lease.as_slice());
        self.keep(lease);
    }

    /// Puts an active derivation in error.
    pub fn fail_derivation(&mut self)
        ensures state { (operation : HandleOperation) (w : DerivationWork) → IsOperation self.old operation →
            part_of derivation_part operation ≡ Active w → IsOperation self.new InError }
        ensures lease { self.new.lease ≡ self.old.lease }
    {
        self.states.derivation.fail();
    }
}
