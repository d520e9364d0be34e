// A key of derived bytes.
ghost use Rattle.std.specs.Prelude.{◌≡◌, ◌/◌, min, None};
ghost use Rattle.derivation_states.specs.KeySteps.{output_key_refusal};
ghost use Rattle.store_model.specs.{DerivationOperations.stated_bytes, Prelude.DerivationWork, Prelude.without, Prelude.HandleOperation, Prelude.Deriving, Prelude.derivation_part, Prelude.key_of_operation, Prelude.part_of, Prelude.Active, Prelude.refusal};
ghost use Rattle.operation_handles.specs.{Handles.IsOperation, KeyOutputs.IsDerivedKey, KeyOutputs.derived_key_refused};

use crate::handle::OperationHandle;
use derivation_states::KEY_ROOM;
use key_attributes::Attributes;
use psa_status::Status;

impl OperationHandle {
    /// What a key with these attributes is refused, where the derivation's key is still there and before the store looks at
    /// the attributes.
    pub fn output_key_refusal(&self, attributes: &Attributes) -> Option<Status>
        ensures { (operation : HandleOperation) → IsOperation self.now operation →
            result ≡ output_key_refusal (part_of derivation_part operation) attributes.now }
    {
        self.states.derivation.output_key_refusal(attributes)
    }

    /// Refuses a key with these attributes, and answers why.
    pub fn refuse_output_key(&mut self, alive: bool, attributes: &Attributes) -> Status
        requires some { (operation : HandleOperation) × IsOperation self.old operation }
        requires refused { (operation : HandleOperation) → IsOperation self.old operation →
            output_key_refusal (part_of derivation_part operation) attributes.now ≡ None → ⊥ }
        ensures state { (operation : HandleOperation) → IsOperation self.old operation →
            IsOperation self.new (derived_key_refused alive operation attributes.now).operation }
        ensures reply { (operation : HandleOperation) → IsOperation self.old operation →
            refusal result ≡ (derived_key_refused alive operation attributes.now).reply }
        ensures lease { self.new.lease ≡ self.old.lease }
    {
        let derivation = &mut self.states.derivation;
        if !alive {
            return derivation.lose_key();
        }
        let mut bytes = [0; KEY_ROOM];
        match derivation.key_derivation_output_key(attributes, &mut bytes) {
            Ok(_) => unreachable!(),
            Err(status) => status,
        }
    }

    /// Takes the bytes of a key with these attributes, which the derivation doesn't refuse. The first 1,025 of them are
    /// written to the front of `out`; the answer is how many were written.
    pub fn output_key(&mut self, attributes: &Attributes, out: &mut [u8; KEY_ROOM]) -> usize
        requires some { (operation : HandleOperation) × IsOperation self.old operation }
        requires due { (operation : HandleOperation) → IsOperation self.old operation →
            output_key_refusal (part_of derivation_part operation) attributes.now ≡ None }
        ensures state { (operation : HandleOperation) (w : DerivationWork) → IsOperation self.old operation →
            part_of derivation_part operation ≡ Active w →
            IsOperation self.new (Active (record { key = key_of_operation operation; work = Deriving (without w (stated_bytes attributes.now)) }))
            × IsDerivedKey w attributes.now result out.new }
        ensures length { result ≡ min (attributes.now.bits / 8) 1025 }
        ensures lease { self.new.lease ≡ self.old.lease }
    {
        self.states
            .derivation
            .key_derivation_output_key(attributes, out)
            .unwrap()
    }
}
