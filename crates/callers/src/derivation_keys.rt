// A key as the secret or the password of a handle's derivation, and a key of its next bytes.
ghost use Rattle.std.specs.Prelude.{◌≡◌, ◌≤◌, ◌-◌, List, Some, None, IfSome, IfNone, get_or, length, ◌/◌, min};
ghost use Rattle.secret_bytes.specs.Buffer.{bytes_of};
ghost use Rattle.service_calls.specs.Answers.{plain_reply};
ghost use Rattle.store_model.specs.{Prelude.DerivationWork, Prelude.HandleOperation, Prelude.KeyCreation, Prelude.derivation_part, Prelude.part_of, Prelude.Active, Prelude.refusal, DerivationOperations.stated_bytes};
ghost use Rattle.operation_handles.specs.{Handles.IsOperation, KeyInputs.RefusesKeyAt, KeyInputs.TakesKeyAt, KeyInputs.key_refused, KeyOutputs.IsDerivedKey, KeyOutputs.derived_key_refused};
ghost use Rattle.operation_handles.specs.declared.handle.OperationHandle as handle;
ghost use Rattle.callers.specs.Prelude.{AreOperations, FailsDerivation, HoldsLease, IsChanged, MayTakeKey, operation_at, with_secret, without_bytes};
ghost use Rattle.derivation_states.specs.KeySteps.{output_key_refusal};

use crate::handles::Handles;
use derivation_states::KEY_ROOM;
use key_attributes::Attributes;
use key_policy::KeyUse;
use psa_status::Status;
use service_calls::Op;
use slot_table::Lease;

impl Handles {
    /// What a key is looked for that is given at this step of a handle's derivation, which has none yet. `None` where the
    /// step is refused before its key is looked at.
    pub fn wanted_at(&self, op: Op, step: u16) -> Option<KeyUse>
        ensures found { IfSome result (λ wanted. (c : handle.OperationHandle) (operation : HandleOperation) → c ≡ get_or self.now.list.items (op - 1) c → IsOperation c operation →
            TakesKeyAt operation step wanted × (c.lease ≡ None)) }
        ensures refused { IfNone result ((c : handle.OperationHandle) (operation : HandleOperation) → c ≡ get_or self.now.list.items (op - 1) c → IsOperation c operation → RefusesKeyAt operation step) }
        ensures first { 1 ≤ op }
        ensures last { op ≤ 4 }
    {
        self.list[Handles::place(op)].wanted_at(step)
    }

    /// Refuses a key at a step that takes none, and hands out the lease of an operation that is over.
    pub fn refuse_key(
        &mut self,
        op: Op,
        alive: bool,
        step: u16,
    ) -> (Result<(), Status>, Option<Lease>)
        requires { (c : handle.OperationHandle) (operation : HandleOperation) → c ≡ get_or self.old.list.items (op - 1) c → IsOperation c operation → RefusesKeyAt operation step }
        ensures changed { (operations : List HandleOperation) → AreOperations self.old.list.items operations →
            IsChanged self.old.list.items self.new.list.items operations op (key_refused alive (operation_at operations op) step).operation result.1 }
        ensures reply { (operations : List HandleOperation) → AreOperations self.old.list.items operations →
            plain_reply result.0 ≡ (key_refused alive (operation_at operations op) step).reply }
        ensures first { 1 ≤ op }
        ensures last { op ≤ 4 }
    {
        let cell = &mut self.list[Handles::place(op)];
        let result = cell.refuse_key(alive, step);
        (result, cell.settle())
    }

    /// Takes a key at a step that takes one, and keeps its lease.
    pub fn input_key(&mut self, op: Op, step: u16, lease: Lease)
        requires short { length (bytes_of lease.buffer) ≤ 1024 }
        requires none { (c : handle.OperationHandle) → c ≡ get_or self.old.list.items (op - 1) c → c.lease ≡ None }
        requires takes { (c : handle.OperationHandle) (operation : HandleOperation) → c ≡ get_or self.old.list.items (op - 1) c → IsOperation c operation →
            MayTakeKey operation step }
        ensures kept { (operations : List HandleOperation) (w : DerivationWork) (key : KeyCreation) → AreOperations self.old.list.items operations →
            part_of derivation_part (operation_at operations op) ≡ Active w → key.number ≡ lease.creation →
            HoldsLease self.old.list.items self.new.list.items operations op (with_secret w key lease) lease }
        ensures first { 1 ≤ op }
        ensures last { op ≤ 4 }
    {
        self.list[Handles::place(op)].input_key(step, lease);
    }

    /// Puts an active derivation in error that holds no lease.
    pub fn fail_derivation(&mut self, op: Op)
        requires { (c : handle.OperationHandle) → c ≡ get_or self.old.list.items (op - 1) c → c.lease ≡ None }
        ensures changed { FailsDerivation self.old.list.items self.new.list.items op None }
        ensures first { 1 ≤ op }
        ensures last { op ≤ 4 }
    {
        self.list[Handles::place(op)].fail_derivation();
    }

    /// What a key with these attributes is refused by a handle's derivation whose own key is still there, before the store
    /// looks at the attributes.
    pub fn output_key_refusal(&self, op: Op, attributes: &Attributes) -> Option<Status>
        ensures refusal { (c : handle.OperationHandle) (operation : HandleOperation) → c ≡ get_or self.now.list.items (op - 1) c → IsOperation c operation →
            result ≡ output_key_refusal (part_of derivation_part operation) attributes.now }
        ensures first { 1 ≤ op }
        ensures last { op ≤ 4 }
    {
        self.list[Handles::place(op)].output_key_refusal(attributes)
    }

    /// Refuses a key with these attributes, answers why, and hands out the lease of an operation that is over.
    pub fn refuse_output_key(
        &mut self,
        op: Op,
        alive: bool,
        attributes: &Attributes,
    ) -> (Status, Option<Lease>)
        requires some { (operations : List HandleOperation) × AreOperations self.old.list.items operations }
        requires refused { (c : handle.OperationHandle) (operation : HandleOperation) → c ≡ get_or self.old.list.items (op - 1) c → IsOperation c operation →
            output_key_refusal (part_of derivation_part operation) attributes.now ≡ None → ⊥ }
        ensures changed { (operations : List HandleOperation) → AreOperations self.old.list.items operations →
            IsChanged self.old.list.items self.new.list.items operations op (derived_key_refused alive (operation_at operations op) attributes.now).operation result.1 }
        ensures reply { (operations : List HandleOperation) → AreOperations self.old.list.items operations →
            refusal result.0 ≡ (derived_key_refused alive (operation_at operations op) attributes.now).reply }
        ensures first { 1 ≤ op }
        ensures last { op ≤ 4 }
    {
        let cell = &mut self.list[Handles::place(op)];
        let status = cell.refuse_output_key(alive, attributes);
        (status, cell.settle())
    }

    /// Takes the bytes of a key with these attributes, which the derivation doesn't refuse. The first 1,025 of them are
    /// written to the front of `out`; the answer is how many were written.
    pub fn output_key(&mut self, op: Op, attributes: &Attributes, out: &mut [u8; KEY_ROOM]) -> usize
        requires some { (operations : List HandleOperation) × AreOperations self.old.list.items operations }
        requires due { (c : handle.OperationHandle) (operation : HandleOperation) → c ≡ get_or self.old.list.items (op - 1) c → IsOperation c operation →
            output_key_refusal (part_of derivation_part operation) attributes.now ≡ None }
        ensures taken { (operations : List HandleOperation) (w : DerivationWork) → AreOperations self.old.list.items operations → part_of derivation_part (operation_at operations op) ≡ Active w →
            IsChanged self.old.list.items self.new.list.items operations op (without_bytes (operation_at operations op) w (stated_bytes attributes.now)) None
            × IsDerivedKey w attributes.now result out.new }
        ensures length { result ≡ min (attributes.now.bits / 8) 1025 }
        ensures first { 1 ≤ op }
        ensures last { op ≤ 4 }
    {
        self.list[Handles::place(op)].output_key(attributes, out)
    }

    /// Puts an active derivation in error, and hands out its lease.
    pub fn fail_output(&mut self, op: Op) -> Option<Lease>
        ensures { FailsDerivation self.old.list.items self.new.list.items op result }
    {
        let cell = &mut self.list[Handles::place(op)];
        cell.fail_derivation();
        cell.settle()
    }
}
