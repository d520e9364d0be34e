// The operations of a caller's four handles.
ghost use Rattle.std.specs.{Prelude.◌≡◌, Prelude.◌≤◌, Prelude.◌<◌, Prelude.◌+◌, Prelude.◌-◌, Prelude.◌^◌, Prelude.List, Prelude.None, Prelude.get_or, Prelude.length, Option.option_map};
ghost use Rattle.random_streams.specs.RandomWords.{drawn_from};
ghost use Rattle.secret_bytes.specs.Buffer.{bytes_of};
ghost use Rattle.key_policy.specs.Uses.{FitsUse, used_for};
ghost use Rattle.service_calls.specs.{Answers.plain_reply, Answered.AnswersReply};
ghost use Rattle.store_model.specs.Prelude.{buffer_after, HandleOperation, KeyCreation, Inactive, is_inactive};
ghost use Rattle.operation_handles.specs.{Handles.IsOperation, Draws.DrawsFew, Setups.begun_with, Setups.set_up_without_key};
ghost use Rattle.operation_handles.specs.declared.handle.OperationHandle as handle;
ghost use Rattle.callers.specs.{Handles.AreOperations, Handles.HoldsLease, Handles.IsChanged, Handles.operation_at, HandleCalls.stepped_at};

use key_policy::NamedAlgorithm;
use operation_handles::OperationHandle;
use psa_status::Status;
use random_streams::Stream;
use service_calls::{KeylessSetup, Op, Output, Purpose, Step};
use slot_table::Lease;

/// The four handles, in their order.
pub struct Handles {
    pub(crate) list: Vec<OperationHandle>,
    ghost four: { length list.items ≡ 4 },
}

impl Handles {
    // Where a handle stands.
    pub(crate) fn place(op: Op) -> usize
        ensures place { result ≡ op - 1 }
        ensures first { 1 ≤ op }
        ensures last { op ≤ 4 }
    {
        usize::from(op.number()) - 1
    }

    /// The lease of a handle's operation, where it has one.
    pub fn lease(&self, op: Op) -> Option<&Lease>
        ensures lease { (c : handle.OperationHandle) → c ≡ get_or self.now.list.items (op - 1) c → option_map (λ lease. lease.now) result ≡ c.lease }
        ensures first { 1 ≤ op }
        ensures last { op ≤ 4 }
    {
        self.list[Handles::place(op)].lease()
    }

    /// Whether a handle's operation is inactive, as a setup asks.
    pub fn is_inactive(&self, op: Op) -> bool
        ensures inactive { (c : handle.OperationHandle) (operation : HandleOperation) → c ≡ get_or self.now.list.items (op - 1) c → IsOperation c operation → result ≡ is_inactive operation }
        ensures first { 1 ≤ op }
        ensures last { op ≤ 4 }
    {
        self.list[Handles::place(op)].is_inactive()
    }

    /// Sets up an inactive operation that has no key, as a handle does.
    pub fn begin(&mut self, op: Op, setup: KeylessSetup) -> Result<(), Status>
        requires free { (c : handle.OperationHandle) (operation : HandleOperation) → c ≡ get_or self.old.list.items (op - 1) c → IsOperation c operation → operation ≡ Inactive }
        requires none { (c : handle.OperationHandle) → c ≡ get_or self.old.list.items (op - 1) c → c.lease ≡ None }
        ensures changed { (operations : List HandleOperation) → AreOperations self.old.list.items operations →
            IsChanged self.old.list.items self.new.list.items operations op (set_up_without_key (operation_at operations op) setup).operation None }
        ensures reply { (operations : List HandleOperation) → AreOperations self.old.list.items operations →
            plain_reply result ≡ (set_up_without_key (operation_at operations op) setup).reply }
        ensures first { 1 ≤ op }
        ensures last { op ≤ 4 }
    {
        self.list[Handles::place(op)].begin(setup)
    }

    /// Sets up an inactive operation with its key, which may be used for it, and keeps the key's lease.
    pub fn begin_with(&mut self, op: Op, purpose: Purpose, alg: NamedAlgorithm, lease: Lease)
        requires fits { FitsUse (used_for purpose alg) (bytes_of lease.buffer) }
        requires free { (c : handle.OperationHandle) (operation : HandleOperation) → c ≡ get_or self.old.list.items (op - 1) c → IsOperation c operation → operation ≡ Inactive }
        requires none { (c : handle.OperationHandle) → c ≡ get_or self.old.list.items (op - 1) c → c.lease ≡ None }
        ensures kept { (operations : List HandleOperation) (key : KeyCreation) → AreOperations self.old.list.items operations → key.number ≡ lease.creation →
            HoldsLease self.old.list.items self.new.list.items operations op (begun_with purpose alg key (bytes_of lease.buffer)) lease }
        ensures first { 1 ≤ op }
        ensures last { op ≤ 4 }
    {
        self.list[Handles::place(op)].begin_with(purpose, alg, lease);
    }

    /// Takes a step of a handle's operation, by whether its key is still there, and hands out the lease of one that is over.
    pub fn step(
        &mut self,
        op: Op,
        stream: &mut Stream,
        alive: bool,
        step: Step<'_>,
        out: &mut [u8],
    ) -> (Result<Output, Status>, Option<Lease>)
        requires words { stream.old.place + 256 ≤ 2 ^ 60 }
        ensures changed { (operations : List HandleOperation) → AreOperations self.old.list.items operations →
            IsChanged self.old.list.items self.new.list.items operations op (stepped_at operations op alive stream.old step.entry (length out.old)).operation result.1 }
        ensures reply { (operations : List HandleOperation) → AreOperations self.old.list.items operations →
            AnswersReply result.0 (stepped_at operations op alive stream.old step.entry (length out.old)).reply }
        ensures buffer { (operations : List HandleOperation) → AreOperations self.old.list.items operations →
            out.new ≡ buffer_after out.old (stepped_at operations op alive stream.old step.entry (length out.old)).reply }
        ensures stream { (operations : List HandleOperation) → AreOperations self.old.list.items operations →
            stream.new ≡ drawn_from stream.old (stepped_at operations op alive stream.old step.entry (length out.old)).drawn }
        ensures few { DrawsFew stream.old stream.new }
        ensures first { 1 ≤ op }
        ensures last { op ≤ 4 }
    {
        let cell = &mut self.list[Handles::place(op)];
        let result = cell.step(stream, alive, step, out);
        (result, cell.settle())
    }

    /// Forgets what a handle's operation was, and hands out its lease.
    pub fn abort(&mut self, op: Op) -> Option<Lease>
        ensures changed { (operations : List HandleOperation) → AreOperations self.old.list.items operations →
            IsChanged self.old.list.items self.new.list.items operations op Inactive result }
        ensures first { 1 ≤ op }
        ensures last { op ≤ 4 }
    {
        self.list[Handles::place(op)].wipe()
    }
}
