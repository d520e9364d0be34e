// What stands at one handle.
ghost use Rattle.std.specs.{Prelude.◌≡◌, Prelude.true, Prelude.false, Prelude.None, Option.option_map};
ghost use Rattle.store_model.specs.Prelude.{HandleOperation, Inactive, is_inactive};
ghost use Rattle.multipart.specs.Turns.{is_active};
ghost use Rattle.operation_handles.specs.{Handles.IsOperation, States.AreInactive};

use crate::states::FamilyStates;
use slot_table::Lease;

/// An operation, and the lease of its key where it was given one. The lease has to be given back: `settle` hands it out
/// once the operation is over, and `wipe` at any time.
pub struct OperationHandle {
    pub(crate) states: FamilyStates,
    pub(crate) lease: Option<Lease>,
}

impl OperationHandle {
    /// An inactive operation without a lease.
    pub fn new(states: FamilyStates) -> OperationHandle
        requires { AreInactive states }
        ensures state { IsOperation result Inactive }
        ensures none { result.lease ≡ None }
    {
        OperationHandle {
            states,
            lease: None,
        }
    }

    /// The states alone, at the end.
    pub fn into_states(self) -> FamilyStates
        requires { self.lease ≡ None }
        ensures { result ≡ self.states }
    {
        let OperationHandle { states, lease } = self;
        let None = lease else { unreachable!() };
        states
    }

    /// Whether the operation is inactive, as a setup asks.
    pub fn is_inactive(&self) -> bool
        ensures { (operation : HandleOperation) → IsOperation self.now operation → result ≡ is_inactive operation }
    {
        self.states.is_inactive()
    }

    /// Whether the operation is active.
    pub fn is_active(&self) -> bool
        ensures { (operation : HandleOperation) → IsOperation self.now operation → result ≡ is_active operation }
    {
        self.states.is_active()
    }

    /// The lease of the operation's key.
    pub fn lease(&self) -> Option<&Lease>
        ensures { option_map (λ lease. lease.now) result ≡ self.now.lease }
    {
        self.lease.as_ref()
    }

    /// Forgets everything: the operation is inactive. The answer is its lease, if it had one.
    pub fn wipe(&mut self) -> Option<Lease>
        ensures state { IsOperation self.new Inactive }
        ensures none { self.new.lease ≡ None }
        ensures lease { result ≡ self.old.lease }
    {
        self.states.wipe();
        self.lease.take()
    }

    /// Gives the lease of an operation that is over, if it had one.
    pub fn settle(&mut self) -> Option<Lease>
        ensures state { (operation : HandleOperation) → IsOperation self.old operation → IsOperation self.new operation }
        ensures active { (operation : HandleOperation) → IsOperation self.old operation → is_active operation ≡ true →
            (result ≡ None) × (self.new ≡ self.old) }
        ensures over { (operation : HandleOperation) → IsOperation self.old operation → is_active operation ≡ false →
            (result ≡ self.old.lease) × (self.new.lease ≡ None) }
    {
        if self.states.is_active() {
            return None;
        }
        self.lease.take()
    }
}
