//! The end of a lock. It takes no memory.
ghost use Rattle.std.specs.Prelude.{◌≡◌, ◌+◌, ◌++◌, ◌∷◌, [], false, All};
ghost use Rattle.turn_history.specs.{Views.account_of, Closing.Closing, Passes.IsIdle, Passes.accounts_of, Passes.weight_of};

use crate::historic::Historic;
use crate::lock::HistoryLock;
use crate::pass::Pass;
use crate::steps::{Come, Gather};

/// A lock that ends, with the passes that were handed in so far.
pub struct Ending<V: Historic> {
    pub(crate) lock: HistoryLock<V>,
    pub(crate) last: Pass<V>,
    ghost table: { last.table_id ≡ lock.table.shared.table_id },
    ghost watching: { (last.me.0.number ≡ 0) × (last.me.0.in_turn ≡ false) },
}

impl<V: Historic> Ending<V> {
    /// Hands a pass in.
    pub fn take(&mut self, pass: Pass<V>)
        requires { IsIdle self.old.lock.table.shared.table_id pass }
        ensures lock { self.new.lock ≡ self.old.lock }
        ensures accounts { self.new.last.me.0.accounts ≡ self.old.last.me.0.accounts ++ account_of pass.me.0 ∷ [] }
        ensures weight { self.new.last.me.0.weight ≡ self.old.last.me.0.weight + pass.me.0.weight }
    {
        let lock = &self.lock;
        lock.table.shared.join_seat::<Gather>(&mut self.last, pass);
    }

    /// Gives the value, once all passes that the lock was made with are handed in, by themselves
    /// or by one that took them in.
    pub fn end(self) -> V
        requires { self.last.me.0.weight ≡ self.lock.table.shared.key.passes }
        ensures { Closing V.by V.stands V.base (V.base self.lock.table.shared.key.value.value) self.lock.table.shared.key.passes result self.last.me.0.accounts }
    {
        let Ending { lock, last } = self;
        let HistoryLock { table } = lock;
        let mut closed = table.close_with(last);
        let slot = closed.take(0);
        closed.free();
        let Some(boxed) = slot else { unreachable!() };
        Box::into_inner(boxed)
    }
}

impl<V: Historic> HistoryLock<V> {
    /// An end for which no pass was handed in.
    pub fn start_ending(self) -> Ending<V>
        ensures lock { result.lock ≡ self }
        ensures nothing { (result.last.me.0.accounts ≡ []) × (result.last.me.0.weight ≡ 0) }
    {
        let last = self.table.shared.load_new_seat::<Come>(0).1;
        Ending { lock: self, last }
    }

    /// Ends the lock, and gives its value. Watchers need not be among the passes.
    pub fn close(self, passes: Vec<Pass<V>>) -> V
        requires own { All (IsIdle self.table.shared.table_id) passes.items }
        requires whole { weight_of passes.items ≡ self.table.shared.key.passes }
        ensures { Closing V.by V.stands V.base (V.base self.table.shared.key.value.value) self.table.shared.key.passes result (accounts_of passes.items) }
    {
        let mut ending = self.start_ending();
        for pass in passes {
            ending.take(pass);
        }
        ending.end()
    }
}
