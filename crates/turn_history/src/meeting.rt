//! Passes that meet: one splits a watcher off, or takes another one in.
ghost use Rattle.std.specs.Prelude.{◌≡◌, ◌⊎◌, false, []};
ghost use Rattle.turn_history.specs.{History.StartsWith, Views.OwnCalls, Views.joined, Views.watcher, Passes.IsIdle};

use crate::historic::Historic;
use crate::lock::HistoryLock;
use crate::pass::Pass;
use crate::steps::{Compare, Merge, Watch};

impl<V: Historic> HistoryLock<V> {
    /// A watcher that has seen the same.
    pub fn split(&self, pass: &mut Pass<V>) -> Pass<V>
        requires own { pass.old.table_id ≡ self.now.table.shared.table_id }
        ensures same { (pass.new.table_id ≡ pass.old.table_id) × (pass.new.id ≡ pass.old.id) × (pass.new.me ≡ pass.old.me) }
        ensures watcher { (result.table_id ≡ pass.old.table_id) × (result.me ≡ (watcher pass.old.me.0, [])) }
    {
        self.table.shared.split_seat::<Watch>(pass)
    }

    /// Takes in another pass. The pass has then seen the longer of both histories, and has the
    /// turns of both. It keeps its number and its calls: nobody hands in those of the other any
    /// more when the lock is closed.
    pub fn join(&self, pass: &mut Pass<V>, other: Pass<V>)
        requires own { pass.old.table_id ≡ self.now.table.shared.table_id }
        requires idle { IsIdle self.now.table.shared.table_id other }
        ensures same { (pass.new.table_id ≡ pass.old.table_id) × (pass.new.id ≡ pass.old.id) }
        ensures pass { pass.new.me ≡ (joined pass.old.me.0 other.me.0, pass.old.me.1) }
        ensures order { StartsWith pass.old.me.0.seen other.me.0.seen ⊎ StartsWith other.me.0.seen pass.old.me.0.seen }
        ensures calls { OwnCalls V.by pass.new.me.0 }
    {
        let shared = &self.table.shared;
        shared.join_seat::<Merge>(pass, other);
        shared.load::<Compare>(pass, 0);
    }
}
