// A caller of the store. Callers that one thread runs tell each other what they have seen.
ghost use Rattle.std.specs.Prelude.{◌≡◌, ◌≤◌, ◌<◌, [], All, length};
ghost use Rattle.secret_bytes.specs.Buffer.{IsClear};
ghost use Rattle.turn_history.specs.Prelude.{new_pass, StartsWith, entries_of, IsIdle, joined, watcher};
ghost use Rattle.store_model.specs.Prelude.{Service, IsSoundStore};
ghost use Rattle.locked_store.specs.Prelude.{IsStartOf, world};
ghost use Rattle.callers.specs.Prelude.{AreIdle, IsReady, Legal, SameButPass};

use crate::handles::Handles;
use admission::Admission;
use disk_face::Disk;
use driver_dispatch::Devices;
use locked_store::{Held, SharedStore};
use operation_handles::OperationHandle;
use random_streams::Stream;
use secret_bytes::Secret;
use turn_history::Pass;

/// One of the sixteen callers of a store that is shared: its right to take turns, its stream of random words, five spare
/// buffers for the keys that it reads, and the operations of its four handles. Those that hold a lease use up a spare each.
pub struct Caller<D: Disk, A: Devices, C: Admission> {
    pub(crate) number: u8,
    // What its calls count together.
    pub(crate) spent: u64,
    pub(crate) pass: Pass<Held<D, A, C>>,
    pub(crate) stream: Stream,
    pub(crate) spares: Vec<Secret>,
    pub(crate) handles: Handles,
}

impl<D: Disk, A: Devices, C: Admission> Caller<D, A, C> {
    /// The caller of this number, 1 to 16, by its pass of a store that was opened with this seed. It has called nothing. The
    /// spares are five, and the handles four.
    pub fn new(
        _shared: &SharedStore<D, A, C>,
        pass: Pass<Held<D, A, C>>,
        number: u8,
        seed: &[u8; 32],
        spares: Vec<Secret>,
        handles: Vec<OperationHandle>,
    ) -> Caller<D, A, C>
        requires table { pass.table_id ≡ (world _shared.now).lock }
        requires fresh { pass.me ≡ (new_pass (world _shared.now).opened number, []) }
        requires first { 1 ≤ number }
        requires last { number ≤ 16 }
        requires sound { (start : Service) → IsStartOf (world _shared.now) start → IsSoundStore start.store }
        requires seed { seed.now ≡ (world _shared.now).opened.seed.value }
        requires five { length spares.items ≡ 5 }
        requires clear { All IsClear spares.items }
        requires four { length handles.items ≡ 4 }
        requires inactive { AreIdle handles.items }
        ensures ready { IsReady (world _shared.now) 0 result }
        ensures pass { result.pass ≡ pass }
        ensures number { result.number ≡ number }
        ensures spent { result.spent ≡ 0 }
    {
        Caller {
            number,
            spent: 0,
            pass,
            stream: Stream::new(seed, number),
            spares,
            handles: Handles { list: handles },
        }
    }

    /// From 1 to 16.
    pub fn number(&self) -> u8
        ensures { result ≡ self.now.number }
    {
        self.number
    }

    /// What its calls have counted together.
    pub fn spent(&self) -> u64
        ensures { result ≡ self.now.spent }
    {
        self.spent
    }

    /// Its right to take turns.
    pub fn pass(&self) -> &Pass<Held<D, A, C>>
        ensures { result.now ≡ self.now.pass }
    {
        &self.pass
    }

    /// A watcher that has seen the same, for another caller of the thread to learn from.
    #[tactic(auto, unfolding(locked_store::specs::Shared::lock_of, locked_store::specs::Shared::opened_of))]
    pub fn watch(&mut self, shared: &SharedStore<D, A, C>) -> Pass<Held<D, A, C>>
        requires own { self.old.pass.table_id ≡ (world shared.now).lock }
        ensures same { self.new ≡ self.old }
        ensures idle { IsIdle (world shared.now).lock result }
        ensures watcher { result.me ≡ (watcher self.old.pass.me.0, []) }
    {
        shared.lock.split(&mut self.pass)
    }

    /// Takes a watcher in. The caller has then seen the longer of both histories.
    #[tactic(auto, unfolding(locked_store::specs::Shared::lock_of, locked_store::specs::Shared::opened_of))]
    pub fn learn(&mut self, shared: &SharedStore<D, A, C>, watcher: Pass<Held<D, A, C>>)
        requires ready { IsReady (world shared.now) 0 self.old }
        requires idle { IsIdle (world shared.now).lock watcher }
        requires weightless { watcher.me.0.weight ≡ 0 }
        requires legal { Legal (world shared.now) (entries_of watcher.me.0.seen) }
        ensures ready { IsReady (world shared.now) 0 self.new }
        ensures pass { self.new.pass.me.0 ≡ joined self.old.pass.me.0 watcher.me.0 }
        ensures own { StartsWith self.new.pass.me.0.seen self.old.pass.me.0.seen }
        ensures learned { StartsWith self.new.pass.me.0.seen watcher.me.0.seen }
        ensures same { SameButPass self.old self.new }
    {
        shared.lock.join(&mut self.pass, watcher);
    }
}
