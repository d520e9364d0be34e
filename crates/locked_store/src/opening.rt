//! How the store under its lock is opened, and how it ends.
ghost use Rattle.std.specs.Prelude.{◌≡◌, ◌≤◌, ℕ, [], IfOk, IfErr, IfSome};
ghost use Rattle.driver_dispatch.specs.Calls.{Lacks};
ghost use Rattle.turn_history.specs.Prelude.{AreNew};
ghost use Rattle.store_model.specs.Prelude.{Service, IsSoundStore};
ghost use Rattle.store_core.specs.Prelude.{HasRoom};
ghost use Rattle.locked_store.specs.{Closed.AreAt, Closed.IsClosed, Turning.IsStartOf, Opening.FindsKeysIn, Opening.IsNotOpened, Opening.IsOpenedOn, Shared.world, Worlds.world_of};

use crate::held::{Held, Seen, SharedStore};
use admission::Admission;
use disk_face::Disk;
use driver_dispatch::Devices;
use key_cells::OpenFault;
use std::alloc::Global;
use std::snapshot::Snapshot;
use store_core::{Store, StoreFault, Unopened};
use store_model::Limits;
use turn_history::{Ending, HistoryLock, Pass, Refused};

/// A store under its lock, and the passes of its callers, by their numbers from 1 on.
pub type Shared<D, A, C> = (SharedStore<D, A, C>, Vec<Pass<Held<D, A, C>>>);

impl<D: Disk, A: Devices, C: Admission> SharedStore<D, A, C> {
    /// Opens the store of a disk, or makes one on a disk of length 0, for sixteen callers whose
    /// random words have this seed. Where it isn't opened the disk and
    /// the devices come back; `Memory` too where there is no room for the lock, and then the disk is as the opening left it.
    #[tactic(auto, unfolding(crate::specs::Shared::lock_of, crate::specs::Shared::opened_of))]
    pub fn open(
        alloc: Global,
        disk: D,
        devices: A,
        rules: C,
        limits: Limits,
        seed: &[u8; 32],
    ) -> Result<Shared<D, A, C>, Unopened<D, A>>
        requires empty { (handle : ℕ) → Lacks (A.keys devices) handle }
        ensures passes { IfOk result (λ made. AreNew (world made.0).lock (world made.0).opened 16 made.1.items) }
        ensures at { IfOk result (λ made. AreAt (world made.0) made.1.items) }
        ensures starts { IfOk result (λ made. (start : Service) × IsStartOf (world made.0) start) }
        ensures sound { IfOk result (λ made. (start : Service) → IsStartOf (world made.0) start → IsSoundStore start.store) }
        ensures keys { IfOk result (λ made. IfSome (D.contents disk) (FindsKeysIn (world made.0))) }
        ensures opened { IfOk result (λ made. IsOpenedOn (world made.0) disk) }
        ensures later { IfOk result (λ made. D.faults disk ≤ D.faults (world made.0).opened.file.value.cells.disk) }
        ensures devices { IfOk result (λ made. (world made.0).opened.devices.value ≡ devices) }
        ensures seed { IfOk result (λ made. (world made.0).opened.seed.value ≡ seed.now) }
        ensures rules { IfOk result (λ made. (world made.0).opened.rules.value ≡ rules) }
        ensures limits { IfOk result (λ made. (world made.0).opened.limits.value ≡ limits) }
        ensures room { IfOk result (λ made. HasRoom limits (world made.0).opened.file.value.cells.states) }
        ensures refused { IfErr result (λ unopened. IsNotOpened D.Disk limits disk unopened.disk unopened.fault) }
        ensures returned { IfErr result (λ unopened. unopened.devices ≡ devices) }
    {
        let store = Store::open(alloc, disk, devices, rules, limits, seed)?;
        let seen = Seen {
            opened: Snapshot::of(&store.opened),
        };
        match HistoryLock::new(alloc, Held { store }, 16) {
            Ok((lock, passes)) => Ok((SharedStore { lock, seen }, passes)),
            Err(Refused { value }) => {
                let Held { store } = value;
                let (disk, devices) = store.into_disk();
                Err(Unopened {
                    disk,
                    devices,
                    fault: StoreFault::File(OpenFault::Memory),
                })
            }
        }
    }

    /// An end for which no pass was handed in.
    pub fn start_ending(self) -> Ending<Held<D, A, C>>
        ensures lock { result.lock ≡ self.lock }
        ensures nothing { (result.last.me.0.accounts ≡ []) × (result.last.me.0.weight ≡ 0) }
    {
        let SharedStore { lock, seen: _ } = self;
        lock.start_ending()
    }
}

/// The disk and the devices of a store, once all passes are handed in.
pub fn end<D: Disk, A: Devices, C: Admission>(ending: Ending<Held<D, A, C>>) -> (D, A)
    requires sixteen { ending.lock.table.shared.key.passes ≡ 16 }
    requires whole { ending.last.me.0.weight ≡ 16 }
    ensures closed { IsClosed (world_of D.Disk A.Devices C.Admission ending.lock.table.shared.table_id ending.lock.table.shared.key.value.value.store.opened) result.0 result.1 ending.last.me.0.accounts }
{
    let Held { store } = ending.end();
    store.into_disk()
}
