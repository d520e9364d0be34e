//! A store and its only user.
ghost use Rattle.std.specs.Prelude.{◌≡◌, ◌<◌, ◌^◌, ℕ, false};
ghost use Rattle.driver_dispatch.specs.Calls.{Lacks};

use crate::turns::is_over;
use admission::Admission;
use disk_face::Disk;
use driver_dispatch::Devices;
use key_attributes::KeyId;
use key_cells::OpenFault;
use secret_bytes::Secret;
use std::alloc::Global;
use std::marker::Model;
use store_core::{Store, StoreFault, Unopened};
use store_model::Limits;

/// A store of which nothing is out between the calls of its only user, the first of sixteen callers. A call answers `None`
/// once there were so many that the store's contracts say nothing more of it.
#[derive(Drop)]
pub struct Keeper<D: Disk, A: Devices, C: Admission> {
    pub(crate) store: Store<D, A, C>,
    // For a lease. Clear between calls.
    pub(crate) spare: Option<Secret>,
}

impl<D: Disk, A: Devices, C: Admission> Model for Keeper<D, A, C> {
    ghost use Rattle.std.specs.Prelude.{IfSome};
    ghost use Rattle.secret_bytes.specs.Buffer.{IsClear};
    ghost use Rattle.store_core.specs.declared.store.Store.{Store};

    ghost Value = { Store D A C };

    ghost use Rattle.store_bench.specs.Keeping.{StandsForSomeHistory, none_out};

    ghost view = { λ k. k.store };

    ghost invariant = { λ k. StandsForSomeHistory D.Disk A.Devices C.Admission k.store none_out
        × IfSome k.spare (λ spare. IsClear spare) };
}

impl<D: Disk, A: Devices, C: Admission> Keeper<D, A, C> {
    /// Opens the store of a disk.
    pub fn open(
        alloc: Global,
        disk: D,
        devices: A,
        rules: C,
    ) -> Result<Keeper<D, A, C>, Unopened<D, A>>
        requires empty { (handle : ℕ) → Lacks (A.keys devices) handle }
    {
        let Ok(spare) = Secret::new(alloc) else {
            return Err(Unopened {
                disk,
                devices,
                fault: StoreFault::File(OpenFault::Memory),
            });
        };
        match Store::open(alloc, disk, devices, rules, Limits::Whole, &[0; 32]) {
            Ok(store) => Ok(Keeper {
                store,
                spare: Some(spare),
            }),
            Err(unopened) => Err(unopened),
        }
    }

    // Whether there were too many turns.
    pub(crate) fn is_over(&self) -> bool
        ensures { result ≡ false → self.now.ranked < 2 ^ 60 }
    {
        is_over(&self.store)
    }

    /// The slot of a key that is in memory.
    pub fn slot(&self, id: KeyId) -> Option<u32> {
        self.store.slots.find(id)
    }

    /// The disk.
    pub fn into_disk(self) -> D {
        self.store.into_disk().0
    }
}
