//! The store as the lock holds it.
ghost use Rattle.std.specs.Prelude.{◌≡◌};
ghost use Rattle.store_model.specs.Prelude.{Service};
ghost use Rattle.store_core.specs.Prelude.{IsStart};

use admission::Admission;
use disk_face::Disk;
use driver_dispatch::Devices;
use std::marker::Model;
use std::snapshot::Snapshot;
use store_core::{Opened, Store};
use turn_history::{Historic, HistoryLock};

/// What a ranked turn adds to the history, for contracts alone. No value of it is made.
pub struct Entry {
    place: u64,
}

impl Model for Entry {
    ghost use Rattle.store_model.specs.Replay as model;
    ghost use Rattle.locked_store.specs.Standing.{some_entry};

    ghost Value = { model.Entry };

    ghost view = { λ e. some_entry };
}

/// The store, which stands for a history and for what the callers have out of it.
#[derive(Drop)]
pub struct Held<D: Disk, A: Devices, C: Admission> {
    pub store: Store<D, A, C>,
}

impl<D: Disk, A: Devices, C: Admission> Historic for Held<D, A, C> {
    type Entry = crate::held::Entry;

    type Base = Opened<D, A, C>;

    ghost use Rattle.locked_store.specs.Standing.{HoldsHistory, caller_of};

    ghost by = { caller_of };

    ghost stands = { λ v. HoldsHistory D.Disk A.Devices C.Admission v.store };

    ghost base = { λ v. v.store.opened };

    fn entries(&self) -> u64 {
        self.store.ranked
    }
}

/// What the opening saw. It permits a start. It has no bytes at run time.
#[derive(Drop)]
pub struct Seen<D: Disk, A: Devices, C: Admission> {
    pub opened: Snapshot<Opened<D, A, C>>,
    ghost starts: { ∥ ((start : Service) × IsStart D.Disk A.Devices C.Admission opened.value start) ∥₁ },
}

/// A store that sixteen callers share, each by a pass of its own.
#[derive(Drop)]
pub struct SharedStore<D: Disk, A: Devices, C: Admission> {
    pub lock: HistoryLock<Held<D, A, C>>,
    pub seen: Seen<D, A, C>,
    ghost sixteen: { lock.table.shared.key.passes ≡ 16 },
}
