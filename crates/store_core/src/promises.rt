//! What a store promises that stands for a start, a history and holdings, as the contracts of methods that do nothing.
ghost use Rattle.std.specs.Prelude.{◌≡◌, false, List};
ghost use Rattle.store_model.specs.Prelude.{Service, may_change_keys, Entry};
ghost use Rattle.store_core.specs.declared.store.Store as store;
ghost use Rattle.store_core.specs.{Represents.LeavesKeys, Zeros.StaysZeros};
ghost use Rattle.store_core.specs.Promises.{LeavesPrefixSinceOpening, LeavesPrefixSinceDone, LeavesFreeCellsZeros, LeavesKeysOrZeros, LeavesZerosOverTurns, LeavesZerosSince, LeavesFreedCellsZeros, HasReadersByLeases, KeepsLeasedKeys, WipesDestroyedKeys, LeavesKeysWhereRefused, GainsNothingByCopies};

use crate::Store;
use admission::Admission;
use disk_face::Disk;
use driver_dispatch::Devices;

impl<D: Disk, A: Devices, C: Admission> Store<D, A, C> {
    /// Over a disk that tells its bytes, a crash since the opening has left the keys of some prefix of the history, and one
    /// since a call was done those of a prefix that holds the call.
    pub fn a_crash_leaves_a_prefix(&self)
        ensures opening { LeavesPrefixSinceOpening D.Disk A.Devices C.Admission self.now }
        ensures done { LeavesPrefixSinceDone D.Disk A.Devices C.Admission self.now }
    {}

    /// A crash leaves zeros in each cell that is free, as after a destruction that succeeded.
    pub fn a_free_cell_is_zeros(&self)
        ensures { LeavesFreeCellsZeros D.Disk A.Devices C.Admission self.now }
    {}

    /// Where no key is in doubt, as after a write that succeeded, a crash leaves in each cell a key of the file, or zeros: of a
    /// destroyed key there is nothing.
    pub fn a_cell_has_a_key_or_zeros(&self)
        ensures { LeavesKeysOrZeros D.Disk A.Devices C.Admission self.now }
    {}

    /// A cell that is free, as after a destruction that succeeded, stays all zeros over any turns that leave it free, until a
    /// creation takes it: a crash since the first of these, whenever it comes, leaves zeros there. So it is of the cells that the
    /// history has freed.
    pub fn a_freed_cell_stays_zeros(&self)
        ensures within { LeavesZerosOverTurns D.Disk A.Devices C.Admission self.now }
        ensures zeros { LeavesZerosSince D.Disk A.Devices C.Admission self.now }
        ensures history { LeavesFreedCellsZeros D.Disk A.Devices C.Admission self.now }
    {}

    /// A turn that leaves the file as it is leaves its free cells zeros.
    pub fn an_unchanged_file_stays_zeros(&self)
        ensures { (next : store.Store D A C) → next.file ≡ self.now.file →
            StaysZeros D.Disk A.Devices C.Admission self.now next }
    {}

    /// A slot has as many readers as the callers have leases of its key.
    pub fn readers_are_leases(&self)
        ensures { HasReadersByLeases D.Disk A.Devices C.Admission self.now }
    {}

    /// A slot keeps the key of a lease that is out.
    pub fn a_lease_keeps_its_key(&self)
        ensures { KeepsLeasedKeys D.Disk A.Devices C.Admission self.now }
    {}

    /// A key that is destroyed, and of which no lease is out, is in no slot: what stands under its number is wiped.
    pub fn a_destroyed_key_is_wiped(&self)
        ensures { WipesDestroyedKeys D.Disk A.Devices C.Admission self.now }
    {}

    /// A request that may change no key leaves all.
    pub fn a_quiet_request_leaves_keys(&self)
        ensures { (start : Service) (h : List Entry) (e : Entry) → may_change_keys e.call ≡ false →
            LeavesKeys D.Disk A.Devices C.Admission self.now start h e }
    {}

    /// A request that is refused though no device failed leaves all keys, whatever it asked for.
    pub fn a_refused_request_leaves_keys(&self)
        ensures { LeavesKeysWhereRefused D.Disk A.Devices C.Admission self.now }
    {}

    /// No chain of copies gains a flag or an algorithm, under whatever rules.
    pub fn copies_gain_nothing(&self)
        ensures { GainsNothingByCopies D.Disk A.Devices C.Admission self.now }
    {}
}
