//! What a creation records.
ghost use Rattle.std.specs.Prelude.{◌≡◌, ◌≤◌, List, Some, None, is_some, IfErr, OnOk};
ghost use Rattle.std.specs.FinMap as map;
ghost use Rattle.psa_status.specs.Rows.{first_row};
ghost use Rattle.key_slots.specs.{Holdings.Pairs, Standing.Agrees};
ghost use Rattle.store_model.specs.Store as model;
ghost use Rattle.store_model.specs.Prelude.{IsSoundStore, lacks_room, recorded_of, room_for_key_rows};
ghost use Rattle.store_core.specs.{Creations.HoldsWithin, Represents.IsDirectory};

use crate::Store;
use admission::Admission;
use disk_face::Disk;
use driver_dispatch::Devices;
use key_attributes::{Attributes, KeyId, LAST_STATED_ID, check_attributes};
use psa_status::Status;
use store_model::Limits;

// How many volatile keys of a caller may be alive, how many it may make, and how many persistent keys there may be.
const LIVE_LIMIT: u8 = 16;

const MADE_LIMIT: u32 = 1 << 20;

const KEPT_LIMIT: u32 = 2048;

/// How many of them there may be in each range of identifiers, where the limits are by range.
pub const RANGE_LIMIT: usize = 128;

// How many identifiers a range has.
const RANGE: u32 = 1 << 26;

impl<D: Disk, A: Devices, C: Admission> Store<D, A, C> {
    // What a creation of a key of so many bytes records, or its first refusal.
    pub(crate) fn recorded(
        &self,
        caller: u8,
        attributes: &Attributes,
        bytes: usize,
    ) -> Result<Attributes, Status>
        requires { caller ≤ 16 }
        ensures value { HoldsWithin D.Disk A.Devices C.Admission self.now
            (λ m. result ≡ recorded_of m caller attributes.now bytes) }
        ensures short { OnOk result (bytes ≤ 1024) }
    {
        let element = self.devices.has_secure_element();
        let filled = match check_attributes(attributes, bytes, element) {
            Ok(filled) => filled,
            Err(status) => return Err(status),
        };
        let kept = match self.rules.apply(&filled) {
            Ok(kept) => kept,
            Err(status) => return Err(status),
        };
        match self.check_room(caller, &kept) {
            Ok(()) => Ok(kept),
            Err(status) => Err(status),
        }
    }

    // Whether there is room for a caller's key with these attributes.
    fn check_room(&self, caller: u8, attributes: &Attributes) -> Result<(), Status>
        requires { caller ≤ 16 }
        ensures free { OnOk result (HoldsWithin D.Disk A.Devices C.Admission self.now
            (λ m. first_row (room_for_key_rows m caller attributes.now) ≡ None)) }
        ensures refused { IfErr result (λ status. HoldsWithin D.Disk A.Devices C.Admission self.now
            (λ m. first_row (room_for_key_rows m caller attributes.now) ≡ Some status)) }
    {
        if attributes.lifetime.0 % 256 == 0 {
            let live = self.live[caller as usize];
            let made = self.made[caller as usize];
            if live >= LIVE_LIMIT || made >= MADE_LIMIT {
                return Err(Status::KeyLimit);
            }
            return Ok(());
        }
        if self.has(attributes.id) {
            return Err(Status::AlreadyExists);
        }
        if self.is_full(attributes.id) {
            return Err(Status::InsufficientStorage);
        }
        Ok(())
    }

    // Whether there is no room for a persistent key of this identifier.
    fn is_full(&self, id: KeyId) -> bool
        ensures { HoldsWithin D.Disk A.Devices C.Admission self.now (λ m. result ≡ lacks_room m id.0) }
    {
        if self.kept >= KEPT_LIMIT {
            return true;
        }
        match self.limits {
            Limits::Whole => false,
            Limits::PerRange => self.file.in_range(id.0 / RANGE) >= RANGE_LIMIT,
        }
    }

    // Whether there is a key. One whose identifier can be stated is in the file, and every other in a slot.
    fn has(&self, id: KeyId) -> bool
        ensures { (m : model.Store) (all : List Pairs) → Agrees self.now.slots.table.slots m all → IsDirectory self.now.file.cells.states m → IsSoundStore m →
            is_some (map.get m.keys id.0) ≡ result }
    {
        if id.0 > LAST_STATED_ID {
            return match self.slots.find(id) {
                Some(_slot) => true,
                None => false,
            };
        }
        match self.file.find(id.0) {
            Some(_cell) => true,
            None => false,
        }
    }
}
