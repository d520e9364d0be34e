//! How a turn copies a key.
ghost use Rattle.std.specs.Prelude.{◌≡◌, ◌⊎◌, ◌<◌, ◌≤◌, ◌^◌, ℕ, Some, None, if◌then◌else◌, IfOk, IfErr, OnErr, is_some};
ghost use Rattle.std.specs.FinMap as map;
ghost use Rattle.key_cells.specs.Prelude.{store_size};
ghost use Rattle.disk_face.specs.Disk.{StillTells};
ghost use Rattle.secret_bytes.specs.Buffer.{IsClear};
ghost use Rattle.slot_states.specs.declared.SlotState.TheVariants.{Full};
ghost use Rattle.slot_table.specs.Slots.{empty_slot, slot_at};
ghost use Rattle.key_slots.specs.{Standing.SlotHasKey, Wiping.EndsOnly, Wiping.IsFillingOf, Wiping.IsTakenOf};
ghost use Rattle.store_model.specs.Store as model;
ghost use Rattle.store_model.specs.Prelude.{Key, is_opaque, recorded_copy};
ghost use Rattle.store_core.specs.{Represents.HasOut, Represents.ranked_on, Refusals.WritesNothing, Rising.NoFewerFaults, Zeros.StaysZeros, Uses.KeepsOrEmpties, Creations.CopiesMade, Creations.CopiesUnmade, Creations.HoldsWithin, Creations.OnUnbegun, Creations.OnUnread, Creations.status_uncopied};

use crate::Store;
use crate::creating::NotMade;
use crate::reading::Unread;
use admission::Admission;
use disk_face::Disk;
use driver_dispatch::Devices;
use key_attributes::{Attributes, KeyId};
use key_policy::copied_attributes;
use psa_status::Status;
use slot_table::Filling;

/// Why no key was copied: the source was not found, or no key was made of it.
#[derive(Clone, Copy, Debug, PartialEq, Eq, Drop)]
pub enum NotCopied {
    Unread(Unread),
    NotMade(NotMade),
}

impl NotCopied {
    /// What a call answers.
    pub fn status(self) -> Status
        ensures { result ≡ status_uncopied self }
    {
        match self {
            NotCopied::Unread(why) => why.status(),
            NotCopied::NotMade(why) => why.status(),
        }
    }
}

impl<D: Disk, A: Devices, C: Admission> Store<D, A, C> {
    /// Makes a key of a source's bytes, with the meet of its policy and the stated one, in the slot that waits for it, and
    /// answers its identifier. A key of the secure element is copied there. The slot is given up where no key is made. A refusal
    /// writes nothing to the disk and calls no device. Ranked.
    pub fn copy(
        &mut self,
        caller: u8,
        filling: Filling,
        source: KeyId,
        attributes: &Attributes,
    ) -> Result<KeyId, NotCopied>
        requires first { 1 ≤ caller }
        requires last { caller ≤ 16 }
        requires out { HasOut D.Disk A.Devices C.Admission self.old (filling.slot, 0) }
        requires size { D.size self.old.file.cells.disk ≡ store_size }
        requires clear { IsClear self.old.buffer }
        requires few { self.old.ranked < 2 ^ 62 }
        ensures size { D.size self.new.file.cells.disk ≡ store_size }
        ensures clear { IsClear self.new.buffer }
        ensures made { IfOk result (λ id. CopiesMade D.Disk A.Devices C.Admission self.old self.new caller source.0 attributes.now filling.slot id.0) }
        ensures uncopied { IfErr result (λ why. CopiesUnmade D.Disk A.Devices C.Admission self.old self.new caller source.0 attributes.now filling.slot why) }
        ensures wipes { (slot : ℕ) × EndsOnly self.old.slots.table.slots self.new.slots.table.slots (λ i s. IsFillingOf filling.slot i s ⊎ IsTakenOf slot i s) }
        ensures emptied { OnErr result (slot_at self.new.slots.table.slots filling.slot ≡ empty_slot) }
        ensures unread { IfErr result (λ why. OnUnread why (KeepsOrEmpties self.old.slots.table.slots self.new.slots.table.slots)) }
        ensures unwritten { IfErr result (λ why. OnUnbegun why (WritesNothing D.Disk self.old self.new)) }
        ensures zeros { StaysZeros D.Disk A.Devices C.Admission self.old self.new }
        ensures later { NoFewerFaults D.faults A.faults self.old self.new }
        ensures tells { StillTells (D.contents self.old.file.cells.disk) (D.contents self.new.file.cells.disk) }
        ensures knows { is_some (A.keys self.new.devices) ≡ is_some (A.keys self.old.devices) }
        ensures opened { self.new.opened ≡ self.old.opened }
    {
        let slot = match self.bring(source) {
            Ok(slot) => slot,
            Err(why) => {
                self.slots.give_up(filling);
                self.ranked += 1;
                return Err(NotCopied::Unread(why));
            }
        };
        let recorded = match self.decide_copy(caller, slot, attributes) {
            Ok(recorded) => recorded,
            Err(status) => {
                self.slots.give_up(filling);
                self.ranked += 1;
                return Err(NotCopied::NotMade(NotMade::Refused(status)));
            }
        };
        self.buffer.fill_from(self.slots.bytes(slot));
        let held = self.held_number(slot);
        let made = self.create(caller, filling, recorded, held);
        self.buffer.wipe();
        self.ranked += 1;
        match made {
            Ok(id) => Ok(id),
            Err(why) => Err(NotCopied::NotMade(NotMade::Failed(why))),
        }
    }

    // What a copy of a slot's key records, or its first refusal.
    fn decide_copy(
        &self,
        caller: u8,
        slot: u32,
        attributes: &Attributes,
    ) -> Result<Attributes, Status>
        requires last { caller ≤ 16 }
        requires full { (slot_at self.now.slots.table.slots slot).state ≡ Full }
        ensures value { HoldsWithin D.Disk A.Devices C.Admission self.now
            (λ m. (id : ℕ) (key : Key) → map.get m.keys id ≡ Some key → SlotHasKey (slot_at self.now.slots.table.slots slot) key → result ≡ recorded_copy m caller (Some key) attributes.now) }
    {
        let source = self.slots.attributes(slot);
        let bytes = source.bits as usize / 8;
        match copied_attributes(source, attributes) {
            Ok(copy) => self.recorded(caller, &copy, bytes),
            Err(status) => Err(status),
        }
    }

    // The number under which the secure element has the key of a slot, where it is the element's.
    fn held_number(&self, slot: u32) -> Option<u64>
        requires full { (slot_at self.now.slots.table.slots slot).state ≡ Full }
        ensures { result ≡ (if is_opaque (slot_at self.now.slots.table.slots slot).attributes then Some (slot_at self.now.slots.table.slots slot).creation else None) }
    {
        if self.slots.attributes(slot).lifetime.0 / 256 == 1 {
            Some(self.slots.number(slot))
        } else {
            None
        }
    }
}
