//! How a turn finds a key: in its slot, or else in the file, from where it is loaded into a slot.
ghost use Rattle.std.specs.Prelude.{◌≡◌, ◌<◌, ◌≤◌, true, false, None, is_some, IfOk, IfErr, IsErrOf, OnErr};
ghost use Rattle.std.specs.FinMap as map;
ghost use Rattle.secret_bytes.specs.Buffer.{IsClear};
ghost use Rattle.psa_status.specs.Causes.{Rose};
ghost use Rattle.key_cells.specs.Prelude.{IsFirstWithKey, store_size};
ghost use Rattle.persistent_keys.specs.Calls.{KeepsFile};
ghost use Rattle.slot_states.specs.declared.SlotState.TheVariants.{Full};
ghost use Rattle.slot_table.specs.Slots.{slot_at, NoKey};
ghost use Rattle.key_slots.specs.Wiping.{TakesOne};
ghost use Rattle.store_model.specs.Prelude.{is_opaque};
ghost use Rattle.store_core.specs.{Represents.Brings, Represents.HasOpaque, Represents.Stands, Refusals.WritesNothing, Uses.HasPersistent, Uses.IsBrought, Uses.KeepsOrEmpties, Uses.status_of, Uses.unread_by};
ghost use Rattle.store_core.specs.declared.reading.Unread.TheVariants as unread;

use crate::Store;
use admission::Admission;
use disk_face::Disk;
use driver_dispatch::Devices;
use key_attributes::{KeyId, LAST_STATED_ID};
use key_cells::CellFault;
use psa_status::Status;

/// Why a key was not found: there is none, the file could not be read, or what was read is no record of it.
#[derive(Clone, Copy, Debug, PartialEq, Eq, Drop)]
pub enum Unread {
    Missing,
    Disk,
    Corrupt,
}

impl Unread {
    /// What a call answers.
    pub fn status(self) -> Status
        ensures { result ≡ status_of self }
    {
        match self {
            Unread::Missing => Status::InvalidHandle,
            Unread::Disk => Status::StorageFailure,
            Unread::Corrupt => Status::DataCorrupt,
        }
    }

    // Why a key isn't there that was not loaded. No cell is full that is read.
    fn of(fault: CellFault) -> Unread
        ensures { result ≡ unread_by fault }
    {
        match fault {
            CellFault::Corrupt => Unread::Corrupt,
            CellFault::Disk | CellFault::Full => Unread::Disk,
        }
    }
}

impl<D: Disk, A: Devices, C: Admission> Store<D, A, C> {
    /// The slot of a key. One that is in the file alone is loaded. Where it can't be, the slot is given up.
    pub(crate) fn bring(&mut self, id: KeyId) -> Result<u32, Unread>
        requires stands { Stands D.Disk A.Devices C.Admission self.old }
        requires size { D.size self.old.file.cells.disk ≡ store_size }
        requires clear { IsClear self.old.buffer }
        ensures size { D.size self.new.file.cells.disk ≡ store_size }
        ensures clear { IsClear self.new.buffer }
        ensures within { IfOk result (λ i. i < 384) }
        ensures full { IfOk result (λ i. (slot_at self.new.slots.table.slots i).state ≡ Full) }
        ensures found { IfOk result (λ i. Brings D.Disk A.Devices C.Admission self.old self.new id.0
            (IsBrought id.0 (slot_at self.new.slots.table.slots i))) }
        ensures element { IfOk result (λ i. is_opaque (slot_at self.new.slots.table.slots i).attributes ≡ true → HasOpaque D.Disk A.Devices C.Admission self.old id.0) }
        ensures missing { IsErrOf result unread.Missing → Brings D.Disk A.Devices C.Admission self.old self.new id.0
            (λ m. map.get m.keys id.0 ≡ None) }
        ensures unread { OnErr result ((IsErrOf result unread.Missing → ⊥) → Brings D.Disk A.Devices C.Admission self.old self.new id.0 (HasPersistent id.0)) }
        ensures disk { IsErrOf result unread.Disk → Rose (D.faults self.old.file.cells.disk) (D.faults self.new.file.cells.disk) }
        ensures corrupt { IsErrOf result unread.Corrupt → is_some (D.contents self.new.file.cells.disk) ≡ false }
        ensures same { D.contents self.new.file.cells.disk ≡ D.contents self.old.file.cells.disk }
        ensures later { D.faults self.old.file.cells.disk ≤ D.faults self.new.file.cells.disk }
        ensures wipes { TakesOne self.old.slots.table.slots self.new.slots.table.slots }
        ensures unmoved { IsErrOf result unread.Missing → self.new.slots ≡ self.old.slots }
        ensures untouched { IsErrOf result unread.Missing → self.new.file ≡ self.old.file }
        ensures emptied { OnErr result (KeepsOrEmpties self.old.slots.table.slots self.new.slots.table.slots) }
        ensures directory { self.new.file.cells.states ≡ self.old.file.cells.states }
        ensures unwritten { WritesNothing D.Disk self.old self.new }
        ensures keeps { KeepsFile D.Disk self.old.file self.new.file }
        ensures devices { self.new.devices ≡ self.old.devices }
        ensures rules { self.new.rules ≡ self.old.rules }
        ensures limits { self.new.limits ≡ self.old.limits }
        ensures made { self.new.made ≡ self.old.made }
        ensures found_count { self.new.found ≡ self.old.found }
        ensures ranked { self.new.ranked ≡ self.old.ranked }
        ensures opened { self.new.opened ≡ self.old.opened }
    {
        // no key has the identifier 0, and none in the file has a greater one than could be stated
        if id.0 == 0 {
            return Err(Unread::Missing);
        }
        if let Some(slot) = self.slots.find(id) {
            return Ok(slot);
        }
        if id.0 > LAST_STATED_ID {
            return Err(Unread::Missing);
        }
        let Some(cell) = self.file.find(id.0) else {
            return Err(Unread::Missing);
        };
        let filling = self.slots.reserve();
        let number = self.file.creation(cell);
        match self.file.load(id.0, cell, &mut self.buffer) {
            Ok(attributes) => {
                let slot = self
                    .slots
                    .fill(filling, number, &attributes, self.buffer.as_slice());
                self.buffer.wipe();
                Ok(slot)
            }
            Err(fault) => {
                self.slots.give_up(filling);
                Err(Unread::of(fault))
            }
        }
    }
}
