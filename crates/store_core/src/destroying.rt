//! How a turn destroys a key.
ghost use Rattle.std.specs.{Prelude.◌≡◌, Prelude.◌<◌, Prelude.◌≤◌, Prelude.◌^◌, Prelude.◌+◌, Prelude.◌/◌, Prelude.◌⊎◌, Prelude.ℕ, Prelude.List, Prelude.true, Prelude.false, Prelude.None, Prelude.Some, Prelude.Bool, Prelude.OnOk, Prelude.OnErr, Prelude.IfErr, Prelude.IsErrOf, Prelude.IsTrue, Prelude.⊤, Prelude.is_some, Option.option_map};
ghost use Rattle.std.specs.FinMap as map;
ghost use Rattle.disk_face.specs.Disk.{StillTells};
ghost use Rattle.psa_status.specs.{declared.Status.TheVariants.InvalidHandle, Causes.HasCause, Rows.first_row};
ghost use Rattle.driver_dispatch.specs.{Held.without_key, Calls.HoldsHandle, Calls.has_element};
ghost use Rattle.key_cells.specs.{declared.state.CellState.TheVariants.Free, Prelude.IsFirstWithKey, Prelude.cell_state, Prelude.has_id, Prelude.store_size};
ghost use Rattle.slot_states.specs.declared.SlotState.TheVariants.{Full};
ghost use Rattle.slot_table.specs.{Slots.NoKey, Slots.holds_key, Slots.slot_at, Changes.destroyed_slot};
ghost use Rattle.key_slots.specs.Wiping.{EndsOnly};
ghost use Rattle.store_model.specs.Prelude.{is_opaque, destroy_rows, Plain};
ghost use Rattle.store_core.specs.{Represents.Destroys, Represents.Stands, Represents.ranked_on, Destructions.DestroysUnsure, Refusals.CallsNothing, Rising.NoFewerFaults, Uses.EndsSlotsOf, Uses.Forgets, Uses.FreesCellsOf, Uses.IsForgotten, Uses.MayDestroy, Uses.status_undestroyed, Zeros.FileStaysZeros, Zeros.StaysZeros};

use crate::Store;
use admission::Admission;
use disk_face::Disk;
use driver_dispatch::Devices;
use key_attributes::{KeyId, LAST_STATED_ID};
use key_slots::KeySlots;
use psa_status::{Failed, Status};

/// Why a key was not destroyed for sure: there is none; or the file or the device failed, and it is gone from the store all
/// the same, but may be there again after a crash where the file failed.
#[derive(Clone, Copy, Debug, PartialEq, Eq, Drop)]
pub enum NotDestroyed {
    Missing,
    Disk { closed_first: bool },
    Hardware,
}

impl NotDestroyed {
    /// What a call answers.
    pub fn status(self) -> Status
        ensures { result ≡ status_undestroyed self }
    {
        match self {
            NotDestroyed::Missing => Status::InvalidHandle,
            NotDestroyed::Disk { .. } => Status::StorageFailure,
            NotDestroyed::Hardware => Status::HardwareFailure,
        }
    }
}

impl<D: Disk, A: Devices, C: Admission> Store<D, A, C> {
    /// Destroys a key. Its slot is wiped where nobody reads it, and else waits for its last reader. On success its cell is free,
    /// and so all zeros, and the secure element has the key no more. Destroying no key, by the identifier 0, succeeds. Neither
    /// then nor where the key is missing are disk or device called. Ranked.
    pub fn destroy(&mut self, id: KeyId) -> Result<(), NotDestroyed>
        requires stands { Stands D.Disk A.Devices C.Admission self.old }
        requires size { D.size self.old.file.cells.disk ≡ store_size }
        requires few { self.old.ranked < 2 ^ 62 }
        ensures size { D.size self.new.file.cells.disk ≡ store_size }
        ensures destroyed { OnOk result (Destroys D.Disk A.Devices C.Admission self.old self.new id.0 Plain (MayDestroy id.0)) }
        ensures failed { IfErr result (λ why. DestroysUnsure D.Disk A.Devices C.Admission self.old self.new id.0 why) }
        ensures wipes { EndsOnly self.old.slots.table.slots self.new.slots.table.slots (λ i s. holds_key id.0 s ≡ true) }
        ensures ended { EndsSlotsOf id.0 self.old.slots.table.slots self.new.slots.table.slots }
        ensures forgotten { OnOk result (Forgets id.0 self.old.slots.table.slots (A.keys self.old.devices) (A.keys self.new.devices)) }
        ensures unasked { NoKey id.0 self.old.slots.table.slots → self.new.devices ≡ self.old.devices }
        ensures freed { OnOk result (FreesCellsOf id.0 self.old.file.cells.states self.new.file.cells.states) }
        ensures untouched { IsErrOf result NotDestroyed.Missing → CallsNothing self.old self.new }
        ensures nothing { id.0 ≡ 0 → CallsNothing self.old self.new }
        ensures zeros { StaysZeros D.Disk A.Devices C.Admission self.old self.new }
        ensures later { NoFewerFaults D.faults A.faults self.old self.new }
        ensures tells { StillTells (D.contents self.old.file.cells.disk) (D.contents self.new.file.cells.disk) }
        ensures knows { is_some (A.keys self.new.devices) ≡ is_some (A.keys self.old.devices) }
        ensures buffer { self.new.buffer ≡ self.old.buffer }
        ensures opened { self.new.opened ≡ self.old.opened }
    {
        if id.0 == 0 {
            self.ranked += 1;
            return Ok(());
        }
        // a key whose identifier can be stated is in the file, and every other in a slot
        if id.0 > LAST_STATED_ID {
            let Some(slot) = self.slots.find(id) else {
                self.ranked += 1;
                return Err(NotDestroyed::Missing);
            };
            let removed = self.remove_volatile(id, slot);
            self.ranked += 1;
            return removed;
        }
        let Some(cell) = self.file.find(id.0) else {
            self.ranked += 1;
            return Err(NotDestroyed::Missing);
        };
        let removed = self.remove_kept(id, cell);
        self.ranked += 1;
        removed
    }

    // Destroys the key of a cell.
    fn remove_kept(&mut self, id: KeyId, cell: usize) -> Result<(), NotDestroyed>
        requires stands { Stands D.Disk A.Devices C.Admission self.old }
        requires size { D.size self.old.file.cells.disk ≡ store_size }
        requires there { IsFirstWithKey self.old.file.cells.states id.0 cell }
        ensures size { D.size self.new.file.cells.disk ≡ store_size }
        ensures destroyed { OnOk result (Destroys D.Disk A.Devices C.Admission self.old (ranked_on self.new) id.0 Plain (MayDestroy id.0)) }
        ensures failed { IfErr result (λ why. DestroysUnsure D.Disk A.Devices C.Admission self.old (ranked_on self.new) id.0 why) }
        ensures missing { IsErrOf result NotDestroyed.Missing → ⊥ }
        ensures wipes { EndsOnly self.old.slots.table.slots self.new.slots.table.slots (λ i s. holds_key id.0 s ≡ true) }
        ensures ended { EndsSlotsOf id.0 self.old.slots.table.slots self.new.slots.table.slots }
        ensures forgotten { OnOk result (Forgets id.0 self.old.slots.table.slots (A.keys self.old.devices) (A.keys self.new.devices)) }
        ensures devices { self.new.devices ≡ self.old.devices }
        ensures freed { OnOk result (FreesCellsOf id.0 self.old.file.cells.states self.new.file.cells.states) }
        ensures zeros { FileStaysZeros D.Disk self.old.file self.new.file }
        ensures later { NoFewerFaults D.faults A.faults self.old self.new }
        ensures tells { StillTells (D.contents self.old.file.cells.disk) (D.contents self.new.file.cells.disk) }
        ensures knows { is_some (A.keys self.new.devices) ≡ is_some (A.keys self.old.devices) }
        ensures buffer { self.new.buffer ≡ self.old.buffer }
        ensures ranked { self.new.ranked ≡ self.old.ranked }
        ensures opened { self.new.opened ≡ self.old.opened }
    {
        let closed = self.file.destroy(id.0, cell);
        let slot = self.slots.find(id);
        self.slots.destroy(id, slot);
        self.kept -= 1;
        match closed {
            Ok(()) => Ok(()),
            Err(fault) => Err(NotDestroyed::Disk {
                closed_first: fault.closed_first,
            }),
        }
    }

    // Destroys the key of a slot, which no cell has.
    fn remove_volatile(&mut self, id: KeyId, slot: u32) -> Result<(), NotDestroyed>
        requires stands { Stands D.Disk A.Devices C.Admission self.old }
        requires size { D.size self.old.file.cells.disk ≡ store_size }
        requires high { 0x3fffffff < id.0 }
        requires within { slot < 384 }
        requires full { (slot_at self.old.slots.table.slots slot).state ≡ Full }
        requires there { holds_key id.0 (slot_at self.old.slots.table.slots slot) ≡ true }
        ensures size { D.size self.new.file.cells.disk ≡ store_size }
        ensures destroyed { OnOk result (Destroys D.Disk A.Devices C.Admission self.old (ranked_on self.new) id.0 Plain (MayDestroy id.0)) }
        ensures failed { IfErr result (λ why. DestroysUnsure D.Disk A.Devices C.Admission self.old (ranked_on self.new) id.0 why) }
        ensures missing { IsErrOf result NotDestroyed.Missing → ⊥ }
        ensures wipes { EndsOnly self.old.slots.table.slots self.new.slots.table.slots (λ i s. holds_key id.0 s ≡ true) }
        ensures ended { EndsSlotsOf id.0 self.old.slots.table.slots self.new.slots.table.slots }
        ensures forgotten { OnOk result (Forgets id.0 self.old.slots.table.slots (A.keys self.old.devices) (A.keys self.new.devices)) }
        ensures later { NoFewerFaults D.faults A.faults self.old self.new }
        ensures file { self.new.file ≡ self.old.file }
        ensures knows { is_some (A.keys self.new.devices) ≡ is_some (A.keys self.old.devices) }
        ensures buffer { self.new.buffer ≡ self.old.buffer }
        ensures ranked { self.new.ranked ≡ self.old.ranked }
        ensures opened { self.new.opened ≡ self.old.opened }
    {
        let caller = caller_of(id);
        let forgotten = forget(&mut self.devices, &self.slots, slot);
        self.slots.destroy(id, Some(slot));
        self.live[caller] -= 1;
        match forgotten {
            Ok(()) => Ok(()),
            Err(Failed) => Err(NotDestroyed::Hardware),
        }
    }
}

// The caller that made the volatile key of an identifier.
fn caller_of(id: KeyId) -> usize
    requires { 0x40000000 ≤ id.0 }
    ensures { 1024 + result ≡ id.0 / 2 ^ 20 }
{
    (id.0 >> 20) as usize - 0x400
}

// The device forgets the key of a full slot, where it holds it. After a failure it may have it still.
fn forget<A: Devices>(devices: &mut A, slots: &KeySlots, slot: u32) -> Result<(), Failed>
    requires full { (slot_at slots.now.table.slots slot).state ≡ Full }
    requires element { is_opaque (slot_at slots.now.table.slots slot).attributes ≡ true → IsTrue (has_element (A.locations devices.old)) }
    requires held { is_opaque (slot_at slots.now.table.slots slot).attributes ≡ true → HoldsHandle (A.keys devices.old) (slot_at slots.now.table.slots slot).creation (λ key. ⊤) }
    ensures forgotten { OnOk result (IsForgotten (slot_at slots.now.table.slots slot) (A.keys devices.old) (A.keys devices.new)) }
    ensures keys { (A.keys devices.new ≡ A.keys devices.old) ⊎ (A.keys devices.new ≡ option_map (without_key (slot_at slots.now.table.slots slot).creation) (A.keys devices.old)) }
    ensures opaque { OnErr result (is_opaque (slot_at slots.now.table.slots slot).attributes ≡ true) }
    ensures locations { A.locations devices.new ≡ A.locations devices.old }
    ensures cause { HasCause (A.faults devices.old) (A.faults devices.new) result }
{
    if slots.attributes(slot).lifetime.0 >> 8 != 1 {
        return Ok(());
    }
    let number = slots.number(slot);
    devices.destroy_key(number)
}
