//! Turns that change no key.
ghost use Rattle.std.specs.Prelude.{◌≡◌, ◌<◌, ◌^◌, ◌+◌, ℕ, List, true, false, Some, None, is_some, IfOk, IfErr, OnOk, OnErr};
ghost use Rattle.std.specs.FinMap as map;
ghost use Rattle.key_cells.specs.Prelude.{store_size};
ghost use Rattle.disk_face.specs.Disk.{StillTells};
ghost use Rattle.psa_status.specs.declared.Status.TheVariants.{InvalidHandle};
ghost use Rattle.secret_bytes.specs.Buffer.{IsClear};
ghost use Rattle.slot_table.specs.Slots.{empty_slot, filling_slot, holds_key, is_idle, is_last, slot_at};
ghost use Rattle.key_slots.specs.Wiping.{EndsOnly, IsEmptyOrIdle, IsFillingOf, IsIdleOf, IsLastOf, IsTakenOf, TakesOne};
ghost use Rattle.store_model.specs.Prelude.{HasNumber, Plain};
ghost use Rattle.store_core.specs.{Represents.Adds, Represents.AddsAs, Represents.Gives, Represents.HasOut, Represents.Reads, Represents.Stands, Represents.Steps, Represents.Takes, Refusals.CallsNothing, Refusals.WritesNothing, Rising.NoFewerFaults, Uses.HasAttributes, Uses.IsRefused, Uses.KeepsOrEmpties, Uses.mark_of, Uses.there_rows, Zeros.StaysZeros};

use crate::Store;
use admission::Admission;
use disk_face::Disk;
use driver_dispatch::Devices;
use key_attributes::{Attributes, KeyId};
use psa_status::Status;
use secret_bytes::Secret;
use slot_table::{Filling, Lease};

impl<D: Disk, A: Devices, C: Admission> Store<D, A, C> {
    /// Takes a slot for a key that is to be made, and wipes it: one that is empty, or has a persistent key which nobody reads.
    /// There always is one. No rank.
    pub fn reserve(&mut self) -> Filling
        requires stands { Stands D.Disk A.Devices C.Admission self.old }
        ensures gives { Gives D.Disk A.Devices C.Admission self.old self.new (result.slot, 0) }
        ensures wipes { EndsOnly self.old.slots.table.slots self.new.slots.table.slots (IsTakenOf result.slot) }
        ensures taken { IsEmptyOrIdle (slot_at self.old.slots.table.slots result.slot) }
        ensures waiting { slot_at self.new.slots.table.slots result.slot ≡ filling_slot }
        ensures file { self.new.file ≡ self.old.file }
        ensures devices { self.new.devices ≡ self.old.devices }
        ensures buffer { self.new.buffer ≡ self.old.buffer }
        ensures opened { self.new.opened ≡ self.old.opened }
    {
        self.slots.reserve()
    }

    /// Gives up a slot that waits for its key. No rank.
    pub fn give_up(&mut self, filling: Filling)
        requires out { HasOut D.Disk A.Devices C.Admission self.old (filling.slot, 0) }
        ensures takes { Takes D.Disk A.Devices C.Admission self.old self.new (filling.slot, 0) }
        ensures wipes { EndsOnly self.old.slots.table.slots self.new.slots.table.slots (IsFillingOf filling.slot) }
        ensures emptied { slot_at self.new.slots.table.slots filling.slot ≡ empty_slot }
        ensures file { self.new.file ≡ self.old.file }
        ensures devices { self.new.devices ≡ self.old.devices }
        ensures buffer { self.new.buffer ≡ self.old.buffer }
        ensures opened { self.new.opened ≡ self.old.opened }
    {
        self.slots.give_up(filling);
    }

    /// Takes a lease back, and answers its spare, which is clear. The last lease of a destroyed key wipes its slot. No rank.
    pub fn leave(&mut self, lease: Lease) -> Secret
        requires out { HasOut D.Disk A.Devices C.Admission self.old (lease.slot, lease.creation + 1) }
        ensures takes { Takes D.Disk A.Devices C.Admission self.old self.new (lease.slot, lease.creation + 1) }
        ensures clear { IsClear result }
        ensures wipes { EndsOnly self.old.slots.table.slots self.new.slots.table.slots (IsLastOf lease.slot) }
        ensures emptied { is_last (slot_at self.old.slots.table.slots lease.slot) ≡ true → slot_at self.new.slots.table.slots lease.slot ≡ empty_slot }
        ensures file { self.new.file ≡ self.old.file }
        ensures devices { self.new.devices ≡ self.old.devices }
        ensures buffer { self.new.buffer ≡ self.old.buffer }
        ensures opened { self.new.opened ≡ self.old.opened }
    {
        self.slots.take_back(lease)
    }

    /// How many ranked turns there were.
    pub fn ranked(&self) -> u64
        ensures { result ≡ self.now.ranked }
    {
        self.ranked
    }

    /// Counts a call that needs no key. Ranked.
    pub fn count(&mut self)
        requires few { self.old.ranked < 2 ^ 62 }
        ensures adds { Adds D.Disk A.Devices C.Admission self.old self.new }
        ensures slots { self.new.slots ≡ self.old.slots }
        ensures file { self.new.file ≡ self.old.file }
        ensures devices { self.new.devices ≡ self.old.devices }
        ensures buffer { self.new.buffer ≡ self.old.buffer }
        ensures opened { self.new.opened ≡ self.old.opened }
    {
        self.ranked += 1;
    }

    /// Counts a step of an operation, and answers whether the key of its lease is still there. Ranked.
    pub fn step_operation(&mut self, lease: &Lease) -> Result<(), Status>
        requires few { self.old.ranked < 2 ^ 62 }
        requires out { HasOut D.Disk A.Devices C.Admission self.old (lease.now.slot, lease.now.creation + 1) }
        ensures adds { Adds D.Disk A.Devices C.Admission self.old self.new }
        ensures alive { OnOk result (Steps D.Disk A.Devices C.Admission self.old self.new (lease.now.slot, lease.now.creation + 1)
            (λ m. HasNumber m lease.now.creation)) }
        ensures gone { OnErr result (Steps D.Disk A.Devices C.Admission self.old self.new (lease.now.slot, lease.now.creation + 1)
            (λ m. HasNumber m lease.now.creation → ⊥)) }
        ensures status { IfErr result (λ status. status ≡ InvalidHandle) }
        ensures slots { self.new.slots ≡ self.old.slots }
        ensures file { self.new.file ≡ self.old.file }
        ensures devices { self.new.devices ≡ self.old.devices }
        ensures buffer { self.new.buffer ≡ self.old.buffer }
        ensures opened { self.new.opened ≡ self.old.opened }
    {
        self.ranked += 1;
        if self.slots.is_alive(lease) {
            Ok(())
        } else {
            Err(Status::InvalidHandle)
        }
    }

    /// What is known of a key beside its bytes; `InvalidHandle` where there is no key, and `StorageFailure` or `DataCorrupt` where
    /// the file has it and can't be read, whose slot is then empty. Nothing is written to the disk. Ranked.
    pub fn attributes(&mut self, id: KeyId) -> Result<Attributes, Status>
        requires stands { Stands D.Disk A.Devices C.Admission self.old }
        requires size { D.size self.old.file.cells.disk ≡ store_size }
        requires clear { IsClear self.old.buffer }
        requires few { self.old.ranked < 2 ^ 62 }
        ensures size { D.size self.new.file.cells.disk ≡ store_size }
        ensures clear { IsClear self.new.buffer }
        ensures known { IfOk result (λ attributes. Reads D.Disk A.Devices C.Admission self.old self.new id.0 Plain
            (HasAttributes id.0 attributes)) }
        ensures refused { IfErr result (λ status. Reads D.Disk A.Devices C.Admission self.old self.new id.0 (mark_of status)
            (IsRefused there_rows id.0 status)) }
        ensures wipes { TakesOne self.old.slots.table.slots self.new.slots.table.slots }
        ensures unmoved { IfErr result (λ status. status ≡ InvalidHandle → self.new.slots ≡ self.old.slots) }
        ensures emptied { OnErr result (KeepsOrEmpties self.old.slots.table.slots self.new.slots.table.slots) }
        ensures unwritten { WritesNothing D.Disk self.old self.new }
        ensures untouched { IfErr result (λ status. status ≡ InvalidHandle → CallsNothing self.old self.new) }
        ensures zeros { StaysZeros D.Disk A.Devices C.Admission self.old self.new }
        ensures later { NoFewerFaults D.faults A.faults self.old self.new }
        ensures tells { StillTells (D.contents self.old.file.cells.disk) (D.contents self.new.file.cells.disk) }
        ensures devices { self.new.devices ≡ self.old.devices }
        ensures opened { self.new.opened ≡ self.old.opened }
    {
        let brought = self.bring(id);
        self.ranked += 1;
        match brought {
            Ok(slot) => Ok(*self.slots.attributes(slot)),
            Err(unread) => Err(unread.status()),
        }
    }

    /// Forgets a key in memory that is in the file too and that nobody reads. No device is called. Ranked.
    pub fn purge(&mut self, id: KeyId) -> Result<(), Status>
        requires few { self.old.ranked < 2 ^ 62 }
        ensures there { OnOk result (AddsAs D.Disk A.Devices C.Admission self.old self.new
            (λ m. there_rows (map.get m.keys id.0) ≡ None)) }
        ensures missing { IfErr result (λ status. (status ≡ InvalidHandle) × AddsAs D.Disk A.Devices C.Admission self.old self.new
            (λ m. there_rows (map.get m.keys id.0) ≡ Some status)) }
        ensures wiped { OnOk result ((i : ℕ) → holds_key id.0 (slot_at self.new.slots.table.slots i) ≡ true → is_idle (slot_at self.new.slots.table.slots i) ≡ false) }
        ensures wipes { EndsOnly self.old.slots.table.slots self.new.slots.table.slots (λ i s. IsIdleOf id.0 s) }
        ensures emptied { OnOk result ((i : ℕ) → IsIdleOf id.0 (slot_at self.old.slots.table.slots i) → slot_at self.new.slots.table.slots i ≡ empty_slot) }
        ensures file { self.new.file ≡ self.old.file }
        ensures devices { self.new.devices ≡ self.old.devices }
        ensures buffer { self.new.buffer ≡ self.old.buffer }
        ensures opened { self.new.opened ≡ self.old.opened }
    {
        self.ranked += 1;
        if let Some(slot) = self.slots.find(id) {
            self.slots.purge(id, slot);
            return Ok(());
        }
        match self.file.find(id.0) {
            Some(_cell) => Ok(()),
            None => Err(Status::InvalidHandle),
        }
    }

    /// The disk and the devices.
    pub fn into_disk(self) -> (D, A)
        ensures { result ≡ (self.file.cells.disk, self.devices) }
    {
        (self.file.into_disk(), self.devices)
    }
}
