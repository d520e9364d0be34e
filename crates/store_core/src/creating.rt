//! How a turn creates a key.
ghost use Rattle.std.specs.{Prelude.◌≡◌, Prelude.◌<◌, Prelude.◌≤◌, Prelude.◌^◌, Prelude.◌+◌, Prelude.ℕ, Prelude.List, Prelude.length, Prelude.slice_index, Prelude.slice_set, Prelude.true, Prelude.false, Prelude.⊤, Prelude.Some, Prelude.None, Prelude.IfOk, Prelude.IfErr, Prelude.IfSome, Prelude.OnOk, Prelude.OnErr, Prelude.IsTrue, Prelude.is_some, Option.option_map};
ghost use Rattle.psa_status.specs.Causes.{HasCause};
ghost use Rattle.disk_face.specs.Disk.{StillTells};
ghost use Rattle.key_attributes.specs.Checks.{is_key_type, permits_size};
ghost use Rattle.driver_dispatch.specs.{Held.with_copy, Held.with_held_key, Calls.Changes, Calls.HoldsHandle, Calls.Lacks, Calls.has_element};
ghost use Rattle.secret_bytes.specs.Buffer.{IsClear, bytes_of};
ghost use Rattle.key_cells.specs.Prelude.{FitsRecord, store_size};
ghost use Rattle.slot_table.specs.{Slots.NoKey, Slots.empty_slot, Slots.slot_at, Changes.full_slot};
ghost use Rattle.key_slots.specs.{Standing.IsOut, Wiping.EndsOnly, Wiping.IsFillingOf};
ghost use Rattle.store_model.specs.Prelude.{first_volatile, is_opaque, is_volatile, identified};
ghost use Rattle.store_core.specs.{Represents.ranked_on, Refusals.CallsNothing, Rising.NoFewerFaults, Zeros.FileStaysZeros, Zeros.StaysZeros};
ghost use Rattle.store_core.specs.Creations.{CreatesMade, CreatesUnmade, EntersMade, EntersUnkept, FillsWith, HasOutBeside, HoldsLent, IsSomeReady, OnRefused, RecordsStated, StandsLent, status_unkept, status_unmade};

use crate::Store;
use admission::Admission;
use disk_face::Disk;
use driver_dispatch::Devices;
use key_attributes::{Attributes, KeyId, KeyType};
use persistent_keys::MakeFault;
use psa_status::{Failed, Status};
use slot_table::{Filling, Lease};

// The identifiers of volatile keys begin here, and each caller has so many.
const FIRST_VOLATILE: u32 = 0x40000000;

const VOLATILE_RANGE: u32 = 1 << 20;

/// Why a key that was to be made is none: the file failed, and the key may be there after a crash where the cells in doubt
/// had been closed; or the device did.
#[derive(Clone, Copy, Debug, PartialEq, Eq, Drop)]
pub enum Unkept {
    Unwritten { closed_first: bool },
    Hardware,
}

impl Unkept {
    /// What a call answers.
    pub fn status(self) -> Status
        ensures { result ≡ status_unkept self }
    {
        match self {
            Unkept::Unwritten { .. } => Status::StorageFailure,
            Unkept::Hardware => Status::HardwareFailure,
        }
    }
}

/// Why no key was made: the creation is refused, or the file or the device failed.
#[derive(Clone, Copy, Debug, PartialEq, Eq, Drop)]
pub enum NotMade {
    Refused(Status),
    Failed(Unkept),
}

impl NotMade {
    /// What a call answers.
    pub fn status(self) -> Status
        ensures { result ≡ status_unmade self }
    {
        match self {
            NotMade::Refused(status) => status,
            NotMade::Failed(why) => why.status(),
        }
    }
}

impl<D: Disk, A: Devices, C: Admission> Store<D, A, C> {
    /// Makes a key of these bytes in the slot that waits for it, and answers its identifier. A creation by an operation comes
    /// with the lease of the operation's key, and is refused where that is gone. The slot is given up where no key is made. A
    /// refusal calls neither disk nor device. Ranked.
    pub fn finish(
        &mut self,
        caller: u8,
        filling: Filling,
        attributes: &Attributes,
        bytes: &[u8],
        lease: Option<&Lease>,
    ) -> Result<KeyId, NotMade>
        requires first { 1 ≤ caller }
        requires last { caller ≤ 16 }
        requires out { HasOutBeside D.Disk A.Devices C.Admission self.old (filling.slot, 0) (option_map (λ l. l.now) lease) }
        requires size { D.size self.old.file.cells.disk ≡ store_size }
        requires few { self.old.ranked < 2 ^ 62 }
        ensures size { D.size self.new.file.cells.disk ≡ store_size }
        ensures clear { IsClear self.old.buffer → IsClear self.new.buffer }
        ensures made { IfOk result (λ id. CreatesMade D.Disk A.Devices C.Admission self.old self.new caller (option_map (λ l. l.now) lease.entry)
            attributes.now bytes.now filling.slot id.0) }
        ensures unmade { IfErr result (λ why. CreatesUnmade D.Disk A.Devices C.Admission self.old self.new caller (option_map (λ l. l.now) lease.entry)
            attributes.now bytes.now filling.slot why) }
        ensures wipes { EndsOnly self.old.slots.table.slots self.new.slots.table.slots (IsFillingOf filling.slot) }
        ensures emptied { OnErr result (slot_at self.new.slots.table.slots filling.slot ≡ empty_slot) }
        ensures untouched { IfErr result (λ why. OnRefused why (CallsNothing self.old self.new)) }
        ensures zeros { StaysZeros D.Disk A.Devices C.Admission self.old self.new }
        ensures later { NoFewerFaults D.faults A.faults self.old self.new }
        ensures tells { StillTells (D.contents self.old.file.cells.disk) (D.contents self.new.file.cells.disk) }
        ensures knows { is_some (A.keys self.new.devices) ≡ is_some (A.keys self.old.devices) }
        ensures opened { self.new.opened ≡ self.old.opened }
    {
        match self.decide(caller, attributes, bytes.len(), lease) {
            Ok(recorded) => {
                self.buffer.fill_from(bytes);
                let made = self.create(caller, filling, recorded, None);
                self.buffer.wipe();
                self.ranked += 1;
                match made {
                    Ok(id) => Ok(id),
                    Err(why) => Err(NotMade::Failed(why)),
                }
            }
            Err(status) => {
                self.slots.give_up(filling);
                self.ranked += 1;
                Err(NotMade::Refused(status))
            }
        }
    }

    // What the creation of a key of so many bytes records, or its first refusal, where the key of the lease is asked for first.
    fn decide(
        &self,
        caller: u8,
        attributes: &Attributes,
        bytes: usize,
        lease: Option<&Lease>,
    ) -> Result<Attributes, Status>
        requires last { caller ≤ 16 }
        requires lent { StandsLent D.Disk A.Devices C.Admission self.now (option_map (λ l. l.now) lease) }
        ensures value { HoldsLent D.Disk A.Devices C.Admission self.now (option_map (λ l. l.now) lease.entry)
            (λ m. RecordsStated (option_map (λ l. l.now) lease.entry) caller attributes.now bytes m result) }
        ensures short { OnOk result (bytes ≤ 1024) }
    {
        let Some(lease) = lease else {
            return self.recorded(caller, attributes, bytes);
        };
        if !self.slots.is_alive(lease) {
            return Err(Status::InvalidHandle);
        }
        self.recorded(caller, attributes, bytes)
    }

    // Puts the key whose bytes are in the buffer, or which the device has under a number, into the slot that waits for it, and
    // before that into the file or the device, where it is kept there. The buffer may be wiped.
    pub(crate) fn create(
        &mut self,
        caller: u8,
        filling: Filling,
        recorded: Attributes,
        source: Option<u64>,
    ) -> Result<KeyId, Unkept>
        requires first { 1 ≤ caller }
        requires last { caller ≤ 16 }
        requires ready { IsSomeReady D.Disk A.Devices C.Admission self.old caller recorded source (filling.slot, 0) }
        requires size { D.size self.old.file.cells.disk ≡ store_size }
        requires few { self.old.ranked < 2 ^ 62 }
        ensures size { D.size self.new.file.cells.disk ≡ store_size }
        ensures made { IfOk result (λ id. EntersMade D.Disk A.Devices C.Admission self.old (ranked_on self.new) caller recorded source filling.slot id.0) }
        ensures unkept { IfErr result (λ why. EntersUnkept D.Disk A.Devices C.Admission self.old (ranked_on self.new) caller recorded source filling.slot why) }
        ensures wipes { EndsOnly self.old.slots.table.slots self.new.slots.table.slots (IsFillingOf filling.slot) }
        ensures emptied { OnErr result (slot_at self.new.slots.table.slots filling.slot ≡ empty_slot) }
        ensures zeros { FileStaysZeros D.Disk self.old.file self.new.file }
        ensures later { NoFewerFaults D.faults A.faults self.old self.new }
        ensures tells { StillTells (D.contents self.old.file.cells.disk) (D.contents self.new.file.cells.disk) }
        ensures knows { is_some (A.keys self.new.devices) ≡ is_some (A.keys self.old.devices) }
        ensures ranked { self.new.ranked ≡ self.old.ranked }
        ensures opened { self.new.opened ≡ self.old.opened }
    {
        if recorded.lifetime.0 % 256 != 0 {
            return self.create_kept(caller, filling, recorded, source);
        }
        let number = self.found + self.ranked;
        if recorded.lifetime.0 / 256 != 1 {
            return Ok(self.add(caller, filling, number, recorded));
        }
        let bytes = self.buffer.as_slice();
        match give(&mut self.devices, number, recorded.key_type, source, bytes) {
            Ok(()) => {
                self.buffer.wipe();
                Ok(self.add(caller, filling, number, recorded))
            }
            Err(Failed) => {
                self.slots.give_up(filling);
                Err(Unkept::Hardware)
            }
        }
    }

    // Puts a key into the file, and then into its slot.
    fn create_kept(
        &mut self,
        caller: u8,
        filling: Filling,
        recorded: Attributes,
        source: Option<u64>,
    ) -> Result<KeyId, Unkept>
        requires first { 1 ≤ caller }
        requires last { caller ≤ 16 }
        requires persistent { is_volatile recorded ≡ false }
        requires ready { IsSomeReady D.Disk A.Devices C.Admission self.old caller recorded source (filling.slot, 0) }
        requires size { D.size self.old.file.cells.disk ≡ store_size }
        requires few { self.old.ranked < 2 ^ 62 }
        ensures size { D.size self.new.file.cells.disk ≡ store_size }
        ensures made { IfOk result (λ id. EntersMade D.Disk A.Devices C.Admission self.old (ranked_on self.new) caller recorded source filling.slot id.0) }
        ensures unkept { IfErr result (λ why. EntersUnkept D.Disk A.Devices C.Admission self.old (ranked_on self.new) caller recorded source filling.slot why) }
        ensures wipes { EndsOnly self.old.slots.table.slots self.new.slots.table.slots (IsFillingOf filling.slot) }
        ensures emptied { OnErr result (slot_at self.new.slots.table.slots filling.slot ≡ empty_slot) }
        ensures zeros { FileStaysZeros D.Disk self.old.file self.new.file }
        ensures later { NoFewerFaults D.faults A.faults self.old self.new }
        ensures tells { StillTells (D.contents self.old.file.cells.disk) (D.contents self.new.file.cells.disk) }
        ensures knows { is_some (A.keys self.new.devices) ≡ is_some (A.keys self.old.devices) }
        ensures ranked { self.new.ranked ≡ self.old.ranked }
        ensures opened { self.new.opened ≡ self.old.opened }
    {
        let number = self.found + self.ranked;
        read_numbers(&recorded);
        let closed_first = match self.file.make(number, &recorded, self.buffer.as_slice()) {
            Ok(()) => {
                self.slots
                    .fill(filling, number, &recorded, self.buffer.as_slice());
                self.kept += 1;
                return Ok(recorded.id);
            }
            Err(MakeFault::Disk { closed_first }) => closed_first,
            Err(MakeFault::Full) => unreachable!(),
        };
        self.slots.give_up(filling);
        Err(Unkept::Unwritten { closed_first })
    }

    // Puts a volatile key whose bytes are in the buffer into the slot that waits for it, under the caller's next identifier.
    fn add(&mut self, caller: u8, filling: Filling, number: u64, recorded: Attributes) -> KeyId
        requires last { caller ≤ 16 }
        requires out { IsOut self.old.slots.table.slots (filling.slot, 0) }
        requires unknown { NoKey (first_volatile caller + slice_index self.old.made caller) self.old.slots.table.slots }
        requires made { slice_index self.old.made caller < 2 ^ 20 }
        requires live { slice_index self.old.live caller < 16 }
        ensures id { result.0 ≡ first_volatile caller + slice_index self.old.made caller }
        ensures sized { length self.old.live ≡ 17 }
        ensures fills { FillsWith self.old.slots.table.slots self.new.slots.table.slots filling.slot
            (full_slot number (identified recorded result.0) (bytes_of self.old.buffer)) result.0 }
        ensures wipes { EndsOnly self.old.slots.table.slots self.new.slots.table.slots (IsFillingOf filling.slot) }
        ensures rest { self.new ≡ record self.old {
          slots = self.new.slots;
          made = slice_set self.old.made caller (slice_index self.old.made caller + 1);
          live = slice_set self.old.live caller (slice_index self.old.live caller + 1);
        } }
    {
        let made = self.made[caller as usize];
        let id = KeyId(FIRST_VOLATILE + caller as u32 * VOLATILE_RANGE + made);
        let attributes = Attributes {
            lifetime: recorded.lifetime,
            id,
            key_type: recorded.key_type,
            bits: recorded.bits,
            policy: recorded.policy,
        };
        self.slots
            .fill(filling, number, &attributes, self.buffer.as_slice());
        self.made[caller as usize] = made + 1;
        self.live[caller as usize] += 1;
        id
    }
}

// Gives the device a key under a new number: its bytes, or the key that the device has under another.
fn give<A: Devices>(
    devices: &mut A,
    number: u64,
    key_type: KeyType,
    source: Option<u64>,
    bytes: &[u8],
) -> Result<(), Failed>
    requires element { IsTrue (has_element (A.locations devices.old)) }
    requires new { Lacks (A.keys devices.old) number }
    requires known { IsTrue (is_key_type key_type.0) }
    requires size { source ≡ None → IsTrue (permits_size key_type.0 (length bytes.now)) }
    requires held { IfSome source (λ from. HoldsHandle (A.keys devices.old) from (λ key. ⊤)) }
    ensures given { source ≡ None → Changes (with_held_key number (record { key_type = key_type.0; bytes = bytes.now })) (A.keys devices.old) (A.keys devices.new) result }
    ensures copied { IfSome source (λ from. Changes (with_copy from number) (A.keys devices.old) (A.keys devices.new) result) }
    ensures locations { A.locations devices.new ≡ A.locations devices.old }
    ensures cause { HasCause (A.faults devices.old) (A.faults devices.new) result }
{
    match source {
        Some(from) => devices.copy_key(from, number),
        None => devices.import_key(number, key_type, bytes),
    }
}

// Reads the numbers of attributes: the checker knows the range of a number once it is read.
fn read_numbers(attributes: &Attributes)
    ensures { FitsRecord attributes.now }
{
    let _key_type = attributes.key_type.0;
    let _usage = attributes.policy.usage.0;
    let _alg = attributes.policy.alg.0;
    let _alg2 = attributes.policy.alg2.0;
}
