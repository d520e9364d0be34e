//! How a store is opened.
ghost use Rattle.std.specs.Prelude.{◌≡◌, ◌≤◌, ◌↔◌, ℕ, List, [], length, replicate, count_by, slice_get, Some, IfOk, IfErr, IfSome, MatchOption};
ghost use Rattle.secret_bytes.specs.Buffer.{IsClear};
ghost use Rattle.key_cells.specs.Prelude.{is_of_range, is_open, IsNamed, IsOpened, cell_count, store_size};
ghost use Rattle.slot_table.specs.Slots.{empty_slot};
ghost use Rattle.driver_dispatch.specs.Calls.{Lacks};
ghost use Rattle.store_model.specs.Prelude.{Service, range_limit};
ghost use Rattle.store_core.specs.{Limits.HasRoom, Limits.IsFirstOver, Limits.IsRangeFull, Limits.IsUnopened, Start.BeginsAtStart, Start.FindsKeysOf, Start.IsStart};

use crate::recording::RANGE_LIMIT;
use crate::{Opened, Store};
use admission::Admission;
use disk_face::Disk;
use driver_dispatch::Devices;
use key_cells::OpenFault;
use key_slots::KeySlots;
use persistent_keys::KeyFile;
use psa_status::Memory;
use secret_bytes::Secret;
use std::alloc::Global;
use std::snapshot::Snapshot;
use store_model::Limits;

/// Why a store wasn't opened.
#[derive(Clone, Copy, Debug, PartialEq, Eq, Drop)]
pub enum StoreFault {
    /// Its file wasn't.
    File(OpenFault),
    /// A range of identifiers has more keys than it may. No other range below it has.
    RangeFull { range: u32 },
}

/// What comes back where a store wasn't opened, and why it wasn't.
#[derive(Drop)]
pub struct Unopened<D: Disk, A: Devices> {
    pub disk: D,
    pub devices: A,
    pub fault: StoreFault,
}

// Empty slots, and a clear buffer.
fn new_rooms(alloc: Global) -> Result<(KeySlots, Secret), Memory>
    ensures slots { IfOk result (λ rooms. rooms.0.table.slots ≡ replicate 384 empty_slot) }
    ensures buffer { IfOk result (λ rooms. IsClear rooms.1) }
{
    let slots = KeySlots::new(alloc)?;
    let buffer = Secret::new(alloc)?;
    Ok((slots, buffer))
}

// The lowest range that has more keys than it may.
fn full_range<D: Disk>(file: &KeyFile<D>, limits: Limits) -> Option<u32>
    requires named { IsNamed cell_count file.now.cells.states }
    requires sized { length file.now.cells.states ≡ cell_count }
    ensures { MatchOption result (HasRoom limits file.now.cells.states) (IsRangeFull limits file.now.cells.states) }
{
    match limits {
        Limits::Whole => None,
        Limits::PerRange => range_over_limit(file),
    }
}

// The lowest range with more than 128 keys. A key that is kept has an identifier of one of sixteen ranges.
fn range_over_limit<D: Disk>(file: &KeyFile<D>) -> Option<u32>
    requires named { IsNamed cell_count file.now.cells.states }
    requires sized { length file.now.cells.states ≡ cell_count }
    ensures { MatchOption result ((range : ℕ) → count_by (is_of_range range) file.now.cells.states ≤ range_limit) (IsFirstOver file.now.cells.states) }
{
    for range in 0..16 {
        if file.in_range(range) > RANGE_LIMIT {
            return Some(range);
        }
    }
    None
}

impl<D: Disk, A: Devices, C: Admission> Store<D, A, C> {
    /// Opens the store of a disk, or makes one on a disk of length 0, for callers whose random words have this seed. The keys
    /// are those of the disk, and no call was made yet. `Memory` where there is no room for the slots, for the buffer or for
    /// the directory: for the former two it comes before the disk is called. `Disk` only where the disk's faults rose;
    /// `NotAStore` and `DamagedCell` for what the disk has, and then nothing is written to it. With limits by range,
    /// `RangeFull` where a range has more than 128 of the keys: the disk is then as the opening of its file left it. Where the
    /// store isn't opened the disk and the devices come back.
    pub fn open(
        alloc: Global,
        disk: D,
        devices: A,
        rules: C,
        limits: Limits,
        seed: &[u8; 32],
    ) -> Result<Store<D, A, C>, Unopened<D, A>>
        requires empty { (handle : ℕ) → Lacks (A.keys devices) handle }
        ensures stands { IfOk result (λ store. BeginsAtStart D.Disk A.Devices C.Admission store) }
        ensures starts { IfOk result (λ store. (start : Service) × IsStart D.Disk A.Devices C.Admission store.opened start) }
        ensures keys { IfOk result (λ store. IfSome (D.contents disk) (λ image. FindsKeysOf D.Disk A.Devices C.Admission store.opened image)) }
        ensures opened { IfOk result (λ store. IsOpened D.Disk disk store.file.cells.disk store.file.cells.states) }
        ensures later { IfOk result (λ store. D.faults disk ≤ D.faults store.file.cells.disk) }
        ensures size { IfOk result (λ store. D.size store.file.cells.disk ≡ store_size) }
        ensures clear { IfOk result (λ store. IsClear store.buffer) }
        ensures ranked { IfOk result (λ store. store.ranked ≡ 0) }
        ensures found { IfOk result (λ store. store.found ≡ count_by is_open store.file.cells.states) }
        ensures devices { IfOk result (λ store. store.devices ≡ devices) }
        ensures rules { IfOk result (λ store. store.rules ≡ rules) }
        ensures room { IfOk result (λ store. HasRoom limits store.file.cells.states) }
        ensures saw_file { IfOk result (λ store. store.opened.file.value ≡ store.file) }
        ensures saw_devices { IfOk result (λ store. store.opened.devices.value ≡ store.devices) }
        ensures saw_rules { IfOk result (λ store. store.opened.rules.value ≡ store.rules) }
        ensures saw_limits { IfOk result (λ store. store.opened.limits.value ≡ limits) }
        ensures saw_seed { IfOk result (λ store. store.opened.seed.value ≡ seed.now) }
        ensures refused { IfErr result (λ unopened. IsUnopened D.Disk limits disk unopened.disk unopened.fault) }
        ensures returned { IfErr result (λ unopened. unopened.devices ≡ devices) }
    {
        let (slots, buffer) = match new_rooms(alloc) {
            Ok(rooms) => rooms,
            Err(_) => {
                return Err(Unopened {
                    disk,
                    devices,
                    fault: StoreFault::File(OpenFault::Memory),
                });
            }
        };
        let file = match KeyFile::open(alloc, disk) {
            Ok(file) => file,
            Err(refused) => {
                return Err(Unopened {
                    disk: refused.0,
                    devices,
                    fault: StoreFault::File(refused.1),
                });
            }
        };
        match full_range(&file, limits) {
            Some(range) => Err(Unopened {
                disk: file.into_disk(),
                devices,
                fault: StoreFault::RangeFull { range },
            }),
            None => Ok(Store::with_file(file, slots, devices, rules, limits, buffer, seed)),
        }
    }

    // The store of a file that was opened, before any call.
    fn with_file(
        file: KeyFile<D>,
        slots: KeySlots,
        devices: A,
        rules: C,
        limits: Limits,
        buffer: Secret,
        seed: &[u8; 32],
    ) -> Store<D, A, C>
        requires sized { length file.cells.states ≡ cell_count }
        ensures file { result.file ≡ file }
        ensures slots { result.slots ≡ slots }
        ensures devices { result.devices ≡ devices }
        ensures rules { result.rules ≡ rules }
        ensures limits { result.limits ≡ limits }
        ensures made { result.made ≡ replicate 17 0 }
        ensures live { result.live ≡ replicate 17 0 }
        ensures kept { result.kept ≡ count_by is_open file.cells.states }
        ensures found { result.found ≡ count_by is_open file.cells.states }
        ensures ranked { result.ranked ≡ 0 }
        ensures buffer { result.buffer ≡ buffer }
        ensures saw_file { result.opened.file.value ≡ file }
        ensures saw_devices { result.opened.devices.value ≡ devices }
        ensures saw_rules { result.opened.rules.value ≡ rules }
        ensures saw_limits { result.opened.limits.value ≡ limits }
        ensures saw_seed { result.opened.seed.value ≡ seed.now }
    {
        let count = file.count();
        let opened = Opened {
            file: Snapshot::of(&file),
            devices: Snapshot::of(&devices),
            rules: Snapshot::of(&rules),
            limits: Snapshot::of(&limits),
            seed: Snapshot::of(seed),
        };
        Store {
            file,
            slots,
            devices,
            rules,
            limits,
            made: [0; 17],
            live: [0; 17],
            kept: count as u32,
            found: count as u64,
            ranked: 0,
            buffer,
            opened,
        }
    }
}
