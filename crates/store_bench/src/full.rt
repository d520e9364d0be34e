// What is done with a store over a disk in memory, and how often.
ghost use Rattle.std.specs.Prelude.{◌≡◌, ◌≤◌, Some};
ghost use Rattle.driver_dispatch.specs.Held.{no_keys};

use crate::keeper::Keeper;
use admission::{Admission, Rules};
use disk_face::{Disk, Fails, MemoryDisk};
use driver_dispatch::{Devices, Drivers};
use key_attributes::{Attributes, KeyId, KeyType, Lifetime, Policy, Usage};
use std::alloc::Global;

const KEY: [u8; 32] = [0xa5; 32];

// The attributes of a persistent key that may be exported.
fn exportable(id: u32) -> Attributes {
    Attributes {
        lifetime: Lifetime(1),
        id: KeyId(id),
        key_type: KeyType::RAW_DATA,
        bits: 0,
        policy: Policy {
            usage: Usage::EXPORT,
            ..Policy::NOTHING
        },
    }
}

/// What is done with a store, once it is opened.
#[derive(Clone, Copy, Debug, PartialEq, Eq, Drop)]
pub enum Task {
    /// Nothing more.
    Open,
    /// Making 2,048 keys.
    Fill,
    /// Exporting the keys from 1 to 2,100, where they are there.
    ExportAll,
    /// Exporting the last key so often, which is in memory after the first time.
    Look { turns: usize },
    /// Exporting it so often, from the file each time.
    Load { turns: usize },
}

// The store of a disk over devices that hold no key.
fn opened<A: Devices, C: Admission>(
    alloc: Global,
    disk: MemoryDisk,
    devices: A,
    rules: C,
) -> Option<Keeper<MemoryDisk, A, C>>
    requires { A.keys devices ≡ Some no_keys }
{
    Keeper::open(alloc, disk, devices, rules).ok()
}

fn fill<D: Disk, A: Devices, C: Admission>(store: &mut Keeper<D, A, C>) -> Option<u32> {
    for id in 1..2049u32 {
        store.import(&exportable(id), &KEY)?.ok()?;
    }
    Some(2048)
}

fn export_all<D: Disk, A: Devices, C: Admission>(store: &mut Keeper<D, A, C>) -> u32
    ensures { result ≤ 2100 }
{
    let mut exported = 0;
    for id in 1..2101u32 {
        if store.gives(KeyId(id), &KEY) == Some(Ok(true)) {
            exported += 1;
        }
    }
    exported
}

// How many keys there were at the last turn: one, or none where a turn found none.
fn export<D: Disk, A: Devices, C: Admission>(
    store: &mut Keeper<D, A, C>,
    turns: usize,
    purged: bool,
) -> Option<u32> {
    'exports: for _ in 0..turns {
        if purged {
            store.purge(KeyId(2048))?.ok()?;
        }
        if !store.gives(KeyId(2048), &KEY)?.ok()? {
            return None;
        }
    }
    Some(1)
}

fn done<A: Devices, C: Admission>(
    alloc: Global,
    disk: MemoryDisk,
    task: Task,
    devices: A,
    rules: C,
) -> Option<(u32, MemoryDisk)>
    requires { A.keys devices ≡ Some no_keys }
{
    let mut store = opened(alloc, disk, devices, rules)?;
    let keys = match task {
        Task::Open => 0,
        Task::Fill => fill(&mut store)?,
        Task::ExportAll => export_all(&mut store),
        Task::Look { turns } => export(&mut store, turns, false)?,
        Task::Load { turns } => export(&mut store, turns, true)?,
    };
    Some((keys, store.into_disk()))
}

// Exports the keys from one on and up to another.
fn export_each<D: Disk, A: Devices, C: Admission>(
    store: &mut Keeper<D, A, C>,
    first: u32,
    last: u32,
) -> Option<()>
    requires few { last ≤ 2048 }
{
    for id in first..last + 1 {
        if !store.gives(KeyId(id), &KEY)?.ok()? {
            return None;
        }
    }
    Some(())
}

fn is_held<D: Disk, A: Devices, C: Admission>(store: &Keeper<D, A, C>, id: u32) -> bool {
    store.slot(KeyId(id)).is_some()
}

// Whether a key is in memory after the exports of the keys from one on and up to another.
fn held_after<D: Disk, A: Devices, C: Admission>(
    store: &mut Keeper<D, A, C>,
    first: u32,
    last: u32,
    id: u32,
) -> Option<bool>
    requires few { last ≤ 2048 }
{
    export_each(store, first, last)?;
    Some(is_held(store, id))
}

// Whether a key is in memory after it was purged.
fn held_after_purge<D: Disk, A: Devices, C: Admission>(
    store: &mut Keeper<D, A, C>,
    id: u32,
) -> Option<bool> {
    store.purge(KeyId(id))?.ok()?;
    Some(is_held(store, id))
}

// Whether each key from one on and up to another is in memory, or whether none is.
fn are_held<D: Disk, A: Devices, C: Admission>(
    store: &Keeper<D, A, C>,
    first: u32,
    last: u32,
    held: bool,
) -> bool
    requires few { last ≤ 2048 }
{
    for id in first..last + 1 {
        if is_held(store, id) != held {
            return false;
        }
    }
    true
}

// Of the keys from 1 to 400, each exported in turn, whether the last 384 are in memory and the others aren't.
fn keeps_last<D: Disk, A: Devices, C: Admission>(store: &mut Keeper<D, A, C>) -> Option<bool> {
    export_each(store, 1, 400)?;
    Some(are_held(store, 1, 16, false) && are_held(store, 17, 400, true))
}

// What `watch` answers.
fn watch_keys<D: Disk, A: Devices, C: Admission>(store: &mut Keeper<D, A, C>) -> Option<[bool; 6]> {
    let opened = is_held(store, 1);
    let filled = held_after(store, 1, 384, 1)?;
    let evicted = held_after(store, 385, 385, 1)?;
    let other = held_after(store, 1, 1, 2)?;
    let purged = held_after_purge(store, 1)?;
    let last = keeps_last(store)?;
    Some([opened, filled, evicted, other, purged, last])
}

fn watched<A: Devices, C: Admission>(
    alloc: Global,
    disk: MemoryDisk,
    devices: A,
    rules: C,
) -> Option<[bool; 6]>
    requires { A.keys devices ≡ Some no_keys }
{
    let mut store = opened(alloc, disk, devices, rules)?;
    watch_keys(&mut store)
}

/// Of a full store, whether key 1 is in memory at first, after the exports of 384 keys from it on, and after one more; whether
/// key 2 is after key 1 was exported again; whether key 1 is after it was purged then; and whether the last 384 of the keys from
/// 1 to 400 are, and no other of these, after the exports of all in turn.
pub fn watch(alloc: Global, disk: MemoryDisk) -> Option<[bool; 6]> {
    let rules = Rules::pick(Vec::new(alloc), &[]);
    watched(alloc, disk, Drivers::new(Vec::new(alloc)), rules)
}

/// Opens the store of a disk without devices and rules, does this with it, and hands the disk back. How many keys it had to do
/// with. `None` where a call is refused.
pub fn do_task(alloc: Global, disk: MemoryDisk, task: Task) -> Option<(u32, MemoryDisk)> {
    let rules = Rules::pick(Vec::new(alloc), &[]);
    done(alloc, disk, task, Drivers::new(Vec::new(alloc)), rules)
}

/// The disk of a store of 2,048 keys.
pub fn full_disk(alloc: Global) -> Option<MemoryDisk> {
    let disk = MemoryDisk::new(alloc, Vec::new(alloc), Fails::From(u64::MAX)).ok()?;
    let (_made, disk) = do_task(alloc, disk, Task::Fill)?;
    Some(disk)
}
