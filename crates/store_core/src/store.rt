//! The store.
use admission::Admission;
use disk_face::Disk;
use driver_dispatch::Devices;
use key_slots::KeySlots;
use persistent_keys::KeyFile;
use secret_bytes::Secret;
use std::snapshot::Snapshot;
use store_model::Limits;

/// Keys in slots, in a file and in a device, under rules.
#[derive(Drop)]
pub struct Store<D: Disk, A: Devices, C: Admission> {
    pub slots: KeySlots,
    /// How many ranked turns there were. It stands beside what each turn reads of the slots.
    pub ranked: u64,
    pub file: KeyFile<D>,
    pub devices: A,
    pub rules: C,
    /// How many persistent keys it takes.
    pub limits: Limits,
    /// How many volatile keys each caller has made, by its number.
    pub made: [u32; 17],
    /// How many volatile keys of each caller are alive, by its number.
    pub live: [u8; 17],
    /// How many persistent keys there are.
    pub kept: u32,
    /// How many keys were found at the opening.
    pub found: u64,
    /// Where a key is read from the file. Clear between turns.
    pub buffer: Secret,
    /// What the opening saw.
    pub opened: Opened<D, A, C>,
}

/// The file, the devices, the rules and the limits as the opening left them, and the seed of the callers' random words. It has
/// no bytes at run time.
#[derive(Drop)]
pub struct Opened<D: Disk, A: Devices, C: Admission> {
    pub file: Snapshot<KeyFile<D>>,
    pub devices: Snapshot<A>,
    pub rules: Snapshot<C>,
    pub limits: Snapshot<Limits>,
    pub seed: Snapshot<[u8; 32]>,
}
