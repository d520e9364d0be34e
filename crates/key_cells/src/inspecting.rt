// The keys of an image of a store file, without a disk.
ghost use Rattle.std.specs.Prelude.{◌≡◌, ◌≤◌, ◌<◌, ◌↔◌, ◌⊎◌, ◌+◌, ◌*◌, List, ℕ, length, IfOk, IfErr, OnOk, IsErrOf, MatchOption};
ghost use Rattle.key_cells.specs.{Image.IsStoreFile, Image.IsStoreOf, Image.Opens, Image.IsFirstDamaged, Layout.cell_count, Layout.cells_of, Layout.part, Layout.place, Opening.ReadsKey, Inspected.AreKeysOf, Inspected.IsInspectFaultOf, Inspected.KeepsKey, declared.inspecting.InspectFault.TheVariants.DamagedCell};
ghost use Rattle.secret_bytes.specs.Buffer.{bytes_of};

use crate::cells::place;
use crate::directory::Directory;
use crate::layout::{Layout, read_layout};
use crate::reading::{CellRead, cell_at, decode};
use key_attributes::Attributes;
use psa_status::Memory;
use secret_bytes::Secret;
use std::alloc::Global;

/// A key of an image.
#[derive(Drop)]
pub struct FoundKey {
    pub attributes: Attributes,
    pub bytes: Secret,
}

/// Why an image's keys aren't given.
#[derive(Clone, Copy, Debug, PartialEq, Eq, Drop)]
pub enum InspectFault {
    NotAStore,
    DamagedCell { cell: usize },
    Memory,
}

impl From<Memory> for InspectFault {
    ghost use Rattle.key_cells.specs.declared.inspecting.InspectFault.TheVariants.{Memory};

    ghost from_gives = { λ _ fault. fault ≡ Memory };

    fn from(_memory: Memory) -> InspectFault {
        InspectFault::Memory
    }
}

// The layout of an image; none where it is no store's.
fn layout_in(image: &[u8]) -> Option<Layout>
    ensures { MatchOption result (IsStoreFile image.now → ⊥) (λ layout. IsStoreOf layout image.now) }
{
    if image.len() < 64 {
        return None;
    }
    read_layout(&head_of(image), image.len() as u64)
}

// Its header.
fn head_of(image: &[u8]) -> [u8; 64]
    requires { 64 ≤ length image.now }
    ensures { result ≡ part 0 64 image.now }
{
    let mut head = [0; 64];
    head.copy_from_slice(&image[..64]);
    head
}

// The key with these attributes and bytes.
fn found_key(alloc: Global, attributes: Attributes, bytes: &[u8]) -> Result<FoundKey, Memory>
    requires { length bytes.now ≤ 1024 }
    ensures { IfOk result (λ key. (key.attributes ≡ attributes) × (bytes_of key.bytes ≡ bytes.now)) }
{
    let mut secret = Secret::new(alloc)?;
    secret.fill_from(bytes);
    Ok(FoundKey {
        attributes,
        bytes: secret,
    })
}

// Puts the key that was read of a cell behind the others.
fn keep_key(
    alloc: Global,
    keys: &mut Vec<FoundKey>,
    room: &[u8; 1088],
    read: &CellRead,
) -> Result<(), Memory>
    requires { ReadsKey read.now.key room.now }
    ensures { OnOk result (KeepsKey read.now.key room.now keys.old.items keys.new.items) }
{
    let Some((attributes, end)) = read.key else {
        return Ok(());
    };
    let key = found_key(alloc, attributes, &room[52..end])?;
    match keys.push(key) {
        Ok(()) => Ok(()),
        Err(_) => Err(Memory),
    }
}

/// The keys of an image, in the order of their cells. `NotAStore` exactly where its length or header is no store's; else
/// `DamagedCell` names its first damaged cell, or all keys are given, but for `Memory`. What isn't given is wiped.
pub fn inspect(alloc: Global, image: &[u8]) -> Result<Vec<FoundKey>, InspectFault>
    ensures opens { OnOk result (Opens image.now) }
    ensures keys { IfOk result (λ keys. AreKeysOf keys.items image.now) }
    ensures fault { IfErr result (λ fault. IsInspectFaultOf fault image.now) }
    ensures opened { Opens image.now → IfErr result (λ fault. fault ≡ InspectFault.Memory) }
    ensures no_store { (IsStoreFile image.now → ⊥) → IsErrOf result InspectFault.NotAStore }
    ensures damaged { (cell : ℕ) → IsFirstDamaged image.now cell → IsErrOf result (DamagedCell cell) ⊎ IsErrOf result InspectFault.Memory }
{
    let Some(layout) = layout_in(image) else {
        return Err(InspectFault::NotAStore);
    };
    read_keys(alloc, image, layout.cells())
}

// The keys of a store's image.
fn read_keys(alloc: Global, image: &[u8], cells: usize) -> Result<Vec<FoundKey>, InspectFault>
    requires store { IsStoreFile image.now }
    requires cells { cells ≡ cells_of image.now }
    requires few { cells ≤ cell_count }
    requires fits { place cells ≤ length image.now }
    ensures opens { OnOk result (Opens image.now) }
    ensures keys { IfOk result (λ keys. AreKeysOf keys.items image.now) }
    ensures fault { IfErr result (λ fault. IsInspectFaultOf fault image.now) }
    ensures store { IsErrOf result InspectFault.NotAStore → ⊥ }
{
    let mut states = Directory::new(alloc)?;
    let mut keys = Vec::new(alloc);
    for cell in 0..cells {
        let room = cell_at(image, place(cell) as usize);
        let Some(read) = decode(room, &states, keys.len() as u64) else {
            return Err(InspectFault::DamagedCell { cell });
        };
        keep_key(alloc, &mut keys, room, &read)?;
        states.note(cell, read.state);
    }
    Ok(keys)
}
