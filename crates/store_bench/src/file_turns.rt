// What is done again and again.
ghost use Rattle.std.specs.Prelude.{◌≡◌, ◌<◌, ◌≤◌, ◌∷◌, [], ℕ, length, IfOk};
ghost use Rattle.key_cells.specs.Prelude.{IsKeyOf, cell_count, store_size};

use crate::plain_disk::PlainDisk;
use key_attributes::{Attributes, KeyId, KeyType, Lifetime, Policy, Usage};
use key_cells::{CellFault, Cells, OpenFault};
use std::alloc::Global;

/// The attributes of a key of one byte that may be exported.
pub fn one_byte_key(id: u32) -> Attributes
    requires some { 1 ≤ id }
    requires persistent { id ≤ 0x3fffffff }
    ensures { (byte : ℕ) → IsKeyOf result (byte ∷ []) }
{
    Attributes {
        lifetime: Lifetime(1),
        id: KeyId(id),
        key_type: KeyType::RAW_DATA,
        bits: 8,
        policy: Policy {
            usage: Usage::EXPORT,
            ..Policy::NOTHING
        },
    }
}

/// A new store.
pub fn new_store(alloc: Global) -> Result<Cells<PlainDisk>, OpenFault>
    ensures size { IfOk result (λ cells. length cells.disk.bytes.items ≡ store_size) }
    ensures slots { IfOk result (λ cells. length cells.states ≡ cell_count) }
{
    match Cells::open(alloc, PlainDisk::new(alloc)) {
        Ok(cells) => Ok(cells),
        Err((_disk, fault)) => Err(fault),
    }
}

/// Makes keys of the identifiers from 1 to a last one.
pub fn fill(cells: &mut Cells<PlainDisk>, last: u32) -> Result<(), CellFault>
    requires last { last < 0x3fffffff }
    requires size { length cells.old.disk.bytes.items ≡ store_size }
    requires slots { length cells.old.states ≡ cell_count }
    ensures size { length cells.new.disk.bytes.items ≡ store_size }
    ensures slots { length cells.new.states ≡ cell_count }
{
    for id in 1..last + 1 {
        let key = one_byte_key(id);
        // a creation asks that no cell has the identifier
        match cells.find(key.id.0) {
            Some(_cell) => {}
            None => {
                cells.create(0, &key, &[0xa5])?;
            }
        }
    }
    Ok(())
}

/// Makes and destroys so often a key of an identifier that no key has. Which cell it has is looked for.
pub fn change(cells: &mut Cells<PlainDisk>, id: u32, turns: usize) -> Result<(), CellFault>
    requires some { 1 ≤ id }
    requires persistent { id ≤ 0x3fffffff }
    requires size { length cells.old.disk.bytes.items ≡ store_size }
    requires slots { length cells.old.states ≡ cell_count }
    ensures size { length cells.new.disk.bytes.items ≡ store_size }
    ensures slots { length cells.new.states ≡ cell_count }
{
    let key = one_byte_key(id);
    'changes: for _ in 0..turns {
        match cells.find(key.id.0) {
            Some(cell) => cells.destroy(cell)?,
            None => {
                cells.create(0, &key, &[0xa5])?;
            }
        }
    }
    Ok(())
}

/// Looks for the last two of 2,048 keys in turn. Which of them comes next hangs on what was found, so that no look can be
/// left out.
pub fn look(cells: &Cells<PlainDisk>, turns: usize) -> Option<usize> {
    let mut last = cells.find(2048);
    'looks: for _ in 0..turns {
        let id = match last {
            Some(cell) => 2048 - (cell & 1) as u32,
            None => 2048,
        };
        last = cells.find(id);
    }
    last
}
