// A full store file over a disk in memory, with which one thing is done again and again.
ghost use Rattle.std.specs.Prelude.{◌≡◌, ◌<◌, length, IfSome};
ghost use Rattle.key_cells.specs.Prelude.{store_size};

use crate::file_turns;
use crate::plain_disk::PlainDisk;
use key_cells::Cells;
use std::alloc::Global;

/// How many cells a store has.
const CELLS: u32 = 2048;

// A store of so many keys, of the identifiers from 1 on.
fn store_of(alloc: Global, keys: u32) -> Option<Cells<PlainDisk>>
    requires few { keys < 0x3fffffff }
    ensures { IfSome result (λ cells. length cells.disk.bytes.items ≡ store_size) }
{
    let Ok(mut cells) = file_turns::new_store(alloc) else {
        return None;
    };
    match file_turns::fill(&mut cells, keys) {
        Ok(()) => Some(cells),
        Err(_) => None,
    }
}

/// Makes or destroys one key more so often in a store of so many keys. `None` where there is no room for it.
pub fn change(alloc: Global, keys: &str, turns: &str) -> Option<usize> {
    let keys: u32 = keys.parse().ok()?;
    let turns: usize = turns.parse().ok()?;
    if keys >= CELLS {
        return None;
    }
    let mut cells = store_of(alloc, keys)?;
    match file_turns::change(&mut cells, keys + 1, turns) {
        Ok(()) => Some(cells.count()),
        Err(_) => None,
    }
}

/// Does one thing so often with a full store. `None` where there is no such call, or it is refused.
pub fn run(alloc: Global, call: &str, turns: &str) -> Option<usize> {
    let turns: usize = turns.parse().ok()?;
    let mut cells = store_of(alloc, CELLS)?;
    match call {
        "find" => file_turns::look(&cells, turns),
        "create" => {
            'creations: for _ in 0..turns {
                cells = store_of(alloc, CELLS)?;
            }
            cells.find(CELLS)
        }
        "open" => {
            'openings: for _ in 0..turns {
                cells = match Cells::open(alloc, cells.into_disk()) {
                    Ok(again) => again,
                    Err(_refused) => return None,
                };
            }
            cells.find(CELLS)
        }
        _ => None,
    }
}
