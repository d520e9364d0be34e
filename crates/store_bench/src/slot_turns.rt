// Calls of a full slot table, again and again.
ghost use Rattle.std.specs.Prelude.{◌≡◌};
ghost use Rattle.secret_bytes.specs.Buffer.{IsClear};
ghost use Rattle.store_bench.specs.Readers.{AllUnread};

use crate::slot_keys::{fill, new_table, read_once};
use key_attributes::KeyId;
use secret_bytes::Secret;
use slot_table::SlotTable;
use std::alloc::Global;

// Looks for the last two of 384 keys in turn. `None` where one isn't there.
fn look(table: &SlotTable, turns: usize) -> Option<u32> {
    let mut last = 0;
    'looks: for turn in 0..turns {
        last = table.find(KeyId(384 - (turn & 1) as u32))?;
    }
    Some(last)
}

// Takes and gives back a lease of the key that was used last.
fn read_last(table: &mut SlotTable, spare: Secret, turns: usize)
    requires unread { AllUnread table.old.slots }
    requires clear { IsClear spare }
{
    let mut spare = spare;
    if let Some(slot) = table.find(KeyId(384)) {
        'reads: for _ in 0..turns {
            let next = read_once(table, slot, spare);
            spare = next;
        }
    }
}

// Looks for the key that was used longest ago, and takes and gives back a lease of it.
fn read_oldest(table: &mut SlotTable, spare: Secret, turns: usize)
    requires unread { AllUnread table.old.slots }
    requires clear { IsClear spare }
{
    let mut spare = spare;
    'reads: for turn in 0..turns {
        if let Some(slot) = table.find(KeyId((turn % 384) as u32 + 1)) {
            let next = read_once(table, slot, spare);
            spare = next;
        }
    }
}

/// Makes a call on a table of 384 keys so often. `None` where there is no such call, or no memory.
pub fn run(alloc: Global, call: &str, turns: &str) -> Option<u32> {
    let turns: usize = turns.parse().ok()?;
    let mut table = new_table(alloc).ok()?;
    let spare = Secret::new(alloc).ok()?;
    let filled = fill(&mut table, 384);
    match call {
        "find" => look(&table, turns),
        "lease" => {
            read_last(&mut table, spare, turns);
            Some(filled)
        }
        "oldest" => {
            read_oldest(&mut table, spare, turns);
            Some(filled)
        }
        _ => None,
    }
}
