// Keys in a slot table.
ghost use Rattle.std.specs.Prelude.{◌≡◌, ◌≤◌, IfOk};
ghost use Rattle.secret_bytes.specs.Buffer.{IsClear};
ghost use Rattle.slot_states.specs.declared.SlotState.TheVariants.{Full};
ghost use Rattle.slot_table.specs.Slots.{slot_at};
ghost use Rattle.store_bench.specs.Readers.{AllUnread};

use key_attributes::{Attributes, KeyId, KeyType, Lifetime, Policy, Usage};
use psa_status::Memory;
use secret_bytes::Secret;
use slot_table::SlotTable;
use std::alloc::Global;

/// A table of empty slots.
pub fn new_table(alloc: Global) -> Result<SlotTable, Memory>
    ensures { IfOk result (λ table. AllUnread table.slots) }
{
    SlotTable::new(alloc)
}

// Puts a volatile key of 32 bytes into a table, and answers whether it could: where a slot can be reserved, and none has the
// key's identifier.
fn import(table: &mut SlotTable, id: u32) -> bool
    requires { AllUnread table.old.slots }
    ensures { AllUnread table.new.slots }
{
    let attributes = Attributes {
        lifetime: Lifetime(0),
        id: KeyId(id),
        key_type: KeyType::RAW_DATA,
        bits: 256,
        policy: Policy {
            usage: Usage::EXPORT,
            ..Policy::NOTHING
        },
    };
    if !table.can_reserve() {
        return false;
    }
    let filling = table.reserve();
    match table.find(attributes.id) {
        Some(_) => {
            table.drop_filling(filling);
            false
        }
        None => {
            table.finish(filling, u64::from(id), &attributes, &[0xa5; 32]);
            true
        }
    }
}

/// Puts keys of the identifiers 1 to a last one into a table, and answers how many it took.
pub fn fill(table: &mut SlotTable, last: u32) -> u32
    requires few { last ≤ 1000 }
    requires unread { AllUnread table.old.slots }
    ensures taken { result ≤ last }
    ensures unread { AllUnread table.new.slots }
{
    let mut taken = 0;
    for id in 1..last + 1 {
        if import(table, id) {
            taken += 1;
        }
    }
    taken
}

/// Reads the key of a slot, and gives it back.
pub fn read_once(table: &mut SlotTable, slot: u32, spare: Secret) -> Secret
    requires full { (slot_at table.old.slots slot).state ≡ Full }
    requires unread { (slot_at table.old.slots slot).readers ≡ 0 }
    requires clear { IsClear spare }
    ensures clear { IsClear result }
    ensures slots { table.new.slots ≡ table.old.slots }
{
    let lease = table.register(slot, spare);
    table.leave(lease)
}
