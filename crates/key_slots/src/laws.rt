// Laws of slots that stand for keys, as the contracts of functions that do nothing.
ghost use Rattle.std.specs.Prelude.{◌≤◌, ◌<◌, ℕ, List, [], replicate};
ghost use Rattle.slot_table.specs.Slots.{Slot, CanReserve, IsLawful, Table, empty_slot, slot_at};
ghost use Rattle.store_model.specs.Prelude.{Store, IsSoundStore};
ghost use Rattle.key_slots.specs.{Holdings.Pairs, Holdings.AreHoldings, Standing.Agrees, Standing.HasSameKeys, Standing.IsVolatileKey};
ghost use Rattle.std.specs.FinMap as map;

/// A slot is always found: of 384, the keys of sixteen callers bind at most 256, their fillings 16, and their leases 80.
pub fn a_slot_is_always_found()
    ensures { (table : Table) (store : Store) (all : List Pairs) → IsLawful table → Agrees table.slots store all → AreHoldings all → IsSoundStore store →
        CanReserve table.slots }
{}

/// A slot has no more readers than sixteen callers have leases.
pub fn few_read_a_slot()
    ensures { (slots : List Slot) (store : Store) (all : List Pairs) (i : ℕ) → Agrees slots store all → AreHoldings all → i < 384 →
        (slot_at slots i).readers ≤ 80 }
{}

/// Slots that stand for a store stand for each one with the same keys.
pub fn keys_stay()
    ensures { (slots : List Slot) (old new : Store) (all : List Pairs) → Agrees slots old all → HasSameKeys old new → Agrees slots new all }
{}

/// Empty slots stand for a store without volatile keys, and for callers that have nothing out.
pub fn nothing_out_of_new_slots()
    ensures { (store : Store) (callers : ℕ) → ((id : ℕ) → IsVolatileKey (map.get store.keys id) → ⊥) →
        Agrees (replicate 384 empty_slot) store (replicate callers []) }
{}
