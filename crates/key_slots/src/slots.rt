//! The slots of the store's keys.
ghost use Rattle.std.specs.Prelude.{◌≡◌, ◌<◌, ◌≤◌, ◌-◌, ◌+◌, ◌^◌, ◌↔◌, ℕ, List, [], length, replicate, true, false, Some, None, IsTrue, IfOk, IfSome, IfNone, MatchOption};
ghost use Rattle.std.specs.FinMap as map;
ghost use Rattle.secret_bytes.specs.Buffer.{IsClear, bytes_of};
ghost use Rattle.slot_states.specs.declared.SlotState.TheVariants.{Full};
ghost use Rattle.slot_table.specs.{Slots.empty_slot, Slots.filling_slot, Slots.slot_at, Slots.holds_key, Slots.is_idle, Slots.is_last, Slots.NoKey, Slots.CanReserve, Slots.IsLawful, Changes.destroyed_slot, Changes.full_slot};
ghost use Rattle.store_model.specs.Prelude.{Key, Store, HasNumber, IsSoundStore};
ghost use Rattle.key_slots.specs.{Holdings.Pairs, Holdings.Gains, Holdings.named, Standing.Agrees, Standing.SlotHasKey, Standing.IsOut, Standing.IsThereOrNew, Standing.IsVolatileKey, Standing.Puts, Wiping.EndsOnly, Wiping.IsEmptyOrIdle, Wiping.IsFillingOf, Wiping.IsIdleOf, Wiping.IsLastOf, Wiping.IsTakenOf};

use key_attributes::{Attributes, KeyId};
use psa_status::Memory;
use secret_bytes::Secret;
use slot_table::{Filling, Lease, SlotTable};
use std::alloc::Global;

/// The slots of the keys that are in memory.
#[derive(Drop)]
pub struct KeySlots {
    pub table: SlotTable,
    pub ghost lawful: { IsLawful table },
}

impl KeySlots {
    /// Empty slots; `Memory` where there is no room for them.
    pub fn new(alloc: Global) -> Result<KeySlots, Memory>
        ensures { IfOk result (λ slots. slots.table.slots ≡ replicate 384 empty_slot) }
    {
        let table = SlotTable::new(alloc)?;
        Ok(KeySlots { table })
    }

    /// The slot of a key that is in memory. A volatile key is.
    pub fn find(&self, id: KeyId) -> Option<u32>
        ensures found { MatchOption result (NoKey id.0 self.now.table.slots) (λ i. holds_key id.0 (slot_at self.now.table.slots i) ≡ true) }
        ensures within { IfSome result (λ i. i < 384) }
        ensures full { IfSome result (λ i. (slot_at self.now.table.slots i).state ≡ Full) }
        ensures key { IfSome result (λ i. (store : Store) (all : List Pairs) → Agrees self.now.table.slots store all →
            (key : Key) × (map.get store.keys id.0 ≡ Some key) × SlotHasKey (slot_at self.now.table.slots i) key) }
        ensures none { IfNone result ((store : Store) (all : List Pairs) → Agrees self.now.table.slots store all → IsVolatileKey (map.get store.keys id.0) → ⊥) }
    {
        self.table.find(id)
    }

    /// The creation number of the key of a full slot.
    pub fn number(&self, slot: u32) -> u64
        requires { (slot_at self.now.table.slots slot).state ≡ Full }
        ensures { result ≡ (slot_at self.now.table.slots slot).creation }
    {
        self.table.creation(slot)
    }

    /// The attributes of the key of a full slot.
    pub fn attributes(&self, slot: u32) -> &Attributes
        requires { (slot_at self.now.table.slots slot).state ≡ Full }
        ensures { result.now ≡ (slot_at self.now.table.slots slot).attributes }
    {
        self.table.attributes(slot)
    }

    /// The bytes that a full slot has of its key.
    pub fn bytes(&self, slot: u32) -> &[u8]
        requires { (slot_at self.now.table.slots slot).state ≡ Full }
        ensures list { result.now ≡ bytes_of (slot_at self.now.table.slots slot).buffer }
        ensures short { length result.now ≤ 1024 }
    {
        self.table.bytes(slot)
    }

    /// Takes a slot for a key that is to come: one that is empty, or has a persistent key which nobody reads. It is wiped.
    pub fn reserve(&mut self) -> Filling
        requires { CanReserve self.old.table.slots }
        ensures gives { (store : Store) (all more : List Pairs) → Agrees self.old.table.slots store all → Gains all more (result.slot, 0) →
            Agrees self.new.table.slots store more }
        ensures fewer { (id : ℕ) → NoKey id self.old.table.slots → NoKey id self.new.table.slots }
        ensures wipes { EndsOnly self.old.table.slots self.new.table.slots (IsTakenOf result.slot) }
        ensures taken { IsEmptyOrIdle (slot_at self.old.table.slots result.slot) }
        ensures waiting { slot_at self.new.table.slots result.slot ≡ filling_slot }
    {
        self.table.reserve()
    }

    /// Gives up a slot that waits for its key.
    pub fn give_up(&mut self, filling: Filling)
        requires { IsOut self.old.table.slots (filling.slot, 0) }
        ensures takes { (store : Store) (all less : List Pairs) → Agrees self.old.table.slots store all → Gains less all (filling.slot, 0) →
            Agrees self.new.table.slots store less }
        ensures wipes { EndsOnly self.old.table.slots self.new.table.slots (IsFillingOf filling.slot) }
        ensures emptied { slot_at self.new.table.slots filling.slot ≡ empty_slot }
    {
        self.table.drop_filling(filling);
    }

    /// Puts a key into the slot that waits for it, and answers the slot. No slot has a key of its identifier.
    pub fn fill(
        &mut self,
        filling: Filling,
        number: u64,
        attributes: &Attributes,
        bytes: &[u8],
    ) -> u32
        requires out { IsOut self.old.table.slots (filling.slot, 0) }
        requires short { length bytes.now ≤ 1024 }
        requires unknown { NoKey attributes.now.id.0 self.old.table.slots }
        ensures slot { result ≡ filling.slot }
        ensures within { result < 384 }
        ensures filled { slot_at self.new.table.slots result ≡ full_slot number attributes.now bytes.now }
        ensures takes { (old new : Store) (all less : List Pairs) (key : Key) → Agrees self.old.table.slots old all → Gains less all (filling.slot, 0) →
            Puts old new attributes.now.id.0 (Some key) → SlotHasKey (full_slot number attributes.now bytes.now) key → IsThereOrNew old attributes.now.id.0 key →
            Agrees self.new.table.slots new less }
        ensures wipes { EndsOnly self.old.table.slots self.new.table.slots (IsFillingOf filling.slot) }
    {
        self.table.finish(filling, number, attributes, bytes)
    }

    /// Lends a copy of the bytes of a full slot's key, in a clear spare.
    pub fn lend(&mut self, slot: u32, spare: Secret) -> Lease
        requires full { (slot_at self.old.table.slots slot).state ≡ Full }
        requires few { (slot_at self.old.table.slots slot).readers < 2 ^ 32 - 1 }
        requires clear { IsClear spare }
        ensures lease { result ≡ record { slot = slot; creation = (slot_at self.old.table.slots slot).creation; buffer = (slot_at self.old.table.slots slot).buffer } }
        ensures gives { (store : Store) (all more : List Pairs) → Agrees self.old.table.slots store all → Gains all more (slot, result.creation + 1) →
            Agrees self.new.table.slots store more }
        ensures wipes { EndsOnly self.old.table.slots self.new.table.slots (λ i s. ⊥) }
    {
        self.table.register(slot, spare)
    }

    /// Takes a lease back, and answers the spare, which is clear. The last lease of a destroyed key empties its slot.
    pub fn take_back(&mut self, lease: Lease) -> Secret
        requires { IsOut self.old.table.slots (lease.slot, lease.creation + 1) }
        ensures clear { IsClear result }
        ensures takes { (store : Store) (all less : List Pairs) → Agrees self.old.table.slots store all → Gains less all (lease.slot, lease.creation + 1) →
            Agrees self.new.table.slots store less }
        ensures wipes { EndsOnly self.old.table.slots self.new.table.slots (IsLastOf lease.slot) }
        ensures emptied { is_last (slot_at self.old.table.slots lease.slot) ≡ true → slot_at self.new.table.slots lease.slot ≡ empty_slot }
    {
        self.table.leave(lease)
    }

    /// Whether the key that a lease reads is still there.
    pub fn is_alive(&self, lease: &Lease) -> bool
        requires { IsOut self.now.table.slots (lease.now.slot, lease.now.creation + 1) }
        ensures { (store : Store) (all : List Pairs) → Agrees self.now.table.slots store all → 0 < named lease.now.slot (lease.now.creation + 1) all →
            IsTrue result ↔ HasNumber store lease.now.creation }
    {
        self.table.is_alive(lease)
    }

    /// Forgets a key that was destroyed, whose slot this is, if it has one. Where it is read, the slot waits for its last reader.
    pub fn destroy(&mut self, id: KeyId, slot: Option<u32>)
        requires { MatchOption slot (NoKey id.0 self.old.table.slots) (λ i. holds_key id.0 (slot_at self.old.table.slots i) ≡ true) }
        ensures forgets { (old new : Store) (all : List Pairs) → Agrees self.old.table.slots old all → IsSoundStore old → Puts old new id.0 None → Agrees self.new.table.slots new all }
        ensures wipes { EndsOnly self.old.table.slots self.new.table.slots (λ i s. holds_key id.0 s ≡ true) }
        ensures ended { (i : ℕ) → holds_key id.0 (slot_at self.old.table.slots i) ≡ true → slot_at self.new.table.slots i ≡ destroyed_slot (slot_at self.old.table.slots i) }
    {
        if let Some(slot) = slot {
            self.table.mark(slot);
        }
    }

    /// Forgets the key of a slot, if it is in a file too and nobody reads it.
    pub fn purge(&mut self, id: KeyId, slot: u32)
        requires { holds_key id.0 (slot_at self.old.table.slots slot) ≡ true }
        ensures stays { (store : Store) (all : List Pairs) → Agrees self.old.table.slots store all → Agrees self.new.table.slots store all }
        ensures wiped { (i : ℕ) → holds_key id.0 (slot_at self.new.table.slots i) ≡ true → is_idle (slot_at self.new.table.slots i) ≡ false }
        ensures others { (i : ℕ) → holds_key id.0 (slot_at self.old.table.slots i) ≡ false → slot_at self.new.table.slots i ≡ slot_at self.old.table.slots i }
        ensures wipes { EndsOnly self.old.table.slots self.new.table.slots (λ i s. IsIdleOf id.0 s) }
        ensures emptied { (i : ℕ) → IsIdleOf id.0 (slot_at self.old.table.slots i) → slot_at self.new.table.slots i ≡ empty_slot }
    {
        self.table.purge(slot);
    }

    /// Whether a slot can be taken.
    pub fn can_reserve(&self) -> bool
        ensures { IsTrue result ↔ CanReserve self.now.table.slots }
    {
        self.table.can_reserve()
    }
}
