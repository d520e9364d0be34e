//! The table of slots.
ghost use Rattle.std.specs.{Prelude.◌≡◌, Prelude.◌<◌, Prelude.◌≤◌, Prelude.◌-◌, Prelude.◌+◌, Prelude.◌^◌, Prelude.◌↔◌, Prelude.[], Prelude.◌∷◌, Prelude.◌++◌, Prelude.length, Prelude.find, Prelude.slice_set, Prelude.replicate, Prelude.true, Prelude.false, Prelude.IsTrue, Prelude.IfOk, Prelude.MatchOption, Bool.OnTrue, Bool.OnFalse};
ghost use Rattle.secret_bytes.specs.Buffer.{IsClear, bytes_of};
ghost use Rattle.slot_states.specs.declared.SlotState.TheVariants.{Full};
ghost use Rattle.slot_table.specs.{Slots.empty_slot, Slots.filling_slot, Slots.slot_at, Slots.is_full, Slots.holds_key, Slots.is_idle, Slots.NoKey, Slots.NoneEmpty, Slots.IsEmptyAt, Slots.CanReserve, Slots.IsNext, Slots.IsLawful, Changes.full_slot, Changes.registered, Changes.left, Changes.destroyed_slot, Changes.recency_without};
ghost use Rattle.key_index.specs.Index.{AreHalvings};

use crate::lent::{Filling, Lease};
use crate::recency::Recency;
pub use crate::rows::SLOTS;
use crate::rows::SlotRows;
use key_attributes::{Attributes, KeyId};
use key_index::{KeyIndex, Steps};
use psa_status::Memory;
use secret_bytes::Secret;
use slot_states::SlotState;
use std::alloc::Global;
use std::marker::Model;
use std::sync::ledger::Ledger;

/// The slots of the key store, by number, with the order in which the full ones were registered or filled.
#[derive(Drop)]
pub struct SlotTable {
    rows: SlotRows,
    recency: Recency,
    index: Box<KeyIndex<SLOTS>>,
}

impl Model for SlotTable {
    ghost use Rattle.slot_table.specs.Slots.{Table};
    ghost use Rattle.slot_table.specs.Index.{IsIndexed};

    ghost Value = { Table };

    ghost view = { λ t. record { slots = t.rows; recency = t.recency } };

    ghost invariant = { λ t. IsIndexed (record { slots = t.rows; recency = t.recency }) t.index.value };
}

impl SlotTable {
    /// 384 empty slots; `Memory` where there is no room for them.
    pub fn new(alloc: Global) -> Result<SlotTable, Memory>
        ensures value { IfOk result (λ table. table ≡ record { slots = replicate 384 empty_slot; recency = [] }) }
        ensures lawful { IfOk result (λ table. IsLawful table) }
    {
        let rows = SlotRows::new(alloc)?;
        let recency = Recency::new(alloc)?;
        let Ok(index) = Box::new(alloc, KeyIndex::new()) else {
            return Err(Memory);
        };
        Ok(SlotTable {
            rows,
            recency,
            index,
        })
    }

    /// The slot that has the key of this identifier, if there is one.
    pub fn find(&self, id: KeyId) -> Option<u32>
        ensures found { MatchOption result (NoKey id.0 self.now.slots) (λ i. holds_key id.0 (slot_at self.now.slots i) ≡ true) }
        ensures lawful { IsLawful self.now }
    {
        self.index.find(id.0)
    }

    /// The same, with each comparison of a full slot's identifier as a step. They are as few as a search by halves takes.
    pub fn find_counted<L: Ledger>(&self, id: KeyId, steps: &mut Steps<L>) -> Option<u32>
        ensures found { MatchOption result (NoKey id.0 self.now.slots) (λ i. holds_key id.0 (slot_at self.now.slots i) ≡ true) }
        ensures steps { AreHalvings (length self.now.recency) steps.old steps.new }
        ensures lawful { IsLawful self.now }
    {
        self.index.find_counted(id.0, steps)
    }

    /// The creation number of the key of a full slot.
    pub fn creation(&self, slot: u32) -> u64
        requires { (slot_at self.now.slots slot).state ≡ Full }
        ensures { result ≡ (slot_at self.now.slots slot).creation }
    {
        self.rows.key(slot).creation
    }

    /// The attributes of the key of a full slot.
    pub fn attributes(&self, slot: u32) -> &Attributes
        requires { (slot_at self.now.slots slot).state ≡ Full }
        ensures { result.now ≡ (slot_at self.now.slots slot).attributes }
    {
        &self.rows.key(slot).attributes
    }

    /// The bytes of the key of a full slot.
    pub fn bytes(&self, slot: u32) -> &[u8]
        requires { (slot_at self.now.slots slot).state ≡ Full }
        ensures list { result.now ≡ bytes_of (slot_at self.now.slots slot).buffer }
        ensures short { length result.now ≤ 1024 }
    {
        self.rows.key(slot).buffer.as_slice()
    }

    /// Whether a slot is empty, or has a persistent key that nobody reads.
    pub fn can_reserve(&self) -> bool
        ensures room { IsTrue result ↔ CanReserve self.now.slots }
        ensures lawful { IsLawful self.now }
    {
        self.rows.find_empty().is_some() || self.oldest_idle().is_some()
    }

    /// Takes a slot for a key that is being made: an empty one, and where there is none the least recently used that has a
    /// persistent key which nobody reads. That key is wiped.
    pub fn reserve(&mut self) -> Filling
        requires { CanReserve self.old.slots }
        ensures next { IsNext self.old result.slot }
        ensures slots { self.new.slots ≡ slice_set self.old.slots result.slot filling_slot }
        ensures recency { self.new.recency ≡ recency_without result.slot self.old.recency }
        ensures waiting { slot_at self.new.slots result.slot ≡ filling_slot }
        ensures lawful { IsLawful self.new }
    {
        if let Some(slot) = self.rows.find_empty() {
            self.rows.look_from(slot);
            return self.begin(slot);
        }
        let slot = self.evict();
        self.begin(slot)
    }

    /// Puts a new key into the slot that waits for it, and answers the slot. No slot has a key of its identifier.
    pub fn finish(
        &mut self,
        filling: Filling,
        creation: u64,
        attributes: &Attributes,
        bytes: &[u8],
    ) -> u32
        requires filling { (slot_at self.old.slots filling.slot).state ≡ SlotState.Filling }
        requires short { length bytes.now ≤ 1024 }
        requires unknown { NoKey attributes.now.id.0 self.old.slots }
        ensures slot { result ≡ filling.slot }
        ensures slots { self.new.slots ≡ slice_set self.old.slots filling.slot (full_slot creation attributes.now bytes.now) }
        ensures recency { self.new.recency ≡ self.old.recency ++ filling.slot ∷ [] }
        ensures lawful { IsLawful self.new }
    {
        let Filling { slot } = filling;
        self.rows.fill(slot, creation, attributes, bytes);
        self.recency.push(slot);
        self.index.insert(attributes.id.0, slot);
        slot
    }

    /// Gives up a slot that waits for its key: it is empty.
    pub fn drop_filling(&mut self, filling: Filling)
        requires { (slot_at self.old.slots filling.slot).state ≡ SlotState.Filling }
        ensures slots { self.new.slots ≡ slice_set self.old.slots filling.slot empty_slot }
        ensures recency { self.new.recency ≡ self.old.recency }
        ensures lawful { IsLawful self.new }
    {
        let Filling { slot } = filling;
        self.rows.wipe(slot);
    }

    /// Reads the key of a full slot, into a clear spare. The slot is now the most recently used.
    pub fn register(&mut self, slot: u32, spare: Secret) -> Lease
        requires full { (slot_at self.old.slots slot).state ≡ Full }
        requires few { (slot_at self.old.slots slot).readers < 2 ^ 32 - 1 }
        requires clear { IsClear spare }
        ensures lease { result ≡ record { slot = slot; creation = (slot_at self.old.slots slot).creation; buffer = (slot_at self.old.slots slot).buffer } }
        ensures slots { self.new.slots ≡ slice_set self.old.slots slot (registered (slot_at self.old.slots slot)) }
        ensures recency { self.new.recency ≡ recency_without slot self.old.recency ++ slot ∷ [] }
        ensures lawful { IsLawful self.new }
    {
        let mut bytes = spare;
        let key = self.rows.key(slot);
        let creation = key.creation;
        bytes.fill_from(key.buffer.as_slice());
        self.rows.register(slot);
        self.recency.refresh(slot);
        Lease {
            slot,
            creation,
            bytes,
        }
    }

    /// Ends a reading, and answers the spare, which is clear. The last reader of a destroyed key empties its slot.
    pub fn leave(&mut self, lease: Lease) -> Secret
        requires read { 0 < (slot_at self.old.slots lease.slot).readers }
        requires creation { (slot_at self.old.slots lease.slot).creation ≡ lease.creation }
        ensures clear { IsClear result }
        ensures slots { self.new.slots ≡ slice_set self.old.slots lease.slot (left (slot_at self.old.slots lease.slot)) }
        ensures recency { self.new.recency ≡ self.old.recency }
        ensures lawful { IsLawful self.new }
    {
        let Lease {
            slot,
            creation: _,
            mut bytes,
        } = lease;
        bytes.wipe();
        self.release(slot);
        bytes
    }

    /// Destroys the key of a full slot: the slot is pending where it is read, and empty where it isn't.
    pub fn mark(&mut self, slot: u32)
        requires { (slot_at self.old.slots slot).state ≡ Full }
        ensures slots { self.new.slots ≡ slice_set self.old.slots slot (destroyed_slot (slot_at self.old.slots slot)) }
        ensures recency { self.new.recency ≡ recency_without slot self.old.recency }
        ensures lawful { IsLawful self.new }
    {
        if self.rows.key(slot).readers == 0 {
            self.discard(slot);
        } else {
            self.hold(slot);
        }
    }

    /// Empties a slot that has a persistent key which nobody reads, and answers whether it is one.
    pub fn purge(&mut self, slot: u32) -> bool
        ensures result { result ≡ is_idle (slot_at self.old.slots slot) }
        ensures slots { OnTrue result (self.new.slots ≡ slice_set self.old.slots slot empty_slot) }
        ensures recency { OnTrue result (self.new.recency ≡ recency_without slot self.old.recency) }
        ensures other { OnFalse result (self.new ≡ self.old) }
        ensures lawful { IsLawful self.new }
    {
        if !self.rows.is_idle(slot) {
            return false;
        }
        self.discard(slot);
        true
    }

    /// Whether the key that a lease reads hasn't been destroyed.
    pub fn is_alive(&self, lease: &Lease) -> bool
        requires read { 0 < (slot_at self.now.slots lease.now.slot).readers }
        requires creation { (slot_at self.now.slots lease.now.slot).creation ≡ lease.now.creation }
        ensures { result ≡ is_full (slot_at self.now.slots lease.now.slot).state }
    {
        self.rows.head(lease.slot).is_full()
    }

    // The least recently used slot that has a persistent key which nobody reads.
    fn oldest_idle(&self) -> Option<u32>
        ensures first { result ≡ find (λ i. is_idle (slot_at self.now.slots i)) self.now.recency }
        ensures lawful { IsLawful self.now }
    {
        self.recency.oldest_idle(&self.rows)
    }

    // Makes an empty slot wait for its key.
    fn begin(&mut self, slot: u32) -> Filling
        requires { IsEmptyAt self.old.slots slot }
        ensures slot { result.slot ≡ slot }
        ensures slots { self.new.slots ≡ slice_set self.old.slots slot filling_slot }
        ensures recency { self.new.recency ≡ self.old.recency }
        ensures waiting { slot_at self.new.slots slot ≡ filling_slot }
        ensures lawful { IsLawful self.new }
    {
        self.rows.change(slot, SlotState::Filling);
        Filling { slot }
    }

    // Empties the least recently used slot that has a persistent key which nobody reads.
    fn evict(&mut self) -> u32
        requires some { CanReserve self.old.slots }
        requires full { NoneEmpty self.old.slots }
        ensures first { find (λ i. is_idle (slot_at self.old.slots i)) self.old.recency ≡ Some result }
        ensures slots { self.new.slots ≡ slice_set self.old.slots result empty_slot }
        ensures recency { self.new.recency ≡ recency_without result self.old.recency }
    {
        let oldest = self.oldest_idle().unwrap();
        self.discard(oldest);
        oldest
    }

    // Empties a full slot that nobody reads.
    fn discard(&mut self, slot: u32)
        requires full { (slot_at self.old.slots slot).state ≡ Full }
        requires unread { (slot_at self.old.slots slot).readers ≡ 0 }
        ensures slots { self.new.slots ≡ slice_set self.old.slots slot empty_slot }
        ensures recency { self.new.recency ≡ recency_without slot self.old.recency }
        ensures lawful { IsLawful self.new }
    {
        let id = self.rows.key(slot).attributes.id.0;
        self.index.remove(id, slot);
        self.recency.forget(slot);
        self.rows.wipe(slot);
    }

    // Makes a full slot that is read wait for its last reader.
    fn hold(&mut self, slot: u32)
        requires full { (slot_at self.old.slots slot).state ≡ Full }
        requires read { 0 < (slot_at self.old.slots slot).readers }
        ensures slots { self.new.slots ≡ slice_set self.old.slots slot (destroyed_slot (slot_at self.old.slots slot)) }
        ensures recency { self.new.recency ≡ recency_without slot self.old.recency }
        ensures lawful { IsLawful self.new }
    {
        let id = self.rows.key(slot).attributes.id.0;
        self.index.remove(id, slot);
        self.recency.forget(slot);
        self.rows.change(slot, SlotState::Pending);
    }

    // One reader less. The last one empties a pending slot.
    fn release(&mut self, slot: u32)
        requires { 0 < (slot_at self.old.slots slot).readers }
        ensures slots { self.new.slots ≡ slice_set self.old.slots slot (left (slot_at self.old.slots slot)) }
        ensures recency { self.new.recency ≡ self.old.recency }
        ensures lawful { IsLawful self.new }
    {
        if self.rows.is_last(slot) {
            self.rows.wipe(slot);
        } else {
            self.rows.unregister(slot);
        }
    }
}
