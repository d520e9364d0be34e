//! The slots of a table, in two rows: their states, and the keys with their readers.
ghost use Rattle.std.specs.Prelude.{◌≡◌, ◌<◌, ◌≤◌, ◌-◌, ◌+◌, ◌^◌, length, slice_set, replicate, true, IfOk, IfSome, MatchOption};
ghost use Rattle.slot_states.specs.{Changes.may_change, declared.SlotState.TheVariants.Empty, declared.SlotState.TheVariants.Full};
ghost use Rattle.slot_table.specs.{Slots.empty_slot, Slots.slot_at, Slots.is_idle, Slots.is_last, Slots.NoneEmpty, Slots.IsEmptyAt, Slots.IsNoneEmptyBefore, Changes.full_slot, Changes.registered, Rows.no_key};

use crate::place::{Head, Stored, is_idle, is_last};
use key_attributes::Attributes;
use psa_status::Memory;
use slot_states::SlotState;
use std::alloc::Global;
use std::marker::Model;

/// How many slots a table has.
pub const SLOTS: usize = 384;

/// The slots.
#[derive(Drop)]
pub struct SlotRows {
    heads: Vec<Head>,
    keys: Vec<Stored>,
    // No slot before this one is empty.
    first: usize,
}

impl Model for SlotRows {
    ghost use Rattle.std.specs.Prelude.{List};
    ghost use Rattle.slot_table.specs.Slots.{Slot};
    ghost use Rattle.slot_table.specs.Rows.{slots_of, AreRows};

    ghost Value = { List Slot };

    ghost view = { λ r. slots_of r.heads.items r.keys.items };

    ghost invariant = { λ r. AreRows r.heads.items r.keys.items r.first };
}

impl SlotRows {
    /// Empty slots; `Memory` where there is no room for them.
    pub fn new(alloc: Global) -> Result<SlotRows, Memory>
        ensures { IfOk result (λ rows. rows ≡ replicate 384 empty_slot) }
    {
        let Ok(heads) = Vec::from_elem(alloc, Head::empty(), SLOTS) else {
            return Err(Memory);
        };
        let keys = no_keys(alloc)?;
        Ok(SlotRows {
            heads,
            keys,
            first: 0,
        })
    }

    /// The first empty slot.
    pub fn find_empty(&self) -> Option<u32>
        ensures found { MatchOption result (NoneEmpty self.now) (λ i. IsEmptyAt self.now i) }
        ensures before { IfSome result (λ i. IsNoneEmptyBefore self.now i) }
    {
        for i in self.first..self.heads.len() {
            if self.heads[i].is_empty() {
                return Some(i as u32);
            }
        }
        None
    }

    /// Has looks for an empty slot begin at one before which there is none.
    pub fn look_from(&mut self, slot: u32)
        requires { IsNoneEmptyBefore self.old slot }
        ensures { self.new ≡ self.old }
    {
        self.first = slot as usize;
    }

    /// Whether a slot has a persistent key that nobody reads.
    pub fn is_idle(&self, slot: u32) -> bool
        ensures { result ≡ is_idle (slot_at self.now slot) }
    {
        let place = slot as usize;
        if place >= self.heads.len() {
            return false;
        }
        is_idle(&self.heads[place], &self.keys[place])
    }

    /// Whether the key of a slot is destroyed and just one still reads it.
    pub fn is_last(&self, slot: u32) -> bool
        requires { slot < length self.now }
        ensures { result ≡ is_last (slot_at self.now slot) }
    {
        is_last(&self.heads[slot as usize], &self.keys[slot as usize])
    }

    /// The state of a slot.
    pub fn head(&self, slot: u32) -> Head
        requires { slot < length self.now }
        ensures { result.state ≡ (slot_at self.now slot).state }
    {
        self.heads[slot as usize]
    }

    /// The key of a slot.
    pub fn key(&self, slot: u32) -> &Stored
        requires { slot < length self.now }
        ensures readers { result.now.readers ≡ (slot_at self.now slot).readers }
        ensures creation { result.now.creation ≡ (slot_at self.now slot).creation }
        ensures attributes { result.now.attributes ≡ (slot_at self.now slot).attributes }
        ensures buffer { result.now.buffer ≡ (slot_at self.now slot).buffer }
    {
        &self.keys[slot as usize]
    }

    /// A slot goes on in another state, as it may.
    pub fn change(&mut self, slot: u32, to: SlotState)
        requires within { slot < length self.old }
        requires allowed { may_change (slot_at self.old slot).state to (slot_at self.old slot).readers ≡ true }
        ensures { self.new ≡ slice_set self.old slot (record (slot_at self.old slot) { state = to }) }
    {
        let readers = self.keys[slot as usize].readers;
        self.heads[slot as usize].change(to, readers);
        self.first = self.first.min(slot as usize);
    }

    /// Puts a key into a slot, as it may.
    pub fn fill(&mut self, slot: u32, creation: u64, attributes: &Attributes, bytes: &[u8])
        requires within { slot < length self.old }
        requires allowed { may_change (slot_at self.old slot).state Full (slot_at self.old slot).readers ≡ true }
        requires unread { (slot_at self.old slot).readers ≡ 0 }
        requires short { length bytes.now ≤ 1024 }
        ensures { self.new ≡ slice_set self.old slot (full_slot creation attributes.now bytes.now) }
    {
        let key = &mut self.keys[slot as usize];
        let head = &mut self.heads[slot as usize];
        head.change(SlotState::Full, key.readers);
        key.fill(creation, attributes, bytes);
        self.first = self.first.min(slot as usize);
    }

    /// Makes a slot empty, as it may: all its bytes are zeros.
    pub fn wipe(&mut self, slot: u32)
        requires within { slot < length self.old }
        requires allowed { may_change (slot_at self.old slot).state Empty (slot_at self.old slot).readers ≡ true }
        ensures { self.new ≡ slice_set self.old slot empty_slot }
    {
        let key = &mut self.keys[slot as usize];
        self.heads[slot as usize].wipe(key.readers);
        key.wipe();
        self.first = self.first.min(slot as usize);
    }

    /// One reader more.
    pub fn register(&mut self, slot: u32)
        requires within { slot < length self.old }
        requires few { (slot_at self.old slot).readers < 2 ^ 32 - 1 }
        ensures { self.new ≡ slice_set self.old slot (registered (slot_at self.old slot)) }
    {
        let key = &mut self.keys[slot as usize];
        key.readers += 1;
    }

    /// One reader less.
    pub fn unregister(&mut self, slot: u32)
        requires within { slot < length self.old }
        requires read { 0 < (slot_at self.old slot).readers }
        ensures { self.new ≡ slice_set self.old slot (record (slot_at self.old slot) { readers = (slot_at self.old slot).readers - 1 }) }
    {
        let key = &mut self.keys[slot as usize];
        key.readers -= 1;
    }
}

// A key's place for each slot.
fn no_keys(alloc: Global) -> Result<Vec<Stored>, Memory>
    ensures { IfOk result (λ keys. keys.items ≡ replicate 384 no_key) }
{
    let Ok(mut keys) = Vec::with_capacity(alloc, SLOTS) else {
        return Err(Memory);
    };
    for _ in 0..SLOTS {
        keys.push_reserved(Stored::empty(alloc)?);
    }
    Ok(keys)
}
