//! The order in which the full slots of a table were used.
ghost use Rattle.std.specs.Prelude.{◌≡◌, ◌<◌, ◌≤◌, [], ◌∷◌, ◌++◌, length, find, IfOk};
ghost use Rattle.slot_table.specs.{Slots.times, Slots.slot_at, Slots.is_idle, Changes.recency_without, Links.links_joined};

use crate::rows::{SLOTS, SlotRows};
use psa_status::Memory;
use std::alloc::Global;
use std::marker::Model;

// The number of the link of both ends, which comes after those of the slots.
const ENDS: u32 = 384;

const LINKS: usize = SLOTS + 1;

/// The numbers of the next older slot and of the next newer one.
#[derive(Clone, Copy, Drop)]
pub struct Link {
    pub older: u32,
    pub newer: u32,
}

/// The numbers of the full slots, the least recently registered or filled first: each is linked to its neighbours, and the
/// oldest and the newest to the ends.
#[derive(Drop)]
pub struct Recency {
    links: Box<[Link; LINKS]>,
}

impl Model for Recency {
    ghost use Rattle.std.specs.Prelude.{ℕ, List};
    ghost use Rattle.slot_table.specs.Links.{AreLinksOf, linked_slots};

    ghost Value = { List ℕ };

    ghost view = { λ r. linked_slots r.links.value };

    ghost invariant = { λ r. AreLinksOf (linked_slots r.links.value) r.links.value };
}

impl Recency {
    /// The row of no slots, with room for all; `Memory` where there is no room.
    pub fn new(alloc: Global) -> Result<Recency, Memory>
        ensures { IfOk result (λ recency. recency ≡ []) }
    {
        let ends = Link {
            older: ENDS,
            newer: ENDS,
        };
        match Box::new(alloc, [ends; LINKS]) {
            Ok(links) => Ok(Recency { links }),
            Err(_) => Err(Memory),
        }
    }

    /// Puts a slot at the end.
    pub fn push(&mut self, slot: u32)
        requires within { slot < 384 }
        requires room { length self.old < 384 }
        requires new { times slot self.old ≡ 0 }
        ensures { self.new ≡ self.old ++ slot ∷ [] }
    {
        let newest = self.links[SLOTS].older;
        join(&mut self.links, newest, slot);
        join(&mut self.links, slot, ENDS);
    }

    /// Takes out a slot that stands in the row once.
    pub fn forget(&mut self, slot: u32)
        requires { times slot self.old ≡ 1 }
        ensures row { self.new ≡ recency_without slot self.old }
        ensures room { length self.new < 384 }
        ensures within { slot < 384 }
    {
        let Link { older, newer } = self.links[slot as usize];
        join(&mut self.links, older, newer);
    }

    /// Moves a slot that stands in the row once to its end.
    pub fn refresh(&mut self, slot: u32)
        requires { times slot self.old ≡ 1 }
        ensures { self.new ≡ recency_without slot self.old ++ slot ∷ [] }
    {
        self.forget(slot);
        self.push(slot);
    }

    /// The least recently used slot that has a persistent key which nobody reads.
    pub fn oldest_idle(&self, rows: &SlotRows) -> Option<u32>
        ensures { result ≡ find (λ i. is_idle (slot_at rows.now i)) self.now }
    {
        let mut slot = self.links[SLOTS].newer;
        for _ in 0..SLOTS {
            if slot == ENDS {
                return None;
            }
            if rows.is_idle(slot) {
                return Some(slot);
            }
            slot = self.links[slot as usize].newer;
        }
        None
    }
}

// Makes two slots neighbours.
fn join(links: &mut [Link; LINKS], older: u32, newer: u32)
    requires older { older ≤ 384 }
    requires newer { newer ≤ 384 }
    ensures { links.new ≡ links_joined links.old older newer }
{
    links[older as usize].newer = newer;
    links[newer as usize].older = older;
}
