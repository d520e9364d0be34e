//! The places of keys by their identifiers.
ghost use Rattle.std.specs.{Prelude.◌≡◌, Prelude.ℕ, Prelude.◌<◌, Prelude.◌≤◌, Prelude.◌+◌, Prelude.[], Prelude.◌∷◌, Prelude.length, Prelude.count_by, Prelude.nat_le, Prelude.nat_lt, Prelude.IfOk, Prelude.IfErr, Prelude.MatchOption, List.Sorted.IsPermutation, Ordering.MatchOrdering};
ghost use Rattle.key_index.specs.Index.{AreHalvings, IsAlone, IsGap, IsSorted, entries_of, entry_at, is_between};

use crate::steps::Steps;
use arrayvec::ArrayVec;
use std::cmp::Ordering;
use std::marker::{Brand, Model};
use std::sync::ledger::{Blank, Ledger};

/// The place of a key, by its identifier.
#[derive(Clone, Copy, Default, Drop)]
pub struct Entry {
    pub id: u32,
    pub place: u32,
}

impl Entry {
    /// How its identifier stands to another, which takes a step.
    pub fn compare<L: Ledger>(&self, id: u32, steps: &mut Steps<L>) -> Ordering
        ensures ordering { MatchOrdering result (self.now.id < id) (self.now.id ≡ id) (id < self.now.id) }
        ensures step { steps.new ≡ steps.old + 1 }
    {
        steps.tick();
        self.id.cmp(&id)
    }
}

/// At most so many entries, the least identifier first.
#[derive(Drop)]
pub struct KeyIndex<const CAPACITY: usize> {
    entries: ArrayVec<Entry, CAPACITY>,
}

impl<const CAPACITY: usize> Model for KeyIndex<CAPACITY> {
    ghost use Rattle.std.specs.Prelude.{List};
    ghost use Rattle.key_index.specs.Index.{IsSorted};
    ghost use Rattle.key_index.specs.declared.index.Entry.{Entry};

    ghost Value = { List Entry };

    ghost view = { λ i. i.entries.items };

    ghost invariant = { λ i. IsSorted i.entries.items };
}

impl<const CAPACITY: usize> KeyIndex<CAPACITY> {
    /// No entries.
    pub fn new() -> KeyIndex<CAPACITY>
        ensures { result ≡ [] }
    {
        KeyIndex {
            entries: ArrayVec::new(),
        }
    }

    /// The place in an entry of this identifier.
    pub fn find(&self, id: u32) -> Option<u32>
        ensures { MatchOption result ((i : ℕ) → entries_of id i self.now ≡ 0) (λ i. 1 ≤ entries_of id i self.now) }
    {
        match position_of(self.entries.as_slice(), id) {
            Ok(position) => Some(self.entries[position].place),
            Err(_) => None,
        }
    }

    /// The same, with each comparison of an entry as a step.
    pub fn find_counted<L: Ledger>(&self, id: u32, steps: &mut Steps<L>) -> Option<u32>
        ensures found { MatchOption result ((i : ℕ) → entries_of id i self.now ≡ 0) (λ i. 1 ≤ entries_of id i self.now) }
        ensures steps { AreHalvings (length self.now) steps.old steps.new }
    {
        match search(self.entries.as_slice(), id, steps) {
            Ok(position) => Some(self.entries[position].place),
            Err(_) => None,
        }
    }

    /// How many entries there are.
    pub fn len(&self) -> usize
        ensures { result ≡ length self.now }
    {
        self.entries.len()
    }

    /// How many entries have identifiers from one number to another.
    pub fn count_between(&self, first: u64, last: u64) -> usize
        requires { first ≤ last }
        ensures { result ≡ count_by (λ e. is_between first last e.id) self.now }
    {
        count_to(self.entries.as_slice(), last) - count_below(self.entries.as_slice(), first)
    }

    /// Puts an entry in.
    pub fn insert(&mut self, id: u32, place: u32)
        requires room { length self.old < CAPACITY }
        requires missing { (i : ℕ) → entries_of id i self.old ≡ 0 }
        ensures { IsPermutation (record { id = id; place = place } ∷ self.old) self.new }
    {
        if let Err(position) = position_of(self.entries.as_slice(), id) {
            self.entries.insert(position, Entry { id, place });
        }
    }

    /// Takes out the one entry of this identifier, which has this place.
    pub fn remove(&mut self, id: u32, _place: u32)
        requires { IsAlone id _place self.old }
        ensures { IsPermutation self.old (record { id = id; place = _place } ∷ self.new) }
    {
        if let Ok(position) = position_of(self.entries.as_slice(), id) {
            self.entries.remove(position);
        }
    }
}

// How many identifiers aren't above a number.
fn count_to(entries: &[Entry], last: u64) -> usize
    requires { IsSorted entries.now }
    ensures { result ≡ count_by (λ e. nat_le e.id last) entries.now }
{
    entries.partition_point(|e| e.id as u64 <= last)
}

// How many are below one.
fn count_below(entries: &[Entry], first: u64) -> usize
    requires { IsSorted entries.now }
    ensures { result ≡ count_by (λ e. nat_lt e.id first) entries.now }
{
    entries.partition_point(|e| (e.id as u64) < first)
}

// Where an entry of this identifier stands, or where one is missing.
fn position_of(entries: &[Entry], id: u32) -> Result<usize, usize>
    requires { IsSorted entries.now }
    ensures found { IfOk result (λ i. (i < length entries.now) × ((entry_at entries.now i).id ≡ id)) }
    ensures missing { IfErr result (λ i. IsGap id entries.now i) }
{
    search_in::<Brand>(entries, id, Blank::new(1))
}

// The same, with the steps in a ledger of their own.
fn search_in<L: Ledger>(entries: &[Entry], id: u32, blank: Blank) -> Result<usize, usize>
    requires sorted { IsSorted entries.now }
    requires name { blank.name ≡ L.name }
    requires parts { blank.parts ≡ L.parts }
    requires some { 0 < blank.parts }
    ensures found { IfOk result (λ i. (i < length entries.now) × ((entry_at entries.now i).id ≡ id)) }
    ensures missing { IfErr result (λ i. IsGap id entries.now i) }
{
    search(entries, id, &mut Steps::<L>::new(blank))
}

// The same, with each comparison of an entry as a step.
fn search<L: Ledger>(entries: &[Entry], id: u32, steps: &mut Steps<L>) -> Result<usize, usize>
    requires { IsSorted entries.now }
    ensures found { IfOk result (λ i. (i < length entries.now) × ((entry_at entries.now i).id ≡ id)) }
    ensures missing { IfErr result (λ i. IsGap id entries.now i) }
    ensures steps { AreHalvings (length entries.now) steps.old steps.new }
{
    let mut low = 0;
    let mut high = entries.len();
    while low < high {
        let middle = low + (high - low) / 2;
        match entries[middle].compare(id, steps) {
            Ordering::Less => low = middle + 1,
            Ordering::Equal => return Ok(middle),
            Ordering::Greater => high = middle,
        }
    }
    Err(low)
}
