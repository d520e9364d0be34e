// The directory in memory.
ghost use Rattle.std.specs.Prelude.{◌≡◌, ◌<◌, ◌↔◌, true, ℕ, length, set, replicate, count_by, IfOk, MatchOption, IsTrue};
ghost use Rattle.key_index.specs.Index.{IsAlone, entries_of};
ghost use Rattle.key_cells.specs.{declared.state.CellState.TheVariants.Free, Layout.cell_count, Contents.cell_state, Contents.has_id, Contents.is_open, Contents.IsSure, Contents.IsFull, Contents.IsFirstWithoutKey, Contents.HasNoKey, Contents.IsFirstWithKey, Directory.HasBeside, Directory.IsFirstOfGroup, Directory.IsFullGroup, Directory.is_in_doubt, Directory.is_of_range};

use crate::CellState;
use crate::layout::CELLS;
use key_index::KeyIndex;
use psa_status::Memory;
use std::alloc::Global;
use std::marker::Model;

/// How many identifiers a range has.
const RANGE: u64 = 1 << 26;

/// How many cells a group has.
const GROUP: usize = 32;

/// How many groups the cells are.
const GROUPS: usize = 64;

/// What is known of each cell. No two have keys of one identifier.
#[derive(Drop)]
pub struct Directory {
    states: Vec<CellState>,
    // the open cells, by the identifiers of their keys
    index: Box<KeyIndex<CELLS>>,
    // of which groups each cell is known to be open, so that they are passed over for a cell without a key
    full: [bool; GROUPS],
    // how many cells are in doubt
    in_doubt: usize,
}

impl Model for Directory {
    ghost use Rattle.std.specs.Prelude.{List};
    ghost use Rattle.key_cells.specs.declared.state.CellState.{CellState};
    ghost use Rattle.key_cells.specs.Directory.{AreIndexed};

    ghost Value = { List CellState };

    ghost view = { λ d. d.states.items };

    ghost invariant = { λ d. AreIndexed d.states.items d.index.value d.full d.in_doubt };
}

// Takes out of an index what it has of a cell with this state, and answers how many cells are then in doubt.
fn take_out(index: &mut KeyIndex<CELLS>, in_doubt: usize, cell: usize, state: CellState) -> usize
    requires within { cell < cell_count }
    requires alone { (id : ℕ) → has_id id state ≡ true → IsAlone id cell index.old }
    requires some { is_in_doubt state ≡ true → 0 < in_doubt }
    ensures { HasBeside state cell index.old index.new in_doubt result }
{
    match state {
        CellState::Free => in_doubt,
        CellState::Open { id, .. } => {
            index.remove(id, cell as u32);
            in_doubt
        }
        CellState::Shut | CellState::Unsure => in_doubt - 1,
    }
}

// Puts into an index what it is to have of a cell with this state, and answers how many cells are then in doubt.
fn put_in(index: &mut KeyIndex<CELLS>, in_doubt: usize, cell: usize, state: CellState) -> usize
    requires within { cell < cell_count }
    requires room { is_open state ≡ true → length index.old < cell_count }
    requires few { in_doubt < cell_count }
    requires missing { (id i : ℕ) → has_id id state ≡ true → entries_of id i index.old ≡ 0 }
    ensures { HasBeside state cell index.new index.old result in_doubt }
{
    match state {
        CellState::Free => in_doubt,
        CellState::Open { id, .. } => {
            index.insert(id, cell as u32);
            in_doubt
        }
        CellState::Shut | CellState::Unsure => in_doubt + 1,
    }
}

// The first cell of a group that isn't open.
fn first_of_group(states: &[CellState], group: usize) -> Option<usize>
    requires sized { length states.now ≡ cell_count }
    requires within { group < 64 }
    ensures { MatchOption result (IsFullGroup states.now group) (λ cell. IsFirstOfGroup states.now group cell) }
{
    for cell in GROUP * group..GROUP * group + GROUP {
        if !states[cell].has_key() {
            return Some(cell);
        }
    }
    None
}

// Whether a cell that was given this state fills its group. Nothing is looked at where it has no key.
fn fills(states: &[CellState], group: usize, state: CellState) -> bool
    requires sized { length states.now ≡ cell_count }
    requires within { group < 64 }
    ensures { result ≡ true → IsFullGroup states.now group }
{
    state.has_key() && first_of_group(states, group).is_none()
}

impl Directory {
    /// Each cell free; `Memory` where there is no room.
    pub(crate) fn new(alloc: Global) -> Result<Directory, Memory>
        ensures { IfOk result (λ directory. directory ≡ replicate cell_count Free) }
    {
        let Ok(states) = vec![in alloc; CellState::Free; CELLS] else {
            return Err(Memory);
        };
        let Ok(index) = Box::new(alloc, KeyIndex::new()) else {
            return Err(Memory);
        };
        Ok(Directory {
            states,
            index,
            full: [false; GROUPS],
            in_doubt: 0,
        })
    }

    /// What is known of a cell.
    pub fn state(&self, cell: usize) -> CellState
        requires { cell < length self.now }
        ensures { result ≡ cell_state self.now cell }
    {
        self.states[cell]
    }

    /// Sets what is known of a cell. Where that is a key, no cell has one of its identifier yet.
    pub(crate) fn set(&mut self, cell: usize, state: CellState)
        requires within { cell < cell_count }
        requires new { (id : ℕ) → has_id id state ≡ true → HasNoKey self.old id }
        ensures { self.new ≡ set self.old cell state }
    {
        let left = take_out(&mut self.index, self.in_doubt, cell, self.states[cell]);
        self.in_doubt = put_in(&mut self.index, left, cell, state);
        self.states[cell] = state;
        let group = cell / GROUP;
        self.full[group] = fills(&self.states, group, state);
    }

    /// Sets what is known of a cell that is free so far. Nothing is done where it stays so.
    pub(crate) fn note(&mut self, cell: usize, state: CellState)
        requires within { cell < cell_count }
        requires free { cell_state self.old cell ≡ Free }
        requires new { (id : ℕ) → has_id id state ≡ true → HasNoKey self.old id }
        ensures { self.new ≡ set self.old cell state }
    {
        match state {
            CellState::Free => {}
            _ => self.set(cell, state),
        }
    }

    /// The cell of the key of this identifier.
    pub fn find(&self, id: u32) -> Option<usize>
        ensures { MatchOption result (HasNoKey self.now id) (λ cell. IsFirstWithKey self.now id cell) }
    {
        match self.index.find(id) {
            Some(cell) => Some(cell as usize),
            None => None,
        }
    }

    /// The first cell without a key.
    pub fn first_without_key(&self) -> Option<usize>
        ensures { MatchOption result (IsFull self.now) (λ cell. IsFirstWithoutKey self.now cell) }
    {
        for group in 0..GROUPS {
            if !self.full[group] {
                if let Some(cell) = first_of_group(&self.states, group) {
                    return Some(cell);
                }
            }
        }
        None
    }

    /// Whether no cell is in doubt.
    pub fn is_sure(&self) -> bool
        ensures { IsTrue result ↔ IsSure self.now }
    {
        self.in_doubt == 0
    }

    /// How many keys have an identifier of a range.
    pub fn in_range(&self, range: u32) -> usize
        ensures { result ≡ count_by (is_of_range range) self.now }
    {
        let first = range as u64 * RANGE;
        self.index.count_between(first, first + (RANGE - 1))
    }

    /// How many cells are open.
    pub fn count(&self) -> usize
        ensures count { result ≡ count_by is_open self.now }
        ensures sized { length self.now ≡ cell_count }
    {
        self.index.len()
    }
}
