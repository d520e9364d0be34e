// The store file.
ghost use Rattle.std.specs.Prelude.{◌≡◌, ◌≤◌, ◌<◌, ◌↔◌, ℕ, List, length, set, Bool, [], true, false, None, Some, IfOk, IfErr, IfSome, OnOk, OnErr, IsErrOf, MatchOption, count_by};
ghost use Rattle.psa_status.specs.Causes.{HasCause, Rose};
ghost use Rattle.disk_face.specs.Disk.{StillTells};
ghost use Rattle.key_cells.specs.{Contents.StaysFree, Contents.StaysFreeBut, declared.state.CellState.TheVariants.Free, declared.state.CellState.TheVariants.Open};
ghost use Rattle.key_cells.specs.Prelude.{Calm, is_of_range, HasNoKey, IsFirstWithKey, IsFirstWithoutKey, IsFull, IsSure, has_id, is_open, creation_of_state, settled_states, cell_state, IsKeyOf, IsOpened, IsOpeningRefused, cell_count, store_size};
ghost use Rattle.persistent_keys.specs.{Files.stored, Files.Keys, Files.Doubt, Files.AreFound, Calls.StandsForThese, Calls.HasStored, Calls.KeepsFile, Calls.PutsInFile, Calls.LeavesUnmade, Calls.LeavesUndestroyed, declared.file.MakeFault.TheVariants.Disk};
ghost use Rattle.secret_bytes.specs.Buffer.{bytes_of, IsClear};

use disk_face::Disk;
use key_attributes::Attributes;
use key_cells::{CellFault, Cells, OpenFault};
use secret_bytes::Secret;
use std::alloc::Global;

/// The keys of a store file.
#[derive(Drop)]
pub struct KeyFile<D: Disk> {
    pub cells: Cells<D>,
}

/// A fault of the disk in a write, and whether the cells that were in doubt had been closed.
#[derive(Clone, Copy, Debug, PartialEq, Eq, Drop)]
pub struct Unclosed {
    pub closed_first: bool,
}

/// Why no key was made.
#[derive(Clone, Copy, Debug, PartialEq, Eq, Drop)]
pub enum MakeFault {
    Full,
    Disk { closed_first: bool },
}

impl<D: Disk> KeyFile<D> {
    /// Opens the file of a disk, or makes one on a disk of length 0. Nothing is in doubt then.
    pub fn open(alloc: Global, disk: D) -> Result<KeyFile<D>, (D, OpenFault)>
        ensures size { IfOk result (λ file. D.size file.cells.disk ≡ store_size) }
        ensures states { IfOk result (λ file. length file.cells.states ≡ cell_count) }
        ensures opened { IfOk result (λ file. IsOpened D.Disk disk file.cells.disk file.cells.states) }
        ensures keys { IfOk result (λ file. IfSome (D.contents disk) (λ image. (keys : Keys) → AreFound image file.cells.states keys →
            StandsForThese D.Disk file keys [])) }
        ensures found { IfOk result (λ file. IfSome (D.contents disk) (λ image. (keys : Keys) × AreFound image file.cells.states keys)) }
        ensures later { IfOk result (λ file. D.faults disk ≤ D.faults file.cells.disk) }
        ensures refused { IfErr result (λ refused. IsOpeningRefused D.Disk disk refused.0 refused.1) }
    {
        match Cells::open(alloc, disk) {
            Ok(cells) => Ok(KeyFile { cells }),
            Err(fault) => Err(fault),
        }
    }

    /// The cell of a key.
    pub fn find(&self, id: u32) -> Option<usize>
        ensures { MatchOption result (HasNoKey self.now.cells.states id) (λ cell. IsFirstWithKey self.now.cells.states id cell) }
    {
        self.cells.find(id)
    }

    /// The attributes of a key, and its bytes, which come into the buffer. After a refusal the buffer is clear. `Disk` only
    /// where the disk's faults rose; over a disk that tells its bytes, `Corrupt` never comes.
    pub fn load(&mut self, id: u32, cell: usize, out: &mut Secret) -> Result<Attributes, CellFault>
        requires size { D.size self.old.cells.disk ≡ store_size }
        requires states { length self.old.cells.states ≡ cell_count }
        requires within { cell < cell_count }
        requires key { has_id id (cell_state self.old.cells.states cell) ≡ true }
        ensures size { D.size self.new.cells.disk ≡ store_size }
        ensures states { self.new.cells.states ≡ self.old.cells.states }
        ensures same { D.contents self.new.cells.disk ≡ D.contents self.old.cells.disk }
        ensures calm { Calm D.Disk self.old.cells.disk self.new.cells.disk }
        ensures named { IfOk result (λ attributes. attributes.id.0 ≡ id) }
        ensures key { IfOk result (λ attributes. IsKeyOf attributes (bytes_of out.new)) }
        ensures loaded { IfOk result (λ attributes. HasStored D.Disk self.old id
            (stored (creation_of_state (cell_state self.old.cells.states cell)) attributes (bytes_of out.new))) }
        ensures keeps { KeepsFile D.Disk self.old self.new }
        ensures clear { OnErr result (IsClear out.new) }
        ensures disk { IsErrOf result CellFault.Disk → Rose (D.faults self.old.cells.disk) (D.faults self.new.cells.disk) }
        ensures corrupt { IsErrOf result CellFault.Corrupt → (keys : Keys) (doubt : Doubt) → StandsForThese D.Disk self.old keys doubt → ⊥ }
        ensures full { IsErrOf result CellFault.Full → ⊥ }
        ensures later { D.faults self.old.cells.disk ≤ D.faults self.new.cells.disk }
    {
        self.cells.load(cell, out)
    }

    /// Makes a key in the first cell that has none. `Full` exactly where each cell has a key, and then nothing is done. A
    /// fault leaves the key in doubt, alone where the cells in doubt before had been closed; they hadn't been only where
    /// there were some.
    pub fn make(
        &mut self,
        creation: u64,
        attributes: &Attributes,
        bytes: &[u8],
    ) -> Result<(), MakeFault>
        requires size { D.size self.old.cells.disk ≡ store_size }
        requires states { length self.old.cells.states ≡ cell_count }
        requires key { IsKeyOf attributes.now bytes.now }
        requires none { HasNoKey self.old.cells.states attributes.now.id.0 }
        ensures size { D.size self.new.cells.disk ≡ store_size }
        ensures states { length self.new.cells.states ≡ cell_count }
        ensures made { OnOk result (PutsInFile D.Disk self.old self.new attributes.now.id.0 (Some (stored creation attributes.now bytes.now))) }
        ensures failed { IfErr result (λ fault. LeavesUnmade D.Disk self.old self.new fault attributes.now bytes.now) }
        ensures placed { OnOk result ((cell : ℕ) × IsFirstWithoutKey self.old.cells.states cell ×
            (self.new.cells.states ≡ set (settled_states self.old.cells.states) cell (Open attributes.now.id.0 creation))) }
        ensures unplaced { OnErr result (settled_states self.new.cells.states ≡ settled_states self.old.cells.states) }
        ensures free { StaysFreeBut self.old.cells.states self.new.cells.states }
        ensures tells { StillTells (D.contents self.old.cells.disk) (D.contents self.new.cells.disk) }
        ensures full { IsErrOf result MakeFault.Full ↔ IsFull self.old.cells.states }
        ensures nothing { IsErrOf result MakeFault.Full → (self.new.cells.disk ≡ self.old.cells.disk) × (self.new.cells.states ≡ self.old.cells.states) }
        ensures unclosed { IsErrOf result (Disk false) → IsSure self.old.cells.states → ⊥ }
        ensures cause { (closed_first : Bool) → IsErrOf result (Disk closed_first) → Rose (D.faults self.old.cells.disk) (D.faults self.new.cells.disk) }
        ensures later { D.faults self.old.cells.disk ≤ D.faults self.new.cells.disk }
    {
        match self.cells.settle() {
            Ok(()) => {}
            Err(_) => {
                return Err(MakeFault::Disk {
                    closed_first: false,
                });
            }
        }
        match self.cells.create(creation, attributes, bytes) {
            Ok(_cell) => Ok(()),
            Err(CellFault::Full) => Err(MakeFault::Full),
            Err(CellFault::Disk) => Err(MakeFault::Disk { closed_first: true }),
            Err(CellFault::Corrupt) => Err(MakeFault::Disk { closed_first: true }),
        }
    }

    /// Destroys the key of a cell. After a fault it is gone or in doubt.
    pub fn destroy(&mut self, id: u32, cell: usize) -> Result<(), Unclosed>
        requires size { D.size self.old.cells.disk ≡ store_size }
        requires states { length self.old.cells.states ≡ cell_count }
        requires within { cell < cell_count }
        requires key { has_id id (cell_state self.old.cells.states cell) ≡ true }
        ensures size { D.size self.new.cells.disk ≡ store_size }
        ensures states { length self.new.cells.states ≡ cell_count }
        ensures gone { OnOk result (self.new.cells.states ≡ set (settled_states self.old.cells.states) cell Free) }
        ensures missing { settled_states self.new.cells.states ≡ set (settled_states self.old.cells.states) cell Free }
        ensures free { StaysFree self.old.cells.states self.new.cells.states }
        ensures destroyed { OnOk result (PutsInFile D.Disk self.old self.new id None) }
        ensures failed { IfErr result (λ fault. LeavesUndestroyed D.Disk self.old self.new id fault.closed_first) }
        ensures unclosed { IfErr result (λ fault. fault.closed_first ≡ false → IsSure self.old.cells.states → ⊥) }
        ensures tells { StillTells (D.contents self.old.cells.disk) (D.contents self.new.cells.disk) }
        ensures cause { HasCause (D.faults self.old.cells.disk) (D.faults self.new.cells.disk) result }
    {
        match self.cells.settle() {
            Ok(()) => {}
            Err(_) => {
                self.cells.give_up(cell);
                return Err(Unclosed {
                    closed_first: false,
                });
            }
        }
        match self.cells.destroy(cell) {
            Ok(()) => Ok(()),
            Err(_) => Err(Unclosed { closed_first: true }),
        }
    }

    /// The creation number of a cell's key.
    pub fn creation(&self, cell: usize) -> u64
        requires { cell < length self.now.cells.states }
        ensures { result ≡ creation_of_state (cell_state self.now.cells.states cell) }
    {
        self.cells.creation(cell)
    }

    /// How many keys there are that aren't in doubt.
    pub fn count(&self) -> usize
        ensures count { result ≡ count_by is_open self.now.cells.states }
        ensures sized { length self.now.cells.states ≡ cell_count }
    {
        self.cells.count()
    }

    /// How many of them have an identifier of a range.
    pub fn in_range(&self, range: u32) -> usize
        ensures { result ≡ count_by (is_of_range range) self.now.cells.states }
    {
        self.cells.in_range(range)
    }

    /// The disk.
    pub fn into_disk(self) -> D
        ensures { result ≡ self.cells.disk }
    {
        self.cells.into_disk()
    }
}
