// The steps of a call: each is one write that is made sure of.
ghost use Rattle.std.specs.Prelude.{◌≡◌, ◌≢◌, ◌<◌, ◌≤◌, ◌+◌, true, List, ℕ, length, set, OnOk, OnErr, IfErr};
ghost use Rattle.key_cells.specs.{Layout.cell_count, Layout.store_size, Contents.Content, Contents.Present, Contents.Doubtful, Contents.Moves, Contents.KeepsContents, Contents.StaysFree, Contents.cell_state, Contents.content_at, Contents.has_id, Contents.settled_state, Contents.settled_states, Contents.HasNoKey, Calls.StandFor, Calls.ChangesCell, Calls.Writes, Calls.FailsToWrite};
ghost use Rattle.psa_status.specs.Causes.{HasCause};
ghost use Rattle.disk_face.specs.Disk.{StillTells};
ghost use Rattle.key_cells.specs.declared.state.CellState.TheVariants.{Free, Open, Shut, Unsure};

use crate::CellState;
use crate::cells::{CLOSED, CellFault, Cells, OPENED, ZEROS, place};
use disk_face::{Disk, write_through};
use psa_status::Failed;

impl<D: Disk> Cells<D> {
    // Writes bytes into a cell, and makes sure of them: else a crash could take back a call that was answered. The
    // directory has this state for the cell from then on.
    fn write_cell(
        &mut self,
        cell: usize,
        at: u64,
        bytes: &[u8],
        state: CellState,
    ) -> Result<(), CellFault>
        requires size { D.size self.old.disk ≡ store_size }
        requires states { length self.old.states ≡ cell_count }
        requires within { cell < cell_count }
        requires fits { at + length bytes.now ≤ store_size }
        requires new { (id : ℕ) → has_id id state ≡ true → HasNoKey self.old.states id }
        ensures size { D.size self.new.disk ≡ store_size }
        ensures ok { OnOk result (self.new.states ≡ set self.old.states cell state) }
        ensures err { OnErr result (self.new.states ≡ self.old.states) }
        ensures states { settled_state state ≡ settled_state (cell_state self.old.states cell) → settled_states self.new.states ≡ settled_states self.old.states }
        ensures free { cell_state self.old.states cell ≢ Free → StaysFree self.old.states self.new.states }
        ensures done { OnOk result (Writes D.Disk self.old self.new at bytes.now (set self.old.states cell state)) }
        ensures failed { OnErr result (FailsToWrite D.Disk self.old self.new at bytes.now) }
        ensures tells { StillTells (D.contents self.old.disk) (D.contents self.new.disk) }
        ensures cause { HasCause (D.faults self.old.disk) (D.faults self.new.disk) result }
        ensures fault { IfErr result (λ fault. fault ≡ CellFault.Disk) }
    {
        match write_through(&mut self.disk, at, bytes) {
            Ok(()) => {
                self.states.set(cell, state);
                Ok(())
            }
            Err(Failed) => Err(CellFault::Disk),
        }
    }

    // Closes the gate of a cell whose body is whole.
    pub(crate) fn close_gate(&mut self, cell: usize) -> Result<(), CellFault>
        requires size { D.size self.old.disk ≡ store_size }
        requires states { length self.old.states ≡ cell_count }
        requires within { cell < cell_count }
        requires state { cell_state self.old.states cell ≡ Unsure }
        ensures size { D.size self.new.disk ≡ store_size }
        ensures ok { OnOk result (self.new.states ≡ set self.old.states cell Shut) }
        ensures err { OnErr result (self.new.states ≡ self.old.states) }
        ensures states { settled_states self.new.states ≡ settled_states self.old.states }
        ensures free { StaysFree self.old.states self.new.states }
        ensures keeps { KeepsContents D.Disk self.old.disk self.new.disk self.old.states self.new.states }
        ensures tells { StillTells (D.contents self.old.disk) (D.contents self.new.disk) }
        ensures cause { HasCause (D.faults self.old.disk) (D.faults self.new.disk) result }
        ensures fault { IfErr result (λ fault. fault ≡ CellFault.Disk) }
    {
        self.write_cell(cell, place(cell), &[CLOSED], CellState::Shut)
    }

    // Makes a closed cell all zeros.
    pub(crate) fn clear_body(&mut self, cell: usize) -> Result<(), CellFault>
        requires size { D.size self.old.disk ≡ store_size }
        requires states { length self.old.states ≡ cell_count }
        requires within { cell < cell_count }
        requires state { cell_state self.old.states cell ≡ Shut }
        ensures size { D.size self.new.disk ≡ store_size }
        ensures ok { OnOk result (self.new.states ≡ set self.old.states cell Free) }
        ensures err { OnErr result (self.new.states ≡ self.old.states) }
        ensures states { settled_states self.new.states ≡ settled_states self.old.states }
        ensures free { StaysFree self.old.states self.new.states }
        ensures keeps { KeepsContents D.Disk self.old.disk self.new.disk self.old.states self.new.states }
        ensures tells { StillTells (D.contents self.old.disk) (D.contents self.new.disk) }
        ensures cause { HasCause (D.faults self.old.disk) (D.faults self.new.disk) result }
        ensures fault { IfErr result (λ fault. fault ≡ CellFault.Disk) }
    {
        self.write_cell(cell, place(cell) + 1, &ZEROS, CellState::Free)
    }

    // Writes the body of a closed cell, behind its gate.
    pub(crate) fn write_body(&mut self, cell: usize, body: &[u8; 1087]) -> Result<(), CellFault>
        requires size { D.size self.old.disk ≡ store_size }
        requires states { length self.old.states ≡ cell_count }
        requires within { cell < cell_count }
        requires state { cell_state self.old.states cell ≡ Shut }
        ensures size { D.size self.new.disk ≡ store_size }
        ensures ok { OnOk result (self.new.states ≡ set self.old.states cell Unsure) }
        ensures err { OnErr result (self.new.states ≡ self.old.states) }
        ensures states { settled_states self.new.states ≡ settled_states self.old.states }
        ensures keeps { (contents : List Content) → content_at contents cell ≡ Doubtful body.now →
            StandFor D.Disk self.old contents →
            Moves D.Disk self.old.disk self.new.disk self.old.states self.new.states contents contents }
        ensures tells { StillTells (D.contents self.old.disk) (D.contents self.new.disk) }
        ensures cause { HasCause (D.faults self.old.disk) (D.faults self.new.disk) result }
        ensures fault { IfErr result (λ fault. fault ≡ CellFault.Disk) }
    {
        self.write_cell(cell, place(cell) + 1, body, CellState::Unsure)
    }

    // Opens the gate of a cell whose body is whole.
    pub(crate) fn open_gate(&mut self, cell: usize, id: u32, creation: u64) -> Result<(), CellFault>
        requires size { D.size self.old.disk ≡ store_size }
        requires states { length self.old.states ≡ cell_count }
        requires within { cell < cell_count }
        requires state { cell_state self.old.states cell ≡ Unsure }
        requires new { HasNoKey self.old.states id }
        ensures size { D.size self.new.disk ≡ store_size }
        ensures ok { OnOk result (self.new.states ≡ set self.old.states cell (Open id creation)) }
        ensures err { OnErr result (self.new.states ≡ self.old.states) }
        ensures opened { OnOk result ((bytes : List ℕ) → ChangesCell D.Disk self.old self.new cell (Doubtful bytes) (Present bytes)) }
        ensures failed { OnErr result (KeepsContents D.Disk self.old.disk self.new.disk self.old.states self.new.states) }
        ensures tells { StillTells (D.contents self.old.disk) (D.contents self.new.disk) }
        ensures cause { HasCause (D.faults self.old.disk) (D.faults self.new.disk) result }
        ensures fault { IfErr result (λ fault. fault ≡ CellFault.Disk) }
    {
        self.write_cell(
            cell,
            place(cell),
            &[OPENED],
            CellState::Open { id, creation },
        )
    }
}
