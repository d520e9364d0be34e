// How the key of a cell is read.
ghost use Rattle.std.specs.Prelude.{◌≡◌, ◌<◌, ◌≤◌, true, List, ℕ, length, IsErrOf, OnErr, IfOk};
ghost use Rattle.key_cells.specs.{Layout.cell_count, Layout.store_size, Contents.KeepsContents, Contents.cell_state, Contents.is_open, Contents.has_id, Body.IsKeyOf, Calls.IsKeyOfCell, Calls.IsCorrupt, History.Nothing, History.AddsEntry, Opened.Calm};
ghost use Rattle.psa_status.specs.Causes.{Rose};
ghost use Rattle.secret_bytes.specs.Buffer.{bytes_of, IsClear};

use crate::body::{read_key, wipe};
use crate::cells::{CellFault, Cells};
use crate::reading::read_cell;
use disk_face::Disk;
use key_attributes::Attributes;
use psa_status::Failed;
use secret_bytes::Secret;

impl<D: Disk> Cells<D> {
    /// The attributes of a key, and its bytes, which come into the buffer. After a refusal the buffer is clear. `Disk`
    /// only where the disk's faults rose, `Corrupt` only where the cell is read otherwise than it was written.
    pub fn load(&mut self, cell: usize, out: &mut Secret) -> Result<Attributes, CellFault>
        requires size { D.size self.old.disk ≡ store_size }
        requires states { length self.old.states ≡ cell_count }
        requires within { cell < cell_count }
        requires open { is_open (cell_state self.old.states cell) ≡ true }
        ensures size { D.size self.new.disk ≡ store_size }
        ensures states { self.new.states ≡ self.old.states }
        ensures same { D.contents self.new.disk ≡ D.contents self.old.disk }
        ensures calm { Calm D.Disk self.old.disk self.new.disk }
        ensures named { IfOk result (λ attributes. has_id attributes.id.0 (cell_state self.old.states cell) ≡ true) }
        ensures key { IfOk result (λ attributes. IsKeyOf attributes (bytes_of out.new)) }
        ensures loaded { IfOk result (λ attributes. IsKeyOfCell D.Disk self.old cell attributes (bytes_of out.new)) }
        ensures keeps { KeepsContents D.Disk self.old.disk self.new.disk self.old.states self.old.states }
        ensures entry { AddsEntry D.Disk self.old.disk self.new.disk self.old.states self.old.states Nothing }
        ensures clear { OnErr result (IsClear out.new) }
        ensures disk { IsErrOf result CellFault.Disk → Rose (D.faults self.old.disk) (D.faults self.new.disk) }
        ensures corrupt { IsErrOf result CellFault.Corrupt → IsCorrupt D.Disk self.old cell }
        ensures full { IsErrOf result CellFault.Full → ⊥ }
        ensures later { D.faults self.old.disk ≤ D.faults self.new.disk }
    {
        let mut bytes = [0; 1088];
        let loaded = self.read_into(cell, &mut bytes, out);
        wipe(&mut bytes);
        match loaded {
            Ok(attributes) => Ok(attributes),
            Err(fault) => {
                out.wipe();
                Err(fault)
            }
        }
    }

    // The attributes of a key, and its bytes into the buffer. The bytes of its cell are left in the room.
    #[tactic(auto, using(crate::proofs::Loading::read_keeps, crate::proofs::Opened::calm_one))]
    fn read_into(
        &mut self,
        cell: usize,
        room: &mut [u8; 1088],
        out: &mut Secret,
    ) -> Result<Attributes, CellFault>
        requires size { D.size self.old.disk ≡ store_size }
        requires states { length self.old.states ≡ cell_count }
        requires within { cell < cell_count }
        ensures size { D.size self.new.disk ≡ store_size }
        ensures states { self.new.states ≡ self.old.states }
        ensures same { D.contents self.new.disk ≡ D.contents self.old.disk }
        ensures calm { Calm D.Disk self.old.disk self.new.disk }
        ensures named { IfOk result (λ attributes. has_id attributes.id.0 (cell_state self.old.states cell) ≡ true) }
        ensures key { IfOk result (λ attributes. IsKeyOf attributes (bytes_of out.new)) }
        ensures loaded { IfOk result (λ attributes. IsKeyOfCell D.Disk self.old cell attributes (bytes_of out.new)) }
        ensures keeps { KeepsContents D.Disk self.old.disk self.new.disk self.old.states self.old.states }
        ensures disk { IsErrOf result CellFault.Disk → Rose (D.faults self.old.disk) (D.faults self.new.disk) }
        ensures corrupt { IsErrOf result CellFault.Corrupt → IsCorrupt D.Disk self.old cell }
        ensures full { IsErrOf result CellFault.Full → ⊥ }
        ensures later { D.faults self.old.disk ≤ D.faults self.new.disk }
    {
        match read_cell(&mut self.disk, cell, room) {
            Ok(()) => {}
            Err(Failed) => return Err(CellFault::Disk),
        }
        let Some((attributes, end)) = read_key(room) else {
            return Err(CellFault::Corrupt);
        };
        if !self.states.state(cell).has(attributes.id.0) {
            return Err(CellFault::Corrupt);
        }
        out.fill_from(&room[52..end]);
        Ok(attributes)
    }
}
