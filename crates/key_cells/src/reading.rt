// What an opening reads.
ghost use Rattle.std.specs.Prelude.{◌≡◌, ◌≢◌, ◌≤◌, drop, false, length, IsErrOf, ◌<◌, ◌+◌, ◌*◌, ◌%◌, cond, take, replicate, IfOk, IfErr, IfSome, OnOk, IsTrue, MatchOption, ◌↔◌, ℕ};
ghost use Rattle.psa_status.specs.Causes.{HasCause, Rose};
ghost use Rattle.disk_face.specs.Disk.{NoNewImage, Elapses};
ghost use Rattle.key_cells.specs.declared.state.CellState.TheVariants.{Free};
ghost use Rattle.key_cells.specs.{Contents.is_open, Image.IsStoreFile, Image.IsStoreOf, Opening.AreFreeFrom, Opening.GivesBlock, Opening.GivesPart, Opening.IsBlank, Opening.IsBadCell, Opening.Reads, Opening.ReadsCell, Opening.ReadsKey, Opening.ReadsBelow, Opening.HasOneEach, Opening.IsNumbered, Opening.IsNamed, Causes.IsOpenFaultOf, Causes.IsDisk, Opened.Calm, Layout.HasSize, Layout.opened_gate, Layout.older_size, Layout.part, Layout.place, Layout.cell_count, Layout.cells_by, Layout.cells_of, Layout.store_size};

use crate::CellState;
use crate::body::{is_zero, read_key};
use crate::cells::{CLOSED, CLOSED_CELL, OPENED, place};
use crate::directory::Directory;
use crate::layout::{Layout, read_layout};
use disk_face::Disk;
use key_attributes::Attributes;
use psa_status::{Failed, Memory};
use secret_bytes::{let_go, let_zeros_go};
use std::alloc::Global;

// So many cells are read at once.
const BLOCK: usize = 256;

/// Room for a block, all zeros; `Memory` where there is none.
pub fn block_room(alloc: Global) -> Result<Vec<u8>, Memory>
    ensures { IfOk result (λ block. length block.items ≡ 278528) }
{
    let Ok(mut block) = Vec::with_capacity(alloc, BLOCK * CLOSED_CELL.len()) else {
        return Err(Memory);
    };
    for _ in 0..BLOCK {
        let Ok(()) = block.extend_from_slice(&CLOSED_CELL) else {
            return Err(Memory);
        };
    }
    Ok(block)
}

/// Lets the room for a block go, which is zeros then: they aren't written where it is blank.
pub fn let_block_go(block: Vec<u8>) {
    if is_zero(&block) {
        let count = block.len();
        let_zeros_go(block, count);
    } else {
        let_go(block);
    }
}

/// Reads the bytes of a cell.
pub fn read_cell<D: Disk>(disk: &mut D, cell: usize, bytes: &mut [u8; 1088]) -> Result<(), Failed>
    requires size { D.size disk.old ≡ store_size }
    requires within { cell < cell_count }
    ensures bytes { OnOk result (GivesPart (D.contents disk.old) (64 + 1088 * cell) 1088 bytes.new) }
    ensures same { D.contents disk.new ≡ D.contents disk.old }
    ensures size { D.size disk.new ≡ D.size disk.old }
    ensures crash { NoNewImage (D.may_leave disk.old) (D.may_leave disk.new) }
    ensures time { Elapses (D.moment disk.old) (D.moment disk.new) (D.left_since disk.old) (D.left_since disk.new) (D.may_leave disk.new) }
    ensures cause { HasCause (D.faults disk.old) (D.faults disk.new) result }
{
    disk.read_at(place(cell), bytes)
}

/// The bytes of a cell, from a place on.
pub fn cell_at(bytes: &[u8], place: usize) -> &[u8; 1088]
    requires { place + 1088 ≤ length bytes.now }
    ensures { result.now ≡ part place 1088 bytes.now }
{
    bytes[place..].first_chunk().unwrap()
}

// Reads a block of cells, where one begins with this cell, and tells whether it is all zeros; else its block has been read,
// and that is known.
#[tactic(auto, using(crate::proofs::Opened::calm_none, crate::proofs::Opened::calm_one))]
fn read_block<D: Disk>(
    disk: &mut D,
    cell: usize,
    block: &mut [u8],
    blank: bool,
) -> Result<bool, Failed>
    requires within { cell < cell_count }
    requires size { cell % 256 ≡ 0 → place cell + 278528 ≤ D.size disk.old }
    requires room { length block.old ≡ 278528 }
    requires read { cell % 256 ≢ 0 → GivesBlock (D.contents disk.old) cell block.old }
    requires zeros { cell % 256 ≢ 0 → IsTrue blank → IsBlank block.old }
    ensures bytes { OnOk result (GivesBlock (D.contents disk.old) cell block.new) }
    ensures zeros { IfOk result (λ blank. IsTrue blank → IsBlank block.new) }
    ensures room { length block.new ≡ 278528 }
    ensures size { D.size disk.new ≡ D.size disk.old }
    ensures calm { Calm D.Disk disk.old disk.new }
    ensures cause { HasCause (D.faults disk.old) (D.faults disk.new) result }
{
    if cell % BLOCK != 0 {
        return Ok(blank);
    }
    disk.read_at(place(cell), block)?;
    Ok(is_zero(block))
}

/// What the bytes of a cell say: its state, and where it is open its key, by the attributes and the end of the bytes.
#[derive(Drop)]
pub struct CellRead {
    pub state: CellState,
    pub key: Option<(Attributes, usize)>,
}

// What the bytes of an open cell say, its key being the next that was found; none where it is damaged.
fn decode_open(bytes: &[u8; 1088], before: &Directory, found: u64) -> Option<CellRead>
    requires { take 1 bytes.now ≡ opened_gate }
    ensures { MatchOption result (IsBadCell bytes.now before.now)
        (λ read. ReadsCell read.state bytes.now before.now found × ReadsKey read.key bytes.now) }
{
    let Some((attributes, end)) = read_key(bytes) else {
        return None;
    };
    let id = attributes.id.0;
    match before.find(id) {
        Some(_cell) => None,
        None => Some(CellRead {
            state: CellState::Open {
                id,
                creation: found,
            },
            key: Some((attributes, end)),
        }),
    }
}

// The state of a closed cell.
fn decode_closed(bytes: &[u8; 1088]) -> CellState
    requires { take 1 bytes.now ≢ opened_gate }
    ensures reads { Reads result (take 1 bytes.now) (drop 1 bytes.now) }
    ensures closed { is_open result ≡ false }
{
    if bytes[0] != CLOSED {
        return CellState::Unsure;
    }
    if is_zero(&bytes[1..]) {
        return CellState::Free;
    }
    CellState::Shut
}

/// What the bytes of a cell say; none where it is damaged.
pub fn decode(bytes: &[u8; 1088], before: &Directory, found: u64) -> Option<CellRead>
    ensures { MatchOption result (IsBadCell bytes.now before.now)
        (λ read. ReadsCell read.state bytes.now before.now found × ReadsKey read.key bytes.now) }
{
    if bytes[0] == OPENED {
        return decode_open(bytes, before, found);
    }
    Some(CellRead {
        state: decode_closed(bytes),
        key: None,
    })
}

// How many keys were found, with this state.
fn counted(found: u64, state: &CellState) -> u64
    requires { found ≤ cell_count }
    ensures { result ≡ found + cond (is_open state.now) 1 0 }
{
    if state.has_key() { found + 1 } else { found }
}

// Reads the header.
#[tactic(auto, using(crate::proofs::Opened::calm_one))]
fn read_header<D: Disk>(disk: &mut D) -> Result<[u8; 64], Failed>
    requires { 64 ≤ D.size disk.old }
    ensures bytes { IfOk result (λ bytes. GivesPart (D.contents disk.old) 0 64 bytes) }
    ensures size { D.size disk.new ≡ D.size disk.old }
    ensures calm { Calm D.Disk disk.old disk.new }
    ensures cause { HasCause (D.faults disk.old) (D.faults disk.new) result }
{
    let mut bytes = [0; 64];
    disk.read_at(0, &mut bytes)?;
    Ok(bytes)
}

/// Why a store wasn't opened.
#[derive(Clone, Copy, Debug, PartialEq, Eq, Drop)]
pub enum OpenFault {
    NotAStore,
    DamagedCell { cell: usize },
    Disk,
    Memory,
}

/// Reads the header and the cells of a file of so many bytes, and writes nothing. The bytes of the last cells are left in
/// the room for a block.
#[tactic(auto, using(crate::proofs::Opened::calm_both))]
pub fn read_store<D: Disk>(
    disk: &mut D,
    size: u64,
    states: &mut Directory,
    block: &mut [u8],
) -> Result<Layout, OpenFault>
    requires size { D.size disk.old ≡ size }
    requires enough { older_size ≤ size }
    requires states { states.old ≡ replicate cell_count Free }
    requires room { length block.old ≡ 278528 }
    ensures fits { IfOk result (λ layout. HasSize layout size) }
    ensures store { IfOk result (λ layout. IfSome (D.contents disk.old) (IsStoreOf layout)) }
    ensures read { IfOk result (λ layout. IfSome (D.contents disk.old) (ReadsBelow (cells_by layout) states.new)) }
    ensures beyond { IfOk result (λ layout. AreFreeFrom (cells_by layout) states.new) }
    ensures one { OnOk result (HasOneEach cell_count states.new) }
    ensures numbered { OnOk result (IsNumbered cell_count states.new) }
    ensures named { OnOk result (IsNamed cell_count states.new) }
    ensures states { length states.new ≡ cell_count }
    ensures cause { IfErr result (λ fault. IfSome (D.contents disk.old) (λ image. IsOpenFaultOf fault image)) }
    ensures size { D.size disk.new ≡ size }
    ensures calm { Calm D.Disk disk.old disk.new }
    ensures disk { IfErr result (λ fault. IsDisk fault → Rose (D.faults disk.old) (D.faults disk.new)) }
{
    let header = match read_header(disk) {
        Ok(header) => header,
        Err(Failed) => return Err(OpenFault::Disk),
    };
    let Some(layout) = read_layout(&header, size) else {
        return Err(OpenFault::NotAStore);
    };
    read_states(disk, layout.cells(), states, block)?;
    Ok(layout)
}

// Reads the cells of a store, each block of them at once. Of one that is all zeros each cell stays free.
#[tactic(auto, using(crate::proofs::Opened::calm_none, crate::proofs::Opened::calm_one, crate::proofs::Opened::calm_both))]
fn read_states<D: Disk>(
    disk: &mut D,
    cells: usize,
    states: &mut Directory,
    block: &mut [u8],
) -> Result<(), OpenFault>
    requires size { place cells ≤ D.size disk.old }
    requires whole { cells % 256 ≡ 0 }
    requires few { cells ≤ cell_count }
    requires states { states.old ≡ replicate cell_count Free }
    requires room { length block.old ≡ 278528 }
    requires store { IfSome (D.contents disk.old) (λ image. IsStoreFile image × (cells_of image ≡ cells)) }
    ensures read { OnOk result (IfSome (D.contents disk.old) (ReadsBelow cells states.new)) }
    ensures beyond { OnOk result (AreFreeFrom cells states.new) }
    ensures one { OnOk result (HasOneEach cell_count states.new) }
    ensures numbered { OnOk result (IsNumbered cell_count states.new) }
    ensures named { OnOk result (IsNamed cell_count states.new) }
    ensures states { length states.new ≡ cell_count }
    ensures cause { IfErr result (λ fault. IfSome (D.contents disk.old) (λ image. IsOpenFaultOf fault image)) }
    ensures size { D.size disk.new ≡ D.size disk.old }
    ensures calm { Calm D.Disk disk.old disk.new }
    ensures disk { IfErr result (λ fault. IsDisk fault → Rose (D.faults disk.old) (D.faults disk.new)) }
{
    let mut found = 0;
    let mut blank = false;
    for cell in 0..cells {
        blank = match read_block(disk, cell, block, blank) {
            Ok(blank) => blank,
            Err(Failed) => return Err(OpenFault::Disk),
        };
        if blank {
            continue;
        }
        let bytes = cell_at(block, 1088 * (cell % BLOCK));
        let Some(read) = decode(bytes, states, found) else {
            return Err(OpenFault::DamagedCell { cell });
        };
        found = counted(found, &read.state);
        states.note(cell, read.state);
    }
    Ok(())
}
