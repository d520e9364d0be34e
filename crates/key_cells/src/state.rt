// What is known of a cell.
ghost use Rattle.std.specs.Prelude.{◌≡◌};

/// What the directory knows of a cell.
#[derive(Clone, Copy, Debug, PartialEq, Eq, Drop)]
pub enum CellState {
    /// Closed, and all zeros on the disk.
    Free,
    /// Open, with a key of this identifier and creation number.
    Open { id: u32, creation: u64 },
    /// In doubt: closed on the disk, and its body may be anything.
    Shut,
    /// In doubt: its body is whole on the disk, and its gate may be anything.
    Unsure,
}

impl CellState {
    ghost use Rattle.key_cells.specs.Contents.{is_open, has_id};

    // Whether the cell has a key that isn't in doubt.
    pub fn has_key(&self) -> bool
        ensures { result ≡ is_open self.now }
    {
        match self {
            CellState::Free => false,
            CellState::Open { .. } => true,
            CellState::Shut => false,
            CellState::Unsure => false,
        }
    }

    // Whether the cell has the key of this identifier.
    pub fn has(&self, id: u32) -> bool
        ensures { result ≡ has_id id self.now }
    {
        match self {
            CellState::Free => false,
            CellState::Open { id: own, .. } => *own == id,
            CellState::Shut => false,
            CellState::Unsure => false,
        }
    }
}
