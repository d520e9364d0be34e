//! What stands in the cells of a store.

/// How long a store's header is, and a cell.
const HEADER: usize = 64;

const CELL: usize = 1088;

/// The first byte of an open cell.
const OPEN: u8 = 0xa5;

// Whether each byte is 0.
fn are_zeros(bytes: &[u8]) -> bool {
    for byte in bytes {
        if *byte != 0 {
            return false;
        }
    }
    true
}

// Whether each cell is open or all zeros.
fn are_clean(cells: &[u8]) -> bool {
    for cell in cells.chunks(CELL) {
        if cell.first() != Some(&OPEN) && !are_zeros(cell) {
            return false;
        }
    }
    true
}

/// What a store's cells are: whether the first is open, and whether each that isn't open has no bytes.
pub fn cells_of(store: &[u8]) -> &'static str {
    let Some((_header, cells)) = store.split_at_checked(HEADER) else {
        return "no cells";
    };
    match (cells.first() == Some(&OPEN), are_clean(cells)) {
        (true, true) => "cell 0 open, closed cells clean",
        (true, false) => "cell 0 open, bytes in closed cells",
        (false, true) => "cell 0 closed, closed cells clean",
        (false, false) => "cell 0 closed, bytes in closed cells",
    }
}
