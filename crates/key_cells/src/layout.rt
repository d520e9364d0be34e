// The layouts of a store file.
ghost use Rattle.std.specs.Prelude.{◌≡◌, ◌↔◌, IsTrue, drop, take};
ghost use Rattle.key_cells.specs.{Image.TellsLayout, Layout.HasSize, Layout.cells_by, Layout.layout_by, Layout.no_more, Layout.store_name};

use crate::body::is_zero;

/// How many cells a store has.
pub const CELLS: usize = 2048;

/// How many bytes a store's file has.
pub const STORE_SIZE: u64 = 2228288;

/// How many bytes the cells of an older store take, with the header.
pub const OLDER_SIZE: u64 = 557120;

const NAME: [u8; 8] = *b"PSASTORE";

/// The byte of the header that tells the layout of now. Any other tells the older one.
pub const CURRENT: u8 = 2;

/// The header of each new store.
pub const HEADER: [u8; 64] = [
    b'P', b'S', b'A', b'S', b'T', b'O', b'R', b'E', CURRENT, 0, 0, 0, 0, 0, 0, 0, 0, 0, 0, 0, 0, 0,
    0, 0, 0, 0, 0, 0, 0, 0, 0, 0, 0, 0, 0, 0, 0, 0, 0, 0, 0, 0, 0, 0, 0, 0, 0, 0, 0, 0, 0, 0, 0, 0,
    0, 0, 0, 0, 0, 0, 0, 0, 0, 0,
];

/// How many cells a store file has.
#[derive(Clone, Copy, Debug, PartialEq, Eq, Drop)]
pub enum Layout {
    /// 512. Such a file may be longer than its cells.
    Older,
    /// 2,048.
    Current,
}

impl Layout {
    /// How many cells a file has.
    pub fn cells(self) -> usize
        ensures { result ≡ cells_by self }
    {
        match self {
            Layout::Older => 512,
            Layout::Current => CELLS,
        }
    }

    /// Whether a file may have so many bytes; one of either layout has the size of an older one.
    pub fn has_size(self, size: u64) -> bool
        ensures { IsTrue result ↔ HasSize self size }
    {
        match self {
            Layout::Older => OLDER_SIZE <= size && size <= STORE_SIZE,
            Layout::Current => size == STORE_SIZE,
        }
    }
}

// The layout by byte 8 of a header.
fn layout_by_byte(header: &[u8; 64]) -> Layout
    ensures { result ≡ layout_by (take 1 (drop 8 header.now)) }
{
    if header[8] == CURRENT {
        Layout::Current
    } else {
        Layout::Older
    }
}

// Whether all else of a header is a store's.
fn is_named(header: &[u8; 64]) -> bool
    ensures { IsTrue result ↔ ((take 8 header.now ≡ store_name) × (take 55 (drop 9 header.now) ≡ no_more)) }
{
    let name: &[u8] = &header[..8];
    name == NAME.as_slice() && is_zero(&header[9..])
}

/// The layout of a file with this header, of so many bytes; none where that is no store's.
pub fn read_layout(header: &[u8; 64], size: u64) -> Option<Layout>
    ensures { TellsLayout result header.now size }
{
    let layout = layout_by_byte(header);
    if is_named(header) && layout.has_size(size) {
        Some(layout)
    } else {
        None
    }
}
