//! What a crash may leave of a disk.
ghost use Rattle.std.specs.Prelude.{◌≡◌, length, IfOk};

use crate::cells::cells_of;
use crate::fixtures::{Fixture, Ran, run};
use crate::texts::Text;
use disk_face::MemoryDisk;
use key_cells::{FoundKey, InspectFault, inspect};
use std::alloc::{AllocError, Global};
use std::sync::Wait;
use std::thread::Threads;

const EXPORTS: &[u8] = b"1 export #5\n1 export #6\n";

// How many choices of pending writes there are: none of them, all of them, and each alone where that is another.
fn choices(pending: usize) -> usize {
    match pending {
        0 => 1,
        1 => 2,
        _ => pending.saturating_add(2),
    }
}

// The choice of this number.
fn choice(alloc: Global, number: usize, pending: usize) -> Result<Vec<bool>, AllocError>
    ensures { IfOk result (λ kept. length kept.items ≡ pending) }
{
    let mut kept = vec![in alloc; number == 1; pending]?;
    if 2 <= number && number - 2 < pending {
        kept[number - 2] = true;
    }
    Ok(kept)
}

/// Prints how a run ended, and what it left in the cells.
pub fn tell_end(ran: &Ran, page: &mut Text) -> Result<(), AllocError> {
    page.add("status ")?;
    page.add_number(u64::from(ran.exit.status()))?;
    page.add(", ")?;
    page.add(cells_of(ran.disk.bytes()))
}

// Adds a key: its identifier, and its bytes in hex.
fn add_key(alloc: Global, key: &FoundKey, page: &mut Text) -> Result<(), AllocError> {
    page.add(" ")?;
    page.add_number(u64::from(key.attributes.id.0))?;
    page.add("=")?;
    page.add(hex::encode(alloc, key.bytes.as_slice())?.as_str())
}

// Prints the keys that an inspection of an image finds, in the order of their cells, or why it finds none.
fn tell_inspection(alloc: Global, image: &[u8], page: &mut Text) -> Result<(), AllocError> {
    let keys = match inspect(alloc, image) {
        Ok(keys) => keys,
        Err(InspectFault::Memory) => return Err(AllocError),
        Err(InspectFault::NotAStore) => return page.add("no store is found\n"),
        Err(InspectFault::DamagedCell { cell: _ }) => return page.add("a damaged cell is found\n"),
    };
    page.add("keys that are found:")?;
    if keys.is_empty() {
        page.add(" none")?;
    }
    for key in &keys {
        add_key(alloc, key, page)?;
    }
    page.add("\n")
}

// What an inspection finds in an image, and what a second run on it tells and exports.
fn reopened<R: Threads + Wait + Sync>(
    rt: &R,
    alloc: Global,
    image: Vec<u8>,
) -> Result<Text, AllocError> {
    let mut page = Text::new(alloc);
    page.add("after a crash: ")?;
    tell_inspection(alloc, &image, &mut page)?;
    let ran = run(
        rt,
        alloc,
        Fixture::sound(alloc, EXPORTS.to_vec(alloc)?, image),
    )?;
    tell_end(&ran, &mut page)?;
    page.add("\n")?;
    page.add_replies(&ran.replies)?;
    Ok(page)
}

// Whether a page is among others.
fn is_among(page: &Text, others: &[Text]) -> bool {
    for other in others {
        if page.bytes() == other.bytes() {
            return true;
        }
    }
    false
}

/// What is told of the images that a crash may leave, each that is another once.
pub fn crashes<R: Threads + Wait + Sync>(
    rt: &R,
    alloc: Global,
    disk: &MemoryDisk,
) -> Result<Vec<Text>, AllocError> {
    let mut pages = Vec::new(alloc);
    let pending = disk.pending();
    for number in 0..choices(pending) {
        let Ok(image) = disk.image(&choice(alloc, number, pending)?) else {
            return Err(AllocError);
        };
        let page = reopened(rt, alloc, image)?;
        if !is_among(&page, &pages) {
            pages.push(page)?;
        }
    }
    Ok(pages)
}
