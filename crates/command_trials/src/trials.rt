//! Trials of sections: their runs, and what is printed of each.
use crate::client::try_client;
use crate::crashes::{crashes, tell_end};
use crate::fixtures::{Fixture, Ran, run};
use crate::meeting::try_meeting;
use crate::ranges::try_ranges;
use crate::sections::{Section, Trial, range};
use crate::texts::Text;
use disk_face::Fails;
use std::alloc::{AllocError, Global};
use std::sync::Wait;
use std::thread::Threads;

/// How many bytes a store of the older layout has.
const OLDER_SIZE: usize = 557_120;

/// How long the comment is in front of a script a read of which fails: more than one piece, which has 65,536 bytes.
const COMMENT: usize = 70_000;

// Sets a byte of a store.
fn set(store: &mut Vec<u8>, place: usize, byte: u8) {
    if place < store.len() {
        store[place] = byte;
    }
}

// The bytes of a store that a script makes.
fn whole_store<R: Threads + Wait + Sync>(
    rt: &R,
    alloc: Global,
    script: &[u8],
) -> Result<Vec<u8>, AllocError> {
    let made = run(
        rt,
        alloc,
        Fixture::sound(alloc, script.to_vec(alloc)?, Vec::new(alloc)),
    )?;
    made.disk.bytes().to_vec(alloc)
}

// The same, with the last two of four cells closed but not cleared: by another first byte.
fn store_left_over<R: Threads + Wait + Sync>(
    rt: &R,
    alloc: Global,
    script: &[u8],
) -> Result<Vec<u8>, AllocError> {
    let mut store = whole_store(rt, alloc, script)?;
    set(&mut store, 2240, 0);
    set(&mut store, 3328, 0xa4);
    Ok(store)
}

// The bytes of a store of the older layout with the keys that a script makes, and with rubbish behind its cells.
fn older_store<R: Threads + Wait + Sync>(
    rt: &R,
    alloc: Global,
    script: &[u8],
) -> Result<Vec<u8>, AllocError> {
    let made = whole_store(rt, alloc, script)?;
    let mut store = Vec::new(alloc);
    store.extend_from_slice(front(&made, OLDER_SIZE))?;
    set(&mut store, 8, 1);
    store.extend_from_slice(&[0xa5; 5000])?;
    Ok(store)
}

// The first bytes of some, as many as there are up to a number.
fn front(bytes: &[u8], count: usize) -> &[u8] {
    bytes.get(..count).unwrap_or(bytes)
}

// A script behind a long comment.
fn behind_comment(alloc: Global, script: &[u8]) -> Result<Vec<u8>, AllocError> {
    let mut long = vec![in alloc; b'#'; COMMENT]?;
    long.push(b'\n')?;
    long.extend_from_slice(script)?;
    Ok(long)
}

// What the run of a section reads.
fn script_of(alloc: Global, section: &Section) -> Result<Vec<u8>, AllocError> {
    match section.trial {
        Trial::LeftOver | Trial::OlderFrom | Trial::OlderOnce => Ok(Vec::new(alloc)),
        Trial::Read => behind_comment(alloc, section.script.bytes()),
        _ => section.script.bytes().to_vec(alloc),
    }
}

// Which of its reads fail.
fn reads_of(alloc: Global, section: &Section, number: u64) -> Result<Vec<u64>, AllocError> {
    match section.trial {
        Trial::Read => range(alloc, number, number),
        _ => Ok(Vec::new(alloc)),
    }
}

// Which of its writes fails.
fn write_of(section: &Section, number: u64) -> u64 {
    match section.trial {
        Trial::Write => number,
        _ => u64::MAX,
    }
}

// What its disk has at first.
fn store_of<R: Threads + Wait + Sync>(
    rt: &R,
    alloc: Global,
    section: &Section,
) -> Result<Vec<u8>, AllocError> {
    match section.trial {
        Trial::LeftOver => store_left_over(rt, alloc, section.script.bytes()),
        Trial::OlderFrom | Trial::OlderOnce => older_store(rt, alloc, section.script.bytes()),
        _ => Ok(Vec::new(alloc)),
    }
}

// Which calls of its disk fail.
fn disk_of(alloc: Global, section: &Section, number: u64) -> Result<Fails, AllocError> {
    let listed = match section.trial {
        Trial::DiskFrom | Trial::LeftOver | Trial::OlderFrom => return Ok(Fails::From(number)),
        Trial::DiskOnce | Trial::OlderOnce => range(alloc, number, number)?,
        Trial::DiskThrice => range(alloc, number, number.saturating_add(2))?,
        Trial::DiskListed => section.numbers.to_vec(alloc)?,
        _ => return Ok(Fails::From(u64::MAX)),
    };
    Ok(Fails::Listed(listed))
}

// The fixture of the run of a section for one of its numbers.
fn room_of<R: Threads + Wait + Sync>(
    rt: &R,
    alloc: Global,
    section: &Section,
    number: u64,
) -> Result<Fixture, AllocError> {
    Ok(Fixture {
        script: script_of(alloc, section)?,
        reads: reads_of(alloc, section, number)?,
        write: write_of(section, number),
        store: store_of(rt, alloc, section)?,
        disk: disk_of(alloc, section, number)?,
        element: section.element.to_vec(alloc)?,
    })
}

// Prints how a run ended, what it left in the cells, how much of its replies was taken, and that.
fn tell_run(ran: &Ran, page: &mut Text) -> Result<(), AllocError> {
    tell_end(ran, page)?;
    page.add(", bytes of replies: ")?;
    page.add_number(ran.replies.len() as u64)?;
    page.add("\n")?;
    page.add_replies(&ran.replies)
}

// Prints the heading of a section or of one of its runs.
fn tell_heading(section: &Section, numbers: &[u64], page: &mut Text) -> Result<(), AllocError> {
    page.add_heading(section.name.as_str(), numbers)?;
    if section.element.is_empty() {
        return Ok(());
    }
    page.add_heading("element", &section.element)
}

// Does a run of a section for one of its numbers, and prints what comes of it under this heading.
fn try_run<R: Threads + Wait + Sync>(
    rt: &R,
    alloc: Global,
    section: &Section,
    number: u64,
    heading: &[u64],
    page: &mut Text,
) -> Result<(), AllocError> {
    tell_heading(section, heading, page)?;
    let ran = run(rt, alloc, room_of(rt, alloc, section, number)?)?;
    tell_run(&ran, page)?;
    for crash in &crashes(rt, alloc, &ran.disk)? {
        page.add_replies(crash.bytes())?;
    }
    Ok(())
}

// Does the runs of a section, one a number.
fn try_each<R: Threads + Wait + Sync>(
    rt: &R,
    alloc: Global,
    section: &Section,
    page: &mut Text,
) -> Result<(), AllocError> {
    for number in &section.numbers {
        try_run(rt, alloc, section, *number, &[*number], page)?;
    }
    Ok(())
}

/// Does what a section says, and prints what comes of it.
pub fn try_section<R: Threads + Wait + Sync>(
    rt: &R,
    alloc: Global,
    section: &Section,
    page: &mut Text,
) -> Result<(), AllocError> {
    match section.trial {
        Trial::Meet => {
            tell_heading(section, &[], page)?;
            try_meeting(rt, alloc, section.script.bytes(), page)
        }
        Trial::Client => {
            tell_heading(section, &[], page)?;
            try_client(rt, alloc, &section.element, page)
        }
        Trial::Ranges => {
            tell_heading(section, &[], page)?;
            try_ranges(rt, alloc, page)
        }
        Trial::DiskListed => try_run(rt, alloc, section, 0, &section.numbers, page),
        _ => try_each(rt, alloc, section, page),
    }
}
