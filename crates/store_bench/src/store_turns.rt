// What is done with a full store, and what becomes of it.
use crate::full::{Task, do_task, full_disk, watch};
use disk_face::MemoryDisk;
use std::alloc::Global;
use std::io;

// Exports the keys of a full store, and once more where it was opened again.
fn exports(alloc: Global) -> Option<(u32, u32)> {
    let (first, disk) = do_task(alloc, full_disk(alloc)?, Task::ExportAll)?;
    let (second, _disk) = do_task(alloc, disk, Task::ExportAll)?;
    Some((first, second))
}

// Which keys of a full store are in memory.
fn watch_full(alloc: Global) -> Option<[bool; 6]> {
    watch(alloc, full_disk(alloc)?)
}

fn word(answer: bool) -> &'static str {
    if answer { "yes" } else { "no" }
}

/// Prints what becomes of a full store, and answers whether no call was refused.
pub fn print_full(rt: &HostRuntime) -> io::Result<bool> {
    let Some((first, second)) = exports(rt.alloc()) else {
        return Ok(false);
    };
    println!(rt; "exported {first} of 2100, and {second} once more")?;
    let Some(seen) = watch_full(rt.alloc()) else {
        return Ok(false);
    };
    let (opened, filled, evicted) = (word(seen[0]), word(seen[1]), word(seen[2]));
    let (other, purged) = (word(seen[3]), word(seen[4]));
    println!(rt;
        "key 1 in memory at first: {opened}, after 384 exports: {filled}, after one more: {evicted}"
    )?;
    println!(rt;
        "key 2 in memory after key 1 was exported again: {other}, key 1 after a purge: {purged}"
    )?;
    let last = word(seen[5]);
    println!(rt;
        "the last 384 of 400 keys in memory after each was exported, and no other: {last}"
    )?;
    Ok(true)
}

// Opens a store so often.
fn open_often(alloc: Global, disk: MemoryDisk, turns: usize) -> Option<u32> {
    let mut disk = disk;
    'openings: for _ in 0..turns {
        disk = do_task(alloc, disk, Task::Open)?.1;
    }
    Some(0)
}

/// Does one thing so often with a full store. `None` where there is no such call, or it is refused.
pub fn run(alloc: Global, call: &str, turns: &str) -> Option<u32> {
    let turns: usize = turns.parse().ok()?;
    let disk = full_disk(alloc)?;
    let task = match call {
        "look" => Task::Look { turns },
        "load" => Task::Load { turns },
        "open" => return open_often(alloc, disk, turns),
        _ => return None,
    };
    Some(do_task(alloc, disk, task)?.0)
}
