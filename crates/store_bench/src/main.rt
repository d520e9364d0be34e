//! Figures of the key store and of its parts: it does one thing again and again, so that its time can be taken from outside.
//! With a store of 2,048 keys it exports a key that is in memory or one that has to be read from the file first, or opens the
//! store. It makes a call of a table of 384 keys; opens a full store file, makes 2,048 keys in a new one, looks for one of
//! 2,048 keys, or makes and destroys one more among so many; runs an algorithm over a text of zeros, and prints the front of
//! its last output; or updates an operation. With no words it prints what becomes of a full store, and digests a block once.
#![tactic(auto)]

mod algorithms;
mod changing;
mod file_turns;
mod full;
mod jobs;
mod keeper;
mod plain_disk;
mod reading;
mod slot_keys;
mod slot_turns;
mod store_file;
mod store_turns;
mod turns;
mod updates;

use jobs::{Algorithm, Family, Job, Work};
use std::process::ExitCode;
use std::{env, io};

const USAGE: &str =
    "usage: store_bench [CALL TURNS | slots CALL TURNS | file CALL TURNS | file change KEYS TURNS | NAME BYTES TURNS]
CALL of the store is look, load or open, of slots find, lease or oldest, and of file open, create or find.
NAME is sha2, sha256, hmac, cmac, ecb, ecb_decryption, cbc, cbc_decryption, ctr, gcm, ccm or pbkdf2, or the update
of an operation:
sha256_update, hmac_update, cmac_update, ctr_update, cbc_update, gcm_update or ccm_update.
BYTES is a multiple of 16, from 16 to 65536.";

// Runs an algorithm over a text of zeros.
fn run_whole(rt: &HostRuntime, algorithm: Algorithm, job: Job) -> io::Result<()> {
    let mut text = vec![in rt.alloc(); 0u8; job.bytes]?;
    let front = algorithms::run(algorithm, &mut text, job.turns);
    println!(rt; "{front:016x}")
}

// Updates an operation with a text of zeros.
fn run_updates(rt: &HostRuntime, family: Family, job: Job) -> io::Result<()> {
    let text = vec![in rt.alloc(); 0u8; job.bytes]?;
    let mut out = vec![in rt.alloc(); 0u8; 65536]?;
    match updates::run(family, &text, &mut out, job.turns) {
        Ok(()) => println!(rt; "updated"),
        Err(_) => println!(rt; "refused"),
    }
}

// Runs the job that words ask for, and answers whether they ask for one.
fn run_job(rt: &HostRuntime, name: &str, bytes: &str, turns: &str) -> io::Result<bool> {
    let Some(job) = Job::asked_by(name, bytes, turns) else {
        return Ok(false);
    };
    match job.work {
        Work::Whole(algorithm) => run_whole(rt, algorithm, job)?,
        Work::Update(family) => run_updates(rt, family, job)?,
    }
    Ok(true)
}

// Does what words ask for, and answers whether they ask for something that isn't refused.
fn run(rt: &HostRuntime, words: &[&str]) -> io::Result<bool> {
    match words {
        [] => Ok(store_turns::print_full(rt)? && run_job(rt, "sha256", "16", "1")?),
        [call, turns] => Ok(store_turns::run(rt.alloc(), call, turns).is_some()),
        ["slots", call, turns] => Ok(slot_turns::run(rt.alloc(), call, turns).is_some()),
        ["file", "change", keys, turns] => Ok(store_file::change(
            rt.alloc(),
            keys,
            turns,
        ).is_some()),
        ["file", call, turns] => Ok(store_file::run(rt.alloc(), call, turns).is_some()),
        [name, bytes, turns] => run_job(rt, name, bytes, turns),
        _ => Ok(false),
    }
}

fn main(rt: HostRuntime) -> io::Result<ExitCode> {
    let mut arguments = Vec::new(rt.alloc());
    for argument in env::args(&rt)?.skip(1) {
        arguments.push(argument)?;
    }
    let mut words = Vec::new(rt.alloc());
    for argument in &arguments {
        words.push(argument.as_str())?;
    }
    if run(&rt, &words)? {
        return Ok(ExitCode::SUCCESS);
    }
    eprintln!(rt; "{USAGE}")?;
    Ok(ExitCode::FAILURE)
}
