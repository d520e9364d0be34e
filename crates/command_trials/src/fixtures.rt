//! What the top call runs over, in memory.
ghost use Rattle.std.specs.Prelude.{◌≡◌, ◌∷◌, [], ℕ, Some};
ghost use Rattle.driver_dispatch.specs.{Held.no_keys, Calls.Lacks};

use crate::sinks::Narrow;
use admission::Admission;
use command_words::RuleBook;
use disk_face::{Fails, MemoryDisk};
use driver_dispatch::{Devices, Driver, Drivers};
use key_attributes::Attributes;
use outside_io::MemorySource;
use policy_rules::{Label, Verdict, narrow};
use psa_command::{Ended, Exit, run_command};
use psa_status::Status;
use soft_driver::SoftDriver;
use std::alloc::{AllocError, Global};
use std::sync::Wait;
use std::thread::Threads;

/// The location of the secure element.
pub const SECURE_ELEMENT: u32 = 1;

/// A rule that stands alone. The book of a run has none, but holds rules of a type that contracts know.
#[derive(Drop)]
struct LoneRule {
    label: Label,
}

impl Admission for LoneRule {
    ghost labels = { λ rule. rule.label ∷ [] };

    fn apply(&self, attributes: &Attributes) -> Result<Attributes, Status> {
        match narrow(self.label, attributes) {
            Verdict::Keep(kept) => Ok(kept),
            Verdict::Refuse => Err(Status::NotPermitted),
        }
    }
}

/// What a run is over, and the calls of each that fail.
#[derive(Drop)]
pub struct Fixture {
    pub script: Vec<u8>,
    pub reads: Vec<u64>,
    pub write: u64,
    /// What the disk has at first.
    pub store: Vec<u8>,
    pub disk: Fails,
    pub element: Vec<u64>,
}

impl Fixture {
    /// One in which nothing fails, for a script, over these bytes of a store.
    pub fn sound(alloc: Global, script: Vec<u8>, store: Vec<u8>) -> Fixture {
        Fixture {
            script,
            reads: Vec::new(alloc),
            write: u64::MAX,
            store,
            disk: Fails::From(u64::MAX),
            element: Vec::new(alloc),
        }
    }
}

/// What is left of a run.
#[derive(Drop)]
pub struct Ran {
    pub exit: Exit,
    pub disk: MemoryDisk,
    pub replies: Vec<u8>,
}

/// A disk of these bytes that fails so.
pub fn new_disk(alloc: Global, bytes: Vec<u8>, fails: Fails) -> Result<MemoryDisk, AllocError> {
    match MemoryDisk::new(alloc, bytes, fails) {
        Ok(disk) => Ok(disk),
        Err(_) => Err(AllocError),
    }
}

/// Devices that hold no key lack every handle.
pub fn without_keys<A: Devices>(devices: A) -> A
    requires { A.keys devices ≡ Some no_keys }
    ensures { (handle : ℕ) → Lacks (A.keys result) handle }
{
    devices
}

// Runs a script by one worker, and without rules.
fn run_over<A: Devices, R: Threads + Wait + Sync>(
    rt: &R,
    alloc: Global,
    mut source: MemorySource,
    mut sink: Narrow,
    disk: MemoryDisk,
    devices: A,
) -> Ran
    requires { (handle : ℕ) → Lacks (A.keys devices) handle }
{
    let book: RuleBook<LoneRule> = RuleBook::new(alloc);
    let Ended {
        exit,
        disk,
        devices: _,
    } = run_command(
        rt,
        alloc,
        &["run"],
        &mut source,
        &mut sink,
        disk,
        devices,
        book,
    );
    Ran {
        exit,
        disk,
        replies: sink.bytes,
    }
}

/// Runs the script of a fixture. The box of the secure element is made where it is handed down.
pub fn run<R: Threads + Wait + Sync>(
    rt: &R,
    alloc: Global,
    fixture: Fixture,
) -> Result<Ran, AllocError> {
    let Fixture {
        script,
        reads,
        write,
        store,
        disk,
        element,
    } = fixture;
    let Ok(driver) = SoftDriver::new(alloc, SECURE_ELEMENT, element) else {
        return Err(AllocError);
    };
    let mut list: Vec<Box<dyn Driver>> = Vec::new(alloc);
    list.push(Box::new(alloc, driver)?)?;
    let devices = without_keys(Drivers::new(list));
    let source = MemorySource::new(script, reads);
    let sink = Narrow::new(alloc, write);
    let disk = new_disk(alloc, store, disk)?;
    Ok(run_over(rt, alloc, source, sink, disk, devices))
}
