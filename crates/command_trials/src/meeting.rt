//! Two sessions in threads of their own, each of which is held within a call until the other has come to a point of its own.
ghost use Rattle.std.specs.Prelude.{◌≤◌, ℕ, All, length};
ghost use Rattle.driver_dispatch.specs.Calls.{Lacks};
ghost use Rattle.script_lang.specs.Prelude.{IsOfSession};

use crate::fixtures::{new_disk, without_keys};
use crate::texts::Text;
use admission::{Admission, Rules};
use caller_service::{Closed, Limits, Service};
use callers::{Gate, GatePoint};
use disk_face::{Disk, Fails};
use driver_dispatch::{Devices, Drivers};
use psa_status::Memory;
use script_lang::{Replies, ReplyForm, Script, read_script};
use session_host::run_sessions;
use std::alloc::{AllocError, Global};
use std::sync::Wait;
use std::sync::atomic::{AtomicU64, Ordering};
use std::thread::{self, Threads};
use turn_history::{Historic, Pass};

/// So many looks at most, at what the other session has done.
const LOOKS: u32 = 300_000_000;

/// After so many looks the processor is left to others once.
const LOOKS_AT_ONCE: u32 = 1024;

/// Where the further call of session 1 was held: nowhere yet, with a lease, or with a slot for the key that it makes.
const NOWHERE: u64 = 0;

const READING: u64 = 1;

const FILLING: u64 = 2;

/// A gate that holds session 2 behind its first call until session 1 is within its second, and session 1 there until
/// session 2 has its second answer.
#[derive(Drop)]
struct Meeting {
    /// How many answers the two sessions have.
    answers_of_1: AtomicU64,
    answers_of_2: AtomicU64,
    /// Where session 1 is held, once it is.
    held_at: AtomicU64,
    /// How many holds have reached their limit.
    limits: AtomicU64,
}

impl Meeting {
    fn new() -> Meeting {
        Meeting {
            answers_of_1: AtomicU64::new(0),
            answers_of_2: AtomicU64::new(0),
            held_at: AtomicU64::new(NOWHERE),
            limits: AtomicU64::new(0),
        }
    }

    // Looks until a count is as high, up to the limit.
    fn wait_for(&self, count: &AtomicU64, least: u64) {
        for looks in 0..LOOKS {
            if count.load(Ordering::SeqCst) >= least {
                return;
            }
            if looks % LOOKS_AT_ONCE == 0 {
                thread::yield_now();
            }
        }
        self.limits.fetch_add(1, Ordering::SeqCst);
    }

    // Holds session 1, if it has its first answer.
    fn hold_first(&self, place: u64) {
        if self.answers_of_1.load(Ordering::SeqCst) == 1 {
            self.held_at.store(place, Ordering::SeqCst);
            self.wait_for(&self.answers_of_2, 2);
        }
    }

    // Counts an answer of session 2, and holds it if that is its first.
    fn hold_second(&self) {
        if self.answers_of_2.fetch_add(1, Ordering::SeqCst) == 0 {
            self.wait_for(&self.held_at, READING);
        }
    }
}

impl Gate for Meeting {
    fn hold<V: Historic>(&self, caller: u8, _pass: &Pass<V>, point: GatePoint) {
        match (caller, point) {
            (1, GatePoint::Reading) => self.hold_first(READING),
            (1, GatePoint::Filling) => self.hold_first(FILLING),
            (1, GatePoint::Answered) => {
                self.answers_of_1.fetch_add(1, Ordering::SeqCst);
            }
            (2, GatePoint::Answered) => self.hold_second(),
            _ => {}
        }
    }
}

/// What comes of two sessions that meet.
#[derive(Drop)]
struct Met {
    replies: Vec<Replies>,
    held_at: u64,
    limits: u64,
}

// Runs the sessions of a script by two workers through a gate.
fn run_meeting<D: Disk + Send + Drop, A: Devices, C: Admission, R: Threads + Wait + Sync>(
    rt: &R,
    alloc: Global,
    script: &Script,
    disk: D,
    devices: A,
    rules: C,
) -> Result<Met, AllocError>
    requires sessions { All IsOfSession script.now.lines }
    requires few { length script.now.lines ≤ 20000 }
    requires empty { (handle : ℕ) → Lacks (A.keys devices) handle }
{
    let opened = Service::open(
        alloc,
        disk,
        devices,
        rules,
        Limits::Whole,
        &[0; 32],
        40_000,
        Meeting::new(),
    );
    let Ok((service, mut callers)) = opened else {
        return Err(AllocError);
    };
    let form = ReplyForm::Unranked;
    let ran = run_sessions(
        rt,
        alloc,
        &service,
        &script.names(),
        script.lines(),
        2,
        form,
        &mut callers,
    );
    let held_at = service.gate.held_at.load(Ordering::SeqCst);
    let limits = service.gate.limits.load(Ordering::SeqCst);
    let Closed {
        disk: _disk,
        devices: _devices,
        ended: _ended,
    } = service.close(rt, callers);
    match ran {
        Ok(replies) => Ok(Met {
            replies,
            held_at,
            limits,
        }),
        Err(Memory) => Err(AllocError),
    }
}

// Prints the replies of each session, where session 1 was held, and how many holds reached their limit.
fn tell_meeting(met: &Met, page: &mut Text) -> Result<(), AllocError> {
    for own in &met.replies {
        page.add_replies(&own.text)?;
    }
    page.add(match met.held_at {
        READING => "held with a lease",
        FILLING => "held with a slot",
        _ => "not held",
    })?;
    page.add(", holds at their limit: ")?;
    page.add_number(met.limits)?;
    page.add("\n")
}

/// Runs a script of two sessions over a new store, through a gate, and prints what comes of it.
pub fn try_meeting<R: Threads + Wait + Sync>(
    rt: &R,
    alloc: Global,
    script: &[u8],
    page: &mut Text,
) -> Result<(), AllocError> {
    let Ok(script) = read_script(alloc, script) else {
        return page.add("no script\n");
    };
    let disk = new_disk(alloc, Vec::new(alloc), Fails::From(u64::MAX))?;
    let devices = without_keys(Drivers::new(Vec::new(alloc)));
    let rules = Rules::pick(Vec::new(alloc), &[]);
    let met = run_meeting(rt, alloc, &script, disk, devices, rules)?;
    tell_meeting(&met, page)
}
