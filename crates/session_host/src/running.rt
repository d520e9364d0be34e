// All sessions, run on worker threads.
ghost use Rattle.std.specs.Prelude.{◌≡◌, ◌≤◌, ◌<◌, ◌*◌, [], ℕ, All, IfOk, true, length, get_or, vec_capacity};
ghost use Rattle.locked_store.specs.Prelude.{world};
ghost use Rattle.caller_service.specs.Staff.{AreStaff};
ghost use Rattle.script_lang.specs.Prelude.{IsOfSession};
ghost use Rattle.session_host.specs.{Workers.HasWorked, Workers.HaveRun, Dealing.IsFree, Running.HaveKept, Running.HaveMade, Running.HaveSeen};

use crate::dealing::{SESSIONS, deal, free, gather, new_workers};
use crate::worker::Worker;
use admission::Admission;
use caller_service::Service;
use callers::{Caller, Gate};
use disk_face::Disk;
use driver_dispatch::Devices;
use owner_space::Names;
use psa_status::Memory;
use script_lang::{Replies, ReplyForm, ScriptLine};
use std::alloc::Global;
use std::sync::Wait;
use std::thread::{self, Threads};

// Runs the lines of all workers, each in a thread of its own.
fn run_workers<D: Disk + Send, A: Devices, C: Admission, G: Gate, R: Threads + Wait + Sync>(
    rt: &R,
    alloc: Global,
    service: &Service<D, A, C, G>,
    names: &Names,
    lines: &[ScriptLine],
    workers: &mut [Worker<D, A, C>],
)
    requires some { 0 < length workers.old }
    requires begun { All (HaveRun (world service.now.shared) names.now []) workers.old }
    requires few { length lines.now ≤ 20000 }
    requires budget { 2 * length lines.now ≤ service.now.worn }
    ensures { (k : ℕ) (d : _) → k < length workers.old → HasWorked (world service.now.shared) names.now lines.now (get_or workers.old k d) (get_or workers.new k d) }
{
    let threads = workers.len();
    thread::for_each_mut(
        rt,
        workers,
        threads,
        &|_place, worker: &mut Worker<D, A, C>|
            requires begun { HaveRun (world service.now.shared) names.now [] worker.now }
            requires few { length lines.now ≤ 20000 }
            requires budget { 2 * length lines.now ≤ service.now.worn }
            ensures { HasWorked (world service.entry.now.shared) names.entry.now lines.entry.now worker.entry.now worker.exit.now }
        { worker.run(rt, alloc, service, names, lines) },
    );
}

// Whether each worker has run all its lines.
fn are_whole<D: Disk, A: Devices, C: Admission>(workers: &[Worker<D, A, C>]) -> bool
    ensures { result ≡ true → (k : ℕ) (d : _) → k < length workers.now → (get_or workers.now k d).whole ≡ true }
{
    for worker in workers {
        if !worker.whole {
            return false;
        }
    }
    true
}

// Deals the callers to workers without a session, has these run the lines, and takes callers and replies back. Answers whether
// all lines were run.
fn run_dealt<D: Disk + Send, A: Devices, C: Admission, G: Gate, R: Threads + Wait + Sync>(
    rt: &R,
    alloc: Global,
    service: &Service<D, A, C, G>,
    names: &Names,
    lines: &[ScriptLine],
    form: ReplyForm,
    workers: &mut [Worker<D, A, C>],
    callers: &mut Vec<Caller<D, A, C>>,
    replies: &mut Vec<Replies>,
) -> bool
    requires some { 0 < length workers.old }
    requires free { All IsFree workers.old }
    requires staff { AreStaff (world service.now.shared) callers.old.items }
    requires replies { (replies.old.items ≡ []) × (16 ≤ vec_capacity replies.old) }
    requires sessions { All IsOfSession lines.now }
    requires few { length lines.now ≤ 20000 }
    requires budget { 2 * length lines.now ≤ service.now.worn }
    ensures made { HaveMade (world service.now.shared) names.now lines.now callers.new.items }
    ensures answered { result ≡ true → HaveKept (world service.now.shared) names.now lines.now callers.new.items form replies.new.items }
    ensures one_worker { result ≡ true → length workers.old ≡ 1 → HaveSeen lines.now callers.new.items }
    ensures emptied { All (λ t. t.sessions.items ≡ []) workers.new }
{
    deal(alloc, service, form, callers, workers);
    run_workers(rt, alloc, service, names, lines, workers);
    let whole = are_whole(workers);
    gather(workers, callers, replies);
    whole
}

/// Makes the calls of a script's lines, whose sessions name keys so, where session s is caller s: worker w runs those of the sessions that are w modulo
/// their count, in the order of the script. Answers the replies by session, which are kept in this form. Fails where memory
/// runs out: then the calls that each caller has made are the first of its session's. The callers come back.
pub fn run_sessions<D: Disk + Send, A: Devices, C: Admission, G: Gate, R: Threads + Wait + Sync>(
    rt: &R,
    alloc: Global,
    service: &Service<D, A, C, G>,
    names: &Names,
    lines: &[ScriptLine],
    workers: u8,
    form: ReplyForm,
    callers: &mut Vec<Caller<D, A, C>>,
) -> Result<Vec<Replies>, Memory>
    requires first { 1 ≤ workers }
    requires last { workers ≤ 16 }
    requires staff { AreStaff (world service.now.shared) callers.old.items }
    requires sessions { All IsOfSession lines.now }
    requires few { length lines.now ≤ 20000 }
    requires budget { 2 * length lines.now ≤ service.now.worn }
    ensures made { HaveMade (world service.now.shared) names.now lines.now callers.new.items }
    ensures answered { IfOk result (λ replies. HaveKept (world service.now.shared) names.now lines.now callers.new.items form replies.items) }
    ensures one_worker { workers ≡ 1 → IfOk result (λ replies. HaveSeen lines.now callers.new.items) }
{
    let Ok(mut replies) = Vec::with_capacity(alloc, SESSIONS) else {
        return Err(Memory);
    };
    let mut workers = new_workers(alloc, usize::from(workers))?;
    let whole = run_dealt(
        rt,
        alloc,
        service,
        names,
        lines,
        form,
        &mut workers,
        callers,
        &mut replies,
    );
    free(workers);
    if whole { Ok(replies) } else { Err(Memory) }
}
