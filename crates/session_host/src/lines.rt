// A store that is opened for the lines of a script, and closed after them.
ghost use Rattle.std.specs.Prelude.{◌≡◌, ◌≤◌, ◌⊎◌, List, ℕ, All, MatchResult, length};
ghost use Rattle.driver_dispatch.specs.Calls.{Lacks};
ghost use Rattle.script_lang.specs.Prelude.{IsOfSession};
ghost use Rattle.session_host.specs.Runs.{AreAnswers, AreNumbered, IsOwnersRange, IsUnanswered, limits_by, unanswered_by};

use crate::running::run_sessions;
use admission::Admission;
use caller_service::{Closed, Service};
use callers::NoGate;
use disk_face::Disk;
use driver_dispatch::Devices;
use key_cells::OpenFault;
use owner_space::Names;
use psa_status::Memory;
use script_lang::{Replies, ReplyForm, ScriptLine};
use std::alloc::Global;
use std::sync::Wait;
use std::thread::Threads;
use store_core::StoreFault;
use store_model::Limits;

/// How much the calls of one session may count together: the most that a service grants.
const BUDGET: u64 = 1 << 48;

/// Why lines have no replies.
#[derive(Clone, Copy, Debug, PartialEq, Eq, Drop)]
pub enum Unanswered {
    /// The store wasn't opened.
    NotOpened(OpenFault),
    /// Nor was it since this owner, 0 to 15, has more keys in it than an owner may have.
    OverQuota { owner: u8 },
    /// Memory ran out after that.
    Memory,
}

/// The replies to lines, by session, or why there are none; the disk, and the devices.
pub struct Run<D, A> {
    pub replies: Result<Vec<Replies>, Unanswered>,
    pub disk: D,
    pub devices: A,
}

/// The limits of a store whose sessions name keys so: each owner's keys have one of their own.
fn limits_by(names: &Names) -> Limits
    ensures { result ≡ limits_by names.now }
{
    match names {
        Names::Unowned => Limits::Whole,
        Names::Owned(_) => Limits::PerRange,
    }
}

/// Why lines have no replies whose store isn't opened.
fn not_opened(fault: StoreFault) -> Unanswered
    requires { IsOwnersRange fault }
    ensures { result ≡ unanswered_by fault }
{
    match fault {
        StoreFault::File(fault) => Unanswered::NotOpened(fault),
        StoreFault::RangeFull { range } => Unanswered::OverQuota { owner: range as u8 },
    }
}

/// Opens the store of a disk, or makes one on a disk of length 0, makes the calls of a script's lines, whose sessions name keys
/// so, by so many workers, and closes the store. The replies are kept in this form.
pub fn answer_lines<D: Disk + Send, A: Devices, C: Admission, R: Threads + Wait + Sync>(
    rt: &R,
    alloc: Global,
    lines: &[ScriptLine],
    names: &Names,
    workers: u8,
    form: ReplyForm,
    seed: &[u8; 32],
    disk: D,
    devices: A,
    rules: C,
) -> Run<D, A>
    requires sessions { All IsOfSession lines.now }
    requires owners { AreNumbered names.now }
    requires few { length lines.now ≤ 20000 }
    requires first { 1 ≤ workers }
    requires last { workers ≤ 16 }
    requires empty { (handle : ℕ) → Lacks (A.keys devices) handle }
    ensures { MatchResult result.replies
        (λ replies. AreAnswers D.Disk A.Devices C.Admission disk devices (C.labels rules) seed.now names.now workers lines.now form replies.items result.disk result.devices)
        (λ why. IsUnanswered D.Disk A.Devices C.Admission disk devices (C.labels rules) seed.now names.now lines.now why result.disk result.devices) }
{
    let limits = limits_by(names);
    let (service, mut callers) = match Service::open(
        alloc, disk, devices, rules, limits, seed, BUDGET, NoGate,
    ) {
        Ok(opened) => opened,
        Err(unopened) => {
            return Run {
                replies: Err(not_opened(unopened.fault)),
                disk: unopened.disk,
                devices: unopened.devices,
            };
        }
    };
    let ran = run_sessions(
        rt,
        alloc,
        &service,
        names,
        lines,
        workers,
        form,
        &mut callers,
    );
    let Closed {
        disk,
        devices,
        ended: _ended,
    } = service.close(rt, callers);
    match ran {
        Ok(replies) => Run {
            replies: Ok(replies),
            disk,
            devices,
        },
        Err(Memory) => Run {
            replies: Err(Unanswered::Memory),
            disk,
            devices,
        },
    }
}
