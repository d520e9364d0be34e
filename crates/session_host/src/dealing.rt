// The sessions, dealt to the threads that run them.
ghost use Rattle.std.specs.Prelude.{◌≡◌, ◌≤◌, ◌<◌, ◌+◌, [], ℕ, All, IfOk, length, get_or, vec_capacity, vec_len};
ghost use Rattle.locked_store.specs.Prelude.{world};
ghost use Rattle.caller_service.specs.Staff.{AreStaff};
ghost use Rattle.owner_space.specs.declared.names.Names.{Names};
ghost use Rattle.session_host.specs.Dealing.{AreDealt, AreTaken, HaveOwn, IsFree};

use crate::session::Session;
use crate::worker::{Spacing, Worker};
use admission::Admission;
use caller_service::Service;
use callers::{Caller, Gate};
use disk_face::Disk;
use driver_dispatch::Devices;
use psa_status::Memory;
use script_lang::{Replies, ReplyForm};
use secret_bytes::let_zeros_go;
use std::alloc::Global;

/// How many sessions there are.
pub const SESSIONS: usize = 16;

/// The bytes of the longest output buffer that a line can ask for.
const OUTPUT_BYTES: usize = 16448;

// A worker without a session.
fn new_worker<D: Disk, A: Devices, C: Admission>(alloc: Global) -> Result<Worker<D, A, C>, Memory>
    ensures { IfOk result IsFree }
{
    let Ok(buffer) = vec![in alloc; 0u8; OUTPUT_BYTES] else {
        return Err(Memory);
    };
    let Ok(sessions) = Vec::with_capacity(alloc, SESSIONS) else {
        return Err(Memory);
    };
    Ok(Worker {
        sessions,
        last: None,
        buffer,
        whole: false,
        spacing: Spacing::new(),
    })
}

/// Lets workers go that have no session. Their buffers are zeros first.
pub fn free<D: Disk, A: Devices, C: Admission>(workers: Vec<Worker<D, A, C>>)
    requires { All (λ t. t.sessions.items ≡ []) workers.items }
{
    let mut workers = workers;
    while let Some(worker) = workers.pop() {
        let Worker {
            sessions,
            last: _last,
            mut buffer,
            whole: _whole,
            spacing: _spacing,
        } = worker;
        sessions.destroy_empty();
        let count = buffer.len();
        buffer.fill(0);
        let_zeros_go(buffer, count);
    }
    workers.destroy_empty();
}

/// Workers without a session.
pub fn new_workers<D: Disk, A: Devices, C: Admission>(
    alloc: Global,
    count: usize,
) -> Result<Vec<Worker<D, A, C>>, Memory>
    ensures count { IfOk result (λ workers. length workers.items ≡ count) }
    ensures free { IfOk result (λ workers. All IsFree workers.items) }
{
    let Ok(mut workers) = Vec::with_capacity(alloc, count) else {
        return Err(Memory);
    };
    for _ in 0..count {
        match new_worker(alloc) {
            Ok(worker) => workers.push_reserved(worker),
            Err(Memory) => {
                free(workers);
                return Err(Memory);
            }
        }
    }
    Ok(workers)
}

/// Deals the callers to the workers: session s is run by worker s modulo their count, and its replies are kept in this form.
pub fn deal<D: Disk, A: Devices, C: Admission, G: Gate>(
    alloc: Global,
    service: &Service<D, A, C, G>,
    form: ReplyForm,
    callers: &mut Vec<Caller<D, A, C>>,
    workers: &mut [Worker<D, A, C>],
)
    requires staff { AreStaff (world service.now.shared) callers.old.items }
    requires some { 0 < length workers.old }
    requires free { All IsFree workers.old }
    ensures dealt { (names : Names) → AreDealt (world service.now.shared) names form workers.new }
    ensures count { length workers.new ≡ length workers.old }
    ensures callers { (callers.new.items ≡ []) × (16 ≤ vec_capacity callers.new) }
{
    let count = workers.len();
    for _ in 0..SESSIONS {
        let number = callers.len();
        let caller = callers.pop().unwrap();
        workers[number % count].seat(Session::new(alloc, caller, form));
    }
}

/// Takes the callers back, and the replies of their sessions, by their numbers.
pub fn gather<D: Disk, A: Devices, C: Admission>(
    workers: &mut [Worker<D, A, C>],
    callers: &mut Vec<Caller<D, A, C>>,
    replies: &mut Vec<Replies>,
)
    requires dealt { HaveOwn 16 workers.old }
    requires some { 0 < length workers.old }
    requires callers { (callers.old.items ≡ []) × (16 ≤ vec_capacity callers.old) }
    requires replies { (replies.old.items ≡ []) × (16 ≤ vec_capacity replies.old) }
    ensures gathered { AreTaken 16 workers.old callers.new.items replies.new.items }
    ensures emptied { All (λ t. t.sessions.items ≡ []) workers.new }
{
    let count = workers.len();
    for number in 1..SESSIONS + 1 {
        let Some(session) = workers[number % count].unseat() else {
            unreachable!()
        };
        let Session {
            caller,
            replies: own,
            given: _given,
        } = session;
        callers.push_reserved(caller);
        replies.push_reserved(own);
    }
}
