//! The service, and how it is opened and closed.
ghost use Rattle.std.specs.Prelude.{◌≡◌, ◌≤◌, ◌^◌, ℕ, [], All, IfOk, IfErr, IfSome, IfNone, length, vec_capacity, vec_len};
ghost use Rattle.driver_dispatch.specs.Calls.{Lacks};
ghost use Rattle.turn_history.specs.Prelude.{AreNew};
ghost use Rattle.service_calls.specs.Meanings.{model_request};
ghost use Rattle.store_model.specs.Prelude.{Service as model_Service, IsSoundStore};
ghost use Rattle.store_core.specs.Prelude.{HasRoom};
ghost use Rattle.locked_store.specs.Prelude.{FindsKeysIn, IsNotOpened, IsOpenedOn, IsStartOf, world};
ghost use Rattle.callers.specs.Prelude.{HasCounted, IsAnswered, IsOverBudget, IsReady};
ghost use Rattle.caller_service.specs.{Closing.IsClosedOver, Closing.WereRetired, Allotments.IsAllotment, Staff.AreStaff};

use crate::allotments::{self, Allotment};
use crate::closing::{hand_in, retire_all};
use admission::Admission;
use callers::{Caller, Gate, GatePoint};
use disk_face::Disk;
use driver_dispatch::Devices;
use key_cells::OpenFault;
use locked_store::{Held, SharedStore, end};
use psa_status::{Memory, Status};
use service_calls::{Call, Output};
use std::alloc::Global;
use std::snapshot::Snapshot;
use std::sync::Wait;
use store_core::{StoreFault, Unopened};
use store_model::Limits;
use turn_history::Pass;

/// How many callers a service has.
const CALLERS: usize = 16;

/// A store that sixteen callers share, each within a budget of calls.
pub struct Service<D: Disk, A: Devices, C: Admission, G: Gate> {
    pub shared: SharedStore<D, A, C>,
    /// How much the calls of each caller may count together.
    pub worn: u64,
    /// Where calls can be held.
    pub gate: G,
    ghost most: { worn ≤ 2 ^ 48 },
}

/// A service, and its callers by their numbers from 1 on.
pub type Staffed<D, A, C, G> = (Service<D, A, C, G>, Vec<Caller<D, A, C>>);

/// What is left of a service that was closed.
pub struct Closed<D: Disk, A: Devices, C: Admission> {
    pub disk: D,
    pub devices: A,
    /// For contracts alone: the callers as they were let go.
    pub ended: Snapshot<Vec<Caller<D, A, C>>>,
}

// A caller for each pass, with an allotment of its own.
fn seat<D: Disk, A: Devices, C: Admission>(
    shared: &SharedStore<D, A, C>,
    seed: &[u8; 32],
    passes: Vec<Pass<Held<D, A, C>>>,
    allotments: Vec<Allotment>,
    callers: &mut Vec<Caller<D, A, C>>,
)
    requires passes { AreNew (world shared.now).lock (world shared.now).opened 16 passes.items }
    requires sound { (start : model_Service) → IsStartOf (world shared.now) start → IsSoundStore start.store }
    requires seed { seed.now ≡ (world shared.now).opened.seed.value }
    requires allotments { (length allotments.items ≡ 16) × All IsAllotment allotments.items }
    requires callers { (callers.old.items ≡ []) × (16 ≤ vec_capacity callers.old) }
    ensures { AreStaff (world shared.now) callers.new.items }
{
    let mut allotments = allotments;
    let mut number = 0;
    for pass in passes {
        number += 1;
        let Allotment { spares, handles } = allotments.pop().unwrap();
        callers.push_reserved(Caller::new(shared, pass, number, seed, spares, handles));
    }
    allotments.destroy_empty();
}

// What a service needs of memory beside its store: allotments for the callers, and a list for them.
fn take_memory<D: Disk, A: Devices, C: Admission>(
    alloc: Global,
) -> Result<(Vec<Allotment>, Vec<Caller<D, A, C>>), Memory>
    ensures allotments { IfOk result (λ taken. (length taken.0.items ≡ 16) × All IsAllotment taken.0.items) }
    ensures callers { IfOk result (λ taken. (taken.1.items ≡ []) × (16 ≤ vec_capacity taken.1)) }
{
    let allotments = allotments::take(alloc, CALLERS)?;
    match Vec::with_capacity(alloc, CALLERS) {
        Ok(callers) => Ok((allotments, callers)),
        Err(_) => {
            allotments::free(allotments);
            Err(Memory)
        }
    }
}

impl<D: Disk, A: Devices, C: Admission, G: Gate> Service<D, A, C, G> {
    /// Opens the store of a disk, or makes one on a disk of length 0, for sixteen callers whose random words have this seed
    /// and whose calls may each count up to `worn`. Where it isn't opened the disk and the devices come back: `Memory`
    /// where there is no room, `Disk` only where the disk's faults rose, `NotAStore` and `DamagedCell` for what the disk
    /// has, and then nothing is written to it; `RangeFull` where the limits are by range and a range has more keys.
    pub fn open(
        alloc: Global,
        disk: D,
        devices: A,
        rules: C,
        limits: Limits,
        seed: &[u8; 32],
        worn: u64,
        gate: G,
    ) -> Result<Staffed<D, A, C, G>, Unopened<D, A>>
        requires empty { (handle : ℕ) → Lacks (A.keys devices) handle }
        requires worn { worn ≤ 2 ^ 48 }
        ensures staff { IfOk result (λ made. AreStaff (world made.0.shared) made.1.items) }
        ensures worn { IfOk result (λ made. made.0.worn ≡ worn) }
        ensures starts { IfOk result (λ made. (start : model_Service) × IsStartOf (world made.0.shared) start) }
        ensures sound { IfOk result (λ made. (start : model_Service) → IsStartOf (world made.0.shared) start → IsSoundStore start.store) }
        ensures keys { IfOk result (λ made. IfSome (D.contents disk) (FindsKeysIn (world made.0.shared))) }
        ensures opened { IfOk result (λ made. IsOpenedOn (world made.0.shared) disk) }
        ensures later { IfOk result (λ made. D.faults disk ≤ D.faults (world made.0.shared).opened.file.value.cells.disk) }
        ensures devices { IfOk result (λ made. (world made.0.shared).opened.devices.value ≡ devices) }
        ensures seed { IfOk result (λ made. (world made.0.shared).opened.seed.value ≡ seed.now) }
        ensures rules { IfOk result (λ made. (world made.0.shared).opened.rules.value ≡ rules) }
        ensures limits { IfOk result (λ made. (world made.0.shared).opened.limits.value ≡ limits) }
        ensures room { IfOk result (λ made. HasRoom limits (world made.0.shared).opened.file.value.cells.states) }
        ensures refused { IfErr result (λ unopened. IsNotOpened D.Disk limits disk unopened.disk unopened.fault) }
        ensures returned { IfErr result (λ unopened. unopened.devices ≡ devices) }
    {
        let (allotments, mut callers) = match take_memory(alloc) {
            Ok(taken) => taken,
            Err(Memory) => {
                return Err(Unopened {
                    disk,
                    devices,
                    fault: StoreFault::File(OpenFault::Memory),
                });
            }
        };
        match SharedStore::open(alloc, disk, devices, rules, limits, seed) {
            Ok((shared, passes)) => {
                seat(&shared, seed, passes, allotments, &mut callers);
                Ok((Service { shared, worn, gate }, callers))
            }
            Err(unopened) => {
                allotments::free(allotments);
                callers.destroy_empty();
                Err(unopened)
            }
        }
    }

    /// Makes a call of a caller, and answers its rank beside what it gives: bytes are written to the front of the buffer.
    /// It has no rank exactly where the caller's budget doesn't suffice for it: then the answer is `PassWorn`, and nothing
    /// has changed. Of what a secure element computes that doesn't tell its keys, the clauses don't exclude this answer beside
    /// a rank.
    pub fn call<R: Wait>(
        &self,
        rt: &R,
        caller: &mut Caller<D, A, C>,
        call: &Call<'_>,
        out: &mut [u8],
    ) -> (Option<u64>, Result<Output, Status>)
        requires ready { IsReady (world self.now.shared) 0 caller.old }
        requires within { caller.old.spent ≤ self.now.worn }
        ensures ready { IsReady (world self.now.shared) 0 caller.new }
        ensures within { caller.new.spent ≤ self.now.worn }
        ensures ranked { IfSome result.0 (λ rank. IsAnswered (world self.now.shared) caller.old.pass.me.0 caller.new.pass.me.0 (model_request call.now (length out.old)) rank result.1 out.old out.new) }
        ensures counts { IfSome result.0 (λ rank. HasCounted caller.old caller.new self.now.worn call.now result.1) }
        ensures worn { IfNone result.0 (IsOverBudget caller.old caller.new self.now.worn call.now result.1 out.old out.new) }
    {
        let answer = caller.answer(rt, &self.shared, &self.gate, self.worn, call, out);
        self.gate
            .hold(caller.number(), caller.pass(), GatePoint::Answered);
        answer
    }

    /// Ends all callers: each operation is wiped, and its lease given back. Then the store is closed, and the disk and the
    /// devices come back.
    pub fn close<R: Wait>(self, rt: &R, callers: Vec<Caller<D, A, C>>) -> Closed<D, A, C>
        requires sixteen { vec_len callers ≡ 16 }
        requires ready { All (IsReady (world self.shared) 0) callers.items }
        ensures closed { IsClosedOver (world self.shared) result.disk result.devices callers.items }
        ensures wiped { WereRetired (world self.shared) callers.items result.ended.value.items }
    {
        let Service {
            shared,
            worn: _worn,
            gate: _gate,
        } = self;
        let mut callers = callers;
        retire_all(rt, &shared, &mut callers);
        let ended = Snapshot::of(&callers);
        let (disk, devices) = end(hand_in(shared.start_ending(), callers));
        Closed {
            disk,
            devices,
            ended,
        }
    }
}
