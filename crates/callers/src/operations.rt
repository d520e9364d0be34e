// Calls that begin an operation, and calls on one that is there.
ghost use Rattle.std.specs.{Prelude.◌≡◌, Prelude.◌≤◌, Prelude.◌<◌, Prelude.◌+◌, Prelude.◌-◌, Prelude.◌^◌, Prelude.ℕ, Prelude.List, Prelude.cond, Prelude.get_or, Prelude.Ok, Prelude.true, Prelude.length, Result.is_ok};
ghost use Rattle.service_calls.specs.{Asked.sets_up, Asked.sets_up_with, Meanings.model_request, declared.output.Output.TheVariants.Done};
ghost use Rattle.service_calls.specs.declared.call.Call.TheVariants as calls;
ghost use Rattle.service_calls.specs.declared.handle_calls.HandleCall.TheVariants as handle_calls;
ghost use Rattle.store_model.specs.Prelude.{HandleOperation, Inactive, is_inactive};
ghost use Rattle.operation_handles.specs.{Handles.IsOperation, declared.handle.OperationHandle.OperationHandle};
ghost use Rattle.callers.specs.Prelude.{AreOperations, IsAnswered, IsReady, IsServed, IsServedUnwritten, operation_at};
ghost use Rattle.locked_store.specs.Prelude.{world};

use crate::caller::Caller;
use crate::gates::{Gate, GatePoint};
use admission::Admission;
use disk_face::Disk;
use driver_dispatch::Devices;
use key_policy::{KeyUse, NamedAlgorithm};
use locked_store::SharedStore;
use psa_status::Status;
use service_calls::{Call, KeyedSetup, KeylessSetup, Op, Output, Setup, Step};
use std::sync::Wait;

impl<D: Disk, A: Devices, C: Admission> Caller<D, A, C> {
    /// Sets a handle's inactive operation up, and answers its rank beside what it gives. The operation keeps the lease of its
    /// key. A setup that succeeds counts once more, for the turn in which the lease goes back.
    pub fn set_up<R: Wait, G: Gate>(
        &mut self,
        rt: &R,
        shared: &SharedStore<D, A, C>,
        gate: &G,
        call: &Call<'_>,
        room: usize,
        op: Op,
        setup: Setup,
    ) -> (u64, Result<Output, Status>)
        requires ready { IsReady (world shared.now) 4 self.old }
        requires call { call.now ≡ calls.OnHandle op (handle_calls.Setup setup) }
        requires worn { self.old.spent < 2 ^ 48 }
        ensures ready { IsReady (world shared.now) 0 self.new }
        ensures answered { IsServedUnwritten (world shared.now) self.old self.new call.now room result }
        ensures spent { self.new.spent ≡ self.old.spent + cond (is_ok result.1) 1 0 }
    {
        if !self.handles.is_inactive(op) {
            let rank = shared.count(rt, &mut self.pass, call, room);
            return (rank, Err(Status::BadState));
        }
        match setup {
            Setup::Keyed(setup) => self.begin_with(rt, shared, gate, call, room, op, setup),
            Setup::Keyless(setup) => self.begin(rt, shared, call, room, op, setup),
        }
    }

    // Begins an operation that has no key.
    fn begin<R: Wait>(
        &mut self,
        rt: &R,
        shared: &SharedStore<D, A, C>,
        call: &Call<'_>,
        room: usize,
        op: Op,
        setup: KeylessSetup,
    ) -> (u64, Result<Output, Status>)
        requires ready { IsReady (world shared.now) 4 self.old }
        requires call { call.now ≡ sets_up op setup }
        requires worn { self.old.spent < 2 ^ 48 }
        requires free { (c : OperationHandle) (operation : HandleOperation) → c ≡ get_or self.old.handles.list.items (op - 1) c → IsOperation c operation → operation ≡ Inactive }
        ensures ready { IsReady (world shared.now) 0 self.new }
        ensures answered { IsServedUnwritten (world shared.now) self.old self.new call.now room result }
        ensures spent { self.new.spent ≡ self.old.spent + cond (is_ok result.1) 1 0 }
    {
        let rank = shared.count(rt, &mut self.pass, call, room);
        match self.handles.begin(op, setup) {
            Ok(()) => {
                self.spent += 1;
                (rank, Ok(Output::Done))
            }
            Err(status) => (rank, Err(status)),
        }
    }

    // Begins an operation with its key, which is looked for.
    fn begin_with<R: Wait, G: Gate>(
        &mut self,
        rt: &R,
        shared: &SharedStore<D, A, C>,
        gate: &G,
        call: &Call<'_>,
        room: usize,
        op: Op,
        setup: KeyedSetup,
    ) -> (u64, Result<Output, Status>)
        requires ready { IsReady (world shared.now) 4 self.old }
        requires call { call.now ≡ sets_up_with op setup.key setup.purpose setup.alg }
        requires worn { self.old.spent < 2 ^ 48 }
        requires free { (c : OperationHandle) (operation : HandleOperation) → c ≡ get_or self.old.handles.list.items (op - 1) c → IsOperation c operation → operation ≡ Inactive }
        requires first { 1 ≤ op }
        requires last { op ≤ 4 }
        ensures ready { IsReady (world shared.now) 0 self.new }
        ensures answered { IsServedUnwritten (world shared.now) self.old self.new call.now room result }
        ensures spent { self.new.spent ≡ self.old.spent + cond (is_ok result.1) 1 0 }
    {
        let Some(spare) = self.spares.pop() else {
            unreachable!()
        };
        let alg = NamedAlgorithm::of(setup.alg);
        let usage = KeyUse::of_purpose(setup.purpose, alg);
        let (rank, looked) = shared.look(rt, &mut self.pass, call, room, setup.key, usage, spare);
        match looked {
            Ok(lease) => {
                gate.hold(self.number, &self.pass, GatePoint::Reading);
                self.handles.begin_with(op, setup.purpose, alg, lease);
                self.spent += 1;
                (rank, Ok(Output::Done))
            }
            Err((status, spare)) => {
                self.spares.push_reserved(spare);
                (rank, Err(status))
            }
        }
    }

    /// Takes a step of a handle's operation, and answers its rank beside what it gives. Bytes are written to the front of
    /// the buffer. An operation that is over gives its key's lease back.
    pub fn step<R: Wait>(
        &mut self,
        rt: &R,
        shared: &SharedStore<D, A, C>,
        call: &Call<'_>,
        op: Op,
        step: Step<'_>,
        out: &mut [u8],
    ) -> (u64, Result<Output, Status>)
        requires ready { IsReady (world shared.now) 4 self.old }
        requires call { call.now ≡ calls.OnHandle op (handle_calls.Step step) }
        ensures ready { IsReady (world shared.now) 0 self.new }
        ensures answered { IsServed (world shared.now) self.old self.new call.now result out.old out.new }
        ensures spent { self.new.spent ≡ self.old.spent }
    {
        let (rank, alive) = self.ask(rt, shared, call, out.len(), op);
        let (result, lease) = self.handles.step(op, &mut self.stream, alive, step, out);
        self.give_back(rt, shared, lease);
        (rank, result)
    }

    /// Forgets what a handle's operation was, and gives its key's lease back. An abort counts only where the operation was
    /// inactive: its setup has counted twice.
    pub fn abort<R: Wait>(
        &mut self,
        rt: &R,
        shared: &SharedStore<D, A, C>,
        call: &Call<'_>,
        room: usize,
        op: Op,
    ) -> u64
        requires ready { IsReady (world shared.now) 0 self.old }
        requires counted { (operations : List HandleOperation) → AreOperations self.old.handles.list.items operations → is_inactive (operation_at operations op) ≡ true → IsReady (world shared.now) 4 self.old }
        requires call { call.now ≡ calls.OnHandle op handle_calls.Abort }
        ensures ready { IsReady (world shared.now) 0 self.new }
        ensures answered { (buffer : List ℕ) → IsAnswered (world shared.now) self.old.pass.me.0 self.new.pass.me.0 (model_request call.now room) result (Ok Done) buffer buffer }
        ensures spent { self.new.spent ≡ self.old.spent }
    {
        let rank = shared.count(rt, &mut self.pass, call, room);
        let lease = self.handles.abort(op);
        self.give_back(rt, shared, lease);
        rank
    }
}
