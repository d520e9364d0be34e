// A call, whichever it is.
ghost use Rattle.std.specs.{Prelude.◌≡◌, Prelude.◌≤◌, Prelude.◌<◌, Prelude.◌+◌, Prelude.◌^◌, Prelude.ℕ, Prelude.true, Prelude.false, Prelude.cond, Prelude.List, Prelude.Some, Prelude.None, Prelude.Err, Prelude.IfSome, Prelude.IfNone, Prelude.length, Result.is_ok};
ghost use Rattle.psa_status.specs.declared.Status.TheVariants.{PassWorn};
ghost use Rattle.service_calls.specs.Meanings.{model_request};
ghost use Rattle.service_calls.specs.declared.call.Call.TheVariants as calls;
ghost use Rattle.service_calls.specs.declared.handle_calls.HandleCall.TheVariants as handle_calls;
ghost use Rattle.store_model.specs.Prelude.{HandleOperation, is_inactive};
ghost use Rattle.callers.specs.Prelude.{AreOperations, HasCounted, IsAnswered, IsOverBudget, IsReady, IsServed, begins_operation, is_counted, operation_at};
ghost use Rattle.locked_store.specs.Prelude.{world};

use crate::caller::Caller;
use crate::gates::Gate;
use admission::Admission;
use disk_face::Disk;
use driver_dispatch::Devices;
use locked_store::SharedStore;
use psa_status::Status;
use service_calls::{Call, Creation, HandleCall, KeyChange, Op, Output, StoreCall};
use std::sync::Wait;

// Whether a call begins an operation.
fn begins_operation(call: &Call<'_>) -> bool
    ensures { result ≡ begins_operation call.now }
{
    match *call {
        Call::OnHandle(_, HandleCall::Setup(_)) => true,
        _ => false,
    }
}

impl<D: Disk, A: Devices, C: Admission> Caller<D, A, C> {
    /// Answers a call, with its rank. It has none exactly where a budget of so many calls doesn't suffice for it: then it
    /// takes no turn, the answer is `PassWorn`, and nothing has changed. Of what a secure element computes that doesn't tell
    /// its keys, the clauses don't exclude this answer beside a rank. Bytes are written to the front of the buffer.
    pub fn answer<R: Wait, G: Gate>(
        &mut self,
        rt: &R,
        shared: &SharedStore<D, A, C>,
        gate: &G,
        worn: u64,
        call: &Call<'_>,
        out: &mut [u8],
    ) -> (Option<u64>, Result<Output, Status>)
        requires ready { IsReady (world shared.now) 0 self.old }
        requires within { self.old.spent ≤ worn }
        requires budget { worn ≤ 2 ^ 48 }
        ensures ready { IsReady (world shared.now) 0 self.new }
        ensures within { self.new.spent ≤ worn }
        ensures ranked { IfSome result.0 (λ rank. IsAnswered (world shared.now) self.old.pass.me.0 self.new.pass.me.0 (model_request call.now (length out.old)) rank result.1 out.old out.new) }
        ensures counts { IfSome result.0 (λ rank. HasCounted self.old self.new worn call.now result.1) }
        ensures worn { IfNone result.0 (IsOverBudget self.old self.new worn call.now result.1 out.old out.new) }
    {
        if let Some(op) = self.ends(call) {
            let rank = self.abort(rt, shared, call, out.len(), op);
            return (Some(rank), Ok(Output::Done));
        }
        let asked = if begins_operation(call) { 2 } else { 1 };
        if worn < self.spent + asked {
            return (None, Err(Status::PassWorn));
        }
        self.spent += 1;
        let (rank, result) = self.serve(rt, shared, gate, call, out);
        (Some(rank), result)
    }

    // The handle whose operation a call aborts, where that isn't inactive.
    fn ends(&self, call: &Call<'_>) -> Option<Op>
        ensures some { IfSome result (λ op. (call.now ≡ calls.OnHandle op handle_calls.Abort) × (1 ≤ op) × (op ≤ 4)) }
        ensures busy { IfSome result (λ op. (operations : List HandleOperation) → AreOperations self.now.handles.list.items operations → is_inactive (operation_at operations op) ≡ false) }
        ensures none { IfNone result ((operations : List HandleOperation) → AreOperations self.now.handles.list.items operations → is_counted call.now operations ≡ true) }
    {
        match *call {
            Call::OnHandle(op, HandleCall::Abort) => {
                if self.handles.is_inactive(op) {
                    None
                } else {
                    Some(op)
                }
            }
            _ => None,
        }
    }

    // Serves a call that has counted once.
    #[inline(always)]
    fn serve<R: Wait, G: Gate>(
        &mut self,
        rt: &R,
        shared: &SharedStore<D, A, C>,
        gate: &G,
        call: &Call<'_>,
        out: &mut [u8],
    ) -> (u64, Result<Output, Status>)
        requires ready { IsReady (world shared.now) 4 self.old }
        requires budget { self.old.spent + cond (begins_operation call.now) 1 0 ≤ 2 ^ 48 }
        ensures ready { IsReady (world shared.now) 0 self.new }
        ensures answered { IsServed (world shared.now) self.old self.new call.now result out.old out.new }
        ensures spent { self.new.spent ≡ self.old.spent + cond (begins_operation call.now) (cond (is_ok result.1) 1 0) 0 }
    {
        let room = out.len();
        match *call {
            Call::OnStore(asked) => self.serve_store(rt, shared, gate, call, &asked, out),
            Call::OnHandle(op, HandleCall::Setup(setup)) => self.set_up(
                rt, shared, gate, call, room, op, setup,
            ),
            Call::OnHandle(op, HandleCall::Step(step)) => self.step(
                rt, shared, call, op, step, out,
            ),
            Call::OnHandle(op, HandleCall::InputKey { step, key }) => {
                self.input_key(rt, shared, gate, call, room, op, step, key)
            }
            Call::OnHandle(op, HandleCall::OutputKey(attributes)) => {
                self.output_key(rt, shared, gate, call, room, op, attributes)
            }
            Call::OnHandle(op, HandleCall::Abort) => {
                let rank = self.abort(rt, shared, call, room, op);
                (rank, Ok(Output::Done))
            }
        }
    }

    // Serves a call on the store.
    fn serve_store<R: Wait, G: Gate>(
        &mut self,
        rt: &R,
        shared: &SharedStore<D, A, C>,
        gate: &G,
        call: &Call<'_>,
        asked: &StoreCall<'_>,
        out: &mut [u8],
    ) -> (u64, Result<Output, Status>)
        requires ready { IsReady (world shared.now) 4 self.old }
        requires call { call.now ≡ calls.OnStore asked.now }
        ensures ready { IsReady (world shared.now) 0 self.new }
        ensures answered { IsServed (world shared.now) self.old self.new call.now result out.old out.new }
        ensures spent { self.new.spent ≡ self.old.spent }
    {
        let room = out.len();
        match *asked {
            StoreCall::Create(Creation::Import { attributes, bytes }) => {
                self.import(rt, shared, gate, call, room, attributes, bytes)
            }
            StoreCall::Create(Creation::Generate(attributes)) => {
                self.generate(rt, shared, gate, call, room, attributes)
            }
            StoreCall::Change(KeyChange::Copy { source, attributes }) => {
                self.copy(rt, shared, gate, call, room, source, attributes)
            }
            StoreCall::Change(KeyChange::Destroy(key)) => self.destroy(rt, shared, call, room, key),
            StoreCall::Change(KeyChange::Purge(key)) => self.purge(rt, shared, call, room, key),
            StoreCall::Change(KeyChange::GetAttributes(key)) => {
                self.attributes(rt, shared, call, room, key)
            }
            StoreCall::Hash(hash) => self.hash(rt, shared, call, &hash, out),
            StoreCall::Compute(keyed) => self.compute(rt, shared, gate, call, &keyed, out),
        }
    }
}
