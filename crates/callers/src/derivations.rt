// Calls that give a derivation a key, and calls that create a key of derived bytes.
ghost use Rattle.std.specs.Prelude.{◌≡◌, ◌≤◌, ◌-◌, ℕ, List, Some, None, get_or, replicate};
ghost use Rattle.service_calls.specs.declared.call.Call.TheVariants as calls;
ghost use Rattle.service_calls.specs.declared.handle_calls.HandleCall.TheVariants as handle_calls;
ghost use Rattle.store_model.specs.Prelude.{HandleOperation, derivation_part, part_of};
ghost use Rattle.operation_handles.specs.{Handles.IsOperation, KeyInputs.RefusesKeyAt, KeyInputs.TakesKeyAt, declared.handle.OperationHandle.OperationHandle};
ghost use Rattle.callers.specs.Prelude.{IsReady, IsServedUnwritten};
ghost use Rattle.locked_store.specs.Prelude.{world};
ghost use Rattle.derivation_states.specs.KeySteps.{output_key_refusal};

use crate::caller::Caller;
use crate::gates::{Gate, GatePoint};
use admission::Admission;
use derivation_states::KEY_ROOM;
use disk_face::Disk;
use driver_dispatch::Devices;
use key_attributes::{Attributes, KeyId};
use key_policy::KeyUse;
use locked_store::SharedStore;
use psa_status::Status;
use service_calls::{Call, Op, Output};
use std::sync::Wait;

// Clears a buffer of a key's bytes.
fn wipe(buffer: &mut [u8; KEY_ROOM])
    ensures { buffer.new ≡ replicate 1025 0 }
{
    *buffer = [0; KEY_ROOM];
}

impl<D: Disk, A: Devices, C: Admission> Caller<D, A, C> {
    /// Gives a handle's derivation a key at a step, and answers its rank beside what it gives. The derivation keeps the key's
    /// lease. A refusal puts it in error. The output buffer that the call would have, of so many bytes, is left.
    pub fn input_key<R: Wait, G: Gate>(
        &mut self,
        rt: &R,
        shared: &SharedStore<D, A, C>,
        gate: &G,
        call: &Call<'_>,
        room: usize,
        op: Op,
        step: u16,
        key: KeyId,
    ) -> (u64, Result<Output, Status>)
        requires ready { IsReady (world shared.now) 4 self.old }
        requires call { call.now ≡ calls.OnHandle op (handle_calls.InputKey step key) }
        ensures ready { IsReady (world shared.now) 0 self.new }
        ensures answered { IsServedUnwritten (world shared.now) self.old self.new call.now room result }
        ensures spent { self.new.spent ≡ self.old.spent }
    {
        match self.handles.wanted_at(op, step) {
            Some(wanted) => self.take_key(rt, shared, gate, call, room, op, step, key, wanted),
            None => self.refuse_key(rt, shared, call, room, op, step, key),
        }
    }

    // Gives a key at a step that takes none.
    fn refuse_key<R: Wait>(
        &mut self,
        rt: &R,
        shared: &SharedStore<D, A, C>,
        call: &Call<'_>,
        room: usize,
        op: Op,
        step: u16,
        key: KeyId,
    ) -> (u64, Result<Output, Status>)
        requires ready { IsReady (world shared.now) 4 self.old }
        requires call { call.now ≡ calls.OnHandle op (handle_calls.InputKey step key) }
        requires refuses { (c : OperationHandle) (operation : HandleOperation) → c ≡ get_or self.old.handles.list.items (op - 1) c → IsOperation c operation → RefusesKeyAt operation step }
        ensures ready { IsReady (world shared.now) 0 self.new }
        ensures answered { IsServedUnwritten (world shared.now) self.old self.new call.now room result }
        ensures spent { self.new.spent ≡ self.old.spent }
    {
        let (rank, alive) = self.ask(rt, shared, call, room, op);
        let (refused, lease) = self.handles.refuse_key(op, alive, step);
        self.give_back(rt, shared, lease);
        match refused {
            Ok(()) => (rank, Ok(Output::Done)),
            Err(status) => (rank, Err(status)),
        }
    }

    // Gives a key at a step that takes one, for which it is looked for.
    fn take_key<R: Wait, G: Gate>(
        &mut self,
        rt: &R,
        shared: &SharedStore<D, A, C>,
        gate: &G,
        call: &Call<'_>,
        room: usize,
        op: Op,
        step: u16,
        key: KeyId,
        wanted: KeyUse,
    ) -> (u64, Result<Output, Status>)
        requires ready { IsReady (world shared.now) 4 self.old }
        requires call { call.now ≡ calls.OnHandle op (handle_calls.InputKey step key) }
        requires takes { (c : OperationHandle) (operation : HandleOperation) → c ≡ get_or self.old.handles.list.items (op - 1) c → IsOperation c operation → TakesKeyAt operation step wanted × (c.lease ≡ None) }
        requires first { 1 ≤ op }
        requires last { op ≤ 4 }
        ensures ready { IsReady (world shared.now) 0 self.new }
        ensures answered { IsServedUnwritten (world shared.now) self.old self.new call.now room result }
        ensures spent { self.new.spent ≡ self.old.spent }
    {
        let Some(spare) = self.spares.pop() else {
            unreachable!()
        };
        let (rank, looked) = shared.look(rt, &mut self.pass, call, room, key, wanted, spare);
        match looked {
            Ok(lease) => {
                gate.hold(self.number, &self.pass, GatePoint::Reading);
                self.handles.input_key(op, step, lease);
                (rank, Ok(Output::Done))
            }
            Err((status, spare)) => {
                self.spares.push_reserved(spare);
                self.handles.fail_derivation(op);
                (rank, Err(status))
            }
        }
    }

    /// Creates a key of the next bytes of a handle's derivation, as many as the stated bits say, and answers its rank beside
    /// its identifier. A refusal puts the derivation in error, but where too few bytes are left. The output buffer that the
    /// call would have, of so many bytes, is left.
    pub fn output_key<R: Wait, G: Gate>(
        &mut self,
        rt: &R,
        shared: &SharedStore<D, A, C>,
        gate: &G,
        call: &Call<'_>,
        room: usize,
        op: Op,
        attributes: Attributes,
    ) -> (u64, Result<Output, Status>)
        requires ready { IsReady (world shared.now) 4 self.old }
        requires call { call.now ≡ calls.OnHandle op (handle_calls.OutputKey attributes) }
        ensures ready { IsReady (world shared.now) 0 self.new }
        ensures answered { IsServedUnwritten (world shared.now) self.old self.new call.now room result }
        ensures spent { self.new.spent ≡ self.old.spent }
    {
        match self.handles.output_key_refusal(op, &attributes) {
            Some(_) => self.refuse_output_key(rt, shared, call, room, op, attributes),
            None => {
                let mut bytes = [0; KEY_ROOM];
                let answer = self.derive_key(
                    rt, shared, gate, call, room, op, attributes, &mut bytes,
                );
                wipe(&mut bytes);
                answer
            }
        }
    }

    // Asks for a key that the derivation refuses.
    fn refuse_output_key<R: Wait>(
        &mut self,
        rt: &R,
        shared: &SharedStore<D, A, C>,
        call: &Call<'_>,
        room: usize,
        op: Op,
        attributes: Attributes,
    ) -> (u64, Result<Output, Status>)
        requires ready { IsReady (world shared.now) 4 self.old }
        requires call { call.now ≡ calls.OnHandle op (handle_calls.OutputKey attributes) }
        requires refused { (c : OperationHandle) (operation : HandleOperation) → c ≡ get_or self.old.handles.list.items (op - 1) c → IsOperation c operation →
            output_key_refusal (part_of derivation_part operation) attributes ≡ None → ⊥ }
        requires first { 1 ≤ op }
        requires last { op ≤ 4 }
        ensures ready { IsReady (world shared.now) 0 self.new }
        ensures answered { IsServedUnwritten (world shared.now) self.old self.new call.now room result }
        ensures spent { self.new.spent ≡ self.old.spent }
    {
        let (rank, alive) = self.ask(rt, shared, call, room, op);
        let (status, lease) = self.handles.refuse_output_key(op, alive, &attributes);
        self.give_back(rt, shared, lease);
        (rank, Err(status))
    }

    // Creates a key that the derivation gives, by way of a buffer.
    fn derive_key<R: Wait, G: Gate>(
        &mut self,
        rt: &R,
        shared: &SharedStore<D, A, C>,
        gate: &G,
        call: &Call<'_>,
        room: usize,
        op: Op,
        attributes: Attributes,
        bytes: &mut [u8; KEY_ROOM],
    ) -> (u64, Result<Output, Status>)
        requires ready { IsReady (world shared.now) 4 self.old }
        requires call { call.now ≡ calls.OnHandle op (handle_calls.OutputKey attributes) }
        requires due { (c : OperationHandle) (operation : HandleOperation) → c ≡ get_or self.old.handles.list.items (op - 1) c → IsOperation c operation →
            output_key_refusal (part_of derivation_part operation) attributes ≡ None }
        requires first { 1 ≤ op }
        requires last { op ≤ 4 }
        ensures ready { IsReady (world shared.now) 0 self.new }
        ensures answered { IsServedUnwritten (world shared.now) self.old self.new call.now room result }
        ensures spent { self.new.spent ≡ self.old.spent }
    {
        let filling = shared.reserve(rt, &mut self.pass);
        gate.hold(self.number, &self.pass, GatePoint::Filling);
        let count = self.handles.output_key(op, &attributes, bytes);
        let lease = self.handles.lease(op);
        let (rank, made) = shared.finish(
            rt,
            &mut self.pass,
            call,
            room,
            self.number,
            filling,
            &attributes,
            &bytes[..count],
            lease,
        );
        match made {
            Ok(id) => (rank, Ok(Output::Identifier(id))),
            Err(why) => {
                let lease = self.handles.fail_output(op);
                self.give_back(rt, shared, lease);
                (rank, Err(why.status()))
            }
        }
    }
}
