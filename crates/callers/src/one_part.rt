// Calls in one part.
ghost use Rattle.std.specs.{Prelude.◌≡◌, Prelude.length, Prelude.◌&&◌, Prelude.◌≤◌, Prelude.◌<◌, Prelude.◌+◌, Prelude.◌^◌, Prelude.ℕ, Prelude.true, Prelude.false, Prelude.All, Prelude.Result, Prelude.vec_capacity, Prelude.vec_len, Result.is_ok};
ghost use Rattle.service_calls.specs.{Asked.hashes, Meanings.model_keyed_call, declared.call.Call.TheVariants.OnStore, declared.store_calls.StoreCall.TheVariants.Compute};
ghost use Rattle.callers.specs.Prelude.{IsGivenBack, IsReady, IsReplied, IsServed, Legal, SameButPass, drawn_by};
ghost use Rattle.locked_store.specs.Prelude.{world, IsAt};
ghost use Rattle.random_streams.specs.RandomWords.{drawn_from, next_bytes};
ghost use Rattle.secret_bytes.specs.Buffer.{bytes_of};
ghost use Rattle.turn_history.specs.Prelude.{entries_of};
ghost use Rattle.key_slots.specs.Holdings.{names};
ghost use Rattle.key_policy.specs.Uses.{FitsUse};
ghost use Rattle.secure_element_calls.specs.{Calls.model_call, Replies.HasDrawn};
ghost use Rattle.single_part.specs.{Elements.IsElementCall, Elements.has_vector, Elements.is_of_element, Elements.takes_vector, Keyed.computed_by, Keyed.wanted_by};

use crate::caller::Caller;
use crate::gates::{Gate, GatePoint};
use admission::Admission;
use disk_face::Disk;
use driver_dispatch::Devices;
use locked_store::{Looked, SharedStore};
use psa_status::Status;
use random_streams::Stream;
use secure_element_calls::{ElementCall, NotComputed};
use service_calls::{Call, HashCall, Keyed, Output};
use single_part::{Computation, compute_hash};
use slot_table::Lease;
use std::sync::Wait;

// The initialisation vector that a call would draw next, where the secure element may compute on it. Nothing is drawn.
fn next_vector(asked: &Computation<'_>, stream: &Stream) -> [u8; 16]
    requires words { stream.now.place + 256 ≤ 2 ^ 60 }
    ensures { (takes_vector asked.now.call && is_of_element asked.now.call) ≡ true → result ≡ next_bytes stream.now 16 }
{
    let mut vector = [0; 16];
    if asked.needs_vector() {
        stream.peek(&mut vector);
    }
    vector
}

// Draws the initialisation vector with which the secure element has computed, where it took one.
fn draw_vector(asked: &Computation<'_>, computed: &Result<usize, NotComputed>, stream: &mut Stream)
    requires words { stream.old.place + 256 ≤ 2 ^ 60 }
    ensures { stream.new ≡ drawn_from stream.old (drawn_by asked.now.call (is_ok computed.now)) }
{
    if computed.is_ok() && asked.takes_vector() {
        stream.fill(&mut [0; 16]);
    }
}

impl<D: Disk, A: Devices, C: Admission> Caller<D, A, C> {
    /// Computes the hash of a message, or compares it, and answers its rank beside what it gives. Bytes are written to the
    /// front of the buffer.
    pub fn hash<R: Wait>(
        &mut self,
        rt: &R,
        shared: &SharedStore<D, A, C>,
        call: &Call<'_>,
        asked: &HashCall<'_>,
        out: &mut [u8],
    ) -> (u64, Result<Output, Status>)
        requires ready { IsReady (world shared.now) 4 self.old }
        requires call { call.now ≡ hashes asked.now }
        ensures ready { IsReady (world shared.now) 0 self.new }
        ensures answered { IsServed (world shared.now) self.old self.new call.now result out.old out.new }
        ensures same { SameButPass self.old self.new }
    {
        let rank = shared.count(rt, &mut self.pass, call, out.len());
        let result = compute_hash(asked, out);
        (rank, result)
    }

    /// Computes with the bytes of a key, or has the secure element compute, where it holds the key and computes such calls.
    /// Answers the rank beside what it gives. Bytes are written to the front of the buffer.
    pub fn compute<R: Wait, G: Gate>(
        &mut self,
        rt: &R,
        shared: &SharedStore<D, A, C>,
        gate: &G,
        call: &Call<'_>,
        asked: &Keyed<'_>,
        out: &mut [u8],
    ) -> (u64, Result<Output, Status>)
        requires ready { IsReady (world shared.now) 4 self.old }
        requires call { call.now ≡ OnStore (Compute asked.now) }
        ensures ready { IsReady (world shared.now) 0 self.new }
        ensures answered { IsServed (world shared.now) self.old self.new call.now result out.old out.new }
        ensures spent { self.new.spent ≡ self.old.spent }
        ensures handles { self.new.handles ≡ self.old.handles }
    {
        let asked = Computation::of(*asked);
        let vector = next_vector(&asked, &self.stream);
        match asked.element_call(&vector) {
            Some(element) => self.compute_or_look(rt, shared, gate, call, &asked, &element, out),
            None => self.look_and_compute(rt, shared, gate, call, &asked, out),
        }
    }

    // Computes a call that the secure element doesn't compute.
    fn look_and_compute<R: Wait, G: Gate>(
        &mut self,
        rt: &R,
        shared: &SharedStore<D, A, C>,
        gate: &G,
        call: &Call<'_>,
        asked: &Computation<'_>,
        out: &mut [u8],
    ) -> (u64, Result<Output, Status>)
        requires ready { IsReady (world shared.now) 4 self.old }
        requires call { call.now ≡ OnStore (Compute asked.now) }
        requires local { is_of_element asked.now.call ≡ false }
        ensures ready { IsReady (world shared.now) 0 self.new }
        ensures answered { IsServed (world shared.now) self.old self.new call.now result out.old out.new }
        ensures spent { self.new.spent ≡ self.old.spent }
        ensures handles { self.new.handles ≡ self.old.handles }
    {
        let Some(spare) = self.spares.pop() else {
            unreachable!()
        };
        let usage = asked.wanted();
        let (rank, looked) = shared.look(
            rt,
            &mut self.pass,
            call,
            out.len(),
            asked.key(),
            usage,
            spare,
        );
        match looked {
            Ok(lease) => (rank, self.compute_with(rt, shared, gate, asked, lease, out)),
            Err((status, spare)) => {
                self.spares.push_reserved(spare);
                (rank, Err(status))
            }
        }
    }

    // Computes a call that the secure element computes where it holds the key.
    fn compute_or_look<R: Wait, G: Gate>(
        &mut self,
        rt: &R,
        shared: &SharedStore<D, A, C>,
        gate: &G,
        call: &Call<'_>,
        asked: &Computation<'_>,
        element: &ElementCall<'_>,
        out: &mut [u8],
    ) -> (u64, Result<Output, Status>)
        requires ready { IsReady (world shared.now) 4 self.old }
        requires call { call.now ≡ OnStore (Compute asked.now) }
        requires element { IsElementCall asked.now.call element.now }
        requires model { (id room : ℕ) → model_keyed_call asked.now.call id room ≡ model_call element.now id room }
        requires vector { HasDrawn element.now (next_bytes self.old.stream 16) }
        requires draws { has_vector element.now ≡ takes_vector asked.now.call }
        ensures ready { IsReady (world shared.now) 0 self.new }
        ensures answered { IsServed (world shared.now) self.old self.new call.now result out.old out.new }
        ensures spent { self.new.spent ≡ self.old.spent }
        ensures handles { self.new.handles ≡ self.old.handles }
    {
        let Some(spare) = self.spares.pop() else {
            unreachable!()
        };
        let usage = asked.wanted();
        let (rank, looked) = shared.look_or_compute(
            rt,
            &mut self.pass,
            call,
            asked.key(),
            usage,
            spare,
            element,
            out,
        );
        match looked {
            Looked::Computed(computed, spare) => {
                self.spares.push_reserved(spare);
                draw_vector(asked, &computed, &mut self.stream);
                (rank, asked.computed_output(computed))
            }
            Looked::Lent(lease) => (rank, self.compute_with(rt, shared, gate, asked, lease, out)),
            Looked::Refused(status, spare) => {
                self.spares.push_reserved(spare);
                (rank, Err(status))
            }
        }
    }

    // Computes with the bytes of a key that is lent, and gives the lease back.
    fn compute_with<R: Wait, G: Gate>(
        &mut self,
        rt: &R,
        shared: &SharedStore<D, A, C>,
        gate: &G,
        asked: &Computation<'_>,
        lease: Lease,
        out: &mut [u8],
    ) -> Result<Output, Status>
        requires fits { FitsUse (wanted_by asked.now.call) (bytes_of lease.buffer) }
        requires words { self.old.stream.place + 256 ≤ 2 ^ 60 }
        requires at { IsAt (world shared.now) self.old.pass }
        requires number { self.old.pass.me.0.number ≡ self.old.number }
        requires legal { Legal (world shared.now) (entries_of self.old.pass.me.0.seen) }
        requires left { 0 < self.old.pass.me.0.turns_left }
        requires out { 0 < names lease.slot (lease.creation + 1) self.old.pass.me.0.holding }
        requires room { vec_len self.old.spares < vec_capacity self.old.spares }
        ensures at { IsAt (world shared.now) self.new.pass }
        ensures legal { Legal (world shared.now) (entries_of self.new.pass.me.0.seen) }
        ensures fits { IsReplied result out.old out.new (computed_by asked.now.call (bytes_of lease.buffer) (next_bytes self.old.stream) (length out.old)).reply }
        ensures back { IsGivenBack lease (record self.old { stream = drawn_from self.old.stream (computed_by asked.now.call (bytes_of lease.buffer) (next_bytes self.old.stream) (length out.old)).drawn }) self.new }
    {
        gate.hold(self.number, &self.pass, GatePoint::Reading);
        let result = asked.compute(lease.as_slice(), &mut self.stream, out);
        self.give_back(rt, shared, Some(lease));
        result
    }
}
