// Calls on keys as wholes.
ghost use Rattle.std.specs.Prelude.{◌≡◌, ℕ, List, ◌≤◌, None, IfOk, IfErr, length};
ghost use Rattle.service_calls.specs.{Asked.changes, Asked.creates, Meanings.model_request, declared.store_calls.KeyChange.TheVariants.Destroy, declared.store_calls.KeyChange.TheVariants.GetAttributes, declared.store_calls.KeyChange.TheVariants.Purge, declared.store_calls.KeyChange.TheVariants.Copy, declared.store_calls.Creation.TheVariants.Import};
ghost use Rattle.callers.specs.Prelude.{IsCreated, IsReady, IsServedUnwritten, Legal, SameButPass};
ghost use Rattle.locked_store.specs.Prelude.{world, CreatesKey, DecidesBefore, HasNoFilling, IsAt};
ghost use Rattle.turn_history.specs.Prelude.{entries_of};
ghost use Rattle.store_model.specs.Prelude.{Plain};
ghost use Rattle.store_core.specs.Prelude.{IsMade, IsUnmade, RecordsStated, mark_unmade};

use crate::caller::Caller;
use crate::gates::{Gate, GatePoint};
use admission::Admission;
use disk_face::Disk;
use driver_dispatch::Devices;
use key_attributes::{Attributes, KeyId};
use locked_store::SharedStore;
use psa_status::Status;
use service_calls::{Call, Output};
use std::sync::Wait;
use store_core::NotMade;

impl<D: Disk, A: Devices, C: Admission> Caller<D, A, C> {
    /// Destroys a key, and answers its rank beside what it gives. The output buffer that the call would have, of so many
    /// bytes, is left.
    pub fn destroy<R: Wait>(
        &mut self,
        rt: &R,
        shared: &SharedStore<D, A, C>,
        call: &Call<'_>,
        room: usize,
        key: KeyId,
    ) -> (u64, Result<Output, Status>)
        requires ready { IsReady (world shared.now) 4 self.old }
        requires call { call.now ≡ changes (Destroy key) }
        ensures ready { IsReady (world shared.now) 0 self.new }
        ensures answered { IsServedUnwritten (world shared.now) self.old self.new call.now room result }
        ensures same { SameButPass self.old self.new }
    {
        let (rank, destroyed) = shared.destroy(rt, &mut self.pass, call, room, key);
        match destroyed {
            Ok(()) => (rank, Ok(Output::Done)),
            Err(failure) => (rank, Err(failure.status())),
        }
    }

    /// Forgets a key in memory that is in the file too and that nobody reads; answers as `destroy` does.
    pub fn purge<R: Wait>(
        &mut self,
        rt: &R,
        shared: &SharedStore<D, A, C>,
        call: &Call<'_>,
        room: usize,
        key: KeyId,
    ) -> (u64, Result<Output, Status>)
        requires ready { IsReady (world shared.now) 4 self.old }
        requires call { call.now ≡ changes (Purge key) }
        ensures ready { IsReady (world shared.now) 0 self.new }
        ensures answered { IsServedUnwritten (world shared.now) self.old self.new call.now room result }
        ensures same { SameButPass self.old self.new }
    {
        let (rank, purged) = shared.purge(rt, &mut self.pass, call, room, key);
        match purged {
            Ok(()) => (rank, Ok(Output::Done)),
            Err(status) => (rank, Err(status)),
        }
    }

    /// What is known of a key beside its bytes, with the rank; answers as `destroy` does.
    pub fn attributes<R: Wait>(
        &mut self,
        rt: &R,
        shared: &SharedStore<D, A, C>,
        call: &Call<'_>,
        room: usize,
        key: KeyId,
    ) -> (u64, Result<Output, Status>)
        requires ready { IsReady (world shared.now) 4 self.old }
        requires call { call.now ≡ changes (GetAttributes key) }
        ensures ready { IsReady (world shared.now) 0 self.new }
        ensures answered { IsServedUnwritten (world shared.now) self.old self.new call.now room result }
        ensures same { SameButPass self.old self.new }
    {
        let (rank, known) = shared.attributes(rt, &mut self.pass, call, room, key);
        match known {
            Ok(attributes) => (rank, Ok(Output::Description(attributes))),
            Err(status) => (rank, Err(status)),
        }
    }

    /// Creates a key of these bytes, and answers its rank beside its identifier. The output buffer that the call would have,
    /// of so many bytes, is left.
    pub fn import<R: Wait, G: Gate>(
        &mut self,
        rt: &R,
        shared: &SharedStore<D, A, C>,
        gate: &G,
        call: &Call<'_>,
        room: usize,
        attributes: Attributes,
        bytes: &[u8],
    ) -> (u64, Result<Output, Status>)
        requires ready { IsReady (world shared.now) 4 self.old }
        requires call { call.now ≡ creates (Import attributes bytes) }
        ensures ready { IsReady (world shared.now) 0 self.new }
        ensures answered { IsServedUnwritten (world shared.now) self.old self.new call.now room result }
        ensures same { SameButPass self.old self.new }
    {
        let (rank, made) = self.create(rt, shared, gate, call, room, &attributes, bytes);
        match made {
            Ok(id) => (rank, Ok(Output::Identifier(id))),
            Err(why) => (rank, Err(why.status())),
        }
    }

    /// Creates a key of the bytes of another one, and answers as `import` does.
    pub fn copy<R: Wait, G: Gate>(
        &mut self,
        rt: &R,
        shared: &SharedStore<D, A, C>,
        gate: &G,
        call: &Call<'_>,
        room: usize,
        source: KeyId,
        attributes: Attributes,
    ) -> (u64, Result<Output, Status>)
        requires ready { IsReady (world shared.now) 4 self.old }
        requires call { call.now ≡ changes (Copy source attributes) }
        ensures ready { IsReady (world shared.now) 0 self.new }
        ensures answered { IsServedUnwritten (world shared.now) self.old self.new call.now room result }
        ensures same { SameButPass self.old self.new }
    {
        let filling = shared.reserve(rt, &mut self.pass);
        gate.hold(self.number, &self.pass, GatePoint::Filling);
        let (rank, made) = shared.copy(
            rt,
            &mut self.pass,
            call,
            room,
            self.number,
            filling,
            source,
            &attributes,
        );
        match made {
            Ok(id) => (rank, Ok(Output::Identifier(id))),
            Err(why) => (rank, Err(why.status())),
        }
    }

    // Makes a key of these bytes for a call that creates one of them.
    pub(crate) fn create<R: Wait, G: Gate>(
        &mut self,
        rt: &R,
        shared: &SharedStore<D, A, C>,
        gate: &G,
        call: &Call<'_>,
        room: usize,
        attributes: &Attributes,
        bytes: &[u8],
    ) -> (u64, Result<KeyId, NotMade>)
        requires at { IsAt (world shared.now) self.old.pass }
        requires left { 2 ≤ self.old.pass.me.0.turns_left }
        requires number { self.old.number ≡ self.old.pass.me.0.number }
        requires space { HasNoFilling self.old.pass.me.0.holding }
        requires creates { CreatesKey (world shared.now) self.old.pass.me.0 self.old.number (model_request call.now room) (RecordsStated None self.old.number attributes.now (length bytes.now)) bytes.now }
        ensures at { IsAt (world shared.now) self.new.pass }
        ensures legal { Legal (world shared.now) (entries_of self.new.pass.me.0.seen) }
        ensures made { IfOk result.1 (λ id. IsCreated self.old.pass.me.0 self.new.pass.me.0 (model_request call.now room) Plain result.0
            (DecidesBefore (world shared.now) (IsMade (RecordsStated None self.old.number attributes.now (length bytes.now)) self.old.number id.0))) }
        ensures unmade { IfErr result.1 (λ why. IsCreated self.old.pass.me.0 self.new.pass.me.0 (model_request call.now room) (mark_unmade why) result.0
            (DecidesBefore (world shared.now) (IsUnmade (RecordsStated None self.old.number attributes.now (length bytes.now)) why))) }
        ensures same { SameButPass self.old self.new }
    {
        let filling = shared.reserve(rt, &mut self.pass);
        gate.hold(self.number, &self.pass, GatePoint::Filling);
        shared.finish(
            rt,
            &mut self.pass,
            call,
            room,
            self.number,
            filling,
            attributes,
            bytes,
            None,
        )
    }
}
