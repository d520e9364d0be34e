//! The turn of a call in one part with a key that the secure element may hold.
ghost use Rattle.std.specs.Prelude.{◌≡◌, ◌<◌, length};
ghost use Rattle.secret_bytes.specs.Buffer.{IsClear};
ghost use Rattle.turn_history.specs.Prelude.{entries_of};
ghost use Rattle.secure_element_calls.specs.{Answers.mark_computed, Calls.model_call};
ghost use Rattle.service_calls.specs.Meanings.{model_request};
ghost use Rattle.store_model.specs.Prelude.{OnStore};
ghost use Rattle.store_core.specs.Prelude.{HasOpaque, IsElementAnswered};
ghost use Rattle.locked_store.specs.{Elements.IsLooked, Standing.HoldsHistory, Turning.HasRoomForLease, Turning.IsAt, Turning.IsLegal, Turning.IsBegun, Ranked.EndsAfter, Shared.world};

use crate::changes::{Change, Met};
use crate::held::{Held, SharedStore};
use admission::Admission;
use disk_face::Disk;
use driver_dispatch::Devices;
use key_attributes::KeyId;
use key_policy::KeyUse;
use psa_status::Status;
use secret_bytes::Secret;
use secure_element_calls::{ElementCall, NotComputed};
use service_calls::Call;
use slot_table::Lease;
use std::snapshot::Snapshot;
use std::sync::Wait;
use turn_history::{Pass, Turn};

/// What came of a look: the secure element has the key, and was asked to compute, so that the spare is still clear; or the key
/// is lent; or the look is refused.
pub enum Looked {
    Computed(Result<usize, NotComputed>, Secret),
    Lent(Lease),
    Refused(Status, Secret),
}

impl<D: Disk, A: Devices, C: Admission> SharedStore<D, A, C> {
    /// Has the secure element compute a call with its key, where it holds that. Else the key is looked for, as by `look`.
    /// Ranked.
    pub fn look_or_compute<R: Wait>(
        &self,
        rt: &R,
        pass: &mut Pass<Held<D, A, C>>,
        call: &Call<'_>,
        id: KeyId,
        wanted: KeyUse,
        spare: Secret,
        element: &ElementCall<'_>,
        out: &mut [u8],
    ) -> (u64, Looked)
        requires at { IsAt (world self.now) pass.old }
        requires left { 0 < pass.old.me.0.turns_left }
        requires space { HasRoomForLease pass.old.me.0.holding }
        requires spare { IsClear spare }
        requires computes { model_request call.now (length out.old) ≡ OnStore (model_call element.now id.0 (length out.old)) }
        ensures at { IsAt (world self.now) pass.new }
        ensures legal { IsLegal (world self.now) (entries_of pass.new.me.0.seen) }
        ensures looked { IsLooked (world self.now) pass.old.me.0 pass.new.me.0 (model_request call.now (length out.old)) result.0 id.0 wanted element.now out.old out.new result.1 }
    {
        let before = Snapshot::of(pass);
        let mut turn = self.enter(rt, pass);
        if turn.value().store.is_opaque(id) {
            let (rank, computed) = self.compute_in(pass, turn, before, call, id, element, out);
            return (rank, Looked::Computed(computed, spare));
        }
        let (rank, looked) = self.look_in(pass, turn, before, call, out.len(), id, wanted, spare);
        match looked {
            Ok(lease) => (rank, Looked::Lent(lease)),
            Err((status, spare)) => (rank, Looked::Refused(status, spare)),
        }
    }

    // Has the secure element compute with its key, in a turn that has begun.
    fn compute_in(
        &self,
        pass: &mut Pass<Held<D, A, C>>,
        mut turn: Turn<Held<D, A, C>>,
        before: Snapshot<Pass<Held<D, A, C>>>,
        call: &Call<'_>,
        id: KeyId,
        element: &ElementCall<'_>,
        out: &mut [u8],
    ) -> (u64, Result<usize, NotComputed>)
        requires begun { IsBegun (world self.now) before.value.me.0 pass.old turn.entries }
        requires stands { HoldsHistory D.Disk A.Devices C.Admission turn.value.value.store (entries_of pass.old.me.0.seen) pass.old.me.0.holdings }
        requires opened { turn.value.value.store.opened ≡ (world self.now).opened }
        requires opaque { HasOpaque D.Disk A.Devices C.Admission turn.value.value.store id.0 }
        requires computes { model_request call.now (length out.old) ≡ OnStore (model_call element.now id.0 (length out.old)) }
        ensures at { IsAt (world self.now) pass.new }
        ensures legal { IsLegal (world self.now) (entries_of pass.new.me.0.seen) }
        ensures computed { EndsAfter self.now before.value pass.old pass.new call.now (length out.old) (mark_computed result.1) result.0
            (IsElementAnswered (A.keys (world self.now).opened.devices.value) id.0 element.now out.old out.new result.1) }
    {
        let room = out.len();
        let computed = turn.value().store.opaque_call(id, element, out);
        let met = Met::Computed(Snapshot::of(&computed));
        let rank = self.leave_ranked(pass, turn, before, call, room, met, &Change::Nothing);
        (rank, computed)
    }
}
