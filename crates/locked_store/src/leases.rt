//! Turns that lend a key, and take it back.
ghost use Rattle.std.specs.Prelude.{◌≡◌, ◌<◌, ◌+◌, false, IfOk, IfErr};
ghost use Rattle.secret_bytes.specs.Buffer.{IsClear, bytes_of};
ghost use Rattle.turn_history.specs.Prelude.{entries_of};
ghost use Rattle.key_slots.specs.Holdings.{IsHolding, names};
ghost use Rattle.key_policy.specs.Uses.{FitsUse, use_refusal};
ghost use Rattle.service_calls.specs.Meanings.{model_request};
ghost use Rattle.store_model.specs.Prelude.{may_change_keys};
ghost use Rattle.store_core.specs.Prelude.{IsLent};
ghost use Rattle.locked_store.specs.{Standing.HoldsHistory, Turning.HasRoomForLease, Turning.IsAt, Turning.IsBegun, Turning.IsLater, Turning.IsLegal, Turning.ReadsKey, Turning.lease_pair, Turning.without_pair, Ranked.EndsLent, Ranked.EndsRefused, Ranked.RanksLent, Ranked.RanksRefused, Shared.world};

use crate::changes::{Change, Met};
use crate::held::{Held, SharedStore};
use admission::Admission;
use disk_face::Disk;
use driver_dispatch::Devices;
use key_attributes::KeyId;
use key_policy::KeyUse;
use psa_status::Status;
use secret_bytes::Secret;
use service_calls::Call;
use slot_table::Lease;
use std::marker::Brand;
use std::snapshot::Snapshot;
use std::sync::Wait;
use turn_history::{Pass, Turn};

impl<D: Disk, A: Devices, C: Admission> SharedStore<D, A, C> {
    /// Lends the bytes of the key that a call reads, in a clear spare, or answers the call's first refusal, with the spare.
    /// The call has an output buffer of so many bytes. Ranked.
    pub fn look<R: Wait>(
        &self,
        rt: &R,
        pass: &mut Pass<Held<D, A, C>>,
        call: &Call<'_>,
        room: usize,
        id: KeyId,
        wanted: KeyUse,
        spare: Secret,
    ) -> (u64, Result<Lease, (Status, Secret)>)
        requires at { IsAt (world self.now) pass.old }
        requires left { 0 < pass.old.me.0.turns_left }
        requires space { HasRoomForLease pass.old.me.0.holding }
        requires spare { IsClear spare }
        requires quiet { may_change_keys (model_request call.now room) ≡ false }
        requires reads { ReadsKey (world self.now) pass.old.me.0 (model_request call.now room) id.0 }
        ensures at { IsAt (world self.now) pass.new }
        ensures legal { IsLegal (world self.now) (entries_of pass.new.me.0.seen) }
        ensures lent { IfOk result.1 (λ lease. RanksLent self.now pass.old pass.new call.now room result.0 lease (IsLent (use_refusal wanted) id.0 lease)) }
        ensures fits { IfOk result.1 (λ lease. FitsUse wanted (bytes_of lease.buffer)) }
        ensures refused { IfErr result.1 (λ refused. RanksRefused self.now pass.old pass.new call.now room result.0 (use_refusal wanted) id.0 refused.0) }
        ensures spare { IfErr result.1 (λ refused. IsClear refused.1) }
    {
        let before = Snapshot::of(pass);
        let turn = self.enter(rt, pass);
        self.look_in(pass, turn, before, call, room, id, wanted, spare)
    }

    // The same in a turn that has begun.
    pub(crate) fn look_in(
        &self,
        pass: &mut Pass<Held<D, A, C>>,
        mut turn: Turn<Held<D, A, C>>,
        before: Snapshot<Pass<Held<D, A, C>>>,
        call: &Call<'_>,
        room: usize,
        id: KeyId,
        wanted: KeyUse,
        spare: Secret,
    ) -> (u64, Result<Lease, (Status, Secret)>)
        requires begun { IsBegun (world self.now) before.value.me.0 pass.old turn.entries }
        requires stands { HoldsHistory D.Disk A.Devices C.Admission turn.value.value.store (entries_of pass.old.me.0.seen) pass.old.me.0.holdings }
        requires opened { turn.value.value.store.opened ≡ (world self.now).opened }
        requires holding { IsHolding before.value.me.0.holding }
        requires space { HasRoomForLease before.value.me.0.holding }
        requires spare { IsClear spare }
        requires quiet { may_change_keys (model_request call.now room) ≡ false }
        requires reads { ReadsKey (world self.now) before.value.me.0 (model_request call.now room) id.0 }
        ensures at { IsAt (world self.now) pass.new }
        ensures legal { IsLegal (world self.now) (entries_of pass.new.me.0.seen) }
        ensures lent { IfOk result.1 (λ lease. EndsLent self.now before.value pass.old pass.new call.now room result.0 lease
            (IsLent (use_refusal wanted) id.0 lease)) }
        ensures fits { IfOk result.1 (λ lease. FitsUse wanted (bytes_of lease.buffer)) }
        ensures refused { IfErr result.1 (λ refused. EndsRefused self.now before.value pass.old pass.new call.now room result.0
            (use_refusal wanted) id.0 refused.0 turn.value.value.store) }
        ensures spare { IfErr result.1 (λ refused. IsClear refused.1) }
    {
        match turn.value().store.look(id, wanted, spare) {
            Ok(lease) => {
                let change = Change::Lends(Snapshot::of(&lease));
                let rank = self.leave_ranked(pass, turn, before, call, room, Met::Nothing, &change);
                (rank, Ok(lease))
            }
            Err((status, spare)) => {
                let rank = self.leave_ranked(
                    pass,
                    turn,
                    before,
                    call,
                    room,
                    Met::Unread(status),
                    &Change::Nothing,
                );
                (rank, Err((status, spare)))
            }
        }
    }

    /// Gives a lease back, and answers its spare, which is clear. No rank.
    pub fn give_back<R: Wait>(&self, rt: &R, pass: &mut Pass<Held<D, A, C>>, lease: Lease) -> Secret
        requires at { IsAt (world self.now) pass.old }
        requires left { 0 < pass.old.me.0.turns_left }
        requires out { 0 < names lease.slot (lease.creation + 1) pass.old.me.0.holding }
        ensures at { IsAt (world self.now) pass.new }
        ensures legal { IsLegal (world self.now) (entries_of pass.new.me.0.seen) }
        ensures later { IsLater pass.old.me.0 pass.new.me.0 (without_pair (lease_pair lease) pass.old.me.0.holding) }
        ensures clear { IsClear result }
    {
        let before = Snapshot::of(pass);
        let change = Change::TakesLease(Snapshot::of(&lease));
        let mut turn = self.enter(rt, pass);
        let spare = turn.value().store.leave(lease);
        self.leave_unranked::<Brand>(pass, turn, before, &change);
        spare
    }
}
