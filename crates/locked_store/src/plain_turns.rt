//! Ranked turns that leave what the caller has out of the store.
ghost use Rattle.std.specs.Prelude.{◌≡◌, ◌<◌, ◌+◌, true, false, IfOk, IfErr, OnOk, OnErr};
ghost use Rattle.std.specs.FinMap as map;
ghost use Rattle.turn_history.specs.Prelude.{entries_of};
ghost use Rattle.psa_status.specs.declared.Status.TheVariants.{InvalidHandle};
ghost use Rattle.key_slots.specs.Holdings.{names};
ghost use Rattle.service_calls.specs.Meanings.{model_request};
ghost use Rattle.store_model.specs.Prelude.{Plain, HasNumber};
ghost use Rattle.store_core.specs.Prelude.{HasAttributes, IsRefused, mark_of, there_rows};
ghost use Rattle.locked_store.specs.{Turning.IsAt, Turning.IsLegal, Turning.IsRanked, Turning.LeavesAllKeys, Ranked.RanksAfter, Shared.world};

use crate::changes::{Change, Met};
use crate::held::{Held, SharedStore};
use admission::Admission;
use disk_face::Disk;
use driver_dispatch::Devices;
use key_attributes::{Attributes, KeyId};
use psa_status::Status;
use service_calls::Call;
use slot_table::Lease;
use std::snapshot::Snapshot;
use std::sync::Wait;
use turn_history::Pass;

impl<D: Disk, A: Devices, C: Admission> SharedStore<D, A, C> {
    /// Counts a call that needs no key, with an output buffer of so many bytes. Ranked.
    pub fn count<R: Wait>(
        &self,
        rt: &R,
        pass: &mut Pass<Held<D, A, C>>,
        call: &Call<'_>,
        room: usize,
    ) -> u64
        requires at { IsAt (world self.now) pass.old }
        requires left { 0 < pass.old.me.0.turns_left }
        requires leaves { LeavesAllKeys (world self.now) pass.old.me.0 (model_request call.now room) }
        ensures at { IsAt (world self.now) pass.new }
        ensures legal { IsLegal (world self.now) (entries_of pass.new.me.0.seen) }
        ensures counted { IsRanked pass.old.me.0 pass.new.me.0 (model_request call.now room) Plain result pass.old.me.0.holding (λ before e. Unit {0}) }
    {
        let before = Snapshot::of(pass);
        let mut turn = self.enter(rt, pass);
        turn.value().store.count();
        self.leave_ranked(
            pass,
            turn,
            before,
            call,
            room,
            Met::Nothing,
            &Change::Nothing,
        )
    }

    /// Counts a step of an operation, with an output buffer of so many bytes. `InvalidHandle` exactly where the key of its
    /// lease is gone. Ranked.
    pub fn step<R: Wait>(
        &self,
        rt: &R,
        pass: &mut Pass<Held<D, A, C>>,
        call: &Call<'_>,
        room: usize,
        lease: &Lease,
    ) -> (u64, Result<(), Status>)
        requires at { IsAt (world self.now) pass.old }
        requires left { 0 < pass.old.me.0.turns_left }
        requires out { 0 < names lease.now.slot (lease.now.creation + 1) pass.old.me.0.holding }
        requires leaves { LeavesAllKeys (world self.now) pass.old.me.0 (model_request call.now room) }
        ensures at { IsAt (world self.now) pass.new }
        ensures legal { IsLegal (world self.now) (entries_of pass.new.me.0.seen) }
        ensures alive { OnOk result.1 (RanksAfter self.now pass.old pass.new call.now room Plain result.0 (λ m. HasNumber m lease.now.creation)) }
        ensures gone { OnErr result.1 (RanksAfter self.now pass.old pass.new call.now room Plain result.0 (λ m. HasNumber m lease.now.creation → ⊥)) }
        ensures status { IfErr result.1 (λ status. status ≡ InvalidHandle) }
    {
        let before = Snapshot::of(pass);
        let mut turn = self.enter(rt, pass);
        let stepped = turn.value().store.step_operation(lease);
        let rank = self.leave_ranked(
            pass,
            turn,
            before,
            call,
            room,
            Met::Nothing,
            &Change::Nothing,
        );
        (rank, stepped)
    }
}
