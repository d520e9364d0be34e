//! Turns that ask for a key, destroy it, or forget it in memory.
ghost use Rattle.std.specs.Prelude.{◌≡◌, ◌<◌, false, Some, None, IfOk, IfErr, OnOk};
ghost use Rattle.std.specs.FinMap as map;
ghost use Rattle.turn_history.specs.Prelude.{entries_of};
ghost use Rattle.psa_status.specs.declared.Status.TheVariants.{InvalidHandle};
ghost use Rattle.service_calls.specs.Meanings.{model_request};
ghost use Rattle.store_model.specs.Call as model;
ghost use Rattle.store_model.specs.Prelude.{Plain, may_change_keys, OnStore};
ghost use Rattle.store_core.specs.Prelude.{HasAttributes, IsUndestroyed, MayDestroy, mark_undestroyed, there_rows};
ghost use Rattle.locked_store.specs.{Turning.IsAt, Turning.IsLegal, Turning.LeavesAllKeys, Turning.ReadsKey, Ranked.RanksAfter, Ranked.RanksBefore, Ranked.RanksRefused, Shared.world};

use crate::changes::{Change, Met};
use crate::held::{Held, SharedStore};
use admission::Admission;
use disk_face::Disk;
use driver_dispatch::Devices;
use key_attributes::{Attributes, KeyId};
use psa_status::Status;
use service_calls::Call;
use std::snapshot::Snapshot;
use std::sync::Wait;
use store_core::NotDestroyed;
use turn_history::Pass;

impl<D: Disk, A: Devices, C: Admission> SharedStore<D, A, C> {
    /// What is known of the key that a call reads, beside its bytes. The call has an output buffer of so many bytes. Ranked.
    pub fn attributes<R: Wait>(
        &self,
        rt: &R,
        pass: &mut Pass<Held<D, A, C>>,
        call: &Call<'_>,
        room: usize,
        id: KeyId,
    ) -> (u64, Result<Attributes, Status>)
        requires at { IsAt (world self.now) pass.old }
        requires left { 0 < pass.old.me.0.turns_left }
        requires quiet { may_change_keys (model_request call.now room) ≡ false }
        requires reads { ReadsKey (world self.now) pass.old.me.0 (model_request call.now room) id.0 }
        ensures at { IsAt (world self.now) pass.new }
        ensures legal { IsLegal (world self.now) (entries_of pass.new.me.0.seen) }
        ensures known { IfOk result.1 (λ attributes. RanksAfter self.now pass.old pass.new call.now room Plain result.0 (HasAttributes id.0 attributes)) }
        ensures refused { IfErr result.1 (λ status. RanksRefused self.now pass.old pass.new call.now room result.0 there_rows id.0 status) }
    {
        let before = Snapshot::of(pass);
        let mut turn = self.enter(rt, pass);
        let found = turn.value().store.attributes(id);
        let met = Met::Read(Snapshot::of(&found));
        let rank = self.leave_ranked(pass, turn, before, call, room, met, &Change::Nothing);
        (rank, found)
    }

    /// Destroys a key. Ranked.
    pub fn destroy<R: Wait>(
        &self,
        rt: &R,
        pass: &mut Pass<Held<D, A, C>>,
        call: &Call<'_>,
        room: usize,
        id: KeyId,
    ) -> (u64, Result<(), NotDestroyed>)
        requires at { IsAt (world self.now) pass.old }
        requires left { 0 < pass.old.me.0.turns_left }
        requires destroys { model_request call.now room ≡ OnStore (model.Destroy id.0) }
        ensures at { IsAt (world self.now) pass.new }
        ensures legal { IsLegal (world self.now) (entries_of pass.new.me.0.seen) }
        ensures destroyed { OnOk result.1 (RanksBefore self.now pass.old pass.new call.now room Plain result.0 (MayDestroy id.0)) }
        ensures failed { IfErr result.1 (λ why. RanksBefore self.now pass.old pass.new call.now room (mark_undestroyed why) result.0 (IsUndestroyed id.0 why)) }
    {
        let before = Snapshot::of(pass);
        let mut turn = self.enter(rt, pass);
        let destroyed = turn.value().store.destroy(id);
        let met = Met::Destroyed(Snapshot::of(&destroyed));
        let rank = self.leave_ranked(pass, turn, before, call, room, met, &Change::Nothing);
        (rank, destroyed)
    }

    /// Forgets a key in memory that is in the file too and that nobody reads. Ranked.
    pub fn purge<R: Wait>(
        &self,
        rt: &R,
        pass: &mut Pass<Held<D, A, C>>,
        call: &Call<'_>,
        room: usize,
        id: KeyId,
    ) -> (u64, Result<(), Status>)
        requires at { IsAt (world self.now) pass.old }
        requires left { 0 < pass.old.me.0.turns_left }
        requires leaves { LeavesAllKeys (world self.now) pass.old.me.0 (model_request call.now room) }
        ensures at { IsAt (world self.now) pass.new }
        ensures legal { IsLegal (world self.now) (entries_of pass.new.me.0.seen) }
        ensures there { OnOk result.1 (RanksAfter self.now pass.old pass.new call.now room Plain result.0 (λ m. there_rows (map.get m.keys id.0) ≡ None)) }
        ensures missing { IfErr result.1 (λ status. (status ≡ InvalidHandle) ×
            RanksAfter self.now pass.old pass.new call.now room Plain result.0 (λ m. there_rows (map.get m.keys id.0) ≡ Some status)) }
    {
        let before = Snapshot::of(pass);
        let mut turn = self.enter(rt, pass);
        let purged = turn.value().store.purge(id);
        let met = Met::Nothing;
        let rank = self.leave_ranked(pass, turn, before, call, room, met, &Change::Nothing);
        (rank, purged)
    }
}
