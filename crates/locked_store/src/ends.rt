//! How a turn begins and ends.
ghost use Rattle.std.specs.Prelude.{◌≡◌, ◌<◌, Some, None};
ghost use Rattle.turn_history.specs.Prelude.{entries_of};
ghost use Rattle.key_slots.specs.Holdings.{IsHolding};
ghost use Rattle.service_calls.specs.Meanings.{model_request};
ghost use Rattle.locked_store.specs.{Standing.HoldsHistory, Turning.IsAt, Turning.IsBegun, Turning.IsEntered, Turning.IsLater, Turning.IsLegal, Turning.after_change, Turning.mark_met, Left.StandsRanked, Left.StandsUnranked, Left.entry_left, Shared.world};

use crate::changes::{Change, Met};
use crate::held::{Entry, Held, SharedStore};
use admission::Admission;
use disk_face::Disk;
use driver_dispatch::Devices;
use service_calls::Call;
use std::marker::Brand;
use std::snapshot::Snapshot;
use std::sync::Wait;
use turn_history::{Naming, Pass, Turn};

impl<D: Disk, A: Devices, C: Admission> SharedStore<D, A, C> {
    // Waits for the pass's turn.
    #[tactic(auto, unfolding(crate::specs::Shared::lock_of, crate::specs::Shared::opened_of))]
    pub(crate) fn enter<R: Wait>(
        &self,
        rt: &R,
        pass: &mut Pass<Held<D, A, C>>,
    ) -> Turn<Held<D, A, C>>
        requires at { IsAt (world self.now) pass.old }
        requires left { 0 < pass.old.me.0.turns_left }
        ensures begun { IsBegun (world self.now) pass.old.me.0 pass.new result.entries }
        ensures stands { HoldsHistory D.Disk A.Devices C.Admission result.value.value.store (entries_of pass.new.me.0.seen) pass.new.me.0.holdings }
        ensures opened { result.value.value.store.opened ≡ (world self.now).opened }
    {
        self.lock.enter(rt, pass)
    }

    // Ends a turn with an entry for a call, with an output buffer of so many bytes, and answers its rank. Beside it stands
    // what the pass was before the turn.
    pub(crate) fn leave_ranked(
        &self,
        pass: &mut Pass<Held<D, A, C>>,
        turn: Turn<Held<D, A, C>>,
        before: Snapshot<Pass<Held<D, A, C>>>,
        call: &Call<'_>,
        room: usize,
        met: Met,
        change: &Change,
    ) -> u64
        requires begun { IsBegun (world self.now) before.value.me.0 pass.old turn.entries }
        requires stands { StandsRanked D.Disk A.Devices C.Admission turn.value.value.store pass.old (model_request call.now room) met change.now }
        requires opened { turn.value.value.store.opened ≡ (world self.now).opened }
        ensures at { IsAt (world self.now) pass.new }
        ensures legal { IsLegal (world self.now) (entries_of pass.new.me.0.seen) }
        ensures entered { IsEntered before.value.me.0 pass.new.me.0 (model_request call.now room) (mark_met met) result (after_change change.now before.value.me.0.holding)
            (entries_of pass.old.me.0.seen) (entry_left D.Disk A.Devices turn.value.value.store pass.old (model_request call.now room) met) }
    {
        self.leave_named::<Brand>(pass, turn, before, call, room, met, change)
    }

    // The same, where the entry and what the caller then has out are named.
    fn leave_named<N: Naming<Entry>>(
        &self,
        pass: &mut Pass<Held<D, A, C>>,
        turn: Turn<Held<D, A, C>>,
        before: Snapshot<Pass<Held<D, A, C>>>,
        call: &Call<'_>,
        room: usize,
        met: Met,
        change: &Change,
    ) -> u64
        requires begun { IsBegun (world self.now) before.value.me.0 pass.old turn.entries }
        requires names { (N.entry ≡ Some (entry_left D.Disk A.Devices turn.value.value.store pass.old (model_request call.now room) met)) × (N.holding ≡ after_change change.now pass.old.me.0.holding) }
        requires stands { StandsRanked D.Disk A.Devices C.Admission turn.value.value.store pass.old (model_request call.now room) met change.now }
        requires opened { turn.value.value.store.opened ≡ (world self.now).opened }
        ensures at { IsAt (world self.now) pass.new }
        ensures legal { IsLegal (world self.now) (entries_of pass.new.me.0.seen) }
        ensures entered { IsEntered before.value.me.0 pass.new.me.0 (model_request call.now room) (mark_met met) result (after_change change.now before.value.me.0.holding)
            (entries_of pass.old.me.0.seen) (entry_left D.Disk A.Devices turn.value.value.store pass.old (model_request call.now room) met) }
    {
        let _ = (before, call, room, met, change);
        let rank = self.lock.leave::<N>(pass, turn).unwrap();
        rank
    }

    // Ends a turn that has no rank.
    pub(crate) fn leave_unranked<N: Naming<Entry>>(
        &self,
        pass: &mut Pass<Held<D, A, C>>,
        turn: Turn<Held<D, A, C>>,
        before: Snapshot<Pass<Held<D, A, C>>>,
        change: &Change,
    )
        requires begun { IsBegun (world self.now) before.value.me.0 pass.old turn.entries }
        requires names { (N.entry ≡ None) × (N.holding ≡ after_change change.now pass.old.me.0.holding) }
        requires stands { StandsUnranked D.Disk A.Devices C.Admission turn.value.value.store pass.old change.now }
        requires opened { turn.value.value.store.opened ≡ (world self.now).opened }
        ensures at { IsAt (world self.now) pass.new }
        ensures legal { IsLegal (world self.now) (entries_of pass.new.me.0.seen) }
        ensures later { IsLater before.value.me.0 pass.new.me.0 (after_change change.now before.value.me.0.holding) }
    {
        let _ = (before, change);
        self.lock.leave::<N>(pass, turn);
    }
}
