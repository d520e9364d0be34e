//! Turns of creations: a slot is reserved, and a key is put into it, or it is given up.
ghost use Rattle.std.specs.{Prelude.◌≡◌, Prelude.◌<◌, Prelude.◌∷◌, Prelude.length, Prelude.IfOk, Prelude.IfErr, Option.option_map};
ghost use Rattle.turn_history.specs.Prelude.{entries_of};
ghost use Rattle.key_slots.specs.Holdings.{names};
ghost use Rattle.service_calls.specs.Meanings.{model_request};
ghost use Rattle.store_model.specs.Call as model;
ghost use Rattle.store_model.specs.Prelude.{Plain, OnStore};
ghost use Rattle.store_core.specs.Prelude.{IsMade, IsUncopied, IsUnmade, RecordsCopy, RecordsStated, mark_uncopied, mark_unmade};
ghost use Rattle.locked_store.specs.{Turning.CreatesKey, Turning.HasNoFilling, Turning.IsAt, Turning.IsLater, Turning.IsLegal, Turning.IsOwn, Turning.filling_pair, Turning.without_pair, Ranked.RanksFilling, Shared.world};

use crate::changes::{Change, Met};
use crate::held::{Held, SharedStore};
use admission::Admission;
use disk_face::Disk;
use driver_dispatch::Devices;
use key_attributes::{Attributes, KeyId};
use service_calls::Call;
use slot_table::{Filling, Lease};
use std::marker::Brand;
use std::snapshot::Snapshot;
use std::sync::Wait;
use store_core::{NotCopied, NotMade};
use turn_history::Pass;

impl<D: Disk, A: Devices, C: Admission> SharedStore<D, A, C> {
    /// Takes a slot for a key that is to be made. No rank.
    pub fn reserve<R: Wait>(&self, rt: &R, pass: &mut Pass<Held<D, A, C>>) -> Filling
        requires at { IsAt (world self.now) pass.old }
        requires left { 0 < pass.old.me.0.turns_left }
        requires space { HasNoFilling pass.old.me.0.holding }
        ensures at { IsAt (world self.now) pass.new }
        ensures legal { IsLegal (world self.now) (entries_of pass.new.me.0.seen) }
        ensures later { IsLater pass.old.me.0 pass.new.me.0 (filling_pair result ∷ pass.old.me.0.holding) }
    {
        let before = Snapshot::of(pass);
        let mut turn = self.enter(rt, pass);
        let filling = turn.value().store.reserve();
        let change = Change::Reserves(Snapshot::of(&filling));
        self.leave_unranked::<Brand>(pass, turn, before, &change);
        filling
    }

    /// Gives up a slot that waits for its key. No rank.
    pub fn give_up<R: Wait>(&self, rt: &R, pass: &mut Pass<Held<D, A, C>>, filling: Filling)
        requires at { IsAt (world self.now) pass.old }
        requires left { 0 < pass.old.me.0.turns_left }
        requires out { 0 < names filling.slot 0 pass.old.me.0.holding }
        ensures at { IsAt (world self.now) pass.new }
        ensures legal { IsLegal (world self.now) (entries_of pass.new.me.0.seen) }
        ensures later { IsLater pass.old.me.0 pass.new.me.0 (without_pair (filling_pair filling) pass.old.me.0.holding) }
    {
        let before = Snapshot::of(pass);
        let change = Change::TakesFilling(Snapshot::of(&filling));
        let mut turn = self.enter(rt, pass);
        turn.value().store.give_up(filling);
        self.leave_unranked::<Brand>(pass, turn, before, &change);
    }

    /// Makes a key of these bytes for a call that creates one, in the slot that waits for it, or gives the slot up. The call
    /// has an output buffer of so many bytes; that of an operation comes with the lease of the operation's key, and is refused
    /// where that is gone. Ranked.
    pub fn finish<R: Wait>(
        &self,
        rt: &R,
        pass: &mut Pass<Held<D, A, C>>,
        call: &Call<'_>,
        room: usize,
        caller: u8,
        filling: Filling,
        attributes: &Attributes,
        bytes: &[u8],
        lease: Option<&Lease>,
    ) -> (u64, Result<KeyId, NotMade>)
        requires at { IsAt (world self.now) pass.old }
        requires left { 0 < pass.old.me.0.turns_left }
        requires caller { caller ≡ pass.old.me.0.number }
        requires out { 0 < names filling.slot 0 pass.old.me.0.holding }
        requires lent { IsOwn (option_map (λ l. l.now) lease) pass.old.me.0.holding }
        requires creates { CreatesKey (world self.now) pass.old.me.0 caller (model_request call.now room) (RecordsStated (option_map (λ l. l.now) lease) caller attributes.now (length bytes.now)) bytes.now }
        ensures at { IsAt (world self.now) pass.new }
        ensures legal { IsLegal (world self.now) (entries_of pass.new.me.0.seen) }
        ensures made { IfOk result.1 (λ id. RanksFilling self.now pass.old pass.new call.now room Plain result.0 filling
            (IsMade (RecordsStated (option_map (λ l. l.now) lease.entry) caller attributes.now (length bytes.now)) caller id.0)) }
        ensures unmade { IfErr result.1 (λ why. RanksFilling self.now pass.old pass.new call.now room (mark_unmade why) result.0 filling
            (IsUnmade (RecordsStated (option_map (λ l. l.now) lease.entry) caller attributes.now (length bytes.now)) why)) }
    {
        let before = Snapshot::of(pass);
        let change = Change::TakesFilling(Snapshot::of(&filling));
        let mut turn = self.enter(rt, pass);
        let made = turn
            .value()
            .store
            .finish(caller, filling, attributes, bytes, lease);
        let met = Met::Made(Snapshot::of(&made));
        let rank = self.leave_ranked(pass, turn, before, call, room, met, &change);
        (rank, made)
    }

    /// Makes a copy of a key, in the slot that waits for it, or gives the slot up. Ranked.
    pub fn copy<R: Wait>(
        &self,
        rt: &R,
        pass: &mut Pass<Held<D, A, C>>,
        call: &Call<'_>,
        room: usize,
        caller: u8,
        filling: Filling,
        source: KeyId,
        attributes: &Attributes,
    ) -> (u64, Result<KeyId, NotCopied>)
        requires at { IsAt (world self.now) pass.old }
        requires left { 0 < pass.old.me.0.turns_left }
        requires caller { caller ≡ pass.old.me.0.number }
        requires out { 0 < names filling.slot 0 pass.old.me.0.holding }
        requires copies { model_request call.now room ≡ OnStore (model.Copy source.0 attributes.now) }
        ensures at { IsAt (world self.now) pass.new }
        ensures legal { IsLegal (world self.now) (entries_of pass.new.me.0.seen) }
        ensures made { IfOk result.1 (λ id. RanksFilling self.now pass.old pass.new call.now room Plain result.0 filling
            (IsMade (RecordsCopy caller source.0 attributes.now) caller id.0)) }
        ensures uncopied { IfErr result.1 (λ why. RanksFilling self.now pass.old pass.new call.now room (mark_uncopied why) result.0 filling
            (IsUncopied (RecordsCopy caller source.0 attributes.now) source.0 why)) }
    {
        let before = Snapshot::of(pass);
        let change = Change::TakesFilling(Snapshot::of(&filling));
        let mut turn = self.enter(rt, pass);
        let copied = turn.value().store.copy(caller, filling, source, attributes);
        let met = Met::Copied(Snapshot::of(&copied));
        let rank = self.leave_ranked(pass, turn, before, call, room, met, &change);
        (rank, copied)
    }
}
