//! A turn: a pass enters, has the value to itself, and leaves.
ghost use Rattle.std.specs.Prelude.{◌≡◌, true, ◌<◌, ◌≤◌, ◌^◌, ◌++◌, ◌∷◌, [], length, Some, None};
ghost use Rattle.turn_history.specs.{History.entries_of, History.option_list, History.place_of, History.StartsWith, Holdings.with_held_by, Views.CanEnter, Views.IsInTurn, Views.OwnCalls, Views.after_turn, Views.entered, Steps.Found};

use crate::historic::Historic;
use crate::lock::HistoryLock;
use crate::naming::Naming;
use crate::pass::Pass;
use crate::steps::{Draw, End, Front, Look};
use crate::waiting;
use std::sync::Wait;

/// A turn, with the value in its box. It must be spent by `leave`.
pub struct Turn<V> {
    pub(crate) value: Box<V>,
    // The length of the history as the turn began.
    pub(crate) entries: u64,
}

impl<V> Turn<V> {
    ghost use Rattle.std.specs.Borrow.{sem};
    ghost use Rattle.turn_history.specs.Lending.{LendsValue};

    /// The value.
    pub fn value(&mut self) -> &mut V
        ensures* writes_back { sem 𝓛 (LendsValue V.row self.entry result) }
        ensures value { result.now ≡ self.old.value.value }
    {
        &mut self.value
    }
}

impl<V: Historic> HistoryLock<V> {
    /// Waits for the pass's turn, and spends one of its turns. The value then stands for the
    /// history that the pass has seen, and the pass has out of it what it had.
    pub fn enter<R: Wait>(&self, rt: &R, pass: &mut Pass<V>) -> Turn<V>
        requires own { pass.old.table_id ≡ self.now.table.shared.table_id }
        requires free { CanEnter pass.old.me }
        ensures same { (pass.new.table_id ≡ pass.old.table_id) × (pass.new.id ≡ pass.old.id) }
        ensures pass { pass.new.me ≡ (entered pass.old.me.0 pass.new.me.0, (0, None) ∷ []) }
        ensures value { Found V.by V.stands V.base pass.old.me.0 result.value.value pass.new.me.0 }
        ensures entries { result.entries ≡ length (entries_of pass.new.me.0.seen) }
        ensures few { result.entries < 2 ^ 62 }
    {
        let shared = &self.table.shared;
        waiting::hold_back(shared);
        let ticket = shared.fetch_add::<Draw>(pass, 1, 1);
        let mut looks = 0u32;
        for _ in rt.forever() {
            let ended = shared.load::<Look>(pass, 0);
            if ended == ticket {
                let value = shared.exchange(pass, 0, None).unwrap();
                let entries = value.as_ref().entries();
                return Turn { value, entries };
            }
            waiting::pause(rt, shared, ended, looks);
            looks = looks.saturating_add(1);
        }
        unreachable!()
    }

    /// Ends the turn. It answers the place of the named entry in the history, if there is one.
    pub fn leave<N: Naming<V::Entry>>(&self, pass: &mut Pass<V>, turn: Turn<V>) -> Option<u64>
        requires own { pass.old.table_id ≡ self.now.table.shared.table_id }
        requires turn { IsInTurn pass.old.me }
        requires entries { turn.entries ≡ length (entries_of pass.old.me.0.seen) }
        requires by { (e : V.Entry) → N.entry ≡ Some e → V.by e ≡ pass.old.me.0.number }
        requires value { V.stands turn.value.value (entries_of pass.old.me.0.seen ++ option_list N.entry) (with_held_by pass.old.me.0.holdings pass.old.me.0.number N.holding) }
        requires base { Some (V.base turn.value.value) ≡ pass.old.me.0.base }
        ensures same { (pass.new.table_id ≡ pass.old.table_id) × (pass.new.id ≡ pass.old.id) }
        ensures pass { pass.new.me ≡ (after_turn pass.old.me.0 N.entry N.holding, []) }
        ensures calls { OwnCalls V.by pass.new.me.0 }
        ensures place { result ≡ place_of N.entry (length (entries_of pass.old.me.0.seen)) }
    {
        let Turn { value, entries } = turn;
        let shared = &self.table.shared;
        let now = value.as_ref().entries();
        let empty = shared.exchange(pass, 0, Some(value));
        let None = empty else { unreachable!() };
        let ticket = shared.fetch_add::<End<N>>(pass, 0, 1);
        waiting::wake(shared, ticket);
        if now == entries { None } else { Some(entries) }
    }

    /// The number of turns that have ended. The pass has then seen them.
    pub fn front(&self, pass: &mut Pass<V>) -> u64
        requires own { pass.old.table_id ≡ self.now.table.shared.table_id }
        ensures same { (pass.new.table_id ≡ pass.old.table_id) × (pass.new.id ≡ pass.old.id) }
        ensures pass { pass.new.me ≡ (record pass.old.me.0 { seen = pass.new.me.0.seen }, pass.old.me.1) }
        ensures number { result ≡ length pass.new.me.0.seen }
        ensures rises { length pass.old.me.0.seen ≤ result }
        ensures prefix { StartsWith pass.new.me.0.seen pass.old.me.0.seen }
        ensures calls { OwnCalls V.by pass.new.me.0 }
    {
        self.table.shared.load::<Front>(pass, 0)
    }
}
