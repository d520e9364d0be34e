//! The states of a slot of the key store, and the changes between them.
//!
//! What is proved:
//!
//! - `may_change`: which changes of a slot's state there are.
#![tactic(auto)]

ghost use Rattle.std.specs.Prelude.{◌≡◌};
ghost use Rattle.slot_states.specs.Changes.{may_change};

/// What a slot is used for: for nothing, for a key that is being made, for a key that can be used, or for a key that was
/// destroyed and is still read.
#[derive(Clone, Copy, Debug, PartialEq, Eq, Drop)]
pub enum SlotState {
    Empty,
    Filling,
    Full,
    Pending,
}

/// Whether a slot may change from one state to another, where so many read it as the change begins. No slot changes
/// to the state that it has.
pub fn may_change(from: SlotState, to: SlotState, readers: u32) -> bool
    ensures { result ≡ may_change from to readers }
{
    match (from, to) {
        (SlotState::Empty, SlotState::Filling) => true,
        (SlotState::Filling, SlotState::Full | SlotState::Empty) => true,
        (SlotState::Full, SlotState::Pending) => readers > 0,
        (SlotState::Full, SlotState::Empty) => readers == 0,
        (SlotState::Pending, SlotState::Empty) => readers == 1,
        _ => false,
    }
}
