//! The slots as the place where the one-thread store's keys are in memory, and of which callers have leases and fillings out.
//!
//! What is proved:
//!
//! - `KeySlots`, `a_slot_is_always_found`: slots stand for the model's keys and for what callers have out (`Agrees`); each
//!   call says what they stand for afterwards, and which slots it ends (`EndsOnly`); a slot is always found.
#![tactic(auto)]

mod laws;
mod slots;

pub use laws::{a_slot_is_always_found, few_read_a_slot, keys_stay, nothing_out_of_new_slots};
pub use slots::KeySlots;
