//! The slots of the key store: where keys are in memory, who reads them, and when they are wiped.
//!
//! What is proved:
//!
//! - `SlotTable`: 384 slots of 1,024 bytes and the order of their use: each call makes one change, leaves all else, and
//!   keeps the slots' law. `reserve` takes an empty slot, or else the least recently used persistent key that is unread,
//!   and the slot is all zeros; `leave` answers a clear spare. `find_counted` looks for a key as `find` does, by so few
//!   comparisons k that 2^k ≤ 2n + 1 with n full slots. A look for an empty slot begins where none before is empty.
#![tactic(auto)]

mod lent;
mod place;
mod recency;
mod rows;
mod table;

pub use key_index::Steps;
pub use lent::{Filling, Lease};
pub use table::{SLOTS, SlotTable};
