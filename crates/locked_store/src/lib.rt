//! The store under the lock with its history: each turn of the store by a shared reference, with its place in the one
//! history of all callers.
//!
//! What is proved:
//!
//! - `look`, `look_or_compute`, `finish`, `copy`, `destroy`, `purge`, `attributes`, `count`, `step`: a ranked turn answers
//!   the place of its entry, which has the caller's number, the model's request and its mark, comes after all that the
//!   pass had seen, and is its one further call (`IsRanked`); what was decided holds of a sound store with the start's
//!   settings and a call for each entry (`HasModel`): of the one-thread store there, as far as that is told.
//! - `reserve`, `give_up`, `give_back`: they add no entry (`IsLater`).
//! - `legal` of each turn; `open`, `end`: all that a pass has seen is legal: calls of sixteen callers, marks with their
//!   causes, and counts that never fall, nor moments where the disk tells (`IsLegal`). `open` answers sixteen passes,
//!   `end` the disk and the devices, with one history (`IsClosed`).
#![tactic(auto)]

mod changes;
mod creations;
mod elements;
mod ends;
mod held;
mod keys;
mod leases;
mod opening;
mod plain_turns;

pub use changes::{Change, Met};
pub use elements::Looked;
pub use held::{Entry, Held, Seen, SharedStore};
pub use opening::{Shared, end};
