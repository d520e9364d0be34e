//! The callers of a store that is shared, and the shapes of their calls.
//!
//! What is proved:
//!
//! - `Caller::answer`: any call as a value, within a budget. It has no rank exactly where the budget doesn't suffice: then
//!   the answer is PASS_WORN, and nothing has changed (`worn`, `counts`). Any other call has one entry, at its rank in
//!   what the caller has then seen, and result and buffer are those of one one-thread service to it, with the start's
//!   settings and a sound store: the replay's, as far as the history is told (`IsAnswered`, `KnowsBefore`). What the
//!   secure element computes is said where the devices tell their keys, and else how much it may give (`MayReply`); the
//!   call's mark may stand in that service, and the result tells of a device that failed exactly where the mark does.
//!   Handles and stream then stand for the caller's part of the replay, as far as that is told, and leases and spares for
//!   the handles (`IsReady`).
//! - `Caller::retire`, `watch`, `learn`: a caller that retired has nothing out of the store, and nothing is left of its
//!   operations (`IsRetired`); with a watcher of another one a caller has seen what that one had.
#![tactic(auto)]

mod answering;
mod caller;
mod closing;
mod derivation_keys;
mod derivations;
mod gates;
mod generation;
mod handles;
mod keys;
mod one_part;
mod operations;
mod turns;

pub use caller::Caller;
pub use gates::{Gate, GatePoint, NoGate};
pub use handles::Handles;
