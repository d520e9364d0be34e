//! The top call: a command that reads its script from a source, runs its sessions on a store, and writes the replies to a sink.
//!
//! What is proved:
//!
//! - `run_command`, `Exit::status`: what docs/PROVED.md says of the one order and of the other ends, and the statuses of
//!   the ends.
#![tactic(auto)]

mod command;
mod exit;
mod reading;
mod writing;

pub use command::run_command;
pub use exit::{Ended, Exit};
