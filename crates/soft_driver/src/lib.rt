//! A device in memory that holds keys, to try a key store with.
//!
//! What is proved:
//!
//! - `SoftDriver`: it meets `Driver` and tells its keys; a call fails exactly where its number is listed or, for an import
//!   and a copy, 4,096 keys are held; what it lets go of a key is zeros first (`release`); blocks and MACs are the
//!   standards'.
#![tactic(auto)]

mod computing;
mod driver;
mod held;
mod room;

pub use driver::SoftDriver;
