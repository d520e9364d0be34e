//! What a key may be used for: what a policy permits, what a copy's policy is, and how admission rules narrow a new key.
//!
//! What is proved:
//!
//! - `permits`, `meet`, `narrow`; `meet_permits_both`, `copies_gain_nothing`: they are their definitions; a meet of two
//!   numbers permits exactly what both permit; a meet of policies allows only what both allow, and where neither has a
//!   second number exactly that, and without a meet nothing is allowed by both; no chain of copies of a policy with its
//!   implied flags gains a flag or an algorithm, by either number.
#![tactic(auto)]

mod laws;
mod narrowing;
mod policy;

pub use laws::{copies_gain_nothing, meet_permits_both};
pub use narrowing::{Label, Verdict, narrow};
pub use policy::{meet, permits};
