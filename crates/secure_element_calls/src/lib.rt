//! What the primary secure element computes with a key that it alone has: MACs, and texts in CTR mode, each in one call.
//!
//! What is proved:
//!
//! - `compute`, `replies_are_the_models`: `compute` has the secure element compute. A refusal by a length or the buffer is
//!   the model's row, and the devices are as they were; where the devices tell their keys, answer and buffer are the
//!   model's; a failure leaves zeros in place of what was needed; SUCCESS and INVALID_SIGNATURE come only where the served
//!   count rose, but for a text of no bytes.
#![tactic(auto)]

mod calls;
mod checking;
mod computing;
mod counters;
mod filling;
mod laws;

pub use calls::{ElementCall, NotComputed};
pub use computing::compute;
pub use laws::replies_are_the_models;
