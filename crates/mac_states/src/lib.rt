//! Hashes and MACs in several parts, as states that callers' handles keep.
//!
//! What is proved:
//!
//! - the setups of `HashOpState` and `MacState`, and their steps by `Family`: each is the model's change of one operation:
//!   the output that is due and no more, each refusal in its order, and what it leaves; after `wipe` keys and buffers are
//!   zeros, and hashers are those of the empty message.
#![tactic(auto)]

mod hash_state;
mod mac_state;
mod running_hash;
mod running_mac;
mod total;

pub use hash_state::HashOpState;
pub use mac_state::MacState;
