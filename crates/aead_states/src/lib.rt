//! An AEAD in several parts, with GCM or CCM over AES: however a text is cut, its ciphertext and its tag are the same.
//!
//! What is proved:
//!
//! - the setups of `AeadState`, and its steps by `Family`: each is the model's change of one operation: the output that is
//!   due and no more, each refusal in its order, and what it leaves; after `wipe` keys and buffers are zeros.
#![tactic(auto)]

ghost use Rattle.store_model.specs.Prelude.{aead_due, with_payload};
ghost use Rattle.multipart.specs.Dues.{DueGrows};

mod declared;
mod lengths;
mod nonces;
mod parts;
mod running;
mod state;
mod texts;

pub use state::AeadState;

/// More text only adds to the output that is due.
pub fn due_grows()
    ensures { DueGrows aead_due with_payload }
{}
