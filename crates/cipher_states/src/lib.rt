//! A cipher in several parts: its operation, whatever the pieces in which the text comes.
//!
//! What is proved:
//!
//! - the setups of `CipherState`, and its steps by `Family`: each is the model's change of one operation: the output that
//!   is due and no more, each refusal in its order, and what it leaves; after `wipe` keys and buffers are zeros.
#![tactic(auto)]

ghost use Rattle.store_model.specs.Prelude.{cipher_due, with_text};
ghost use Rattle.multipart.specs.Dues.{DueGrows};

pub use state::CipherState;

mod block_text;
mod finishes;
mod running;
mod starts;
mod state;
mod ways;

/// More text only adds to the output that is due.
pub fn due_grows()
    ensures { DueGrows cipher_due with_text }
{}
