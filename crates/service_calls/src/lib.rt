//! Calls on the service as values, and what they answer. An output buffer stands beside a call.
//!
//! What is proved:
//!
//! - `plain`, `bytes`, `identifier`, `description`, `number`; `Op::new`: an answer is that of the reply which the call
//!   gives (`AnswersReply`); a handle is one of four. Which request of the model a value means is a definition
//!   (`model_request`).
#![tactic(auto)]

mod call;
mod handle_calls;
mod op;
mod output;
mod steps;
mod store_calls;

pub use call::Call;
pub use handle_calls::{HandleCall, KeyedSetup, KeylessSetup, Purpose, Setup};
pub use op::Op;
pub use output::{Output, bytes, description, identifier, number, plain};
pub use steps::{AeadStep, CipherStep, DerivationStep, HashStep, MacStep, Step};
pub use store_calls::{Creation, HashCall, KeyChange, Keyed, KeyedCall, StoreCall};
