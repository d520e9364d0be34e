//! One lock, one value and one history of the turns that were taken with it. No memory holds the
//! history: it exists in proofs alone, and every pass has seen a beginning of it.
//!
//! What is proved:
//!
//! - `enter`, `leave`, `split`, `join`, `close`, `Ending`, `new`: one lock, one value, one history, for 1 to 16 passes and
//!   every interleaving. `enter`: what the pass had seen begins what it has then seen, and the value stands for that, with
//!   what the pass left out of it. `leave` puts its entry once, at the answered place; a pass's entries in what it has
//!   seen are exactly its calls. `split` makes a watcher that has seen the same; `join`: of two histories one begins the
//!   other, and the pass has the longer. `close`, `Ending`: one history that begins with what each pass that was handed in
//!   had seen, and in which its own entries are exactly its calls. No count of turns wraps. `new` hands the value back
//!   where there is no memory.
#![tactic(auto)]

mod ending;
mod historic;
mod lock;
mod making;
mod meeting;
mod naming;
mod pass;
mod rule;
mod steps;
mod turn;
mod waiting;

pub use ending::Ending;
pub use historic::Historic;
pub use lock::HistoryLock;
pub use making::Refused;
pub use naming::Naming;
pub use pass::{Account, Pass, View};
pub use rule::{Opening, Turns};
pub use turn::Turn;
