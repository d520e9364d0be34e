//! Admission rules: they narrow or refuse the attributes of each new key.
//!
//! What is proved:
//!
//! - `Rule::new`, `Rules::pick`, `apply`, `read_labels`, `rules_add_nothing`: `new` asks that the test answers `narrow` of
//!   its label on every key; `pick` has rules of the named labels in the list's order; `apply` is each of these in turn;
//!   rules add no flag and no algorithm, and change nothing but the policy; `read_labels` has the labels that a text's
//!   words name.
#![tactic(auto)]

mod laws;
mod rule;
mod rules;
mod words;

pub use laws::rules_add_nothing;
pub use rule::{Rule, Test};
pub use rules::{Admission, Rules};
pub use words::read_labels;
