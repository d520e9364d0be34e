//! A sorted index: the places of keys by their identifiers, at most so many.
//!
//! What is proved:
//!
//! - `KeyIndex`: `insert` adds its entry, `remove` takes its own out, and the others stay; `find` answers the place in an
//!   entry of the identifier exactly where there is one, `count_between` how many have identifiers within bounds, and `find_counted` by so few comparisons k that 2^k ≤ 2n + 1 with
//!   n entries.
#![tactic(auto)]

mod index;
mod steps;

pub use index::{Entry, KeyIndex};
pub use steps::Steps;
