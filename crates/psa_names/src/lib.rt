//! The names of the numbers that scripts have: key types, usages, algorithms, lifetimes and steps of derivations, by their
//! names in the PSA Certified Crypto API without their prefixes.
//!
//! What is proved:
//!
//! - `push_key_type`, `push_usage`, `push_algorithm`, `push_lifetime`, `push_step`: a number by its name, or else in hex,
//!   behind the text, which stays as it was where there is no memory.
//! - `read_key_type`, `read_usage`, `read_algorithm`, `read_lifetime`, `read_step`: the number of a name or of hex digits,
//!   or that it is neither.
//! - `nearest`: one of the names of a kind, for which no more letters of a text have to change than for any other.
//! - `written_is_read`, `numbers_come_first`, `all_are_named`: each number's text reads back to it; what a script has as a
//!   number is read as that number; each key type and each algorithm that is built has a name.
#![tactic(auto)]

mod algorithms;
mod laws;
mod names;
mod near;
mod numbers;
mod plain;
mod tables;
mod texts;
mod usages;

pub use algorithms::{push_algorithm, read_algorithm};
pub use laws::{all_are_named, numbers_come_first, written_is_read};
pub use near::{Kind, nearest};
pub use plain::{push_key_type, push_lifetime, push_step, read_key_type, read_lifetime, read_step};
pub use usages::{push_usage, read_usage};
