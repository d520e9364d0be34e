//! What the program runs over: a source over a reader, a sink over a writer, and a disk over a file. None of them tells
//! its bytes; each counts its faults.
//!
//! What is proved:
//!
//! - `Reading`, `Writing`, `FileDisk`: they keep the contracts of source, sink and disk: counts of bytes, progress, and a
//!   fault counted for each call that fails. They tell no contents. A read of `Reading` gives the bytes that its reader
//!   gave, none lost and none twice, and an end only where the reader's is; what `Writing` tells as taken is what its
//!   writer took, and nothing where it failed (`reader`, `writer`).
#![tactic(auto)]

mod adapters;

pub use adapters::{FileDisk, Reading, Writing};
