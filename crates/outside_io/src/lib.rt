//! Where a program's bytes come from and go to: two traits, their forms in memory, and whole texts over them.
//!
//! What is proved:
//!
//! - `read_text`, `write_all`; `Source`, `Sink`: a text of at most 4 MiB is read whole, or it is told why none was; a text
//!   is written whole, or a front of it. The sources and sinks in memory meet the two traits.
#![tactic(auto)]

mod memory;
mod traits;
mod whole;

pub use memory::{MemorySink, MemorySource};
pub use traits::{Sink, Source};
pub use whole::{ReadError, read_text, write_all};
