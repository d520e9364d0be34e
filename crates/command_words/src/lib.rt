//! The words of the command line, and what they ask for.
//!
//! What is proved:
//!
//! - `read_words`, `RuleBook`: the command that the words are, by a definition that reads like its grammar (`command_of`);
//!   want of memory is answered only of words that are one. The values of such words are those that `clap` finds
//!   (`AskFor`), which refuses them for want of memory alone (`IsForMemory`). `RuleBook` has the named rules in its own
//!   order, and each narrows in turn.
#![tactic(auto)]

mod command;
mod labels;
mod options;
mod parser;
mod rule_list;
mod values;
mod words;

pub use command::{Command, LabelList, RunOptions};
pub use rule_list::{RuleBook, RuleList};
pub use words::read_words;
