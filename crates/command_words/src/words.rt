// The words of the command line.
ghost use Rattle.std.specs.Prelude.{◌≡◌, IfOk, IfSome, IsErr, IsSome, is_some, map};
ghost use Rattle.command_words.specs.Words.{command_of, run_of, count_of, IsInRange};

use crate::command::Command;
use crate::options::read_options;
use crate::parser::{command_in, matches_of};
use crate::rule_list::RuleList;
use crate::values::{are_run_options, lines_of};
use psa_status::Memory;
use std::alloc::Global;

/// Whether the words behind `run` are options of a run.
#[tactic(auto, unfolding(crate::specs::Words::run_of))]
fn are_of_run<L: RuleList>(words: &[&str], rules: &L) -> bool
    ensures { result ≡ is_some (run_of (L.labels rules.now) (map (λ w. w.now) words.entry.now)) }
{
    match read_options(words) {
        Some(settings) => are_run_options(settings, rules),
        None => false,
    }
}

/// Whether the words behind `generate` are a number of lines.
#[tactic(auto, unfolding(crate::specs::Words::count_of))]
fn are_of_generate(words: &[&str]) -> bool
    ensures { result ≡ is_some (count_of (map (λ w. w.now) words.entry.now)) }
{
    match words {
        [text] => lines_of(text).is_some(),
        _ => false,
    }
}

/// Whether words are a command. No memory is taken.
#[tactic(auto, unfolding(crate::specs::Words::command_of))]
fn are_command<L: RuleList>(words: &[&str], rules: &L) -> bool
    ensures { result ≡ is_some (command_of (L.labels rules.now) (map (λ w. w.now) words.entry.now)) }
{
    let [word, rest @ ..] = words else {
        return false;
    };
    if *word == "run" {
        return are_of_run(rest, rules);
    }
    if *word == "generate" {
        return are_of_generate(rest);
    }
    false
}

/// The command that words are, `None` where they are none. Memory is taken only where they are one.
pub fn read_words<L: RuleList>(
    alloc: Global,
    words: &[&str],
    rules: &L,
) -> Result<Option<Command>, Memory>
    ensures value { IfOk result (λ read. read ≡ command_of (L.labels rules.now) (map (λ w. w.now) words.entry.now)) }
    ensures accepted { IsErr result → IsSome (command_of (L.labels rules.now) (map (λ w. w.now) words.entry.now)) }
    ensures range { IfOk result (λ read. IfSome read IsInRange) }
{
    if !are_command(words, rules) {
        return Ok(None);
    }
    match matches_of(alloc, words) {
        Ok(matches) => command_in(alloc, &matches, rules),
        Err(_) => Err(Memory),
    }
}
