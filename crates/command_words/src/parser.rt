// The command of `clap`, which gives the values of words that are a command.
ghost use Rattle.std.specs.Prelude.{◌≡◌, List, Some, false, IfOk, IfErr, IfSome, codes, map};
ghost use Rattle.clap.specs.Words.{rule_of, app_of, found_of, rows_of, subcommand_rows_of};
ghost use Rattle.policy_rules.specs.declared.narrowing.Label.{Label};
ghost use Rattle.command_words.specs.{Words.IsInRange, Reading.texts, Parser.option_rule, Parser.program, Parser.texts_in, Parser.asked_of, Parser.AskFor, Parser.IsForMemory};

use crate::command::Command;
use crate::options::Settings;
use crate::rule_list::RuleList;
use crate::values::{lines_of, run_options};
use clap::{Arg, ArgMatches, Error};
use psa_status::Memory;
use std::alloc::{AllocError, Global};

/// An option that is named by two hyphens and its id.
fn option_arg<'a>(alloc: Global, id: &'a str) -> Arg<'a>
    ensures rule { rule_of result ≡ option_rule id.entry.now }
    ensures local { result.global ≡ false }
{
    Arg::new(alloc, id).long(id)
}

/// The grammar of the words as `clap` has it. It takes no name of a program before them, and answers no call for help.
fn program<'a>(alloc: Global) -> Result<clap::Command<'a>, AllocError>
    ensures { IfOk result (λ command. app_of command ≡ program) }
{
    let run = clap::Command::new(alloc, "run")
        .arg(option_arg(alloc, "workers"))?
        .arg(option_arg(alloc, "seed"))?
        .arg(option_arg(alloc, "rules"))?;
    let generate = clap::Command::new(alloc, "generate").arg(Arg::new(alloc, "count"))?;
    clap::Command::new(alloc, "psa_host")
        .no_binary_name(true)
        .disable_help_flag(true)
        .disable_help_subcommand(true)
        .subcommand(run)?
        .subcommand(generate)
}

/// What `clap` finds in words. Where they are a command, it finds that command, and is refused for want of memory
/// alone.
pub(crate) fn matches_of<'a>(alloc: Global, words: &'a [&'a str]) -> Result<ArgMatches<'a>, Error>
    ensures command { IfOk result (AskFor (map (λ w. w.now) words.entry.now)) }
    ensures memory { IfErr result (IsForMemory (map (λ w. w.now) words.entry.now)) }
{
    program(alloc)?.try_get_matches_from(words)
}

/// The values of a run's options.
fn settings_in<'a>(matches: &ArgMatches<'a>) -> Settings<'a>
    ensures { texts result ≡ texts_in (rows_of (found_of matches.now)) }
{
    Settings {
        workers: matches.get_str("workers"),
        seed: matches.get_str("seed"),
        rules: matches.get_str("rules"),
    }
}

/// The run that the matches behind `run` ask for.
fn run_in<L: RuleList>(
    alloc: Global,
    matches: &ArgMatches<'_>,
    rules: &L,
) -> Result<Option<Command>, Memory>
    ensures value { IfOk result (λ read. read ≡ asked_of (L.labels rules.now) (Some (codes "run", rows_of (found_of matches.now)))) }
    ensures range { IfOk result (λ read. IfSome read IsInRange) }
{
    match run_options(alloc, settings_in(matches), rules)? {
        Some(options) => Ok(Some(Command::Run(options))),
        None => Ok(None),
    }
}

/// The lines that the matches behind `generate` ask for.
fn generate_in(matches: &ArgMatches<'_>) -> Option<Command>
    ensures value { (given : List Label) → result ≡ asked_of given (Some (codes "generate", rows_of (found_of matches.now))) }
    ensures range { IfSome result IsInRange }
{
    let count = lines_of(matches.get_str("count")?)?;
    Some(Command::Generate { count })
}

/// The command that matches ask for.
pub(crate) fn command_in<L: RuleList>(
    alloc: Global,
    matches: &ArgMatches<'_>,
    rules: &L,
) -> Result<Option<Command>, Memory>
    ensures value { IfOk result (λ read. read ≡ asked_of (L.labels rules.now) (subcommand_rows_of matches.now)) }
    ensures range { IfOk result (λ read. IfSome read IsInRange) }
{
    match matches.subcommand() {
        Some(("run", options)) => run_in(alloc, options, rules),
        Some(("generate", count)) => Ok(generate_in(count)),
        _ => Ok(None),
    }
}
