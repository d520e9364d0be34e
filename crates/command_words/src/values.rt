// The values of options.
ghost use Rattle.std.specs.Prelude.{◌≡◌, ◌≤◌, ◌<◌, ◌^◌, IfOk, IfSome, Some, option_map, is_some, replicate};
ghost use Rattle.command_words.specs.{Values.number_to, Values.seed_in, Values.value_or, Words.run_options, Reading.text, Reading.texts};

use crate::command::RunOptions;
use crate::labels::{are_labels_of, labels_of};
use crate::options::Settings;
use crate::rule_list::RuleList;
use hex::FromHex;
use itoa::Buffer;
use psa_status::Memory;
use std::alloc::Global;

/// The number, 1 to `most`, that a text writes in decimal without sign or leading zero.
pub(crate) fn number_to(most: u32, text: &str) -> Option<u32>
    ensures value { result ≡ number_to most text.now }
    ensures range { IfSome result (λ n. (1 ≤ n) × (n ≤ most)) }
{
    let Ok(number) = text.parse::<u32>() else {
        return None;
    };
    if number < 1 || most < number {
        return None;
    }
    if Buffer::new().format(number) != text {
        return None;
    }
    Some(number)
}

/// The number of lines that `generate` makes.
pub(crate) fn lines_of(text: &str) -> Option<u32>
    ensures value { result ≡ number_to 20000 text.now }
    ensures range { IfSome result (λ n. (1 ≤ n) × (n ≤ 20000)) }
{
    number_to(20000, text)
}

/// The number of workers, 1 where no option says it.
pub(crate) fn workers_of(option: Option<&str>) -> Option<u8>
    ensures value { result ≡ value_or 1 (number_to 16) (text option.entry) }
    ensures range { IfSome result (λ n. (1 ≤ n) × (n ≤ 16)) }
{
    match option {
        None => Some(1),
        Some(text) => {
            let number = number_to(16, text)?;
            Some(number as u8)
        }
    }
}

/// The seed, zeros where no option says it.
pub(crate) fn seed_of(option: Option<&str>) -> Option<[u8; 32]>
    ensures { result ≡ value_or (replicate 32 0) seed_in (text option.entry) }
{
    match option {
        None => Some([0; 32]),
        Some(text) => <[u8; 32] as FromHex>::from_hex(text).ok(),
    }
}

/// Whether values are those of a run's options. No memory is taken.
pub(crate) fn are_run_options<L: RuleList>(settings: Settings, rules: &L) -> bool
    ensures { result ≡ is_some (run_options (L.labels rules.now) (texts settings.entry)) }
{
    workers_of(settings.workers).is_some()
        && seed_of(settings.seed).is_some()
        && are_labels_of(rules, settings.rules)
}

/// The options of a run by their values.
pub(crate) fn run_options<L: RuleList>(
    alloc: Global,
    settings: Settings,
    rules: &L,
) -> Result<Option<RunOptions>, Memory>
    ensures value { IfOk result (λ read. read ≡ run_options (L.labels rules.now) (texts settings.entry)) }
    ensures range { IfOk result (λ read. IfSome read (λ options. (1 ≤ options.workers) × (options.workers ≤ 16))) }
{
    let Some(workers) = workers_of(settings.workers) else {
        return Ok(None);
    };
    let Some(seed) = seed_of(settings.seed) else {
        return Ok(None);
    };
    let Some(labels) = labels_of(alloc, rules, settings.rules)? else {
        return Ok(None);
    };
    Ok(Some(RunOptions {
        workers,
        seed,
        labels,
    }))
}
