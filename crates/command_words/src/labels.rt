// The labels that a word of the command line names.
ghost use Rattle.std.specs.{Prelude.◌≡◌, Prelude.[], Prelude.IfOk, Prelude.is_some, Option.option_map};
ghost use Rattle.admission.specs.Words.{labels_in};
ghost use Rattle.command_words.specs.{Reading.text, Values.value_or};

use crate::command::LabelList;
use crate::rule_list::RuleList;
use policy_rules::Label;
use psa_status::Memory;
use std::alloc::Global;

/// Whether a text is labels of rules, by words with commas between them.
fn are_labels<L: RuleList>(rules: &L, text: &str) -> bool
    ensures { result ≡ is_some (labels_in (L.labels rules.now) text.now) }
{
    let mut rest = text;
    while let Some((word, more)) = rest.split_once(',') {
        if rules.labelled(word).is_none() {
            return false;
        }
        rest = more;
    }
    rules.labelled(rest).is_some()
}

/// The labels in a text. `None` where a word is none of a rule's.
fn read_labels<L: RuleList>(
    alloc: Global,
    rules: &L,
    text: &str,
) -> Result<Option<Vec<Label>>, Memory>
    ensures { IfOk result (λ read. option_map (λ labels. labels.items) read ≡ labels_in (L.labels rules.now) text.now) }
{
    let mut labels = Vec::new(alloc);
    let mut rest = text;
    while let Some((word, more)) = rest.split_once(',') {
        let Some(label) = rules.labelled(word) else {
            return Ok(None);
        };
        if labels.push(label).is_err() {
            return Err(Memory);
        }
        rest = more;
    }
    let Some(label) = rules.labelled(rest) else {
        return Ok(None);
    };
    match labels.push(label) {
        Ok(()) => Ok(Some(labels)),
        Err(_) => Err(Memory),
    }
}

/// Whether the value of an option is labels of rules, which holds where there is no such option.
pub(crate) fn are_labels_of<L: RuleList>(rules: &L, option: Option<&str>) -> bool
    ensures { result ≡ is_some (value_or [] (labels_in (L.labels rules.now)) (text option.entry)) }
{
    match option {
        Some(text) => are_labels(rules, text),
        None => true,
    }
}

/// The labels of an option, none where no option says them.
pub(crate) fn labels_of<L: RuleList>(
    alloc: Global,
    rules: &L,
    option: Option<&str>,
) -> Result<Option<LabelList>, Memory>
    ensures { IfOk result (λ read. read ≡ value_or [] (labels_in (L.labels rules.now)) (text option.entry)) }
{
    let Some(text) = option else {
        return Ok(Some(LabelList::of(Vec::new(alloc))));
    };
    match read_labels(alloc, rules, text) {
        Ok(Some(labels)) => Ok(Some(LabelList::of(labels))),
        Ok(None) => Ok(None),
        Err(error) => Err(error),
    }
}
