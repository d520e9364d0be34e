// The labels in a word of the command line.
ghost use Rattle.std.specs.{Prelude.◌≡◌, Prelude.IfOk, Prelude.map, Option.option_map};
ghost use Rattle.admission.specs.Words.{label_named, labels_in, label_word};

use crate::Rule;
use policy_rules::Label;
use psa_status::Memory;
use std::alloc::Global;

// The word of a label.
fn label_word(label: Label) -> &'static str
    ensures { result.now ≡ label_word label }
{
    match label {
        Label::NoExport => "no-export",
        Label::NoCopy => "no-copy",
        Label::NoEcb => "no-ecb",
        Label::Aes256 => "aes256",
    }
}

// The label of a rule that has this word.
fn label_of(rules: &[Rule], word: &str) -> Option<Label>
    ensures { result ≡ label_named (map (λ rule. rule.label) rules.now) word.now }
{
    for rule in rules {
        if label_word(rule.label()) == word {
            return Some(rule.label());
        }
    }
    None
}

/// The labels of rules that a text names, by words with commas between them: `no-export`, `no-copy`, `no-ecb`,
/// `aes256`. `None` where a word is none of a rule's, as an empty one.
pub fn read_labels(alloc: Global, rules: &[Rule], text: &str) -> Result<Option<Vec<Label>>, Memory>
    ensures { IfOk result (λ read. option_map (λ labels. labels.items) read ≡ labels_in (map (λ rule. rule.label) rules.now) text.now) }
{
    let mut labels = Vec::new(alloc);
    let mut rest = text;
    while let Some((word, more)) = rest.split_once(',') {
        let Some(label) = label_of(rules, word) else {
            return Ok(None);
        };
        if labels.push(label).is_err() {
            return Err(Memory);
        }
        rest = more;
    }
    let Some(label) = label_of(rules, rest) else {
        return Ok(None);
    };
    match labels.push(label) {
        Ok(()) => Ok(Some(labels)),
        Err(_) => Err(Memory),
    }
}
