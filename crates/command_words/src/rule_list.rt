// The rules that a program has.
ghost use Rattle.std.specs.Prelude.{◌≡◌, List, map, OnOk, OnErr, [], ◌∷◌, ◌++◌};
ghost use Rattle.policy_rules.specs.declared.narrowing.Label.{Label};
ghost use Rattle.admission.specs.{Apply.is_one_of, Apply.picked, Words.label_named, Words.label_word};

use admission::Admission;
use key_attributes::Attributes;
use policy_rules::Label;
use psa_status::{Memory, Status};
use std::alloc::Global;

/// The rules that a program has, of which the words of its command line pick some.
pub trait RuleList {
    /// The rules that were picked.
    type Picked: Admission;

    /// Their labels, in their order.
    ghost labels: { Self → List Label };

    /// The label of a rule that has this word.
    fn labelled(&self, word: &str) -> Option<Label>
        ensures { result ≡ label_named (labels self.now) word.now };

    /// The rules whose labels are named, in the list's order.
    fn pick(self, named: &[Label]) -> Self::Picked
        ensures { Self.Picked.labels result ≡ picked named.now (labels self) };
}

// The word of a label.
fn label_word(label: Label) -> &'static str
    ensures { result.now ≡ label_word label }
{
    match label {
        Label::NoExport => "no-export",
        Label::NoCopy => "no-copy",
        Label::NoEcb => "no-ecb",
        Label::Aes256 => "aes256",
    }
}

/// A rule that stands alone, and its label.
#[derive(Drop)]
struct LabelledRule<C: Admission> {
    label: Label,
    rule: C,
    ghost alone: { C.labels rule ≡ label ∷ [] },
}

/// Rules in the order in which they are asked, each of which can be picked alone.
#[derive(Drop)]
pub struct RuleBook<C: Admission> {
    rules: Vec<LabelledRule<C>>,
}

impl<C: Admission> RuleBook<C> {
    /// A book without a rule.
    pub fn new(alloc: Global) -> RuleBook<C>
        ensures { map (λ rule. rule.label) result.rules.items ≡ [] }
    {
        RuleBook {
            rules: Vec::new(alloc),
        }
    }

    /// Adds a rule behind the others. Without memory the book stays as it was.
    pub fn add(&mut self, label: Label, rule: C) -> Result<(), Memory>
        requires { C.labels rule ≡ label ∷ [] }
        ensures ok { OnOk result (map (λ rule. rule.label) self.new.rules.items ≡ map (λ rule. rule.label) self.old.rules.items ++ label ∷ []) }
        ensures err { OnErr result (map (λ rule. rule.label) self.new.rules.items ≡ map (λ rule. rule.label) self.old.rules.items) }
    {
        match self.rules.push(LabelledRule { label, rule }) {
            Ok(()) => Ok(()),
            Err(_) => Err(Memory),
        }
    }
}

impl<C: Admission> RuleList for RuleBook<C> {
    type Picked = RuleBook<C>;

    ghost labels = { λ book. map (λ rule. rule.label) book.rules.items };

    fn labelled(&self, word: &str) -> Option<Label> {
        for rule in &self.rules {
            if label_word(rule.label) == word {
                return Some(rule.label);
            }
        }
        None
    }

    fn pick(self, named: &[Label]) -> RuleBook<C> {
        let mut rules = self.rules;
        rules.retain(
            |rule| -> bool
                ensures named { result ≡ is_one_of named.entry.now rule.now.label }
                ensures same { named.exit ≡ named.entry }
            { is_one_of(named, rule.label) },
        );
        RuleBook { rules }
    }
}

fn is_one_of(labels: &[Label], label: Label) -> bool
    ensures { result ≡ is_one_of labels.now label }
{
    labels.contains(&label)
}

impl<C: Admission> Admission for RuleBook<C> {
    ghost labels = { λ book. map (λ rule. rule.label) book.rules.items };

    fn apply(&self, attributes: &Attributes) -> Result<Attributes, Status> {
        let mut kept = *attributes;
        for rule in &self.rules {
            kept = rule.rule.apply(&kept)?;
        }
        Ok(kept)
    }
}
