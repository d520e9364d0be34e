// The rules that are in force.
ghost use Rattle.std.specs.Prelude.{◌≡◌, List, map};
ghost use Rattle.policy_rules.specs.declared.narrowing.Label.{Label};
ghost use Rattle.admission.specs.Apply.{after_rules, is_one_of, picked};

use crate::Rule;
use key_attributes::Attributes;
use policy_rules::{Label, Verdict};
use psa_status::Status;

/// What the store asks of its rules.
pub trait Admission: Send + Drop {
    /// Their labels, in the order in which they are asked. They never change.
    ghost labels: { Self → List Label };

    /// The attributes that the rules leave of a new key's. `NotPermitted` where one refuses.
    fn apply(&self, attributes: &Attributes) -> Result<Attributes, Status>
        ensures { result ≡ after_rules (labels self.now) attributes.now };
}

/// The rules that are in force, in the order in which they are asked.
#[derive(Drop)]
pub struct Rules {
    list: Vec<Rule>,
}

impl Rules {
    /// The rules of the list whose labels are named, in the list's order.
    pub fn pick(list: Vec<Rule>, labels: &[Label]) -> Rules
        ensures { map (λ rule. rule.label) result.list.items ≡ picked labels.now (map (λ rule. rule.label) list.items) }
    {
        let mut list = list;
        list.retain(
            |rule| -> bool
                ensures named { result ≡ is_one_of labels.entry.now rule.now.label }
                ensures same { labels.exit ≡ labels.entry }
            { is_one_of(labels, rule.label()) },
        );
        Rules { list }
    }
}

fn is_one_of(labels: &[Label], label: Label) -> bool
    ensures { result ≡ is_one_of labels.now label }
{
    labels.contains(&label)
}

impl Admission for Rules {
    ghost labels = { λ rules. map (λ rule. rule.label) rules.list.items };

    fn apply(&self, attributes: &Attributes) -> Result<Attributes, Status> {
        let mut kept = *attributes;
        for rule in &self.list {
            match rule.verdict(&kept) {
                Verdict::Keep(next) => kept = next,
                Verdict::Refuse => return Err(Status::NotPermitted),
            }
        }
        Ok(kept)
    }
}
