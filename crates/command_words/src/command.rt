// What the words of a command line ask for.
ghost use Rattle.std.specs.Prelude.{◌≡◌};

use policy_rules::Label;
use std::marker::Model;

/// Labels of rules, in the order in which they were named; one may be named again.
#[derive(Drop)]
pub struct LabelList {
    items: Vec<Label>,
}

impl Model for LabelList {
    ghost use Rattle.std.specs.Prelude.{List};
    ghost use Rattle.policy_rules.specs.declared.narrowing.Label.{Label};

    ghost Value = { List Label };

    ghost view = { λ l. l.items.items };
}

impl LabelList {
    /// These labels, without taking memory.
    pub(crate) fn of(items: Vec<Label>) -> LabelList
        ensures { result ≡ items.items }
    {
        LabelList { items }
    }

    pub fn as_slice(&self) -> &[Label]
        ensures { result.now ≡ self.now }
    {
        &self.items
    }
}

/// How a script is run: by how many workers, 1 to 16, from which seed of the random words, and under the rules with
/// which labels.
#[derive(Drop)]
pub struct RunOptions {
    pub workers: u8,
    pub seed: [u8; 32],
    pub labels: LabelList,
}

/// What the words ask for: to run a script, or to generate so many lines, 1 to 20,000, and run them.
#[derive(Drop)]
pub enum Command {
    Run(RunOptions),
    Generate { count: u32 },
}
