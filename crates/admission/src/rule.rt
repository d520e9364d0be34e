// A rule: a test that was handed in, and its label.
ghost use Rattle.std.specs.Prelude.{◌≡◌};
ghost use Rattle.policy_rules.specs.{declared.narrowing.Verdict.Verdict, Narrow.narrowed};

use key_attributes::Attributes;
use policy_rules::{Label, Verdict};

/// Answers what becomes of a new key's attributes.
pub type Test = Box<dyn Fn(&Attributes) -> Verdict + Send>;

/// A test of a new key's attributes, which answers what its label says.
#[derive(Drop)]
pub struct Rule {
    label: Label,
    test: Test,
    ghost callable: { Test.IsAlwaysCallable test },
    ghost narrows: { (asked : _) (verdict : Verdict) → Test.post test asked verdict → verdict ≡ narrowed label asked.now },
}

impl Rule {
    /// The rule with this label and test.
    pub fn new(label: Label, test: Test) -> Rule
        requires callable { Test.IsAlwaysCallable test }
        requires narrows { (asked : _) (verdict : Verdict) → Test.post test asked verdict → verdict ≡ narrowed label asked.now }
        ensures { result.label ≡ label }
    {
        Rule { label, test }
    }

    /// Its label.
    pub fn label(&self) -> Label
        ensures { result ≡ self.now.label }
    {
        self.label
    }

    // What it makes of a new key's attributes.
    pub(crate) fn verdict(&self, attributes: &Attributes) -> Verdict
        ensures { result ≡ narrowed self.now.label attributes.now }
    {
        (self.test)(attributes)
    }
}
