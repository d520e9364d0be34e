// A law of the rules, the contract of a function that does nothing.
ghost use Rattle.std.specs.Prelude.{List, IfOk};
ghost use Rattle.key_attributes.specs.declared.Attributes.{Attributes};
ghost use Rattle.policy_rules.specs.declared.narrowing.Label.{Label};
ghost use Rattle.admission.specs.Apply.{Narrows, after_rules};

/// Rules never add a flag or an algorithm to a new key's policy, and leave all else of its attributes as it is.
pub fn rules_add_nothing()
    ensures { (labels : List Label) (attributes : Attributes) → IfOk (after_rules labels attributes) (Narrows attributes) }
{}
