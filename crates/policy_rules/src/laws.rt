// Laws of the meet, each the contract of a function that does nothing.
ghost use Rattle.std.specs.Prelude.{ℕ, ◌≡◌, List, IfSome};
ghost use Rattle.key_attributes.specs.declared.Policy.{Policy};
ghost use Rattle.policy_rules.specs.Policy.{HasOneAlgorithm, IsFilled, IsWithin, MayUseBoth, PermitsBoth, chain_of, copy_of, meet_algorithm, meet_of};

/// The meet of two algorithm numbers permits exactly the concrete algorithms that both permit, and where there is none no
/// algorithm is permitted by both; likewise for policies that have no second number.
pub fn meet_permits_both()
    ensures algorithms { (p q : ℕ) → PermitsBoth p q (meet_algorithm p q) }
    ensures policies { (p q : Policy) → HasOneAlgorithm p → HasOneAlgorithm q → MayUseBoth p q (meet_of p q) }
{}

/// A copy has no flag and allows no algorithm that its source doesn't, nor does the end of a chain of copies that its
/// origin doesn't.
pub fn copies_gain_nothing()
    ensures met { (source stated : Policy) → IfSome (meet_of source stated) (λ met. IsWithin met source) }
    ensures stated { (source stated : Policy) → IfSome (meet_of source stated) (λ met. IsWithin met stated) }
    ensures copy { (source stated : Policy) → IsFilled source → IfSome (copy_of source stated) (λ copy. IsFilled copy × IsWithin copy source) }
    ensures chain { (origin : Policy) (all : List Policy) → IsFilled origin → IfSome (chain_of origin all) (λ last. IsWithin last origin) }
{}
