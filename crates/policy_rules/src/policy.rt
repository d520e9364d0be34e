// What a policy permits, and the meet of two.
ghost use Rattle.std.specs.{Prelude.◌≡◌, Prelude.◌↔◌, Prelude.IfSome, Prelude.IsTrue, Prelude.ℕ, Option.option_map};
ghost use Rattle.alg_encoding.specs.Encoding.{IsConcrete, base_of, minimum_of};
ghost use Rattle.key_attributes.specs.declared.Policy.{Policy};
ghost use Rattle.policy_rules.specs.Policy.{HasOneAlgorithm, IsWithin, MayUseBoth, PermitsBoth, allows, longer_of, may_use, meet_algorithm, meet_of, permits_algorithm, reaches};

use alg_encoding::Alg;
use key_attributes::{Policy, Usage};

fn reaches(minimum: Option<u8>, length: Option<u8>) -> bool
    ensures { result ≡ reaches minimum length }
{
    match (minimum, length) {
        (Some(minimum), Some(length)) => minimum <= length,
        _ => false,
    }
}

#[tactic(auto, unfolding(crate::specs::Policy::permits_algorithm))]
/// Whether a number in a policy permits a concrete algorithm.
fn permits_algorithm(number: Alg, alg: Alg) -> bool
    ensures { result ≡ permits_algorithm number.0 alg.0 }
{
    if number.number() == 0 {
        return false;
    }
    number.is_same(alg)
        || (number.base() == alg.base() && reaches(number.minimum(), alg.tag_length()))
}

/// Whether a policy allows a concrete algorithm.
fn allows(policy: &Policy, alg: Alg) -> bool
    ensures { result ≡ allows policy.now alg.0 }
{
    permits_algorithm(policy.alg, alg) || permits_algorithm(policy.alg2, alg)
}

/// Whether a policy has each flag of a usage and allows a concrete algorithm.
pub fn permits(policy: &Policy, usage: Usage, alg: Alg) -> bool
    requires { IsConcrete alg.0 }
    ensures { result ≡ may_use policy.now usage.0 alg.0 }
{
    policy.usage.0 & usage.0 == usage.0 && allows(policy, alg)
}

/// Of two algorithms of one base with a minimum, the one with the longer.
fn longer(a: Alg, b: Alg) -> Option<Alg>
    ensures { option_map (λ alg. alg.0) result ≡ longer_of a.0 (minimum_of a.0) b.0 (minimum_of b.0) }
{
    match (a.minimum(), b.minimum()) {
        (Some(m), Some(n)) => Some(if m < n { b } else { a }),
        _ => None,
    }
}

#[tactic(auto, unfolding(crate::specs::Policy::meet_algorithm))]
/// The number that permits what both permit.
fn meet_algorithm(a: Alg, b: Alg) -> Option<Alg>
    ensures { option_map (λ alg. alg.0) result ≡ meet_algorithm a.0 b.0 }
{
    if a.number() == 0 || b.number() == 0 {
        return Some(Alg::of(0));
    }
    if a.is_same(b) {
        return Some(a);
    }
    if a.is_concrete() && b.is_wildcard() && permits_algorithm(b, a) {
        return Some(a);
    }
    if b.is_concrete() && a.is_wildcard() && permits_algorithm(a, b) {
        return Some(b);
    }
    if a.base() == b.base() {
        longer(a, b)
    } else {
        None
    }
}

// The flags of both policies, and place by place the number that permits what both permit.
fn met(a: &Policy, b: &Policy) -> Option<Policy>
    ensures { result ≡ meet_of a.now b.now }
{
    Some(Policy {
        usage: Usage(a.usage.0 & b.usage.0),
        alg: meet_algorithm(a.alg, b.alg)?,
        alg2: meet_algorithm(a.alg2, b.alg2)?,
    })
}

/// The policy of a copy, by its source's policy and the stated one: the flags of both, and in each of the two places the
/// number that permits what both numbers there permit, so that a second number which isn't stated is lost. `None` where a
/// place has no such number. What the meet may be used for, both may. Where neither policy has a second number, the meet may
/// be used for all that both may, and where there is none, no concrete algorithm is allowed by both. Where both state the
/// same algorithm in a place, the source's number stays there.
pub fn meet(a: &Policy, b: &Policy) -> Option<Policy>
    ensures value { result ≡ meet_of a.now b.now }
    ensures within { IfSome result (λ met. IsWithin met a.now × IsWithin met b.now) }
    ensures both { HasOneAlgorithm a.now → HasOneAlgorithm b.now → MayUseBoth a.now b.now result }
{
    met(a, b)
}
