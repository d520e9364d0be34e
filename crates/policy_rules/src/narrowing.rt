// Admission rules.
ghost use Rattle.std.specs.Prelude.{◌≡◌};
ghost use Rattle.policy_rules.specs.Narrow.{KeepsWithin, names_ecb, narrowed, only_usage};

use alg_encoding::Alg;
use key_attributes::{Attributes, KeyType, Policy, Usage};

/// What an admission rule does with a new key.
#[derive(Clone, Copy, Debug, PartialEq, Eq, Drop)]
pub enum Label {
    /// Takes the flag EXPORT away.
    NoExport,
    /// Takes the flag COPY away.
    NoCopy,
    /// Refuses a key one of whose numbers is ECB's.
    NoEcb,
    /// Refuses an AES key of other than 256 bits.
    Aes256,
}

/// What a rule answers.
#[derive(Clone, Copy, Debug, PartialEq, Eq, Drop)]
pub enum Verdict {
    Keep(Attributes),
    Refuse,
}

const ECB_NO_PADDING: Alg = Alg(0x0440_4400);

fn with_usage(attributes: &Attributes, flags: u32) -> Attributes
    ensures { result ≡ only_usage attributes.now flags }
{
    let policy = attributes.policy;
    Attributes {
        policy: Policy {
            usage: Usage(policy.usage.0 & flags),
            ..policy
        },
        ..*attributes
    }
}

// Whether one of a policy's numbers is that of ECB without padding.
fn names_ecb(policy: &Policy) -> bool
    ensures { result ≡ names_ecb policy.now }
{
    policy.alg == ECB_NO_PADDING || policy.alg2 == ECB_NO_PADDING
}

/// What the rule with this label makes of a new key's attributes.
pub fn narrow(label: Label, attributes: &Attributes) -> Verdict
    ensures value { result ≡ narrowed label attributes.now }
    ensures within { KeepsWithin attributes.now result }
{
    match label {
        Label::NoExport => Verdict::Keep(with_usage(attributes, !Usage::EXPORT.0)),
        Label::NoCopy => Verdict::Keep(with_usage(attributes, !Usage::COPY.0)),
        Label::NoEcb => {
            if names_ecb(&attributes.policy) {
                Verdict::Refuse
            } else {
                Verdict::Keep(*attributes)
            }
        }
        Label::Aes256 => {
            if attributes.key_type == KeyType::AES && attributes.bits != 256 {
                Verdict::Refuse
            } else {
                Verdict::Keep(*attributes)
            }
        }
    }
}
