// Key types, lifetimes and steps of derivations, each of which has one name at most.
ghost use Rattle.std.specs.{Prelude.◌≡◌, Prelude.◌++◌, Prelude.OnErr, Prelude.OnOk, Option.option_map};
ghost use Rattle.psa_names.specs.Names.{key_type_text, lifetime_text, read_key_type, read_lifetime, read_step, step_text};

use crate::names::{read_short, read_word};
use crate::tables::{key_types, lifetimes, steps};
use crate::texts::{append, name_text};
use key_attributes::{KeyType, Lifetime};
use psa_status::Memory;
use std::alloc::Global;

/// Appends the name of a key type (PSA_KEY_TYPE_ of the standard), or its number in hex where it has none. Without memory
/// nothing is appended.
#[tactic(auto, unfolding(crate::specs::Names::key_type_text))]
pub fn push_key_type(alloc: Global, out: &mut Vec<u8>, key_type: KeyType) -> Result<(), Memory>
    ensures ok { OnOk result (out.new.items ≡ out.old.items ++ key_type_text key_type.0) }
    ensures err { OnErr result (out.new.items ≡ out.old.items) }
{
    append(out, name_text(alloc, key_types(), key_type.0 as u32))
}

/// The key type of 1 to 4 hex digits, or else of a name, in letters of either case.
#[tactic(auto, unfolding(crate::specs::Names::read_key_type))]
pub fn read_key_type(text: &[u8]) -> Option<KeyType>
    ensures { option_map (λ key_type. key_type.0) result ≡ read_key_type text.now }
{
    match read_short(key_types(), text) {
        Some(number) => Some(KeyType(number)),
        None => None,
    }
}

/// Appends the name of a lifetime (PSA_KEY_LIFETIME_ of the standard; the volatile one at the secure element is
/// `VOLATILE@SECURE_ELEMENT`), or its number in hex where it has none. Without memory nothing is appended.
#[tactic(auto, unfolding(crate::specs::Names::lifetime_text))]
pub fn push_lifetime(alloc: Global, out: &mut Vec<u8>, lifetime: Lifetime) -> Result<(), Memory>
    ensures ok { OnOk result (out.new.items ≡ out.old.items ++ lifetime_text lifetime.0) }
    ensures err { OnErr result (out.new.items ≡ out.old.items) }
{
    append(out, name_text(alloc, lifetimes(), lifetime.0))
}

/// The lifetime of 1 to 8 hex digits, or else of a name, in letters of either case.
#[tactic(auto, unfolding(crate::specs::Names::read_lifetime))]
pub fn read_lifetime(text: &[u8]) -> Option<Lifetime>
    ensures { option_map (λ lifetime. lifetime.0) result ≡ read_lifetime text.now }
{
    match read_word(lifetimes(), text) {
        Some(number) => Some(Lifetime(number)),
        None => None,
    }
}

/// Appends the name of an input step (PSA_KEY_DERIVATION_INPUT_ of the standard), or its number in hex where it has none.
/// Without memory nothing is appended.
#[tactic(auto, unfolding(crate::specs::Names::step_text))]
pub fn push_step(alloc: Global, out: &mut Vec<u8>, step: u16) -> Result<(), Memory>
    ensures ok { OnOk result (out.new.items ≡ out.old.items ++ step_text step) }
    ensures err { OnErr result (out.new.items ≡ out.old.items) }
{
    append(out, name_text(alloc, steps(), step as u32))
}

/// The input step of 1 to 4 hex digits, or else of a name, in letters of either case.
#[tactic(auto, unfolding(crate::specs::Names::read_step))]
pub fn read_step(text: &[u8]) -> Option<u16>
    ensures { result ≡ read_step text.now }
{
    read_short(steps(), text)
}
