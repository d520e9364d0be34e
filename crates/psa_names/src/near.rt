// The name that was meant.
ghost use Rattle.std.specs.{Prelude.◌≡◌, Prelude.IfOk, Prelude.map, Char.to_ascii_uppercase, Option.option_map};
ghost use Rattle.psa_names.specs.{Near.IsNear, Near.letters_changed, Near.table_of, Near.name_texts, Rows.name_row};

use crate::names::Name;
use crate::tables::{algorithms, key_types, lifetimes, steps, usages};
use psa_status::Memory;
use std::alloc::{AllocError, Global};
use strsim::generic_levenshtein;

/// What a name is of.
#[derive(Clone, Copy, Debug, PartialEq, Eq, Drop)]
pub enum Kind {
    KeyType,
    Usage,
    Algorithm,
    Lifetime,
    Step,
}

impl Kind {
    fn names(self) -> &'static [Name]
        ensures { map name_row result.now ≡ table_of self }
    {
        match self {
            Kind::KeyType => key_types(),
            Kind::Usage => usages(),
            Kind::Algorithm => algorithms(),
            Kind::Lifetime => lifetimes(),
            Kind::Step => steps(),
        }
    }
}

/// A text in capitals.
fn capitals(alloc: Global, text: &[u8]) -> Result<Vec<u8>, AllocError>
    ensures { IfOk result (λ capitals. capitals.items ≡ map to_ascii_uppercase text.now) }
{
    let mut capitals = text.to_vec(alloc)?;
    capitals.make_ascii_uppercase();
    Ok(capitals)
}

/// The name for which the fewest letters have to change, where they are at most half of the text's.
fn nearest_of(
    alloc: Global,
    names: &'static [Name],
    text: &[u8],
) -> Result<Option<&'static [u8]>, AllocError>
    ensures { IfOk result (λ near. IsNear (name_texts (map name_row names.now)) text.now (option_map (λ name. name.now) near)) }
{
    let capitals = capitals(alloc, text)?;
    let mut nearest = None;
    let mut least = text.len() / 2 + 1;
    for name in names {
        let changes = generic_levenshtein(alloc, &capitals, name.text)?;
        if changes < least {
            least = changes;
            nearest = Some(name.text);
        }
    }
    Ok(nearest)
}

/// A name of a kind for which the fewest letters of a text have to change, be left out or be put in (in capitals), or `None`
/// where these are more than half of the text's letters for each. A usage's flags are asked for one by one, and an algorithm
/// without the tag behind its name.
pub fn nearest(alloc: Global, kind: Kind, text: &[u8]) -> Result<Option<&'static [u8]>, Memory>
    ensures { IfOk result (λ near. IsNear (name_texts (table_of kind)) text.now (option_map (λ name. name.now) near)) }
{
    match nearest_of(alloc, kind.names(), text) {
        Ok(near) => Ok(near),
        Err(_) => Err(Memory),
    }
}
