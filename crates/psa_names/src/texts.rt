// Texts that are made before they are appended.
ghost use Rattle.std.specs.Prelude.{◌≡◌, ◌++◌, false, IfOk, IsOk, OnErr, OnOk};
ghost use Rattle.std.specs.Fmt.{digits};
ghost use Rattle.std.specs.Prelude.{map};
ghost use Rattle.psa_names.specs.{Names.name_or_hex, Rows.name_row};

use crate::names::{Name, name_of};
use psa_status::Memory;
use std::alloc::{AllocError, Global};

/// A number in hex, in small letters and without leading zeros.
pub(crate) fn hex_text(alloc: Global, number: u32) -> Result<Vec<u8>, AllocError>
    ensures { IfOk result (λ text. text.items ≡ digits 16 false number) }
{
    match format!(in alloc; "{number:x}") {
        Ok(text) => Ok(text.into_bytes()),
        Err(error) => Err(error),
    }
}

/// A number by its name, or in hex.
pub(crate) fn name_text(alloc: Global, names: &[Name], number: u32) -> Result<Vec<u8>, AllocError>
    ensures { IfOk result (λ text. text.items ≡ name_or_hex (map name_row names.now) number) }
{
    match name_of(names, number) {
        Some(name) => name.to_vec(alloc),
        None => hex_text(alloc, number),
    }
}

/// Appends a text that was made. Without memory nothing is appended.
pub(crate) fn append(out: &mut Vec<u8>, text: Result<Vec<u8>, AllocError>) -> Result<(), Memory>
    ensures ok { OnOk result (IfOk text (λ text. out.new.items ≡ out.old.items ++ text.items)) }
    ensures made { OnOk result (IsOk text) }
    ensures err { OnErr result (out.new.items ≡ out.old.items) }
{
    let Ok(text) = text else {
        return Err(Memory);
    };
    match out.extend_from_slice(&text) {
        Ok(()) => Ok(()),
        Err(_) => Err(Memory),
    }
}
