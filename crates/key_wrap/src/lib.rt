//! Key wrap (RFC 3394) over AES, and laws of its definitions.
//!
//! What is proved:
//!
//! - `wrap`, `unwrap`: RFC 3394, of keys of 16 to 1,024 bytes; `unwrap` is false exactly where the initial value
//!   doesn't come back, and then the output is zeros. The register A is zero once it is given or compared
//!   (`give_register`, `is_initial`).
//! - `unwrapping_undoes_wrapping`, `wrapping_is_one_to_one`, `only_wraps_unwrap`: laws of RFC 3394: unwrapping undoes
//!   wrapping, wrapping is one to one, and only wraps unwrap.
#![tactic(auto)]

ghost use Rattle.key_wrap.specs.Laws.{OnlyWrapsUnwrap, UnwrappingUndoesWrapping, WrappingIsOneToOne};

pub use unwrapping::unwrap;
pub use wrapping::wrap;

mod registers;
mod unwrapping;
mod wrapping;

/// Unwrapping gives the key that was wrapped (RFC 3394, 2.2), over every cipher that has an inverse.
pub fn unwrapping_undoes_wrapping()
    ensures { UnwrappingUndoesWrapping }
{}

/// Two keys with the same wrap under one key encryption key are the same key.
pub fn wrapping_is_one_to_one()
    ensures { WrappingIsOneToOne }
{}

/// A text that unwraps to a key is that key's wrap, and no other.
pub fn only_wraps_unwrap()
    ensures { OnlyWrapsUnwrap }
{}
