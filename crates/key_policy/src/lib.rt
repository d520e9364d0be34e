//! What algorithm numbers name, read once: the family, the hash function, the mode and the length of the tag; what the code that
//! computes with an algorithm has to know of it; and what a key may be used for, by what is known of it beside its bytes.
//!
//! What is proved:
//!
//! - `NamedAlgorithm::of`, `algorithm`, `mac` and its kin; `KeyUse::check`, `check_use`, `copied_attributes`:
//!   `NamedAlgorithm::of` parses a number; its `algorithm` is None exactly where the number names no one algorithm, and
//!   else that algorithm; `mac` and its kin refuse by the model's rows. A key is refused a use, a call that a device
//!   computes, and its copy by the model's rows, in their order (of EXPORT but for the room's); the bytes of one that
//!   isn't are fit for the use.
#![tactic(auto)]

mod aeads;
mod algorithms;
mod checks;
mod copies;
mod key_use;
mod keys;
mod lengths;
mod modes;
mod named;
pub mod steps;

pub use algorithms::{
    AeadAlgorithm, AeadKind, Algorithm, KeyDerivation, MacAlgorithm, MacKind, Scheme,
};
pub use checks::check_use;
pub use copies::copied_attributes;
pub use key_use::KeyUse;
pub use keys::aes_key;
pub use lengths::TOTAL_LIMIT;
pub use modes::{Mode, enciphered_length, is_ciphertext_length, iv_length, takes_whole_blocks};
pub use named::NamedAlgorithm;
