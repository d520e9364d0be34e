//! Key derivation over HMAC: HKDF (RFC 5869) and PBKDF2 (RFC 8018).
//!
//! What is proved:
//!
//! - `hkdf_extract`, `hkdf_block`, `pbkdf2_block`: the steps of HKDF and PBKDF2 are RFC 5869 and RFC 8018; a code of
//!   PBKDF2 is zeros where it was moved from (`move_to_front`), and the last turn where it is let go (`release`).
#![tactic(auto)]

pub use hkdf::{hkdf_block, hkdf_extract};
pub use pbkdf2::pbkdf2_block;

mod hkdf;
mod pbkdf2;
