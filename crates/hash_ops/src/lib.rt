//! The hash functions SHA-224, SHA-256, SHA-384 and SHA-512 (FIPS 180-4), chosen by value.
//!
//! What is proved:
//!
//! - `hash`, `HashState`: FIPS 180-4 (as the kit's `sha2` states it), of whole messages and in any pieces; what `wipe`
//!   leaves, and what is let go (`release`): hashers of the empty message.
#![tactic(auto)]

ghost use Rattle.std.specs.Prelude.{◌≡◌, ◌<◌, ◌⊎◌, ◌↔◌, IsNone};
ghost use Rattle.hash_ops.specs.Hashes.{block_length, digest_length, of_low_byte};

pub use state::HashState;

pub mod one_shot;
mod state;

/// A hash function.
#[derive(Clone, Copy, Debug, PartialEq, Eq)]
pub enum Hash {
    Sha224,
    Sha256,
    Sha384,
    Sha512,
}

impl Hash {
    /// The function that an algorithm number names by its low byte, from 8 for SHA-224 to 11 for
    /// SHA-512 (PSA Crypto 1.2, the encoding of hash algorithms); `None` exactly for any other byte.
    pub fn from_low_byte(byte: u8) -> Option<Hash>
        ensures value { result ≡ of_low_byte byte }
        ensures none { IsNone result ↔ ((byte < 8) ⊎ (11 < byte)) }
    {
        match byte {
            8 => Some(Hash::Sha224),
            9 => Some(Hash::Sha256),
            10 => Some(Hash::Sha384),
            11 => Some(Hash::Sha512),
            _ => None,
        }
    }

    /// The number of bytes of a digest.
    pub fn length(self) -> usize
        ensures { result ≡ digest_length self }
    {
        match self {
            Hash::Sha224 => 28,
            Hash::Sha256 => 32,
            Hash::Sha384 => 48,
            Hash::Sha512 => 64,
        }
    }

    /// The number of bytes of a block.
    pub fn block_length(self) -> usize
        ensures { result ≡ block_length self }
    {
        match self {
            Hash::Sha224 | Hash::Sha256 => 64,
            Hash::Sha384 | Hash::Sha512 => 128,
        }
    }
}
