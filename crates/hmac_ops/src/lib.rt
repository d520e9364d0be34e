//! HMAC (RFC 2104) over SHA-224, SHA-256, SHA-384 and SHA-512, and SHA-256 of a block and 32 bytes after it.
//!
//! What is proved:
//!
//! - `hmac`, `HmacKey`, `HmacState`, `ShortMessageKey::code`; `FirstBlock::digest_with`: RFC 2104, of whole messages and
//!   in any pieces, and of 32 bytes under HMAC-SHA-256; the digest of a block and 32 bytes after it is SHA-256's. After
//!   `wipe`, and where they are let go, hashers are those of the empty message, and hash values zeros.
#![tactic(auto)]

ghost use Rattle.std.specs.Prelude.{◌≡◌, drop, take};
ghost use Rattle.crypto_specs.specs.Prelude.{hmac};
ghost use Rattle.hash_ops.specs.Hashes.{block_length, digest_length, hash_of};

pub use first_block::FirstBlock;
use hash_ops::Hash;
pub use key::HmacKey;
pub use short_message_key::ShortMessageKey;
pub use state::HmacState;

mod compression;
mod first_block;
mod key;
mod pads;
mod schedule;
mod short_message_key;
mod state;
mod words;

/// Writes the authentication code of a message to the front of `out`, whose rest stays, and answers
/// its length.
pub fn hmac(which: Hash, key: &[u8], message: &[u8], out: &mut [u8; 64]) -> usize
    ensures length { result ≡ digest_length which }
    ensures code { take result out.new ≡ hmac (hash_of which) (block_length which) key.now message.now }
    ensures rest { drop result out.new ≡ drop result out.old }
{
    let mut state = HmacState::new(which, key);
    state.update(message);
    state.finish(out)
}
