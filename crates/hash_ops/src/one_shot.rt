//! A whole message at once.

ghost use Rattle.std.specs.Prelude.{◌≡◌, drop, take};
ghost use Rattle.hash_ops.specs.Hashes.{digest_length, hash_of};

use crate::{Hash, HashState};

/// Writes the digest of a message to the front of `out`, whose rest stays, and answers its length.
pub fn hash(which: Hash, message: &[u8], out: &mut [u8; 64]) -> usize
    ensures length { result ≡ digest_length which }
    ensures digest { take result out.new ≡ hash_of which message.now }
    ensures rest { drop result out.new ≡ drop result out.old }
{
    let mut state = HashState::new(which);
    state.update(message);
    state.finish(out)
}
