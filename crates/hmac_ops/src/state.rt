// A message that is authenticated piece by piece.

ghost use Rattle.std.specs.Prelude.{◌≡◌, ◌≤◌, ℕ, List, [], ◌++◌, drop, take};
ghost use Rattle.crypto_specs.specs.Prelude.{hmac};
ghost use Rattle.hash_ops.specs.Hashes.{block_length, digest_length, hash_of};
ghost use Rattle.hmac_ops.specs.States.{HoldsHmac, IsWipedHmac};

use crate::key::HmacKey;
use hash_ops::{Hash, HashState};

/// A message that is authenticated piece by piece: it stands for its pieces, one after another. Where it
/// is let go, both hashes forget what they have taken in.
#[derive(Drop)]
pub struct HmacState {
    pub(crate) inner: HashState,
    pub(crate) outer: HashState,
}

impl HmacState {
    /// The state of the empty message under a key of these bytes.
    pub fn new(which: Hash, key: &[u8]) -> HmacState
        ensures { HoldsHmac result which key.now [] }
    {
        let mut ready = HmacKey::new(which, key);
        let state = ready.start();
        ready.wipe();
        state
    }

    /// Adds a piece to the message.
    pub fn update(&mut self, piece: &[u8])
        ensures { (which : Hash) (key m : List ℕ) → HoldsHmac self.old which key m → HoldsHmac self.new which key (m ++ piece.now) }
    {
        self.inner.update(piece);
    }

    /// Writes the authentication code of the message to the front of `out`, whose rest stays, answers
    /// its length, and forgets key and message.
    pub fn finish(&mut self, out: &mut [u8; 64]) -> usize
        ensures bound { result ≤ 64 }
        ensures length { (which : Hash) (key m : List ℕ) → HoldsHmac self.old which key m → result ≡ digest_length which }
        ensures code { (which : Hash) (key m : List ℕ) → HoldsHmac self.old which key m → take result out.new ≡ hmac (hash_of which) (block_length which) key m }
        ensures rest { drop result out.new ≡ drop result out.old }
        ensures wiped { IsWipedHmac self.new }
    {
        let mut digest = [0u8; 64];
        let length = self.inner.finish(&mut digest);
        self.outer.update(&digest[..length]);
        digest.fill(0);
        self.outer.finish(out)
    }

    /// Forgets key and message: the hashes are then those of the empty message.
    pub fn wipe(&mut self)
        ensures { IsWipedHmac self.new }
    {
        self.inner.wipe();
        self.outer.wipe();
    }
}
