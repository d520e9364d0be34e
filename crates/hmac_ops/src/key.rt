// A key whose pads are hashed once, for any number of messages.

ghost use Rattle.std.specs.Prelude.{◌≡◌, ◌≤◌, ℕ, List, [], drop, take};
ghost use Rattle.crypto_specs.specs.Prelude.{hmac};
ghost use Rattle.hash_ops.specs.Hashes.{block_length, digest_length, hash_of};
ghost use Rattle.hmac_ops.specs.States.{HoldsHmac, IsHmacKey, IsWipedHmacKey};

use crate::pads::{key_block, xored_with};
use crate::state::HmacState;
use hash_ops::{Hash, HashState};

/// A key made ready: hashes that have taken in the key's pads, which each message goes on from (RFC
/// 2104, section 4). Where it is let go, each forgets them.
#[derive(Drop)]
pub struct HmacKey {
    inner: HashState,
    outer: HashState,
}

impl HmacKey {
    /// The key of these bytes, as many as there are.
    pub fn new(which: Hash, key: &[u8]) -> HmacKey
        ensures { IsHmacKey result which key.now }
    {
        let length = which.block_length();
        let mut block = key_block(which, key);
        let mut inner_pad = xored_with(&block, 0x36);
        let mut outer_pad = xored_with(&block, 0x5c);
        block.fill(0);
        let mut inner = HashState::new(which);
        inner.update(&inner_pad[..length]);
        inner_pad.fill(0);
        let mut outer = HashState::new(which);
        outer.update(&outer_pad[..length]);
        outer_pad.fill(0);
        HmacKey { inner, outer }
    }

    /// The state of the empty message under this key.
    pub fn start(&self) -> HmacState
        ensures { (which : Hash) (key : List ℕ) → IsHmacKey self.now which key → HoldsHmac result which key [] }
    {
        HmacState {
            inner: self.inner.duplicate(),
            outer: self.outer.duplicate(),
        }
    }

    /// Forgets the key: the hashes are then those of the empty message.
    pub fn wipe(&mut self)
        ensures { IsWipedHmacKey self.new }
    {
        self.inner.wipe();
        self.outer.wipe();
    }
}
