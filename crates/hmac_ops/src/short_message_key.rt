// A key of HMAC-SHA-256 for messages that are as long as its codes.

ghost use Rattle.std.specs.Prelude.{◌≡◌, ℕ, List, take};
ghost use Rattle.crypto_specs.specs.Prelude.{hmac};
ghost use Rattle.hash_ops.specs.{declared.Hash.TheVariants.Sha256, Hashes.block_length, Hashes.hash_of};
ghost use Rattle.hmac_ops.specs.ShortMessages.{IsShortMessageKey, IsWipedShortMessageKey};

use crate::first_block::FirstBlock;
use crate::pads::{key_block, xored_with};
use hash_ops::Hash;

// The first half of a block with room for the longest, which is a block of SHA-256.
fn front(block: &[u8; 128]) -> &[u8; 64]
    ensures { result.now ≡ take 64 block.now }
{
    block.first_chunk::<64>().unwrap()
}

/// A key of HMAC-SHA-256 made ready for messages of 32 bytes, which are as long as its codes: the
/// hash values after its pads (RFC 2104, section 4). Each code takes two compressions. Where it is let
/// go, both hash values are zeros first.
#[derive(Drop)]
pub struct ShortMessageKey {
    inner: FirstBlock,
    outer: FirstBlock,
}

impl ShortMessageKey {
    /// The key of these bytes, as many as there are.
    pub fn new(key: &[u8]) -> ShortMessageKey
        ensures { IsShortMessageKey result key.now }
    {
        let mut block = key_block(Hash::Sha256, key);
        let mut inner_pad = xored_with(&block, 0x36);
        let mut outer_pad = xored_with(&block, 0x5c);
        block.fill(0);
        let inner = FirstBlock::new(front(&inner_pad));
        inner_pad.fill(0);
        let outer = FirstBlock::new(front(&outer_pad));
        outer_pad.fill(0);
        ShortMessageKey { inner, outer }
    }

    /// The authentication code of a message.
    pub fn code(&self, message: &[u8; 32]) -> [u8; 32]
        ensures { (key : List ℕ) → IsShortMessageKey self.now key → result ≡ hmac (hash_of Sha256) (block_length Sha256) key message.now }
    {
        let mut digest = self.inner.digest_with(message);
        let code = self.outer.digest_with(&digest);
        digest.fill(0);
        code
    }

    /// Forgets the key: the hash values are then zeros.
    pub fn wipe(&mut self)
        ensures { IsWipedShortMessageKey self.new }
    {
        self.inner.wipe();
        self.outer.wipe();
    }
}
