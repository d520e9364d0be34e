// SHA-256 block by block (FIPS 180-4, section 6.2), for messages of 96 bytes whose first block was
// hashed before: a digest then takes one compression.

ghost use Rattle.std.specs.Prelude.{◌≡◌, ℕ, List, ◌++◌, length, replicate};
ghost use Rattle.sha2.specs.Sha256.{digest_bytes, padding, sha256};
ghost use Rattle.hmac_ops.specs.FirstBlocks.{IsFirstBlock, IsWiped};

use crate::compression::compress;

// H(0) (section 5.3.3).
const INITIAL_HASH_VALUE: [u32; 8] = [
    0x6a09e667, 0xbb67ae85, 0x3c6ef372, 0xa54ff53a, 0x510e527f, 0x9b05688c, 0x1f83d9ab, 0x5be0cd19,
];

// The second block of a message of 96 bytes without its first 32 bytes, which are the message's: a
// bit 1, zeros, and the length, 768 bits, as 8 bytes (section 5.1.1).
const PADDED_REST: [u8; 64] = [
    0, 0, 0, 0, 0, 0, 0, 0, 0, 0, 0, 0, 0, 0, 0, 0, 0, 0, 0, 0, 0, 0, 0, 0, 0, 0, 0, 0, 0, 0, 0, 0,
    0x80, 0, 0, 0, 0, 0, 0, 0, 0, 0, 0, 0, 0, 0, 0, 0, 0, 0, 0, 0, 0, 0, 0, 0, 0, 0, 0, 0, 0, 0, 3,
    0,
];

// The second block of a message that ends with these bytes.
#[inline(always)]
fn second_block(rest: &[u8; 32]) -> [u8; 64]
    ensures { result ≡ rest.now ++ padding 96 }
{
    let mut block = PADDED_REST;
    block[..32].copy_from_slice(rest);
    block
}

// The words of a hash value, the high byte first.
#[inline(always)]
fn digest_bytes(hash_value: &[u32; 8]) -> [u8; 32]
    ensures { result ≡ digest_bytes hash_value.now 8 }
{
    let mut digest = [0; 32];
    'words: for i in 0..8 {
        digest[4 * i..4 * i + 4].copy_from_slice(&hash_value[i].to_be_bytes());
    }
    digest
}

/// A message's first block that SHA-256 has taken in: the hash value after it, H(1) (FIPS 180-4,
/// section 6.2.2). Where it is let go, it is zeros first.
pub struct FirstBlock {
    hash_value: [u32; 8],
}

impl FirstBlock {
    /// Takes in the first block of a message.
    pub fn new(block: &[u8; 64]) -> FirstBlock
        ensures { IsFirstBlock result block.now }
    {
        FirstBlock {
            hash_value: compress(&INITIAL_HASH_VALUE, block),
        }
    }

    /// The digest of the block and 32 bytes after it, by one compression.
    pub fn digest_with(&self, rest: &[u8; 32]) -> [u8; 32]
        ensures { (block : List ℕ) → length block ≡ 64 → IsFirstBlock self.now block
            → result ≡ sha256 (block ++ rest.now) }
    {
        digest_bytes(&compress(&self.hash_value, &second_block(rest)))
    }

    /// Forgets the block: the hash value is then zeros.
    pub fn wipe(&mut self)
        ensures { IsWiped self.new }
    {
        self.hash_value = [0; 8];
    }
}

impl Drop for FirstBlock {
    fn drop(mut self) {
        self.wipe();
        let FirstBlock { hash_value } = self;
        release(&hash_value);
    }
}

// What is let go of a first block: zeros.
fn release(hash_value: &[u32; 8])
    requires { hash_value.now ≡ replicate 8 0 }
{}
