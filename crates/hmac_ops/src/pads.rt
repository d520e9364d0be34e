// The block of a key, and what it is xored with.

ghost use Rattle.std.specs.Prelude.{◌≡◌, ◌≤◌, length, take};
ghost use Rattle.crypto_specs.specs.Prelude.{zero_padded, key_block, xored_with};
ghost use Rattle.hash_ops.specs.Hashes.{block_length, hash_of};

use hash_ops::Hash;
use hash_ops::one_shot::hash;

// The bytes, and zeros after them.
fn filled(bytes: &[u8]) -> [u8; 128]
    requires { length bytes.now ≤ 128 }
    ensures { result ≡ zero_padded 128 bytes.now }
{
    let mut out = [0u8; 128];
    'bytes: for i in 0..bytes.len() {
        out[i] = bytes[i];
    }
    out
}

// The key, hashed where it is longer than a block, and filled with zeros.
pub fn key_block(which: Hash, key: &[u8]) -> [u8; 128]
    ensures { take (block_length which) result ≡ key_block (hash_of which) (block_length which) key.now }
{
    if key.len() > which.block_length() {
        let mut digest = [0u8; 64];
        let length = hash(which, key, &mut digest);
        let block = filled(&digest[..length]);
        digest.fill(0);
        block
    } else {
        filled(key)
    }
}

// Each byte xored with `with`.
pub fn xored_with(block: &[u8; 128], with: u8) -> [u8; 128]
    ensures { result ≡ xored_with with block.now }
{
    let mut out = [0u8; 128];
    'bytes: for i in 0..128 {
        out[i] = block[i] ^ with;
    }
    out
}
