// Counter blocks, and the key stream that they give (SP 800-38D, sections 6.2, 6.5 and 7.1).

ghost use Rattle.std.specs.Prelude.{◌≡◌, ℕ, ◌+◌, ◌*◌, ◌/◌, ◌%◌, ◌^◌, ◌<◌, ◌≤◌, List, length};
ghost use Rattle.crypto_specs.specs.Prelude.{aes_encrypt, IsKey, xor_bytes, block_count, gcm_stream, hash_subkey, increased, initial_counter_block};

use crate::hashing::ghash_of;
use aes_core::AesKey;
use cipher_blocks::{filled_number, xor_into};

/// The pre-counter block J_0 of a nonce, under the hash subkey of a cipher `e` (SP 800-38D, section
/// 7.1, step 2).
pub fn initial_counter_block(subkey: u128, nonce: &[u8]) -> u128
    requires { length nonce.now < 2 ^ 61 }
    ensures { (e : List ℕ → List ℕ) → subkey ≡ hash_subkey e → result ≡ initial_counter_block e nonce.now }
{
    if nonce.len() == 12 {
        increment(filled_number(nonce))
    } else {
        ghash_of(subkey, &[], nonce)
    }
}

/// The next counter block: the last 32 bits count, and wrap (SP 800-38D, section 6.2).
pub fn increment(block: u128) -> u128
    ensures { result ≡ increased block 1 }
{
    (block >> 32 << 32) + (block % (1 << 32) + 1) % (1 << 32)
}

// Xors the key stream into a text, from the block after `first` on.
pub(crate) fn xor_stream(key: &AesKey, first: u128, text: &mut [u8])
    requires { IsKey key.now }
    ensures { text.new ≡
        xor_bytes text.old (gcm_stream (aes_encrypt key.now) first (block_count (length text.old))) }
{
    let mut counter = first;
    'turns: for n in 0..text.len().div_ceil(16) {
        counter = increment(counter);
        let end = text.len().min(16 * n + 16);
        xor_into(&mut text[16 * n..end], key.encrypt_number(counter));
    }
}
