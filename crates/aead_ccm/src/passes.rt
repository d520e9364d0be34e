// One pass over a payload: each block goes into the chain and under the key stream in the same turn (SP
// 800-38C, section 6.1, steps 2, 3 and 5 to 8).

ghost use Rattle.std.specs.Prelude.{◌≡◌, ◌+◌, ◌*◌, ◌^◌, ◌<◌, ◌≤◌, length, bit_xor};
ghost use Rattle.crypto_specs.specs.Prelude.{aes_encrypt, IsKey, xor_bytes, filled_blocks, block_count, number_block};
ghost use Rattle.aead_ccm.specs.{Chaining.chained_from, Counting.masks};

use aes_core::AesKey;
use cipher_blocks::{filled_number, xor_into};

// Enciphers a payload in place, and answers what its blocks make of the chain's value. `first` is the
// counter block Ctr_0.
pub(crate) fn seal_text(key: &AesKey, first: u128, chain: u128, text: &mut [u8]) -> u128
    requires { IsKey key.now }
    ensures text { text.new ≡
        xor_bytes text.old (masks (aes_encrypt key.now) first (block_count (length text.old))) }
    ensures chain { number_block result ≡
        chained_from (aes_encrypt key.now) (number_block chain) (filled_blocks text.old) }
{
    let mut value = chain;
    'turns: for n in 0..text.len().div_ceil(16) {
        let end = text.len().min(16 * n + 16);
        let piece = &mut text[16 * n..end];
        let block = filled_number(piece);
        xor_into(piece, mask(key, first, n));
        value = key.encrypt_number(value ^ block);
    }
    value
}

// Deciphers a payload in place, and answers what the blocks that come out make of the chain's value.
pub(crate) fn open_text(key: &AesKey, first: u128, chain: u128, text: &mut [u8]) -> u128
    requires { IsKey key.now }
    ensures text { text.new ≡
        xor_bytes text.old (masks (aes_encrypt key.now) first (block_count (length text.old))) }
    ensures chain { number_block result ≡
        chained_from (aes_encrypt key.now) (number_block chain) (filled_blocks text.new) }
{
    let mut value = chain;
    'turns: for n in 0..text.len().div_ceil(16) {
        let end = text.len().min(16 * n + 16);
        let piece = &mut text[16 * n..end];
        xor_into(piece, mask(key, first, n));
        value = key.encrypt_number(value ^ filled_number(piece));
    }
    value
}

// What masks block n of a payload: Ctr_(n + 1) enciphered. The last bytes of Ctr_0 are zeros, and Ctr_i
// has i there.
fn mask(key: &AesKey, first: u128, n: usize) -> u128
    requires { IsKey key.now }
    ensures { number_block result ≡ aes_encrypt key.now (number_block (bit_xor first (n + 1))) }
{
    key.encrypt_number(first ^ (n as u128 + 1))
}
