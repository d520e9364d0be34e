// The CBC-MAC over the formatted blocks (SP 800-38C, section 6.1, steps 1 to 3), before the payload.

ghost use Rattle.std.specs.Prelude.{◌≡◌, ◌^◌, ◌<◌, ◌∷◌, length};
ghost use Rattle.crypto_specs.specs.Prelude.{aes_encrypt, IsKey, number_block, chained, control_block, encoded_data, filled_blocks};
ghost use Rattle.aead_ccm.specs.{Chaining.chained_from, Lengths.IsNonceLength, Lengths.IsTagLength};

use crate::formatting::{control_block, data_front};
use aes_core::AesKey;
use cipher_blocks::filled_number;

// The chain's value before the payload: the block B_0, which alone has the payload's length in it, and
// the associated data.
pub(crate) fn chain_front(key: &AesKey, tag: usize, nonce: &[u8], ad: &[u8], payload: usize) -> u128
    requires key { IsKey key.now }
    requires tag { IsTagLength tag }
    requires nonce { IsNonceLength (length nonce.now) }
    requires ad { length ad.now < 2 ^ 32 }
    ensures { number_block result ≡ chained (aes_encrypt key.now)
        (control_block tag nonce.now (length ad.now) payload ∷ filled_blocks (encoded_data ad.now)) }
{
    let start = key.encrypt_number(control_block(tag, nonce, ad.len(), payload));
    chain_data(key, start, ad)
}

// Chains associated data on, with its length before it: nothing where there is none.
fn chain_data(key: &AesKey, value: u128, ad: &[u8]) -> u128
    requires key { IsKey key.now }
    requires ad { length ad.now < 2 ^ 32 }
    ensures { number_block result ≡
        chained_from (aes_encrypt key.now) (number_block value) (filled_blocks (encoded_data ad.now)) }
{
    if ad.is_empty() {
        return value;
    }
    let (front, count) = data_front(ad);
    chain_text(key, key.encrypt_number(value ^ front), &ad[count..])
}

// Chains the blocks of a text on, zeros being added to the last one.
fn chain_text(key: &AesKey, start: u128, text: &[u8]) -> u128
    requires { IsKey key.now }
    ensures { number_block result ≡
        chained_from (aes_encrypt key.now) (number_block start) (filled_blocks text.now) }
{
    let mut value = start;
    'turns: for n in 0..text.len().div_ceil(16) {
        let end = text.len().min(16 * n + 16);
        value = key.encrypt_number(value ^ filled_number(&text[16 * n..end]));
    }
    value
}
