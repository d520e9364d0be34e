//! GCM (SP 800-38D) over AES, on a whole text in place.
//!
//! What is proved:
//!
//! - `seal`, `open`, `give_tag`, `is_tag`, `masked`: `seal` and `open` are SP 800-38D; `open` is false exactly where the
//!   tag differs, and then the text is zeros. The whole tag is zeros once a tag is given or compared, and its mask once
//!   the tag is made.
#![tactic(auto)]

ghost use Rattle.std.specs.Prelude.{◌≡◌, ℕ, ◌^◌, ◌<◌, ◌≤◌, length, take, replicate, IsTrue, ◌↔◌, MatchBool};
ghost use Rattle.crypto_specs.specs.Prelude.{aes_encrypt, IsKey, xor_bytes, number_block, gcm_tag, gcm_text, ghash_of};
ghost use Rattle.aead_gcm.specs.Lengths.{IsNonceLength, IsTagLength};

use aes_core::AesKey;
use cipher_blocks::{is_front, set_front};
pub use counters::{increment, initial_counter_block};
pub use hashing::{absorb, hash_subkey, length_block};

mod counters;
mod hashing;

/// Enciphers a text in place and writes its tag, which covers the associated data `ad` too (SP
/// 800-38D, section 7.1).
pub fn seal(key: &AesKey, nonce: &[u8], ad: &[u8], text: &mut [u8], tag: &mut [u8])
    requires key { IsKey key.now }
    requires nonce { IsNonceLength (length nonce.now) }
    requires ad { length ad.now < 2 ^ 32 }
    requires text { length text.old < 2 ^ 32 }
    requires tag { IsTagLength (length tag.old) }
    ensures text { text.new ≡ gcm_text (aes_encrypt key.now) nonce.now text.old }
    ensures tag { tag.new ≡ gcm_tag (aes_encrypt key.now) (length tag.old) nonce.now ad.now text.new }
{
    let mut subkey = hash_subkey(key);
    let first = initial_counter_block(subkey, nonce);
    counters::xor_stream(key, first, text);
    let mut whole = whole_tag(key, subkey, first, ad, text);
    clear(&mut subkey);
    give_tag(tag, &mut whole);
}

/// Deciphers a text in place where the tag is its tag, and otherwise makes it zeros (SP 800-38D,
/// section 7.2). False exactly where the tag differs.
pub fn open(key: &AesKey, nonce: &[u8], ad: &[u8], text: &mut [u8], tag: &[u8]) -> bool
    requires key { IsKey key.now }
    requires nonce { IsNonceLength (length nonce.now) }
    requires ad { length ad.now < 2 ^ 32 }
    requires text { length text.old < 2 ^ 32 }
    requires tag { IsTagLength (length tag.now) }
    ensures tag { IsTrue result ↔
        (tag.now ≡ gcm_tag (aes_encrypt key.now) (length tag.now) nonce.now ad.now text.old) }
    ensures text { MatchBool result
        (text.new ≡ gcm_text (aes_encrypt key.now) nonce.now text.old)
        (text.new ≡ replicate (length text.old) 0) }
{
    let mut subkey = hash_subkey(key);
    let first = initial_counter_block(subkey, nonce);
    let mut whole = whole_tag(key, subkey, first, ad, text);
    clear(&mut subkey);
    if is_tag(tag, &mut whole) {
        counters::xor_stream(key, first, text);
        true
    } else {
        text.fill(0);
        false
    }
}

// The tag of a ciphertext, whole, as a number: `first` is the initial counter block (SP 800-38D,
// section 7.1, steps 4 to 6).
fn whole_tag(key: &AesKey, subkey: u128, first: u128, ad: &[u8], text: &[u8]) -> u128
    requires key { IsKey key.now }
    requires ad { length ad.now < 2 ^ 32 }
    requires text { length text.now < 2 ^ 32 }
    ensures { number_block result ≡ xor_bytes (aes_encrypt key.now (number_block first))
        (number_block (ghash_of subkey ad.now text.now)) }
{
    let mut mask = key.encrypt_number(first);
    masked(hashing::ghash_of(subkey, ad, text), &mut mask)
}

// A hash under a mask, which is then zeros.
fn masked(hash: u128, mask: &mut u128) -> u128
    ensures value { number_block result ≡ xor_bytes (number_block mask.old) (number_block hash) }
    ensures cleared { mask.new ≡ 0 }
{
    let tag = *mask ^ hash;
    clear(mask);
    tag
}

// Overwrites a tag by the front of the whole one, which is then zeros.
fn give_tag(tag: &mut [u8], whole: &mut u128)
    requires { length tag.old ≤ 16 }
    ensures front { tag.new ≡ take (length tag.old) (number_block whole.old) }
    ensures cleared { whole.new ≡ 0 }
{
    set_front(tag, *whole);
    clear(whole);
}

// Whether a tag is the front of the whole one, which is then zeros.
fn is_tag(tag: &[u8], whole: &mut u128) -> bool
    requires { length tag.now ≤ 16 }
    ensures same { IsTrue result ↔ (tag.now ≡ take (length tag.now) (number_block whole.old)) }
    ensures cleared { whole.new ≡ 0 }
{
    let same = is_front(tag, *whole);
    clear(whole);
    same
}

// Makes a block zeros.
fn clear(block: &mut u128)
    ensures { block.new ≡ 0 }
{
    *block = 0;
}
