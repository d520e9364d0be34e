//! CCM (SP 800-38C) over AES, on a whole payload in place, with the formats of its appendix A.
//!
//! What is proved:
//!
//! - `seal`, `open`, `give_tag`, `is_tag`: `seal` and `open` are SP 800-38C; `open` is false exactly where the tag
//!   differs, and then the text is zeros. The MAC and its mask are zeros once a tag is given or compared.
#![tactic(auto)]

ghost use Rattle.std.specs.Prelude.{◌≡◌, ◌^◌, ◌<◌, ◌≤◌, length, replicate, take, bit_xor, IsTrue, ◌↔◌, MatchBool};
ghost use Rattle.crypto_specs.specs.Prelude.{aes_encrypt, IsKey, ccm_tag, ccm_text, number_block};
ghost use Rattle.aead_ccm.specs.Lengths.{IsNonceLength, IsPayloadLength, IsTagLength};

use aes_core::AesKey;
use chaining::chain_front;
use cipher_blocks::{is_front, set_front};
pub use formatting::{control_block, counter_block, permits_payload};
use passes::{open_text, seal_text};

mod chaining;
mod formatting;
mod passes;

/// Enciphers a payload in place and writes its tag, which covers the associated data `ad` too (SP
/// 800-38C, section 6.1).
pub fn seal(key: &AesKey, nonce: &[u8], ad: &[u8], text: &mut [u8], tag: &mut [u8])
    requires key { IsKey key.now }
    requires nonce { IsNonceLength (length nonce.now) }
    requires ad { length ad.now < 2 ^ 32 }
    requires text { IsPayloadLength (length nonce.now) (length text.old) }
    requires tag { IsTagLength (length tag.old) }
    ensures text { text.new ≡ ccm_text (aes_encrypt key.now) nonce.now text.old }
    ensures tag { tag.new ≡ ccm_tag (aes_encrypt key.now) (length tag.old) nonce.now ad.now text.old }
{
    let first = counter_block(nonce, 0);
    let chain = chain_front(key, tag.len(), nonce, ad, text.len());
    let mut mac = seal_text(key, first, chain, text);
    let mut mask = key.encrypt_number(first);
    give_tag(tag, &mut mac, &mut mask);
}

/// Deciphers a payload in place where the tag is its tag, and otherwise makes it zeros (SP 800-38C,
/// section 6.2). False exactly where the tag differs.
pub fn open(key: &AesKey, nonce: &[u8], ad: &[u8], text: &mut [u8], tag: &[u8]) -> bool
    requires key { IsKey key.now }
    requires nonce { IsNonceLength (length nonce.now) }
    requires ad { length ad.now < 2 ^ 32 }
    requires text { IsPayloadLength (length nonce.now) (length text.old) }
    requires tag { IsTagLength (length tag.now) }
    ensures tag { IsTrue result ↔ (tag.now ≡ ccm_tag (aes_encrypt key.now) (length tag.now) nonce.now ad.now
        (ccm_text (aes_encrypt key.now) nonce.now text.old)) }
    ensures text { MatchBool result
        (text.new ≡ ccm_text (aes_encrypt key.now) nonce.now text.old)
        (text.new ≡ replicate (length text.old) 0) }
{
    let first = counter_block(nonce, 0);
    let chain = chain_front(key, tag.len(), nonce, ad, text.len());
    let mut mac = open_text(key, first, chain, text);
    let mut mask = key.encrypt_number(first);
    if is_tag(tag, &mut mac, &mut mask) {
        true
    } else {
        text.fill(0);
        false
    }
}

// Overwrites a tag by the front of a MAC under its mask, both of which are then zeros.
fn give_tag(tag: &mut [u8], mac: &mut u128, mask: &mut u128)
    requires { length tag.old ≤ 16 }
    ensures front { tag.new ≡ take (length tag.old) (number_block (bit_xor mac.old mask.old)) }
    ensures mac { mac.new ≡ 0 }
    ensures mask { mask.new ≡ 0 }
{
    set_front(tag, *mac ^ *mask);
    *mac = 0;
    *mask = 0;
}

// Whether a tag is the front of a MAC under its mask, both of which are then zeros.
fn is_tag(tag: &[u8], mac: &mut u128, mask: &mut u128) -> bool
    requires { length tag.now ≤ 16 }
    ensures same { IsTrue result ↔ (tag.now ≡ take (length tag.now) (number_block (bit_xor mac.old mask.old))) }
    ensures mac { mac.new ≡ 0 }
    ensures mask { mask.new ≡ 0 }
{
    let same = is_front(tag, *mac ^ *mask);
    *mac = 0;
    *mask = 0;
    same
}
