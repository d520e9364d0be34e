// What is computed with the bytes of a key.
ghost use Rattle.std.specs.Prelude.{◌≡◌, ◌≤◌, ◌%◌, ℕ, true, length, replicate, take};
ghost use Rattle.crypto_specs.specs.Prelude.{IsKey, aes_encrypt, cmac, hmac, ecb_encrypt};
ghost use Rattle.hash_ops.specs.Hashes.{block_length, digest_length, hash_of};
ghost use Rattle.store_model.specs.Prelude.{mac_of};
ghost use Rattle.key_policy.specs.Names.{NamesMac, is_cmac, whole_length};

use cipher_modes::ecb_encrypt;
use cmac_ops::cmac;
use hash_ops::Hash;
use hmac_ops::hmac;
use key_policy::{MacAlgorithm, MacKind, aes_key};

/// Enciphers whole blocks in place, each by itself.
pub fn encipher_blocks(key: &[u8], blocks: &mut [u8])
    requires key { IsKey key.now }
    requires whole { length blocks.old % 16 ≡ 0 }
    ensures { blocks.new ≡ ecb_encrypt (aes_encrypt key.now) blocks.old }
{
    let mut aes = aes_key(key);
    ecb_encrypt(&aes, blocks);
    aes.wipe();
}

// Fills a tag with the front of a whole one, which is then zeros.
fn move_front(whole: &mut [u8], tag: &mut [u8])
    requires { length tag.old ≤ length whole.old }
    ensures front { tag.new ≡ take (length tag.old) whole.old }
    ensures wiped { whole.new ≡ replicate (length whole.old) 0 }
{
    tag.copy_from_slice(&whole[..tag.len()]);
    whole.fill(0);
}

// Fills a tag with the front of a message's CMAC.
fn fill_cmac(key: &[u8], message: &[u8], tag: &mut [u8])
    requires key { IsKey key.now }
    requires short { length tag.old ≤ 16 }
    ensures { tag.new ≡ take (length tag.old) (cmac (aes_encrypt key.now) message.now) }
{
    let mut aes = aes_key(key);
    let mut whole = cmac(&aes, message);
    aes.wipe();
    move_front(&mut whole, tag);
}

// Fills a tag with the front of a message's HMAC.
fn fill_hmac(which: Hash, key: &[u8], message: &[u8], tag: &mut [u8])
    requires { length tag.old ≤ digest_length which }
    ensures { tag.new ≡ take (length tag.old) (hmac (hash_of which) (block_length which) key.now message.now) }
{
    let mut whole = [0; 64];
    hmac(which, key, message, &mut whole);
    move_front(&mut whole, tag);
}

/// Fills a tag of the algorithm's length with the MAC of a message.
pub fn fill_mac(mac: MacAlgorithm, key: &[u8], message: &[u8], tag: &mut [u8])
    requires key { is_cmac mac.kind ≡ true → IsKey key.now }
    requires length { length tag.old ≡ mac.length }
    requires within { mac.length ≤ whole_length mac.kind }
    ensures { (alg : ℕ) → NamesMac alg mac → tag.new ≡ mac_of alg key.now message.now }
{
    match mac.kind {
        MacKind::Hmac(which) => fill_hmac(which, key, message, tag),
        MacKind::Cmac => fill_cmac(key, message, tag),
    }
}
