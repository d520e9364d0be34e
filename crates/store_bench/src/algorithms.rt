// An algorithm over a text, again and again.
ghost use Rattle.std.specs.Prelude.{◌≡◌, ◌≤◌, ◌%◌, length};
ghost use Rattle.crypto_specs.specs.Prelude.{IsKey};

use crate::jobs::{Aead, Algorithm, Cipher, Digest};
use aes_core::AesKey;
use cipher_modes::{cbc_decrypt, cbc_encrypt, ctr_xor, ecb_decrypt, ecb_encrypt};
use cmac_ops::cmac;
use hash_ops::Hash;
use hash_ops::one_shot::hash;
use hmac_ops::hmac;
use kdf_core::pbkdf2_block;
use sha2::{Digest as _, Sha256};

const KEY: [u8; 16] = [0; 16];

const IV: [u8; 16] = [0; 16];

const NONCE: [u8; 12] = [0; 12];

// A digest or a tag of a text goes to the front of `out`.
fn digest(digest: Digest, key: &AesKey, text: &[u8], out: &mut [u8; 64])
    requires key { IsKey key.now }
    requires limit { length text.now ≤ 65536 }
{
    match digest {
        Digest::Sha2 => out[..32].copy_from_slice(&Sha256::digest(text)),
        Digest::Sha256 => {
            hash(Hash::Sha256, text, out);
        }
        Digest::Hmac => {
            hmac(Hash::Sha256, &KEY, text, out);
        }
        Digest::Cmac => out[..16].copy_from_slice(&cmac(key, text)),
        Digest::Pbkdf2 => {
            pbkdf2_block(Hash::Sha256, &KEY, text, 10_000, 1, out);
        }
    }
}

// Enciphers or deciphers a text.
fn apply(cipher: Cipher, key: &AesKey, text: &mut [u8])
    requires key { IsKey key.now }
    requires limit { length text.old ≤ 65536 }
    requires whole { length text.old % 16 ≡ 0 }
    ensures { length text.new ≡ length text.old }
{
    match cipher {
        Cipher::Ecb => ecb_encrypt(key, text),
        Cipher::EcbDecryption => ecb_decrypt(key, text),
        Cipher::Cbc => cbc_encrypt(key, &IV, text),
        Cipher::CbcDecryption => cbc_decrypt(key, &IV, text),
        Cipher::Ctr => ctr_xor(key, &IV, text),
    }
}

// Enciphers a text, whose tag goes to the front of `out`.
fn seal(aead: Aead, key: &AesKey, text: &mut [u8], out: &mut [u8; 64])
    requires key { IsKey key.now }
    requires limit { length text.old ≤ 65536 }
    ensures { length text.new ≡ length text.old }
{
    match aead {
        Aead::Gcm => aead_gcm::seal(key, &NONCE, &[], text, &mut out[..16]),
        Aead::Ccm => aead_ccm::seal(key, &NONCE, &[], text, &mut out[..16]),
    }
}

// Runs an algorithm once.
fn turn(algorithm: Algorithm, key: &AesKey, text: &mut [u8], out: &mut [u8; 64])
    requires key { IsKey key.now }
    requires limit { length text.old ≤ 65536 }
    requires whole { length text.old % 16 ≡ 0 }
    ensures { length text.new ≡ length text.old }
{
    match algorithm {
        Algorithm::Digest(kind) => digest(kind, key, text, out),
        Algorithm::Cipher(kind) => apply(kind, key, text),
        Algorithm::Aead(kind) => seal(kind, key, text, out),
    }
}

/// Runs an algorithm over a text so many times, and answers the first eight bytes of its last output.
pub fn run(algorithm: Algorithm, text: &mut [u8], turns: usize) -> u64
    requires some { 16 ≤ length text.old }
    requires limit { length text.old ≤ 65536 }
    requires whole { length text.old % 16 ≡ 0 }
    ensures { length text.new ≡ length text.old }
{
    let key = AesKey::new(&KEY).unwrap();
    let mut out = [0; 64];
    'turns: for _ in 0..turns {
        turn(algorithm, &key, text, &mut out);
        // What comes out goes in again, so that no turn can be left out.
        text[0] ^= out[0];
    }
    let output: &[u8] = match algorithm {
        Algorithm::Cipher(_) => text,
        _ => &out,
    };
    let mut front = [0; 8];
    front.copy_from_slice(&output[..8]);
    u64::from_be_bytes(front)
}
