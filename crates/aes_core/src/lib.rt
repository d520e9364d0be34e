//! AES (FIPS 197): one block of 16 bytes under a key of 16, 24 or 32 bytes.
//!
//! What is proved:
//!
//! - `AesKey`: it enciphers and deciphers as FIPS 197 says; after `wipe`, and where it is let go (`release`), its
//!   schedules are zeros.
#![tactic(auto)]

ghost use Rattle.std.specs.Prelude.{◌≡◌, ℕ, List, [], MatchOption};
ghost use Rattle.crypto_specs.specs.Prelude.{aes_encrypt, IsKey, aes_decrypt, number_block};
ghost use Rattle.aes_core.specs.KeyFields.{IsWipedKey};

use cipher_blocks::number_of;
use inv_schedule::inv_key_expansion;
use rounds::{cipher, eq_inv_cipher};
use schedule::key_expansion;
use std::marker::Model;

mod columns;
mod inv_columns;
mod inv_mixed_tables;
mod inv_schedule;
mod inv_word_tables;
mod mixed_tables;
mod rounds;
mod schedule;
mod tables;

/// A key with its schedules, for encryption and for decryption. A contract sees the key's bytes, and
/// none of them once it is wiped. Where it is let go, it is wiped first.
pub struct AesKey {
    rounds: usize,
    schedule: [u32; 60],
    inverse: [u32; 60],
}

impl Model for AesKey {
    ghost use Rattle.std.specs.Prelude.{List, ℕ};

    ghost Value = { List ℕ };

    ghost use Rattle.aes_core.specs.KeyFields.{key_of, IsReadyOrWiped};

    ghost view = { λ a. key_of a.rounds a.schedule };

    ghost invariant = { λ a. IsReadyOrWiped a.rounds a.schedule a.inverse };
}

impl AesKey {
    /// The key of these bytes; `None` exactly where they are not 16, 24 or 32 (FIPS 197 section 5).
    pub fn new(key: &[u8]) -> Option<AesKey>
        ensures { MatchOption result (IsKey key.now → ⊥)
            (λ k. IsKey key.now × (k ≡ key.now)) }
    {
        let rounds = match key.len() {
            16 => 10,
            24 => 12,
            32 => 14,
            _ => return None,
        };
        let schedule = key_expansion(key, rounds);
        let inverse = inv_key_expansion(&schedule, rounds);
        Some(AesKey {
            rounds,
            schedule,
            inverse,
        })
    }

    /// Enciphers a block in place (FIPS 197 section 5.1).
    pub fn encrypt_block(&self, block: &mut [u8; 16])
        requires { IsKey self.now }
        ensures { block.new ≡ aes_encrypt self.now block.old }
    {
        *block = self.encrypt_number(number_of(block)).to_be_bytes();
    }

    /// Deciphers a block in place (FIPS 197 section 5.3).
    pub fn decrypt_block(&self, block: &mut [u8; 16])
        requires { IsKey self.now }
        ensures { block.new ≡ aes_decrypt self.now block.old }
    {
        *block = self.decrypt_number(number_of(block)).to_be_bytes();
    }

    /// The block enciphered, where a block is a number whose highest byte is the block's first.
    pub fn encrypt_number(&self, block: u128) -> u128
        requires { IsKey self.now }
        ensures { number_block result ≡ aes_encrypt self.now (number_block block) }
    {
        cipher(&self.schedule, self.rounds, block)
    }

    /// The block deciphered, where a block is a number whose highest byte is the block's first.
    pub fn decrypt_number(&self, block: u128) -> u128
        requires { IsKey self.now }
        ensures { number_block result ≡ aes_decrypt self.now (number_block block) }
    {
        eq_inv_cipher(&self.inverse, self.rounds, block)
    }

    /// Clears the key: its schedules are zeros, and no call takes it from then on.
    pub fn wipe(&mut self)
        ensures { self.new ≡ [] }
    {
        self.rounds = 0;
        self.schedule = [0; 60];
        self.inverse = [0; 60];
    }
}

impl Drop for AesKey {
    fn drop(mut self) {
        self.wipe();
        let AesKey {
            rounds,
            schedule,
            inverse,
        } = self;
        release(rounds, &schedule, &inverse);
    }
}

// What is let go of a key: no rounds, and schedules of zeros.
fn release(rounds: usize, schedule: &[u32; 60], inverse: &[u32; 60])
    requires { IsWipedKey rounds schedule.now inverse.now }
{}
