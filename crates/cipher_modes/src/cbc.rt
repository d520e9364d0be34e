ghost use Rattle.std.specs.Prelude.{◌≡◌, ◌%◌, length};
ghost use Rattle.crypto_specs.specs.Prelude.{aes_encrypt, IsKey, aes_decrypt, cbc_encrypt, cbc_decrypt};

use aes_core::AesKey;
use cipher_blocks::{number_of, set_number};

/// Enciphers a text of whole blocks in CBC mode (SP 800-38A section 6.2).
pub fn cbc_encrypt(key: &AesKey, iv: &[u8; 16], text: &mut [u8])
    requires key { IsKey key.now }
    requires whole { length text.old % 16 ≡ 0 }
    ensures { text.new ≡ cbc_encrypt (aes_encrypt key.now) iv.now text.old }
{
    let mut chain = number_of(iv);
    'turns: for n in 0..text.len() / 16 {
        let piece = &mut text[16 * n..16 * n + 16];
        chain = key.encrypt_number(number_of(piece) ^ chain);
        set_number(piece, chain);
    }
}

/// Deciphers a text of whole blocks in CBC mode (SP 800-38A section 6.2).
pub fn cbc_decrypt(key: &AesKey, iv: &[u8; 16], text: &mut [u8])
    requires key { IsKey key.now }
    requires whole { length text.old % 16 ≡ 0 }
    ensures { text.new ≡ cbc_decrypt (aes_decrypt key.now) iv.now text.old }
{
    let mut chain = number_of(iv);
    'turns: for n in 0..text.len() / 16 {
        let piece = &mut text[16 * n..16 * n + 16];
        let block = number_of(piece);
        set_number(piece, key.decrypt_number(block) ^ chain);
        chain = block;
    }
}
