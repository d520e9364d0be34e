ghost use Rattle.std.specs.Prelude.{◌≡◌, ◌%◌, length};
ghost use Rattle.crypto_specs.specs.Prelude.{aes_encrypt, IsKey, aes_decrypt, ecb_encrypt, ecb_decrypt};

use aes_core::AesKey;
use cipher_blocks::{number_of, set_number};

/// Enciphers a text of whole blocks in ECB mode (SP 800-38A section 6.1).
pub fn ecb_encrypt(key: &AesKey, text: &mut [u8])
    requires key { IsKey key.now }
    requires whole { length text.old % 16 ≡ 0 }
    ensures { text.new ≡ ecb_encrypt (aes_encrypt key.now) text.old }
{
    'turns: for n in 0..text.len() / 16 {
        let piece = &mut text[16 * n..16 * n + 16];
        set_number(piece, key.encrypt_number(number_of(piece)));
    }
}

/// Deciphers a text of whole blocks in ECB mode (SP 800-38A section 6.1).
pub fn ecb_decrypt(key: &AesKey, text: &mut [u8])
    requires key { IsKey key.now }
    requires whole { length text.old % 16 ≡ 0 }
    ensures { text.new ≡ ecb_decrypt (aes_decrypt key.now) text.old }
{
    'turns: for n in 0..text.len() / 16 {
        let piece = &mut text[16 * n..16 * n + 16];
        set_number(piece, key.decrypt_number(number_of(piece)));
    }
}
