ghost use Rattle.std.specs.Prelude.{◌≡◌};
ghost use Rattle.crypto_specs.specs.Prelude.{aes_encrypt, IsKey, ctr_xor};

use aes_core::AesKey;
use cipher_blocks::{number_of, xor_into};

/// Enciphers or deciphers a text in CTR mode (SP 800-38A section 6.5). The counter is a whole block,
/// and wraps at 2^128.
pub fn ctr_xor(key: &AesKey, iv: &[u8; 16], text: &mut [u8])
    requires { IsKey key.now }
    ensures { text.new ≡ ctr_xor (aes_encrypt key.now) iv.now text.old }
{
    let mut counter = number_of(iv);
    'turns: for n in 0..text.len().div_ceil(16) {
        let end = text.len().min(16 * n + 16);
        xor_into(&mut text[16 * n..end], key.encrypt_number(counter));
        counter = counter.wrapping_add(1);
    }
}
