// GHASH of associated data and a text (SP 800-38D, section 7.1, steps 1, 4 and 5).

ghost use Rattle.std.specs.Prelude.{◌≡◌, ℕ, ◌+◌, ◌*◌, ◌^◌, ◌<◌, length};
ghost use Rattle.crypto_specs.specs.Prelude.{aes_encrypt, IsKey, ghash_from, ghash_of, hash_subkey, length_block, numbers_of};

use aes_core::AesKey;
use cipher_blocks::filled_number;
use ghash::Ghash;

/// The hash subkey H of a key: the zero block enciphered (SP 800-38D, section 7.1, step 1).
pub fn hash_subkey(key: &AesKey) -> u128
    requires { IsKey key.now }
    ensures { result ≡ hash_subkey (aes_encrypt key.now) }
{
    key.encrypt_number(0)
}

/// Takes in the blocks of a text, zeros being added to the last one.
pub fn absorb(running: &mut Ghash, text: &[u8])
    ensures { running.new ≡
        (running.old.0, ghash_from running.old.0 running.old.1 (numbers_of text.now)) }
{
    'turns: for n in 0..text.len().div_ceil(16) {
        let end = text.len().min(16 * n + 16);
        running.block(filled_number(&text[16 * n..end]));
    }
}

/// The last block that GHASH takes in: the lengths of the associated data and of the text, which are
/// given in bytes, as counts of bits in 8 bytes each (SP 800-38D, section 7.1, step 5).
pub fn length_block(ad: usize, text: usize) -> u128
    requires ad { ad < 2 ^ 61 }
    requires text { text < 2 ^ 61 }
    ensures { result ≡ length_block ad text }
{
    ((8 * ad as u128) << 64) + 8 * text as u128
}

// GHASH of associated data and a text, with their lengths.
pub(crate) fn ghash_of(subkey: u128, ad: &[u8], text: &[u8]) -> u128
    requires ad { length ad.now < 2 ^ 61 }
    requires text { length text.now < 2 ^ 61 }
    ensures { result ≡ ghash_of subkey ad.now text.now }
{
    let mut running = Ghash::new(subkey);
    absorb(&mut running, ad);
    absorb(&mut running, text);
    running.block(length_block(ad.len(), text.len()));
    let value = running.value();
    running.wipe();
    value
}
