// How ECB and CBC make blocks of blocks (SP 800-38A, sections 6.1 and 6.2).
ghost use Rattle.std.specs.Prelude.{◌≡◌, ◌%◌, ◌++◌, true, length, drop};
ghost use Rattle.crypto_specs.specs.Prelude.{IsKey};
ghost use Rattle.key_policy.specs.Modes.{model_mode};
ghost use Rattle.cipher_states.specs.Ways.{chains, next_chain, processed, way_of};

use aes_core::AesKey;
use cipher_modes::{cbc_decrypt, cbc_encrypt, ecb_decrypt, ecb_encrypt};
use key_policy::Mode;

/// A mode that takes whole blocks, and its direction.
#[derive(Clone, Copy, Drop)]
pub enum Way {
    EcbEncrypt,
    EcbDecrypt,
    CbcEncrypt,
    CbcDecrypt,
}

impl Way {
    /// The way of a mode. CTR takes no whole blocks, and gets that of ECB.
    pub fn of(mode: Mode, encrypts: bool) -> Way
        ensures { result ≡ way_of (model_mode mode) encrypts }
    {
        match (mode, encrypts) {
            (Mode::CbcNoPadding | Mode::CbcPkcs7, true) => Way::CbcEncrypt,
            (Mode::CbcNoPadding | Mode::CbcPkcs7, false) => Way::CbcDecrypt,
            (Mode::Ctr | Mode::EcbNoPadding, true) => Way::EcbEncrypt,
            (Mode::Ctr | Mode::EcbNoPadding, false) => Way::EcbDecrypt,
        }
    }

    /// Makes blocks of whole blocks, in place. CBC goes on from the chain, which then is what the next blocks go on
    /// from.
    pub fn process(self, key: &AesKey, chain: &mut [u8; 16], text: &mut [u8])
        requires key { IsKey key.now }
        requires whole { length text.old % 16 ≡ 0 }
        ensures text { text.new ≡ processed self key.now chain.old text.old }
        ensures chain { chains self ≡ true → chain.new ≡ next_chain self key.now chain.old text.old }
    {
        match self {
            Way::EcbEncrypt => ecb_encrypt(key, text),
            Way::EcbDecrypt => ecb_decrypt(key, text),
            Way::CbcEncrypt => {
                cbc_encrypt(key, chain, text);
                keep_last(chain, text);
            }
            Way::CbcDecrypt => {
                let before = *chain;
                keep_last(chain, text);
                cbc_decrypt(key, &before, text);
            }
        }
    }
}

// Makes the chain the last block of a ciphertext of whole blocks, where it has one.
fn keep_last(chain: &mut [u8; 16], text: &[u8])
    requires { length text.now % 16 ≡ 0 }
    ensures { chain.new ≡ drop (length text.now) (chain.old ++ text.now) }
{
    if text.len() >= 16 {
        chain.copy_from_slice(&text[text.len() - 16..]);
    }
}
