// The lengths that stand before the associated data and the payload.
ghost use Rattle.std.specs.Prelude.{◌≡◌, ◌<◌, ◌^◌, ℕ, List, [], ◌∷◌, ◌++◌, length};
ghost use Rattle.crypto_specs.specs.Prelude.{aes_encrypt, IsKey, chained, control_block, filled_blocks};
ghost use Rattle.aead_ccm.specs.{Chaining.chained_from, Lengths.IsNonceLength, Lengths.IsTagLength};
ghost use Rattle.aead_streams.specs.Chains.{chain_after, data_front};

use crate::ccm_chain::Chain;
use aead_ccm::control_block;
use aes_core::AesKey;

impl Chain {
    // Begins the chain of a call with these lengths in bytes: the block B_0, and what stands before the associated
    // data (SP 800-38C, A.2.1 and A.2.2).
    pub(crate) fn begin(&mut self, key: &AesKey, tag: usize, nonce: &[u8], ad: u64, payload: u64)
        requires key { IsKey key.now }
        requires tag { IsTagLength tag }
        requires nonce { IsNonceLength (length nonce.now) }
        requires ad { ad < 2 ^ 32 }
        ensures { (rest : List ℕ) → chain_after (aes_encrypt key.now) self.new rest ≡
            chained_from (aes_encrypt key.now) (chained (aes_encrypt key.now) (control_block tag nonce.now ad payload ∷ []))
            (filled_blocks (data_front ad ++ rest)) }
    {
        self.start(
            key,
            control_block(tag, nonce, ad as usize, payload as usize),
        );
        self.absorb_length(key, ad);
    }

    // Takes in the length of the associated data, in 2 bytes or, from 65,280 on, 6. Nothing stands for none.
    fn absorb_length(&mut self, key: &AesKey, ad: u64)
        requires key { IsKey key.now }
        requires ad { ad < 2 ^ 32 }
        ensures { (rest : List ℕ) → chain_after (aes_encrypt key.now) self.new rest ≡
            chain_after (aes_encrypt key.now) self.old (data_front ad ++ rest) }
    {
        if ad == 0 {
            return;
        }
        if ad < 0xff00 {
            self.absorb(key, &(ad as u16).to_be_bytes());
        } else {
            self.absorb(key, &[0xff, 0xfe]);
            self.absorb(key, &(ad as u32).to_be_bytes());
        }
    }
}
