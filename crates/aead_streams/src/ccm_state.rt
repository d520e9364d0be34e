// The state of a call.
ghost use Rattle.std.specs.Prelude.{◌≡◌, ◌+◌, ◌<◌, ◌≤◌, ◌^◌, ℕ, List, [], ◌++◌, length, take};
ghost use Rattle.crypto_specs.specs.Prelude.{aes_encrypt, IsKey, ccm_tag, ccm_text};
ghost use Rattle.aead_ccm.specs.Lengths.{IsNonceLength, IsPayloadLength, IsTagLength};
ghost use Rattle.aead_streams.specs.CcmStates.{HoldsCcmData, HoldsCcmText, IsClearCcm};

use crate::ccm_chain::Chain;
use crate::counter_width::CounterWidth;
use crate::key_stream::KeyStream;
use aead_ccm::counter_block;
use aes_core::AesKey;

/// A running CCM. The key stands apart: each call takes it, and it has to be the same one. The associated data comes
/// first and then the payload, each as long as was declared. Where the state is let go, all of it is cleared.
pub struct CcmState {
    chain: Chain,
    stream: KeyStream,
    // The counter block that masks the tag.
    first: u128,
}

impl CcmState {
    /// A state that isn't in use: its buffers are zeros.
    pub fn new() -> CcmState
        ensures { IsClearCcm result }
    {
        CcmState {
            chain: Chain::new(),
            stream: KeyStream::clear(),
            first: 0,
        }
    }

    /// Clears the buffers.
    pub fn wipe(&mut self)
        ensures { IsClearCcm self.new }
    {
        self.chain.wipe();
        self.stream.wipe();
        self.first = 0;
    }

    /// Begins a call with a tag of so many bytes, and with as many bytes of associated data and of payload.
    pub fn start(&mut self, key: &AesKey, tag: usize, nonce: &[u8], ad: u64, payload: u64)
        requires key { IsKey key.now }
        requires tag { IsTagLength tag }
        requires nonce { IsNonceLength (length nonce.now) }
        requires ad { ad < 2 ^ 32 }
        requires payload { payload < 2 ^ 32 }
        requires fits { IsPayloadLength (length nonce.now) payload }
        ensures { HoldsCcmData self.new key.now tag nonce.now ad payload [] }
    {
        self.chain.begin(key, tag, nonce, ad, payload);
        self.stream = KeyStream::new(CounterWidth::Whole, counter_block(nonce, 1));
        self.first = counter_block(nonce, 0);
    }

    /// Takes in the next piece of the associated data.
    pub fn update_ad(&mut self, key: &AesKey, piece: &[u8])
        requires { IsKey key.now }
        ensures { (t : ℕ) (nonce : List ℕ) (a p : ℕ) (ad : List ℕ) → length ad + length piece.now ≤ a
            → HoldsCcmData self.old key.now t nonce a p ad → HoldsCcmData self.new key.now t nonce a p (ad ++ piece.now) }
    {
        self.chain.absorb(key, piece);
    }

    /// Ends the associated data, once all of it is taken in.
    pub fn begin_text(&mut self, key: &AesKey)
        requires { IsKey key.now }
        ensures { (t : ℕ) (nonce : List ℕ) (p : ℕ) (ad : List ℕ)
            → HoldsCcmData self.old key.now t nonce (length ad) p ad → HoldsCcmText self.new key.now t nonce p ad [] }
    {
        self.chain.fill(key);
    }

    /// Enciphers the next piece of the payload in place.
    pub fn encrypt(&mut self, key: &AesKey, piece: &mut [u8])
        requires { IsKey key.now }
        ensures holds { (t : ℕ) (nonce : List ℕ) (p : ℕ) (ad plain : List ℕ) → length plain + length piece.old ≤ p
            → HoldsCcmText self.old key.now t nonce p ad plain → HoldsCcmText self.new key.now t nonce p ad (plain ++ piece.old) }
        ensures text { (t : ℕ) (nonce : List ℕ) (p : ℕ) (ad plain : List ℕ) → length plain + length piece.old ≤ p
            → HoldsCcmText self.old key.now t nonce p ad plain
            → ccm_text (aes_encrypt key.now) nonce (plain ++ piece.old) ≡ ccm_text (aes_encrypt key.now) nonce plain ++ piece.new }
    {
        self.chain.absorb(key, piece); // The tag covers the payload in the clear.
        self.stream.xor(key, piece);
    }

    /// Deciphers the next piece of the enciphered payload in place.
    pub fn decrypt(&mut self, key: &AesKey, piece: &mut [u8])
        requires { IsKey key.now }
        ensures holds { (t : ℕ) (nonce : List ℕ) (p : ℕ) (ad cipher : List ℕ) → length cipher + length piece.old ≤ p
            → HoldsCcmText self.old key.now t nonce p ad (ccm_text (aes_encrypt key.now) nonce cipher)
            → HoldsCcmText self.new key.now t nonce p ad (ccm_text (aes_encrypt key.now) nonce (cipher ++ piece.old)) }
        ensures text { (t : ℕ) (nonce : List ℕ) (p : ℕ) (ad cipher : List ℕ) → length cipher + length piece.old ≤ p
            → HoldsCcmText self.old key.now t nonce p ad (ccm_text (aes_encrypt key.now) nonce cipher)
            → ccm_text (aes_encrypt key.now) nonce (cipher ++ piece.old) ≡ ccm_text (aes_encrypt key.now) nonce cipher ++ piece.new }
    {
        self.stream.xor(key, piece);
        self.chain.absorb(key, piece);
    }

    /// The whole tag, of which a call's is the front, once all of the payload is taken in.
    pub fn tag(&mut self, key: &AesKey) -> [u8; 16]
        requires { IsKey key.now }
        ensures { (t : ℕ) (nonce ad plain : List ℕ) → HoldsCcmText self.old key.now t nonce (length plain) ad plain
            → take t result ≡ ccm_tag (aes_encrypt key.now) t nonce ad plain }
    {
        (self.chain.finish(key) ^ key.encrypt_number(self.first)).to_be_bytes()
    }
}

impl Drop for CcmState {
    fn drop(mut self) {
        // Its other fields clear themselves.
        self.first = 0;
        let CcmState {
            chain: _,
            stream: _,
            first,
        } = self;
        release(first);
    }
}

// What is let go of a counter block: zeros.
fn release(first: u128)
    requires { first ≡ 0 }
{}
