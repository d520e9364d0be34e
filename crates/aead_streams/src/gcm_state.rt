// Associated data and a text that are taken in piece by piece.

ghost use Rattle.std.specs.Prelude.{◌≡◌, ℕ, ◌^◌, ◌<◌, List, [], ◌++◌, length, take};
ghost use Rattle.crypto_specs.specs.Prelude.{aes_encrypt, IsKey, gcm_tag, gcm_text};
ghost use Rattle.aead_gcm.specs.Lengths.{IsNonceLength};

use crate::counter_width::CounterWidth;
use crate::key_stream::KeyStream;
use crate::text_hash::TextHash;
use aead_gcm::{hash_subkey, increment, initial_counter_block, length_block};
use aes_core::AesKey;

/// GCM of associated data and a text that come in pieces: first all of the associated data, then
/// `begin_text`, then the text. The key stands apart: each call that takes it has to be given the same
/// one. `first` is the initial counter block J_0. Where the state is let go, all of it is cleared.
pub struct GcmState {
    hash: TextHash,
    stream: KeyStream,
    first: u128,
}

impl GcmState {
    ghost use Rattle.aead_streams.specs.GcmStates.{HoldsGcmData, HoldsGcmText, IsClearGcm};

    /// A state that isn't in use: its buffers are zeros.
    pub fn new() -> GcmState
        ensures { IsClearGcm result }
    {
        GcmState {
            hash: TextHash::new(0),
            stream: KeyStream::clear(),
            first: 0,
        }
    }

    /// Begins with no associated data yet (SP 800-38D, section 7.1, steps 1 and 2).
    pub fn start(&mut self, key: &AesKey, nonce: &[u8])
        requires key { IsKey key.now }
        requires nonce { IsNonceLength (length nonce.now) }
        ensures { HoldsGcmData self.new key.now nonce.now [] }
    {
        let subkey = hash_subkey(key);
        self.hash = TextHash::new(subkey);
        self.first = initial_counter_block(subkey, nonce);
        self.stream = KeyStream::new(CounterWidth::Low32, increment(self.first));
    }

    /// Adds a piece to the associated data.
    pub fn update_ad(&mut self, piece: &[u8])
        ensures { (key nonce ad : List ℕ) → HoldsGcmData self.old key nonce ad
            → HoldsGcmData self.new key nonce (ad ++ piece.now) }
    {
        self.hash.update(piece);
    }

    /// Ends the associated data, zeros filling its last block: the text, of no bytes yet, comes next.
    pub fn begin_text(&mut self)
        ensures { (key nonce ad : List ℕ) → HoldsGcmData self.old key nonce ad → HoldsGcmText self.new key nonce ad [] }
    {
        self.hash.fill_up();
    }

    /// Enciphers the text's next piece in place.
    pub fn encrypt(&mut self, key: &AesKey, piece: &mut [u8])
        requires { IsKey key.now }
        ensures text { let e = aes_encrypt key.now in (nonce ad plain : List ℕ)
            → HoldsGcmText self.old key.now nonce ad (gcm_text e nonce plain)
            → gcm_text e nonce (plain ++ piece.old) ≡ gcm_text e nonce plain ++ piece.new }
        ensures holds { let e = aes_encrypt key.now in (nonce ad plain : List ℕ)
            → HoldsGcmText self.old key.now nonce ad (gcm_text e nonce plain)
            → HoldsGcmText self.new key.now nonce ad (gcm_text e nonce (plain ++ piece.old)) }
    {
        self.stream.xor(key, piece);
        self.hash.update(piece);
    }

    /// Deciphers the text's next piece in place.
    pub fn decrypt(&mut self, key: &AesKey, piece: &mut [u8])
        requires { IsKey key.now }
        ensures text { let e = aes_encrypt key.now in (nonce ad cipher : List ℕ)
            → HoldsGcmText self.old key.now nonce ad cipher
            → gcm_text e nonce (cipher ++ piece.old) ≡ gcm_text e nonce cipher ++ piece.new }
        ensures holds { (nonce ad cipher : List ℕ) → HoldsGcmText self.old key.now nonce ad cipher
            → HoldsGcmText self.new key.now nonce ad (cipher ++ piece.old) }
    {
        self.hash.update(piece); // first, since the tag covers the ciphertext
        self.stream.xor(key, piece);
    }

    /// The tag, of 16 bytes, of which any shorter one is the front (SP 800-38D, section 7.1, steps 4 to
    /// 6). The lengths of the associated data and of the text are given in bytes. The state takes nothing
    /// in after it.
    pub fn tag(&mut self, key: &AesKey, ad_length: u64, text_length: u64) -> [u8; 16]
        requires key { IsKey key.now }
        requires ad { ad_length < 2 ^ 61 }
        requires text { text_length < 2 ^ 61 }
        ensures { (nonce ad cipher : List ℕ) (t : ℕ) → HoldsGcmText self.old key.now nonce ad cipher
            → ad_length ≡ length ad → text_length ≡ length cipher
            → take t result ≡ gcm_tag (aes_encrypt key.now) t nonce ad cipher }
    {
        let hash = self
            .hash
            .finish(length_block(ad_length as usize, text_length as usize));
        (key.encrypt_number(self.first) ^ hash).to_be_bytes()
    }

    /// Clears the hash subkey and all buffers.
    pub fn wipe(&mut self)
        ensures { IsClearGcm self.new }
    {
        self.hash.wipe();
        self.stream.wipe();
        self.first = 0;
    }
}

impl Drop for GcmState {
    fn drop(mut self) {
        // Its other fields clear themselves.
        self.first = 0;
        let GcmState {
            hash: _,
            stream: _,
            first,
        } = self;
        release(first);
    }
}

// What is let go of a counter block: zeros.
fn release(first: u128)
    requires { first ≡ 0 }
{}
