// What runs over the associated data and the text, with either algorithm.
ghost use Rattle.std.specs.Prelude.{◌≡◌, ◌+◌, ◌≤◌, ℕ, List, Bool, true, ◌&&◌, [], ◌++◌, length, take, IsTrue};
ghost use Rattle.crypto_specs.specs.Prelude.{IsKey};
ghost use Rattle.store_model.specs.Prelude.{aead_tag, aead_text, tag_bytes, total_limit};
ghost use Rattle.store_model.specs.Aeads as model;
ghost use Rattle.key_policy.specs.Names.{IsTagLength, NamesAead, is_ccm, permits_nonce_by};
ghost use Rattle.aead_states.specs.Runs.{cipher_of, plain_of, HoldsData, HoldsPayload, IsClearParts};

use aead_streams::{CcmState, GcmState};
use aes_core::AesKey;
use key_policy::{AeadAlgorithm, AeadKind};

// Both algorithms' states side by side, of which the operation's algorithm takes one.
#[derive(Drop)]
pub(crate) struct Parts {
    gcm: GcmState,
    ccm: CcmState,
}

impl Parts {
    pub(crate) fn new() -> Parts
        ensures { IsClearParts result }
    {
        Parts {
            gcm: GcmState::new(),
            ccm: CcmState::new(),
        }
    }

    pub(crate) fn wipe(&mut self)
        ensures { IsClearParts self.new }
    {
        self.gcm.wipe();
        self.ccm.wipe();
    }

    // Begins with a nonce. CCM asks for the lengths in bytes of the associated data and of the payload.
    pub(crate) fn start(
        &mut self,
        aead: AeadAlgorithm,
        key: &AesKey,
        nonce: &[u8],
        ad: u64,
        payload: u64,
    )
        requires key { IsKey key.now }
        requires aead { IsTagLength aead.kind aead.tag_length }
        requires nonce { IsTrue (permits_nonce_by aead.kind (length nonce.now) payload) }
        requires ad { ad ≤ total_limit }
        ensures { (alg : ℕ) → NamesAead alg aead → HoldsData self.new alg key.now nonce.now ad payload [] }
    {
        match aead.kind {
            AeadKind::Ccm => {
                let tag_length = usize::from(aead.tag_length);
                self.ccm.start(key, tag_length, nonce, ad, payload);
            }
            AeadKind::Gcm => self.gcm.start(key, nonce),
        }
    }

    pub(crate) fn update_ad(&mut self, kind: AeadKind, key: &AesKey, piece: &[u8])
        requires { IsKey key.now }
        ensures { (alg : ℕ) → is_ccm kind ≡ model.is_ccm alg → (nonce : List ℕ) (a p : ℕ) (ad : List ℕ) → (model.is_ccm alg ≡ true → length ad + length piece.now ≤ a)
            → HoldsData self.old alg key.now nonce a p ad → HoldsData self.new alg key.now nonce a p (ad ++ piece.now) }
    {
        if kind.is_ccm() {
            self.ccm.update_ad(key, piece);
        } else {
            self.gcm.update_ad(piece);
        }
    }

    // Ends the associated data.
    pub(crate) fn begin_text(&mut self, kind: AeadKind, key: &AesKey)
        requires { IsKey key.now }
        ensures { (alg : ℕ) → is_ccm kind ≡ model.is_ccm alg → (encrypts : Bool) (nonce : List ℕ) (a p : ℕ) (ad : List ℕ) → (model.is_ccm alg ≡ true → length ad ≡ a)
            → HoldsData self.old alg key.now nonce a p ad → HoldsPayload self.new encrypts alg key.now nonce p ad [] }
    {
        if kind.is_ccm() {
            self.ccm.begin_text(key);
        } else {
            self.gcm.begin_text();
        }
    }

    // Enciphers or deciphers the next piece of the text in place.
    pub(crate) fn xor(&mut self, encrypts: bool, kind: AeadKind, key: &AesKey, piece: &mut [u8])
        requires { IsKey key.now }
        ensures text { (alg : ℕ) → is_ccm kind ≡ model.is_ccm alg → (nonce : List ℕ) (p : ℕ) (ad text : List ℕ) → (model.is_ccm alg ≡ true → length text + length piece.old ≤ p)
            → HoldsPayload self.old encrypts alg key.now nonce p ad text
            → aead_text alg key.now nonce (text ++ piece.old) ≡ aead_text alg key.now nonce text ++ piece.new }
        ensures holds { (alg : ℕ) → is_ccm kind ≡ model.is_ccm alg → (nonce : List ℕ) (p : ℕ) (ad text : List ℕ) → (model.is_ccm alg ≡ true → length text + length piece.old ≤ p)
            → HoldsPayload self.old encrypts alg key.now nonce p ad text
            → HoldsPayload self.new encrypts alg key.now nonce p ad (text ++ piece.old) }
    {
        match (kind, encrypts) {
            (AeadKind::Ccm, true) => self.ccm.encrypt(key, piece),
            (AeadKind::Ccm, false) => self.ccm.decrypt(key, piece),
            (AeadKind::Gcm, true) => self.gcm.encrypt(key, piece),
            (AeadKind::Gcm, false) => self.gcm.decrypt(key, piece),
        }
    }

    // The whole tag, of which the algorithm's is the front, by the lengths in bytes of the associated data and of the text.
    pub(crate) fn tag(
        &mut self,
        kind: AeadKind,
        key: &AesKey,
        ad_length: u64,
        text_length: u64,
    ) -> [u8; 16]
        requires key { IsKey key.now }
        requires ad { ad_length ≤ total_limit }
        requires text { text_length ≤ total_limit }
        ensures { (alg : ℕ) → is_ccm kind ≡ model.is_ccm alg → (encrypts : Bool) (nonce : List ℕ) (p : ℕ) (ad text : List ℕ) → (model.is_ccm alg ≡ true → length text ≡ p)
            → ad_length ≡ length ad → text_length ≡ length text → HoldsPayload self.old encrypts alg key.now nonce p ad text
            → take (tag_bytes alg) result ≡ aead_tag alg key.now nonce ad
            (plain_of encrypts (aead_text alg key.now nonce) text) (cipher_of encrypts (aead_text alg key.now nonce) text) }
    {
        if kind.is_ccm() {
            self.ccm.tag(key)
        } else {
            self.gcm.tag(key, ad_length, text_length)
        }
    }
}
