// The lengths that AEADs take.
ghost use Rattle.std.specs.Prelude.{◌≡◌, ◌&&◌, ℕ};
ghost use Rattle.store_model.specs.Aeads as model;
ghost use Rattle.key_policy.specs.Names.{is_ccm, permits_nonce_by};

use crate::algorithms::AeadKind;
use crate::lengths::TOTAL_LIMIT;
use aead_ccm::permits_payload;

impl AeadKind {
    pub fn is_ccm(self) -> bool
        ensures { result ≡ is_ccm self }
    {
        matches!(self, AeadKind::Ccm)
    }

    /// Whether the AEAD takes a nonce of so many bytes before a payload of so many.
    pub fn permits_nonce(self, nonce: usize, payload: usize) -> bool
        ensures typed { result ≡ permits_nonce_by self nonce payload }
        ensures value { (alg : ℕ) → is_ccm self ≡ model.is_ccm alg →
            result ≡ (model.permits_nonce alg nonce && model.permits_payload alg nonce payload) }
    {
        if payload > TOTAL_LIMIT {
            return false;
        }
        match self {
            AeadKind::Ccm => 7 <= nonce && nonce <= 13 && permits_payload(nonce, payload),
            AeadKind::Gcm => 1 <= nonce && nonce <= 256,
        }
    }
}
