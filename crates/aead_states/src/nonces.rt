// Nonces.
ghost use Rattle.std.specs.{Prelude.◌≡◌, Prelude.◌≤◌, Prelude.ℕ, Prelude.List, Prelude.true, Prelude.IfOk, Prelude.OnOk, Prelude.IsTrue, Prelude.length, Prelude.take, Result.result_err};
ghost use Rattle.psa_status.specs.Rows.{first_row};
ghost use Rattle.store_model.specs.Prelude.{buffer_after, given, reply_unless, total_limit, AeadGenerateNonce, AeadWork, aead_step, declared_payload, generate_nonce_rows, nonce_length, set_nonce_rows, takes_nonce, with_nonce};
ghost use Rattle.store_model.specs.Aeads as model;
ghost use Rattle.key_policy.specs.Names.{is_ccm, permits_nonce_by};
ghost use Rattle.aead_states.specs.{DeclaredLengths.declared_lengths, Holding.HoldsAead};

use crate::declared::{declared_ad, declared_payload};
use crate::running::RunningAead;
use key_policy::AeadKind;
use multipart::give;
use psa_status::Status;

// The bytes of a nonce that is generated: with CCM the most that leave room for the payload's length.
fn nonce_length(kind: AeadKind, payload: u64) -> usize
    requires { payload ≤ total_limit }
    ensures bound { result ≤ 16 }
    ensures permitted { IsTrue (permits_nonce_by kind result payload) }
    ensures value { (w : AeadWork) → is_ccm kind ≡ model.is_ccm w.alg → payload ≡ declared_payload w.lengths → result ≡ nonce_length w }
{
    if !kind.is_ccm() || 1 << 16 <= payload && payload < 1 << 24 {
        12
    } else if payload < 1 << 16 {
        13
    } else {
        11
    }
}

impl RunningAead {
    // Whether the nonce may come: it comes once, and with CCM after the lengths.
    fn takes_nonce(&self) -> bool
        ensures key { result ≡ true → self.now.has_key ≡ true }
        ensures value { (w : AeadWork) → HoldsAead self.now w → result ≡ takes_nonce w }
    {
        self.has_key && !self.has_nonce && (!self.aead.kind.is_ccm() || self.lengths.is_some())
    }

    // Begins with a nonce that the algorithm takes.
    fn begin(&mut self, nonce: &[u8])
        requires key { self.old.has_key ≡ true }
        requires nonce { IsTrue (permits_nonce_by self.old.aead.kind (length nonce.now)
            (declared_payload (declared_lengths self.old.lengths))) }
        ensures { (w : AeadWork) → HoldsAead self.old w → takes_nonce w ≡ true →
            HoldsAead self.new (with_nonce w nonce.now) }
    {
        let (ad, payload) = (declared_ad(self.lengths), declared_payload(self.lengths));
        self.parts.start(self.aead, &self.key, nonce, ad, payload);
        self.has_nonce = true;
    }

    // Takes a nonce.
    pub(crate) fn set_nonce(&mut self, nonce: &[u8]) -> Result<(), Status>
        ensures refusal { (w : AeadWork) → HoldsAead self.old w →
            result_err result ≡ first_row (set_nonce_rows w nonce.now) }
        ensures holds { (w : AeadWork) → HoldsAead self.old w →
            OnOk result (HoldsAead self.new (with_nonce w nonce.now)) }
    {
        if !self.takes_nonce() {
            return Err(Status::BadState);
        }
        let payload = declared_payload(self.lengths) as usize;
        if !self.aead.kind.permits_nonce(nonce.len(), payload) {
            return Err(Status::InvalidArgument);
        }
        self.begin(nonce);
        Ok(())
    }

    // How many random bytes `generate_nonce` takes with an output buffer of so many bytes, decided before it is called.
    pub(crate) fn nonce_draws(&self, room: usize) -> usize
        ensures bound { result ≤ 16 }
        ensures drawn { (random : List ℕ) (w : AeadWork) → HoldsAead self.now w →
            result ≡ (aead_step random w (AeadGenerateNonce room)).drawn }
    {
        if !(self.encrypts && self.takes_nonce()) {
            return 0;
        }
        let length = nonce_length(self.aead.kind, declared_payload(self.lengths));
        if room < length { 0 } else { length }
    }

    // Takes the first random bytes as the nonce, writes it to the front of a buffer, and answers its length.
    pub(crate) fn generate_nonce(
        &mut self,
        random: &[u8; 16],
        out: &mut [u8],
    ) -> Result<usize, Status>
        ensures refusal { (w : AeadWork) → HoldsAead self.old w →
            result_err result ≡ first_row (generate_nonce_rows w (length out.old)) }
        ensures length { (w : AeadWork) → HoldsAead self.old w →
            IfOk result (λ n. n ≡ length (take (nonce_length w) random.now)) }
        ensures buffer { (w : AeadWork) → HoldsAead self.old w → out.new ≡
            buffer_after out.old (reply_unless (first_row (generate_nonce_rows w (length out.old))) (given (take (nonce_length w) random.now))) }
        ensures holds { (w : AeadWork) → HoldsAead self.old w →
            OnOk result (HoldsAead self.new (with_nonce w (take (nonce_length w) random.now))) }
    {
        if !(self.encrypts && self.takes_nonce()) {
            return Err(Status::BadState);
        }
        let nonce = &random[..nonce_length(self.aead.kind, declared_payload(self.lengths))];
        let length = give(nonce, out)?;
        self.begin(nonce);
        Ok(length)
    }
}
