// An operation that is active, or a wiped one.
ghost use Rattle.std.specs.{Prelude.◌≡◌, Prelude.◌≤◌, Prelude.ℕ, Prelude.Bool, Prelude.true, Prelude.IsTrue, Prelude.OnOk, Result.result_err};
ghost use Rattle.psa_status.specs.Rows.{first_row};
ghost use Rattle.crypto_specs.specs.Prelude.{IsKey};
ghost use Rattle.store_model.specs.Prelude.{total_limit, AeadWork, aead_step, aead_work, set_lengths_rows, with_lengths};
ghost use Rattle.service_calls.specs.{Meanings.model_aead_step, Random.takes_nonce_bytes};
ghost use Rattle.key_policy.specs.Names.{IsTagLength, NamesAead};
ghost use Rattle.aead_states.specs.Ready.{can_compute};

use crate::lengths::{Lengths, is_past_limit};
use crate::parts::Parts;
use aes_core::AesKey;
use key_policy::{AeadAlgorithm, AeadKind, aes_key};
use multipart::{Stepped, Steps, Work};
use psa_status::Status;
use service_calls::AeadStep;

// What was said and given to an operation: its algorithm and key, the declared lengths, whether the nonce is there,
// how many bytes of associated data and of text there are, and whether any text was given.
#[derive(Drop)]
pub(crate) struct RunningAead {
    pub(crate) encrypts: bool,
    pub(crate) aead: AeadAlgorithm,
    pub(crate) key: AesKey,
    pub(crate) has_key: bool,
    pub(crate) lengths: Option<Lengths>,
    pub(crate) has_nonce: bool,
    pub(crate) ad: u64,
    pub(crate) text: u64,
    pub(crate) has_text: bool,
    pub(crate) parts: Parts,
    ghost ready: { has_key ≡ true → IsTrue (can_compute aead key) },
    ghost keyed: { has_nonce ≡ true → has_key ≡ true },
    ghost ad_limit: { ad ≤ total_limit },
    ghost text_limit: { text ≤ total_limit },
}

impl RunningAead {
    ghost use Rattle.aead_states.specs.Holding.{HoldsAead, IsClearRunningAead};

    // With a key, and nothing else yet.
    pub(crate) fn begun(encrypts: bool, key: &[u8], aead: AeadAlgorithm) -> RunningAead
        requires key { IsKey key.now }
        requires aead { IsTagLength aead.kind aead.tag_length }
        ensures { (alg : ℕ) → NamesAead alg aead → HoldsAead result (aead_work encrypts alg key.now) }
    {
        RunningAead {
            encrypts,
            aead,
            key: aes_key(key),
            has_key: true,
            lengths: None,
            has_nonce: false,
            ad: 0,
            text: 0,
            has_text: false,
            parts: Parts::new(),
        }
    }

    // Takes the lengths in bytes of the associated data and of the payload.
    pub(crate) fn set_lengths(&mut self, ad: u64, payload: u64) -> Result<(), Status>
        ensures refusal { (w : AeadWork) → HoldsAead self.old w →
            result_err result ≡ first_row (set_lengths_rows w ad payload) }
        ensures holds { (w : AeadWork) → HoldsAead self.old w →
            OnOk result (HoldsAead self.new (with_lengths w ad payload)) }
    {
        if self.lengths.is_some() || self.has_nonce {
            return Err(Status::BadState);
        }
        if is_past_limit(ad) || is_past_limit(payload) {
            return Err(Status::InvalidArgument);
        }
        self.lengths = Some(Lengths { ad, payload });
        Ok(())
    }
}

impl Work for RunningAead {
    ghost use Rattle.aead_states.specs.Holding.{HoldsAead, IsClearRunningAead};

    ghost Said = { AeadWork };

    ghost is_clear = { IsClearRunningAead };

    ghost holds = { HoldsAead };

    // Forgets key and text.
    fn forget(&mut self) {
        self.has_key = false;
        self.has_nonce = false;
        self.key.wipe();
        self.parts.wipe();
    }
}

impl<'a> Steps<AeadStep<'a>> for RunningAead {
    ghost use Rattle.aead_states.specs.Holding.{HoldsAead};

    ghost Given = { AeadWork };

    ghost has = { HoldsAead };

    ghost meaning = { λ random w step room. aead_step random w (model_aead_step step room) };

    ghost takes = { takes_nonce_bytes };

    fn takes_random(step: &AeadStep<'a>) -> bool {
        matches!(step, AeadStep::GenerateNonce)
    }

    fn draws(&self, step: &AeadStep<'a>, room: usize) -> usize {
        match step {
            AeadStep::GenerateNonce => self.nonce_draws(room),
            AeadStep::SetNonce(_)
            | AeadStep::SetLengths { .. }
            | AeadStep::UpdateAd(_)
            | AeadStep::Update(_)
            | AeadStep::Finish
            | AeadStep::Verify(_) => 0,
        }
    }

    #[tactic(auto, using(multipart::proofs::Stepping::going_on, multipart::proofs::Stepping::ending))]
    fn advance(&mut self, step: AeadStep<'a>, random: &[u8; 16], out: &mut [u8]) -> Stepped {
        match step {
            AeadStep::GenerateNonce => Stepped::giving_bytes(self.generate_nonce(random, out)),
            AeadStep::SetNonce(nonce) => Stepped::going_on(self.set_nonce(nonce)),
            AeadStep::SetLengths { ad, payload } => Stepped::going_on(self.set_lengths(
                ad, payload,
            )),
            AeadStep::UpdateAd(input) => Stepped::going_on(self.update_ad(input)),
            AeadStep::Update(input) => Stepped::giving_bytes(self.update(input, out)),
            AeadStep::Finish => Stepped::ending_with_bytes(self.finish(out)),
            AeadStep::Verify(tag) => Stepped::ending(self.verify(tag)),
        }
    }
}
