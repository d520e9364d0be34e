// Calls in one part that the secure element computes.
ghost use Rattle.std.specs.{Prelude.◌≡◌, Prelude.◌&&◌, Prelude.ℕ, Prelude.true, Prelude.IfSome, Prelude.MatchResult, Prelude.is_some, Result.is_ok};
ghost use Rattle.store_model.specs.Prelude.{Reply};
ghost use Rattle.service_calls.specs.{Answered.AnswersReply, Meanings.model_keyed_call};
ghost use Rattle.secure_element_calls.specs.{Answers.AnswersCall, Answers.not_computed_status, Calls.model_call, Replies.HasDrawn};
ghost use Rattle.single_part.specs.Elements.{IsElementCall, has_vector, is_of_element, takes_vector};

use crate::computation::Computation;
use alg_encoding::Alg;
use psa_status::Status;
use secure_element_calls::{ElementCall, NotComputed};
use service_calls::{KeyedCall, Output};

const CTR: Alg = Alg(0x04c0_1000);

impl<'a> Computation<'a> {
    /// Whether the call begins with a fresh initialisation vector, which it draws where it succeeds; that of ECB has no bytes.
    pub fn takes_vector(&self) -> bool
        ensures { result ≡ takes_vector self.now.call }
    {
        match self.asked.call {
            KeyedCall::CipherEncrypt { .. } => true,
            _ => false,
        }
    }

    /// Whether the secure element computes such a call, and on a fresh initialisation vector.
    pub fn needs_vector(&self) -> bool
        ensures { result ≡ (takes_vector self.now.call && is_of_element self.now.call) }
    {
        match self.asked.call {
            KeyedCall::CipherEncrypt { alg, .. } => alg == CTR,
            _ => false,
        }
    }

    /// The call as the secure element computes it, on a fresh initialisation vector of these bytes where it takes one; `None`
    /// where the element computes no such call.
    pub fn element_call(&self, vector: &'a [u8; 16]) -> Option<ElementCall<'a>>
        ensures is { is_some result ≡ is_of_element self.now.call }
        ensures call { IfSome result (λ element. IsElementCall self.now.call element) }
        ensures model { IfSome result (λ element. (id room : ℕ) → model_keyed_call self.now.call id room ≡ model_call element id room) }
        ensures vector { IfSome result (λ element. HasDrawn element vector.now) }
        ensures draws { IfSome result (λ element. has_vector element ≡ takes_vector self.now.call) }
    {
        let named = self.alg;
        match self.asked.call {
            KeyedCall::MacCompute { input, .. } => Some(ElementCall::MacCompute {
                alg: named,
                input,
            }),
            KeyedCall::MacVerify { input, mac, .. } => Some(ElementCall::MacVerify {
                alg: named,
                input,
                mac,
            }),
            KeyedCall::CipherEncrypt { alg, input } => {
                if alg != CTR {
                    return None;
                }
                Some(ElementCall::CtrEncrypt { iv: vector, input })
            }
            KeyedCall::CipherDecrypt { alg, input } => {
                if alg != CTR {
                    return None;
                }
                Some(ElementCall::CtrDecrypt { input })
            }
            KeyedCall::Export | KeyedCall::AeadEncrypt { .. } | KeyedCall::AeadDecrypt { .. } => {
                None
            }
        }
    }

    /// What the call answers that the secure element computed, or for which it failed.
    pub fn computed_output(&self, computed: Result<usize, NotComputed>) -> Result<Output, Status>
        ensures reply { (element : ElementCall) (reply : Reply) → IsElementCall self.now.call element → AnswersCall element computed reply → AnswersReply result reply }
        ensures failure { MatchResult computed (λ length. is_ok result ≡ true) (λ why. result ≡ Err (not_computed_status why)) }
    {
        match computed {
            Ok(length) => match self.asked.call {
                KeyedCall::MacVerify { .. } => Ok(Output::Done),
                _ => Ok(Output::Bytes(length)),
            },
            Err(why) => Err(why.status()),
        }
    }
}
