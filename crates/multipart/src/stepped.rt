// What a step makes of an active operation.
ghost use Rattle.std.specs.{Prelude.◌≡◌, Prelude.ℕ, Prelude.List, Prelude.if◌then◌else◌, Result.is_ok};
ghost use Rattle.store_model.specs.Prelude.{Reply, buffer_after};
ghost use Rattle.service_calls.specs.{Answers.AnswersLength, Answers.AnswersOrSpoils, Answers.plain_reply, Answered.AnswersReply};
ghost use Rattle.multipart.specs.declared.Phase.TheVariants as phase;

use crate::Phase;
use psa_status::Status;
use service_calls::{Output, bytes, plain};

/// The answer of a step, and the phase after it.
#[derive(Drop)]
pub struct Stepped {
    pub phase: Phase,
    pub answer: Result<Output, Status>,
}

impl Stepped {
    /// A step after which the operation goes on, whether it is refused or not.
    pub fn staying(answer: Result<Output, Status>) -> Stepped
        ensures { result ≡ record { phase = phase.Active; answer = answer } }
    {
        Stepped {
            phase: Phase::Active,
            answer,
        }
    }

    /// A step without a result, after which the operation goes on. A refusal puts it in error.
    pub fn going_on(answer: Result<(), Status>) -> Stepped
        ensures phase { result.phase ≡ (if is_ok answer then phase.Active else phase.InError) }
        ensures answer { (reply : Reply) → plain_reply answer ≡ reply → AnswersReply result.answer reply }
        ensures unwritten { (reply : Reply) (old : List ℕ) → plain_reply answer ≡ reply → old ≡ buffer_after old reply }
    {
        Stepped {
            phase: Phase::after_step(answer.is_ok()),
            answer: plain(answer),
        }
    }

    /// The same of a step that writes bytes.
    pub fn giving_bytes(answer: Result<usize, Status>) -> Stepped
        ensures phase { result.phase ≡ (if is_ok answer then phase.Active else phase.InError) }
        ensures spoils { (reply : Reply) → AnswersOrSpoils answer reply → AnswersReply result.answer reply }
        ensures length { (reply : Reply) → AnswersLength answer reply → AnswersReply result.answer reply }
    {
        Stepped {
            phase: Phase::after_step(answer.is_ok()),
            answer: bytes(answer),
        }
    }

    /// A finish without a result, which ends the operation. A refusal puts it in error.
    pub fn ending(answer: Result<(), Status>) -> Stepped
        ensures phase { result.phase ≡ (if is_ok answer then phase.Inactive else phase.InError) }
        ensures answer { (reply : Reply) → plain_reply answer ≡ reply → AnswersReply result.answer reply }
        ensures unwritten { (reply : Reply) (old : List ℕ) → plain_reply answer ≡ reply → old ≡ buffer_after old reply }
    {
        Stepped {
            phase: Phase::after_finish(answer.is_ok()),
            answer: plain(answer),
        }
    }

    /// The same of a finish that writes bytes.
    pub fn ending_with_bytes(answer: Result<usize, Status>) -> Stepped
        ensures phase { result.phase ≡ (if is_ok answer then phase.Inactive else phase.InError) }
        ensures spoils { (reply : Reply) → AnswersOrSpoils answer reply → AnswersReply result.answer reply }
        ensures length { (reply : Reply) → AnswersLength answer reply → AnswersReply result.answer reply }
    {
        Stepped {
            phase: Phase::after_finish(answer.is_ok()),
            answer: bytes(answer),
        }
    }
}
