// What calls answer.
ghost use Rattle.std.specs.Prelude.{◌≡◌, ℕ, List};
ghost use Rattle.service_calls.specs.{Answers.AnswersLength, Answers.AnswersOrSpoils, Answers.attributes_answer, Answers.id_reply, Answers.plain_reply, Answered.AnswersReply, Answered.number_reply};
ghost use Rattle.store_model.specs.Prelude.{Reply, buffer_after};

use key_attributes::{Attributes, KeyId};
use psa_status::Status;

/// What a successful call gives. Of bytes, which stand at the front of the output buffer, it is how many they are.
#[derive(Clone, Copy, Drop)]
pub enum Output {
    Done,
    Identifier(KeyId),
    Description(Attributes),
    Bytes(usize),
    Number(u64),
}

/// The answer of a call without a result.
pub fn plain(answer: Result<(), Status>) -> Result<Output, Status>
    ensures answer { (reply : Reply) → plain_reply answer ≡ reply → AnswersReply result reply }
    ensures unwritten { (reply : Reply) (old : List ℕ) → plain_reply answer ≡ reply → old ≡ buffer_after old reply }
{
    answer?;
    Ok(Output::Done)
}

/// The answer of a call that writes bytes to an output buffer.
pub fn bytes(answer: Result<usize, Status>) -> Result<Output, Status>
    ensures spoils { (reply : Reply) → AnswersOrSpoils answer reply → AnswersReply result reply }
    ensures length { (reply : Reply) → AnswersLength answer reply → AnswersReply result reply }
{
    Ok(Output::Bytes(answer?))
}

/// The answer of a call that creates a key.
pub fn identifier(answer: Result<KeyId, Status>) -> Result<Output, Status>
    ensures answer { (reply : Reply) → id_reply answer ≡ reply → AnswersReply result reply }
    ensures unwritten { (reply : Reply) (old : List ℕ) → id_reply answer ≡ reply → old ≡ buffer_after old reply }
{
    Ok(Output::Identifier(answer?))
}

/// The answer of a call that asks for attributes.
pub fn description(answer: Result<Attributes, Status>) -> Result<Output, Status>
    ensures answer { (reply : Reply) → attributes_answer answer ≡ reply → AnswersReply result reply }
    ensures unwritten { (reply : Reply) (old : List ℕ) → attributes_answer answer ≡ reply → old ≡ buffer_after old reply }
{
    Ok(Output::Description(answer?))
}

/// The answer of a call that gives a number.
pub fn number(answer: Result<u64, Status>) -> Result<Output, Status>
    ensures answer { (reply : Reply) → number_reply answer ≡ reply → AnswersReply result reply }
    ensures unwritten { (reply : Reply) (old : List ℕ) → number_reply answer ≡ reply → old ≡ buffer_after old reply }
{
    Ok(Output::Number(answer?))
}
