// Hashes of a whole message.
ghost use Rattle.std.specs.Prelude.{◌≡◌, length};
ghost use Rattle.store_model.specs.Prelude.{buffer_after, compared_reply, hash_reply};
ghost use Rattle.service_calls.specs.Answers.{AnswersLength, plain_reply};

use alg_encoding::Alg;
use hash_ops::one_shot;
use key_policy::NamedAlgorithm;
use multipart::{give_front, is_front};
use psa_status::Status;

/// Writes the hash of a message to the front of a buffer that has room for it, and answers its length. `NotSupported`
/// or `InvalidArgument` where the number names no hash, and `BufferTooSmall`.
pub fn hash_compute(alg: Alg, input: &[u8], out: &mut [u8]) -> Result<usize, Status>
    ensures reply { AnswersLength result (hash_reply alg.0 input.now (length out.old)) }
    ensures buffer { out.new ≡ buffer_after out.old (hash_reply alg.0 input.now (length out.old)) }
{
    let which = NamedAlgorithm::of(alg).hash()?;
    let mut own = [0; 64];
    let length = one_shot::hash(which, input, &mut own);
    give_front(&mut own, length, out)
}

/// Compares a hash with that of a message. `NotSupported` or `InvalidArgument` where the number names no hash, and
/// `InvalidSignature` where a byte or the length differs.
pub fn hash_compare(alg: Alg, input: &[u8], hash: &[u8]) -> Result<(), Status>
    ensures { plain_reply result ≡ compared_reply alg.0 input.now hash.now }
{
    let which = NamedAlgorithm::of(alg).hash()?;
    let mut own = [0; 64];
    let length = one_shot::hash(which, input, &mut own);
    if is_front(hash, &mut own, length) {
        Ok(())
    } else {
        Err(Status::InvalidSignature)
    }
}
