// Calls in one part without a key.
ghost use Rattle.std.specs.Prelude.{◌≡◌, length};
ghost use Rattle.store_model.specs.Prelude.{buffer_after};
ghost use Rattle.service_calls.specs.Answered.{AnswersReply};
ghost use Rattle.single_part.specs.Hashing.{hash_computed_by};

use crate::hashes::{hash_compare, hash_compute};
use psa_status::Status;
use service_calls::{HashCall, Output, bytes, plain};

/// Computes the hash of a message, or compares it. A hash that it gives is written to the front of the buffer.
pub fn compute_hash(call: &HashCall<'_>, out: &mut [u8]) -> Result<Output, Status>
    ensures reply { AnswersReply result (hash_computed_by call.now (length out.old)) }
    ensures buffer { out.new ≡ buffer_after out.old (hash_computed_by call.now (length out.old)) }
{
    match *call {
        HashCall::Compute { alg, input } => bytes(hash_compute(alg, input, out)),
        HashCall::Compare { alg, input, hash } => plain(hash_compare(alg, input, hash)),
    }
}
