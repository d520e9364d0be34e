// Calls in one part with the bytes of a key.
ghost use Rattle.std.specs.Prelude.{◌≡◌, ◌≤◌, ◌+◌, ◌^◌, length};
ghost use Rattle.random_streams.specs.RandomWords.{drawn_from, next_bytes};
ghost use Rattle.key_policy.specs.Uses.{FitsUse};
ghost use Rattle.store_model.specs.Prelude.{buffer_after};
ghost use Rattle.service_calls.specs.{Answered.AnswersReply, Answers.AnswersLength};
ghost use Rattle.single_part.specs.Keyed.{computed_by, exported_reply, wanted_by};

use crate::aeads::{aead_decrypt, aead_encrypt};
use crate::ciphers::{cipher_decrypt, cipher_encrypt};
use crate::computation::Computation;
use crate::macs::{mac_compute, mac_verify};
use multipart::give;
use psa_status::Status;
use random_streams::Stream;
use service_calls::{KeyedCall, Output, bytes, plain};

// Gives the bytes of a key to the caller.
fn export(key: &[u8], out: &mut [u8]) -> Result<usize, Status>
    ensures reply { AnswersLength result (exported_reply key.now (length out.old)) }
    ensures buffer { out.new ≡ buffer_after out.old (exported_reply key.now (length out.old)) }
{
    give(key, out)
}

impl Computation<'_> {
    /// Computes a call with the bytes of a key that may be used for it. Bytes that it gives are written to the front of the buffer.
    pub fn compute(&self, key: &[u8], stream: &mut Stream, out: &mut [u8]) -> Result<Output, Status>
        requires fits { FitsUse (wanted_by self.now.call) key.now }
        requires words { stream.old.place + 256 ≤ 2 ^ 60 }
        ensures reply { AnswersReply result (computed_by self.now.call key.now (next_bytes stream.old) (length out.old)).reply }
        ensures buffer { out.new ≡ buffer_after out.old (computed_by self.now.call key.now (next_bytes stream.old) (length out.old)).reply }
        ensures stream { stream.new ≡ drawn_from stream.old (computed_by self.now.call key.now (next_bytes stream.old) (length out.old)).drawn }
    {
        let alg = self.alg;
        match self.asked.call {
            KeyedCall::Export => bytes(export(key, out)),
            KeyedCall::MacCompute { input, .. } => bytes(mac_compute(alg, key, input, out)),
            KeyedCall::MacVerify { input, mac, .. } => plain(mac_verify(alg, key, input, mac)),
            KeyedCall::CipherEncrypt { input, .. } => {
                bytes(cipher_encrypt(stream, alg, key, input, out))
            }
            KeyedCall::CipherDecrypt { input, .. } => bytes(cipher_decrypt(alg, key, input, out)),
            KeyedCall::AeadEncrypt {
                nonce,
                ad,
                input,
                ..
            } => bytes(aead_encrypt(alg, key, nonce, ad, input, out)),
            KeyedCall::AeadDecrypt {
                nonce,
                ad,
                input,
                ..
            } => bytes(aead_decrypt(alg, key, nonce, ad, input, out)),
        }
    }
}
