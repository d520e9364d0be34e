// A call in one part with a key, whose algorithm's number is parsed once.
ghost use Rattle.std.specs.Prelude.{◌≡◌};
ghost use Rattle.single_part.specs.Keyed.{algorithm_in, wanted_by};

use alg_encoding::Alg;
use key_attributes::KeyId;
use key_policy::{KeyUse, NamedAlgorithm};
use service_calls::{Keyed, KeyedCall, Purpose};
use std::marker::Model;

/// A call in one part with a key, and the algorithm that it names, parsed once. A contract sees what is asked.
#[derive(Drop)]
pub struct Computation<'a> {
    pub(crate) asked: Keyed<'a>,
    pub(crate) alg: NamedAlgorithm,
}

impl<'a> Model for Computation<'a> {
    ghost use Rattle.std.specs.Prelude.{◌≡◌};
    ghost use Rattle.service_calls.specs.declared.store_calls.Keyed.{Keyed};
    ghost use Rattle.single_part.specs.Keyed.{algorithm_in};

    ghost Value = { Keyed };

    ghost view = { λ computation. computation.asked };

    ghost invariant = { λ computation. computation.alg ≡ algorithm_in computation.asked.call };
}

// The number of a call's algorithm; an export names none.
fn algorithm_in(call: &KeyedCall<'_>) -> Alg
    ensures { result ≡ algorithm_in call.now }
{
    match *call {
        KeyedCall::Export => Alg(0),
        KeyedCall::MacCompute { alg, .. }
        | KeyedCall::MacVerify { alg, .. }
        | KeyedCall::CipherEncrypt { alg, .. }
        | KeyedCall::CipherDecrypt { alg, .. }
        | KeyedCall::AeadEncrypt { alg, .. }
        | KeyedCall::AeadDecrypt { alg, .. } => alg,
    }
}

impl<'a> Computation<'a> {
    /// Parses the number of the call's algorithm.
    pub fn of(asked: Keyed<'a>) -> Computation<'a>
        ensures { result ≡ asked.entry }
    {
        let alg = NamedAlgorithm::of(algorithm_in(&asked.call));
        Computation { asked, alg }
    }

    /// The key that it computes with.
    pub fn key(&self) -> KeyId
        ensures { result ≡ self.now.key }
    {
        self.asked.key
    }

    /// What it looks its key for.
    pub fn wanted(&self) -> KeyUse
        ensures { result ≡ wanted_by self.now.call }
    {
        let purpose = match self.asked.call {
            KeyedCall::Export => return KeyUse::Export,
            KeyedCall::MacCompute { .. } => Purpose::SignMac,
            KeyedCall::MacVerify { .. } => Purpose::VerifyMac,
            KeyedCall::CipherEncrypt { .. } => Purpose::EncryptCipher,
            KeyedCall::CipherDecrypt { .. } => Purpose::DecryptCipher,
            KeyedCall::AeadEncrypt { .. } => Purpose::EncryptAead,
            KeyedCall::AeadDecrypt { .. } => Purpose::DecryptAead,
        };
        KeyUse::of_purpose(purpose, self.alg)
    }
}
