// Calls on the store, by their shapes.
ghost use Rattle.std.specs.Prelude.{◌≡◌};
ghost use Rattle.service_calls.specs.declared.store_calls.StoreCall.TheVariants.{Compute};

use alg_encoding::Alg;
use key_attributes::{Attributes, KeyId};

/// What makes a key of bytes: of those that are given, or of random ones.
#[derive(Clone, Copy, Drop)]
pub enum Creation<'a> {
    Import {
        attributes: Attributes,
        bytes: &'a [u8],
    },
    Generate(Attributes),
}

/// What is done with a key as a whole, whatever its bytes are.
#[derive(Clone, Copy, Drop)]
pub enum KeyChange {
    Copy {
        source: KeyId,
        attributes: Attributes,
    },
    Destroy(KeyId),
    Purge(KeyId),
    GetAttributes(KeyId),
}

/// A hash of a whole message. It has no key.
#[derive(Clone, Copy, Drop)]
pub enum HashCall<'a> {
    Compute {
        alg: Alg,
        input: &'a [u8],
    },
    Compare {
        alg: Alg,
        input: &'a [u8],
        hash: &'a [u8],
    },
}

/// What is computed in one call with the bytes of a key.
#[derive(Clone, Copy, Drop)]
pub enum KeyedCall<'a> {
    Export,
    MacCompute {
        alg: Alg,
        input: &'a [u8],
    },
    MacVerify {
        alg: Alg,
        input: &'a [u8],
        mac: &'a [u8],
    },
    CipherEncrypt {
        alg: Alg,
        input: &'a [u8],
    },
    CipherDecrypt {
        alg: Alg,
        input: &'a [u8],
    },
    AeadEncrypt {
        alg: Alg,
        nonce: &'a [u8],
        ad: &'a [u8],
        input: &'a [u8],
    },
    AeadDecrypt {
        alg: Alg,
        nonce: &'a [u8],
        ad: &'a [u8],
        input: &'a [u8],
    },
}

/// A computation in one call, and its key.
#[derive(Clone, Copy, Drop)]
pub struct Keyed<'a> {
    pub key: KeyId,
    pub call: KeyedCall<'a>,
}

/// A call on the store's keys, or a computation in one call.
#[derive(Clone, Copy, Drop)]
pub enum StoreCall<'a> {
    Create(Creation<'a>),
    Change(KeyChange),
    Hash(HashCall<'a>),
    Compute(Keyed<'a>),
}

impl<'a> StoreCall<'a> {
    /// A computation with this key.
    pub fn compute(key: KeyId, call: KeyedCall<'a>) -> StoreCall<'a>
        ensures { result ≡ Compute (record { key = key; call = call.entry }) }
    {
        StoreCall::Compute(Keyed { key, call })
    }
}
