// Steps and finishes of operations in several parts.

/// A step or a finish of a hash.
#[derive(Clone, Copy, Drop)]
pub enum HashStep<'a> {
    Update(&'a [u8]),
    Finish,
    Verify(&'a [u8]),
}

/// A step or a finish of a MAC.
#[derive(Clone, Copy, Drop)]
pub enum MacStep<'a> {
    Update(&'a [u8]),
    SignFinish,
    VerifyFinish(&'a [u8]),
}

/// A step or a finish of a cipher.
#[derive(Clone, Copy, Drop)]
pub enum CipherStep<'a> {
    GenerateIv,
    SetIv(&'a [u8]),
    Update(&'a [u8]),
    Finish,
}

/// A step or a finish of an AEAD. Lengths are in bytes.
#[derive(Clone, Copy, Drop)]
pub enum AeadStep<'a> {
    GenerateNonce,
    SetNonce(&'a [u8]),
    SetLengths { ad: u64, payload: u64 },
    UpdateAd(&'a [u8]),
    Update(&'a [u8]),
    Finish,
    Verify(&'a [u8]),
}

/// A step of a key derivation that looks at no key of the store. `step` is the number of an input step.
#[derive(Clone, Copy, Drop)]
pub enum DerivationStep<'a> {
    GetCapacity,
    SetCapacity(u64),
    InputBytes { step: u16, bytes: &'a [u8] },
    InputInteger { step: u16, value: u64 },
    OutputBytes,
    VerifyBytes(&'a [u8]),
}

/// A step or a finish of an operation of any family.
#[derive(Clone, Copy, Drop)]
pub enum Step<'a> {
    Hash(HashStep<'a>),
    Mac(MacStep<'a>),
    Cipher(CipherStep<'a>),
    Aead(AeadStep<'a>),
    Derivation(DerivationStep<'a>),
}
