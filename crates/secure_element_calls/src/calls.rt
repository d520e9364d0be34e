// Calls that the secure element computes.
ghost use Rattle.std.specs.Prelude.{◌≡◌};
ghost use Rattle.secure_element_calls.specs.{Answers.not_computed_status, Calls.algorithm_asked, Calls.class_asked, Calls.usage_asked};

use alg_encoding::Class;
use key_attributes::Usage;
use key_policy::NamedAlgorithm;
use psa_status::Status;

/// A call in one part that the secure element computes with its key. An output buffer stands beside it.
#[derive(Clone, Copy, Drop)]
pub enum ElementCall<'a> {
    MacCompute {
        alg: NamedAlgorithm,
        input: &'a [u8],
    },
    MacVerify {
        alg: NamedAlgorithm,
        input: &'a [u8],
        mac: &'a [u8],
    },
    /// CTR with a fresh initialisation vector, which stands before the ciphertext.
    CtrEncrypt {
        iv: &'a [u8; 16],
        input: &'a [u8],
    },
    /// CTR of an input that begins with its initialisation vector.
    CtrDecrypt {
        input: &'a [u8],
    },
}

impl ElementCall<'_> {
    /// The class of its algorithm.
    pub fn class(&self) -> Class
        ensures { result ≡ class_asked self.now }
    {
        match *self {
            ElementCall::MacCompute { .. } | ElementCall::MacVerify { .. } => Class::Mac,
            ElementCall::CtrEncrypt { .. } | ElementCall::CtrDecrypt { .. } => Class::Cipher,
        }
    }

    /// Its algorithm.
    pub fn algorithm(&self) -> NamedAlgorithm
        ensures { result.0 ≡ algorithm_asked self.now }
    {
        match *self {
            ElementCall::MacCompute { alg, .. } | ElementCall::MacVerify { alg, .. } => alg,
            ElementCall::CtrEncrypt { .. } | ElementCall::CtrDecrypt { .. } => {
                NamedAlgorithm::ctr()
            }
        }
    }

    /// The flag that a key's policy must have.
    pub fn usage(&self) -> Usage
        ensures { result.0 ≡ usage_asked self.now }
    {
        match *self {
            ElementCall::MacCompute { .. } => Usage::SIGN_MESSAGE,
            ElementCall::MacVerify { .. } => Usage::VERIFY_MESSAGE,
            ElementCall::CtrEncrypt { .. } => Usage::ENCRYPT,
            ElementCall::CtrDecrypt { .. } => Usage::DECRYPT,
        }
    }
}

/// Why a call was not computed: it was refused, or the element failed.
#[derive(Clone, Copy, Debug, PartialEq, Eq, Drop)]
pub enum NotComputed {
    Refused(Status),
    Failed,
}

impl NotComputed {
    /// What a call answers.
    pub fn status(self) -> Status
        ensures { result ≡ not_computed_status self }
    {
        match self {
            NotComputed::Refused(status) => status,
            NotComputed::Failed => Status::HardwareFailure,
        }
    }
}
