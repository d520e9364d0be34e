// An input that may have been given.

ghost use Rattle.std.specs.Prelude.{◌≡◌, ◌+◌, ◌≤◌, ◌++◌, IfOk, false, is_some, length};
ghost use Rattle.store_model.specs.Prelude.{bytes_or_empty};

use psa_status::Memory;
use secret_bytes::Secret;
use std::alloc::Global;

/// Bytes that may have been given, 1,024 at most: an absent input is told apart from an empty one.
#[derive(Drop)]
pub struct Input {
    bytes: Secret,
    is_given: bool,
    ghost absent: { is_given ≡ false → bytes.used ≡ 0 },
}

impl Input {
    ghost use Rattle.derivation_states.specs.Inputs.{IsClearInput, given_bytes};

    /// An absent input; `Memory` where there is no room for its buffer.
    pub fn new(alloc: Global) -> Result<Input, Memory>
        ensures { IfOk result (λ input. IsClearInput input) }
    {
        let bytes = Secret::new(alloc)?;
        Ok(Input {
            bytes,
            is_given: false,
        })
    }

    /// Whether it was given.
    pub fn is_given(&self) -> bool
        ensures { result ≡ is_some (given_bytes self.now) }
    {
        self.is_given
    }

    /// Its bytes; none where it is absent.
    pub fn as_slice(&self) -> &[u8]
        ensures bytes { result.now ≡ bytes_or_empty (given_bytes self.now) }
        ensures bound { length result.now ≤ 1024 }
    {
        self.bytes.as_slice()
    }

    /// Takes these bytes, in place of any others.
    pub fn give(&mut self, bytes: &[u8])
        requires { length bytes.now ≤ 1024 }
        ensures { given_bytes self.new ≡ Some bytes.now }
    {
        self.bytes.fill_from(bytes);
        self.is_given = true;
    }

    /// Takes these bytes after those that are there.
    pub fn append(&mut self, bytes: &[u8])
        requires { length (bytes_or_empty (given_bytes self.old)) + length bytes.now ≤ 1024 }
        ensures { given_bytes self.new ≡ Some (bytes_or_empty (given_bytes self.old) ++ bytes.now) }
    {
        let first = self.as_slice();
        let middle = first.len();
        let end = middle + bytes.len();
        let mut whole = [0; 1024];
        whole[..middle].copy_from_slice(first);
        whole[middle..end].copy_from_slice(bytes);
        self.give(&whole[..end]);
        whole.fill(0);
    }

    /// Makes it absent, and its buffer zeros.
    pub fn wipe(&mut self)
        ensures { IsClearInput self.new }
    {
        self.bytes.wipe();
        self.is_given = false;
    }
}
