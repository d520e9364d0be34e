//! What a slot table gives out. Each value must be given back.
ghost use Rattle.std.specs.Prelude.{◌≡◌};
ghost use Rattle.secret_bytes.specs.Buffer.{bytes_of};

use secret_bytes::Secret;
use std::marker::Model;

/// A slot that waits for its key. It is spent by the end of the creation.
pub struct Filling {
    pub(crate) slot: u32,
}

impl Model for Filling {
    ghost use Rattle.slot_table.specs.Lent.{Reserved};

    ghost Value = { Reserved };

    ghost view = { λ f. record { slot = f.slot } };
}

/// A reading of a slot's key: a copy of its bytes, which stays as it is until it is given back.
pub struct Lease {
    pub(crate) slot: u32,
    pub(crate) creation: u64,
    pub(crate) bytes: Secret,
}

impl Model for Lease {
    ghost use Rattle.slot_table.specs.Lent.{Reading};

    ghost Value = { Reading };

    ghost view = { λ l. record { slot = l.slot; creation = l.creation; buffer = l.bytes } };
}

impl Lease {
    /// The key's bytes.
    pub fn as_slice(&self) -> &[u8]
        ensures { result.now ≡ bytes_of self.now.buffer }
    {
        self.bytes.as_slice()
    }

    /// The key's creation number.
    pub fn creation(&self) -> u64
        ensures { result ≡ self.now.creation }
    {
        self.creation
    }
}
