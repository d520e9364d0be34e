// A sink that is narrow and fails.
ghost use Rattle.std.specs.Prelude.{None};

use outside_io::Sink;
use psa_status::Failed;
use std::alloc::Global;

/// A sink that takes up to five bytes a call, and fails once.
#[derive(Drop)]
pub struct Narrow {
    pub bytes: Vec<u8>,
    calls: u64,
    fails_at: u64,
    faults: u64,
}

impl Narrow {
    pub fn new(alloc: Global, fails_at: u64) -> Narrow {
        Narrow {
            bytes: Vec::new(alloc),
            calls: 0,
            fails_at,
            faults: 0,
        }
    }
}

impl Sink for Narrow {
    ghost taken = { λ _. None };

    ghost faults = { λ s. s.faults };

    fn write(&mut self, piece: &[u8]) -> Result<usize, Failed> {
        let number = self.calls;
        self.calls = self.calls.saturating_add(1);
        let count = piece.len().min(5);
        if number != self.fails_at && self.bytes.extend_from_slice(&piece[..count]).is_ok() {
            return Ok(count);
        }
        self.faults = self.faults.saturating_add(1);
        Err(Failed)
    }
}
