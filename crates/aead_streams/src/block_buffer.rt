// The bytes of a text that don't fill a block of 16 bytes yet.

ghost use Rattle.std.specs.Prelude.{◌≡◌, ℕ, ◌-◌, ◌≤◌, ◌↔◌, IsTrue, [], ◌++◌, length, take, min, replicate};
ghost use Rattle.crypto_specs.specs.Prelude.{block_number, number_block};

use cipher_blocks::{number_of, put_at};
use std::marker::Model;

/// A block that fills up: its first `used` bytes are in use, and the others are zeros. A contract sees
/// the bytes in use, at most 16; where there are none, all of the block is zeros. Where the buffer is let go,
/// it is made zeros first.
pub struct BlockBuffer {
    block: [u8; 16],
    used: usize,
}

impl Model for BlockBuffer {
    ghost use Rattle.std.specs.Prelude.{ℕ, List, take};

    ghost Value = { List ℕ };

    ghost use Rattle.aead_streams.specs.Filled.{HasZerosPast};

    ghost view = { λ b. take b.used b.block };

    ghost invariant = { λ b. HasZerosPast b.used b.block };
}

impl BlockBuffer {
    /// A buffer of no bytes.
    pub fn new() -> BlockBuffer
        ensures { result ≡ [] }
    {
        BlockBuffer {
            block: [0; 16],
            used: 0,
        }
    }

    /// Whether there are no bytes.
    pub fn is_empty(&self) -> bool
        ensures { IsTrue result ↔ (self.now ≡ []) }
    {
        self.used == 0
    }

    /// Whether the bytes fill the block.
    pub fn is_full(&self) -> bool
        ensures full { IsTrue result ↔ (length self.now ≡ 16) }
        ensures limit { length self.now ≤ 16 }
    {
        self.used == 16
    }

    /// Adds the front of a piece, as far as there is room, and answers how many bytes that are.
    pub fn put(&mut self, piece: &[u8]) -> usize
        ensures count { result ≡ min (length piece.now) (16 - length self.old) }
        ensures bytes { self.new ≡ self.old ++ take result piece.now }
        ensures limit { length self.old ≤ 16 }
    {
        let count = piece.len().min(16 - self.used);
        put_at(&mut self.block, self.used, &piece[..count]);
        self.used += count;
        count
    }

    /// The bytes and the zeros that fill their block, as a number whose highest byte is the first one.
    /// The buffer is empty from then on.
    pub fn take(&mut self) -> u128
        ensures number { result ≡ block_number self.old }
        ensures block { number_block result ≡ self.old ++ replicate (16 - length self.old) 0 }
        ensures empty { self.new ≡ [] }
    {
        let number = number_of(&self.block);
        self.wipe();
        number
    }

    /// Makes all of the block zeros, of which none is in use.
    pub fn wipe(&mut self)
        ensures { self.new ≡ [] }
    {
        self.block = [0; 16];
        self.used = 0;
    }
}

impl Drop for BlockBuffer {
    fn drop(mut self) {
        self.wipe();
        let BlockBuffer { block, used: _ } = self;
        release(&block);
    }
}

// What is let go of a buffer: zeros.
fn release(block: &[u8; 16])
    requires { block.now ≡ replicate 16 0 }
{}
