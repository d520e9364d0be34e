// GHASH of a text that is taken in piece by piece (SP 800-38D, section 6.4).

ghost use Rattle.std.specs.Prelude.{◌≡◌, ℕ, ◌+◌, ◌-◌, ◌≤◌, ◌<◌, List, [], ◌++◌, length, take, min, bit_xor};
ghost use Rattle.crypto_specs.specs.Prelude.{block_product, ghash_from, numbers_of};

use crate::block_buffer::BlockBuffer;
use aead_gcm::absorb;
use ghash::Ghash;

/// GHASH of a text of which every whole block is taken in; the bytes after them are in `buffer`, always
/// fewer than a block. Where it is let go, both are cleared.
#[derive(Drop)]
pub struct TextHash {
    ghash: Ghash,
    buffer: BlockBuffer,
}

impl TextHash {
    ghost use Rattle.aead_streams.specs.TextHashes.{HasTaken, IsClearTextHash};

    // The hash of the empty text under the hash subkey `h`.
    pub(crate) fn new(h: u128) -> TextHash
        ensures taken { HasTaken result h 0 [] }
        ensures clear { h ≡ 0 → IsClearTextHash result }
    {
        TextHash {
            ghash: Ghash::new(h),
            buffer: BlockBuffer::new(),
        }
    }

    // Adds the front of a piece, as far as it completes a block, and answers its length.
    fn take_in(&mut self, piece: &[u8]) -> usize
        ensures count { result ≡ min (length piece.now) (16 - length self.old.buffer) }
        ensures whole { result < length piece.now → self.new.buffer ≡ [] }
        ensures taken { (h y : ℕ) (text : List ℕ) → HasTaken self.old h y text
            → HasTaken self.new h y (text ++ take result piece.now) }
    {
        let count = self.buffer.put(piece);
        if self.buffer.is_full() {
            self.ghash.block(self.buffer.take());
        }
        count
    }

    // Adds a piece to the text.
    pub(crate) fn update(&mut self, piece: &[u8])
        ensures { (h y : ℕ) (text : List ℕ) → HasTaken self.old h y text → HasTaken self.new h y (text ++ piece.now) }
    {
        let front = self.take_in(piece);
        let whole = (piece.len() - front) / 16 * 16;
        absorb(&mut self.ghash, &piece[front..front + whole]);
        self.take_in(&piece[front + whole..]);
    }

    // Ends the text: zeros fill its last block, and the text that comes next begins a block.
    pub(crate) fn fill_up(&mut self)
        ensures { (h y : ℕ) (text : List ℕ) → HasTaken self.old h y text
            → HasTaken self.new h (ghash_from h y (numbers_of text)) [] }
    {
        if !self.buffer.is_empty() {
            self.ghash.block(self.buffer.take());
        }
    }

    // Ends the text, and takes in one more block, the lengths. Answers the hash.
    pub(crate) fn finish(&mut self, lengths: u128) -> u128
        ensures { (h y : ℕ) (text : List ℕ) → HasTaken self.old h y text
            → result ≡ block_product (bit_xor (ghash_from h y (numbers_of text)) lengths) h }
    {
        self.fill_up();
        self.ghash.block(lengths);
        self.ghash.value()
    }

    // Clears the hash subkey, the value and the buffer.
    pub(crate) fn wipe(&mut self)
        ensures { IsClearTextHash self.new }
    {
        self.ghash.wipe();
        self.buffer.wipe();
    }
}
