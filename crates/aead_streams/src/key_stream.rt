ghost use Rattle.std.specs.Prelude.{◌≡◌, ℕ, ◌+◌, ◌<◌, ◌≤◌, List, ◌++◌, length, take, drop, replicate};
ghost use Rattle.crypto_specs.specs.Prelude.{aes_encrypt, IsKey, number_block};
ghost use Rattle.aead_streams.specs.{Counters.counter_at, Counters.text_xor, Streams.IsAt, Streams.IsClearStream};

use crate::counter_width::CounterWidth;
use aes_core::AesKey;
use cipher_blocks::{number_of, set_number, xor_bytes_into};

/// A place in the key stream that a cipher makes of the blocks from a first counter block on. The key
/// stands apart: each call takes it, and it has to be the same one. Where the stream is let go, its buffers
/// are cleared first.
pub struct KeyStream {
    counter: u128,
    width: CounterWidth,
    block: [u8; 16],
    used: usize,
}

impl KeyStream {
    /// A stream that isn't in use: its buffers are zeros.
    pub fn clear() -> KeyStream
        ensures { IsClearStream result }
    {
        KeyStream {
            counter: 0,
            width: CounterWidth::Whole,
            block: [0; 16],
            used: 16,
        }
    }

    /// The start of the stream whose first counter block is the number `start`, first byte highest.
    pub fn new(width: CounterWidth, start: u128) -> KeyStream
        ensures { (e : List ℕ → List ℕ) → IsAt result e width start 0 }
    {
        KeyStream {
            counter: start,
            width,
            block: [0; 16],
            used: 16,
        }
    }

    /// Clears the buffers.
    pub fn wipe(&mut self)
        ensures { IsClearStream self.new }
    {
        self.counter = 0;
        self.width = CounterWidth::Whole;
        self.block = [0; 16];
        self.used = 16;
    }

    /// Enciphers or deciphers the next piece of a text.
    pub fn xor(&mut self, key: &AesKey, piece: &mut [u8])
        requires { IsKey key.now }
        ensures text { (width : CounterWidth) (start n : ℕ) → IsAt self.old (aes_encrypt key.now) width start n
            → piece.new ≡ text_xor (aes_encrypt key.now) width start n piece.old }
        ensures at { (width : CounterWidth) (start n : ℕ) → IsAt self.old (aes_encrypt key.now) width start n
            → IsAt self.new (aes_encrypt key.now) width start (n + length piece.old) }
    {
        let mut done = 0;
        'runs: while done < piece.len() {
            done += self.xor_run(key, &mut piece[done..]);
        }
    }

    // Takes the front of a piece, as far as one block goes, and answers how many bytes that is. A whole
    // block goes by its number, and isn't kept.
    fn xor_run(&mut self, key: &AesKey, piece: &mut [u8]) -> usize
        requires key { IsKey key.now }
        requires some { 0 < length piece.old }
        ensures some { 0 < result }
        ensures within { result ≤ length piece.old }
        ensures text { (width : CounterWidth) (start n : ℕ) → IsAt self.old (aes_encrypt key.now) width start n
            → piece.new ≡ text_xor (aes_encrypt key.now) width start n (take result piece.old) ++ drop result piece.old }
        ensures at { (width : CounterWidth) (start n : ℕ) → IsAt self.old (aes_encrypt key.now) width start n
            → IsAt self.new (aes_encrypt key.now) width start (n + result) }
    {
        if self.used != 16 || piece.len() < 16 {
            return self.xor_part(key, piece);
        }
        self.xor_block(key, &mut piece[..16]);
        16
    }

    // Takes a block of a text, where the last one of the stream is used up.
    fn xor_block(&mut self, key: &AesKey, block: &mut [u8])
        requires key { IsKey key.now }
        requires used { self.old.used ≡ 16 }
        requires whole { length block.old ≡ 16 }
        ensures text { (width : CounterWidth) (start n : ℕ) → IsAt self.old (aes_encrypt key.now) width start n
            → block.new ≡ text_xor (aes_encrypt key.now) width start n block.old }
        ensures at { (width : CounterWidth) (start n : ℕ) → IsAt self.old (aes_encrypt key.now) width start n
            → IsAt self.new (aes_encrypt key.now) width start (n + 16) }
    {
        let mask = self.next_block(key);
        set_number(block, number_of(block) ^ mask);
    }

    // Takes the front of a piece, as far as the last block goes or else the next one.
    fn xor_part(&mut self, key: &AesKey, piece: &mut [u8]) -> usize
        requires key { IsKey key.now }
        requires some { 0 < length piece.old }
        ensures some { 0 < result }
        ensures within { result ≤ length piece.old }
        ensures text { (width : CounterWidth) (start n : ℕ) → IsAt self.old (aes_encrypt key.now) width start n
            → piece.new ≡ text_xor (aes_encrypt key.now) width start n (take result piece.old) ++ drop result piece.old }
        ensures at { (width : CounterWidth) (start n : ℕ) → IsAt self.old (aes_encrypt key.now) width start n
            → IsAt self.new (aes_encrypt key.now) width start (n + result) }
    {
        self.fill(key);
        let count = piece.len().min(16 - self.used);
        xor_bytes_into(&mut piece[..count], &self.block, self.used);
        self.used += count;
        count
    }

    // Makes the next block where the last one is used up.
    fn fill(&mut self, key: &AesKey)
        requires { IsKey key.now }
        ensures used { self.new.used < 16 }
        ensures at { (width : CounterWidth) (start n : ℕ) → IsAt self.old (aes_encrypt key.now) width start n
            → IsAt self.new (aes_encrypt key.now) width start n }
    {
        if self.used >= 16 {
            self.refill(key);
        }
    }

    fn refill(&mut self, key: &AesKey)
        requires { IsKey key.now }
        ensures used { self.new.used ≡ 0 }
        ensures at { (width : CounterWidth) (start n : ℕ) → self.old.used ≡ 16
            → IsAt self.old (aes_encrypt key.now) width start n → IsAt self.new (aes_encrypt key.now) width start n }
    {
        self.block = self.next_block(key).to_be_bytes();
        self.used = 0;
    }

    // The next block of the stream, as a number.
    fn next_block(&mut self, key: &AesKey) -> u128
        requires { IsKey key.now }
        ensures block { number_block result ≡ aes_encrypt key.now (number_block self.old.counter) }
        ensures counter { self.new.counter ≡ counter_at self.old.width self.old.counter 1 }
        ensures width { self.new.width ≡ self.old.width }
        ensures used { self.new.used ≡ self.old.used }
    {
        let block = key.encrypt_number(self.counter);
        self.counter = self.width.next(self.counter);
        block
    }
}

impl Drop for KeyStream {
    fn drop(mut self) {
        self.wipe();
        let KeyStream {
            counter,
            width: _,
            block,
            used: _,
        } = self;
        release(counter, &block);
    }
}

// What is let go of a stream: zeros.
fn release(counter: u128, block: &[u8; 16])
    requires counter { counter ≡ 0 }
    requires block { block.now ≡ replicate 16 0 }
{}
