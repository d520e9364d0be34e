// The chain over a message's blocks, whose last one is kept back (SP 800-38B, section 6.2).

ghost use Rattle.std.specs.Prelude.{◌≡◌, ◌+◌, ◌-◌, ◌<◌, ◌≤◌, ℕ, List, [], ◌∷◌, ◌++◌, length, replicate, take};
ghost use Rattle.crypto_specs.specs.Prelude.{IsKey, aes_encrypt, cmac, doubled, last_block, number_block};

use aes_core::AesKey;
use cipher_blocks::number_of;

/// A message of which every block before the last one is chained into `value`. The last one is kept
/// back, since a subkey is added to it: it is the first `used` bytes of `block`. Where the chain is let
/// go, it is cleared first.
pub struct Chain {
    value: u128,
    block: [u8; 16],
    used: usize,
    ghost in_range: { used ≤ 16 },
}

impl Chain {
    ghost use Rattle.cmac_ops.specs.Chains.{ChainHolds, IsChained, IsWipedChain};

    /// The chain of the empty message, under any key.
    pub fn new() -> Chain
        ensures { (key : List ℕ) → ChainHolds result key [] }
    {
        Chain {
            value: 0,
            block: [0; 16],
            used: 0,
        }
    }

    // Enciphers the block where it is full.
    fn make_room(&mut self, key: &AesKey)
        requires { IsKey key.now }
        ensures room { self.new.used < 16 }
        ensures chained { (m : List ℕ) → IsChained self.old key.now m → IsChained self.new key.now m }
    {
        if self.used == 16 {
            self.value = key.encrypt_number(self.value ^ number_of(&self.block));
            self.used = 0;
        }
    }

    // Puts a piece that fits into the block.
    fn put(&mut self, piece: &[u8])
        requires { self.old.used + length piece.now ≤ 16 }
        ensures value { self.new.value ≡ self.old.value }
        ensures used { self.new.used ≡ self.old.used + length piece.now }
        ensures block { take self.new.used self.new.block ≡ take self.old.used self.old.block ++ piece.now }
    {
        let end = self.used + piece.len();
        self.block[self.used..end].copy_from_slice(piece);
        self.used = end;
    }

    // Adds the front of a piece to the message, as far as the block has room, and answers its length.
    fn take_in(&mut self, key: &AesKey, piece: &[u8]) -> usize
        requires key { IsKey key.now }
        requires some { 0 < length piece.now }
        ensures some { 0 < result }
        ensures within { result ≤ length piece.now }
        ensures holds { (m : List ℕ) → ChainHolds self.old key.now m → ChainHolds self.new key.now (m ++ take result piece.now) }
    {
        self.make_room(key);
        let count = piece.len().min(16 - self.used);
        self.put(&piece[..count]);
        count
    }

    /// Adds a piece to the message.
    pub fn update(&mut self, key: &AesKey, piece: &[u8])
        requires { IsKey key.now }
        ensures { (m : List ℕ) → ChainHolds self.old key.now m → ChainHolds self.new key.now (m ++ piece.now) }
    {
        let mut done = 0;
        'turns: while done < piece.len() {
            done += self.take_in(key, &piece[done..]);
        }
    }

    // The last block, filled by the bit 1 and zeros.
    fn filled(&self) -> [u8; 16]
        requires { self.now.used < 16 }
        ensures { result ≡ take self.now.used self.now.block ++ 0x80 ∷ replicate (15 - self.now.used) 0 }
    {
        let mut out = [0u8; 16];
        'bytes: for i in 0..self.used {
            out[i] = self.block[i];
        }
        out[self.used] = 0x80;
        out
    }

    // The last block with its subkey added (SP 800-38B, section 6.2, step 4).
    fn last_block(&self, key: &AesKey) -> u128
        requires { IsKey key.now }
        ensures { number_block result ≡ last_block (aes_encrypt key.now) (take self.now.used self.now.block) }
    {
        let subkey = doubled(key.encrypt_number(0));
        if self.used == 16 {
            number_of(&self.block) ^ subkey
        } else {
            number_of(&self.filled()) ^ doubled(subkey)
        }
    }

    /// The tag of the message.
    pub fn tag(&self, key: &AesKey) -> [u8; 16]
        requires { IsKey key.now }
        ensures { (m : List ℕ) → ChainHolds self.now key.now m → result ≡ cmac (aes_encrypt key.now) m }
    {
        let last = self.last_block(key);
        key.encrypt_number(self.value ^ last).to_be_bytes()
    }

    /// Clears the chain and the block.
    pub fn wipe(&mut self)
        ensures { IsWipedChain self.new }
    {
        self.value = 0;
        self.block = [0; 16];
        self.used = 0;
    }
}

impl Drop for Chain {
    fn drop(mut self) {
        self.wipe();
        let Chain { value, block, used } = self;
        release(value, &block, used);
    }
}

// What is let go of a chain: zeros.
fn release(value: u128, block: &[u8; 16], used: usize)
    requires value { value ≡ 0 }
    requires block { block.now ≡ replicate 16 0 }
    requires used { used ≡ 0 }
{}

// A block shifted left by one bit, modulo x^128 + x^7 + x^2 + x + 1 (SP 800-38B, section 6.1).
fn doubled(block: u128) -> u128
    ensures { result ≡ doubled block }
{
    if block < 1 << 127 {
        block << 1
    } else {
        (block << 1) ^ 0x87
    }
}
