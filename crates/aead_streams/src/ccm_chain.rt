// The CBC-MAC over texts in pieces, each text being filled with zeros to whole blocks (SP 800-38C, section 6.1,
// steps 2 and 3).
ghost use Rattle.std.specs.Prelude.{◌≡◌, ◌<◌, ◌≤◌, ℕ, List, [], ◌++◌, length, drop};
ghost use Rattle.crypto_specs.specs.Prelude.{aes_encrypt, IsKey, number_block, filled_blocks};
ghost use Rattle.aead_ccm.specs.Chaining.{chained_from};
ghost use Rattle.aead_streams.specs.Chains.{chain_after, IsClearChain};

use crate::block_buffer::BlockBuffer;
use aes_core::AesKey;
use cipher_blocks::filled_number;

// The chain's value, and the bytes that wait: they fill no block yet, or one that is absorbed with what follows it.
// Where the chain is let go, it is cleared first.
pub(crate) struct Chain {
    value: u128,
    waiting: BlockBuffer,
}

impl Chain {
    // A chain that isn't in use.
    pub(crate) fn new() -> Chain
        ensures { IsClearChain result }
    {
        Chain {
            value: 0,
            waiting: BlockBuffer::new(),
        }
    }

    pub(crate) fn wipe(&mut self)
        ensures { IsClearChain self.new }
    {
        self.value = 0;
        self.waiting.wipe();
    }

    // Begins a chain with its first block.
    pub(crate) fn start(&mut self, key: &AesKey, block: u128)
        requires { IsKey key.now }
        ensures { (rest : List ℕ) → chain_after (aes_encrypt key.now) self.new rest ≡
            chained_from (aes_encrypt key.now) (aes_encrypt key.now (number_block block)) (filled_blocks rest) }
    {
        self.value = key.encrypt_number(block);
        self.waiting.wipe();
    }

    // Takes in the next piece of a text.
    pub(crate) fn absorb(&mut self, key: &AesKey, piece: &[u8])
        requires { IsKey key.now }
        ensures { (rest : List ℕ) → chain_after (aes_encrypt key.now) self.new rest ≡
            chain_after (aes_encrypt key.now) self.old (piece.now ++ rest) }
    {
        let mut done = 0;
        'runs: while done < piece.len() {
            done += self.absorb_run(key, &piece[done..]);
        }
    }

    // Takes in the front of a piece, as far as one block goes, and answers how many bytes that is.
    fn absorb_run(&mut self, key: &AesKey, piece: &[u8]) -> usize
        requires key { IsKey key.now }
        requires some { 0 < length piece.now }
        ensures some { 0 < result }
        ensures within { result ≤ length piece.now }
        ensures chain { (rest : List ℕ) → chain_after (aes_encrypt key.now) self.new (drop result piece.now ++ rest) ≡
            chain_after (aes_encrypt key.now) self.old (piece.now ++ rest) }
    {
        self.make_room(key);
        if self.waiting.is_empty() && piece.len() >= 16 {
            self.absorb_front(key, piece);
            return 16;
        }
        self.waiting.put(piece)
    }

    // Absorbs the first block of a piece where nothing waits.
    fn absorb_front(&mut self, key: &AesKey, piece: &[u8])
        requires key { IsKey key.now }
        requires none { self.old.waiting ≡ [] }
        requires long { 16 ≤ length piece.now }
        ensures { (rest : List ℕ) → chain_after (aes_encrypt key.now) self.new (drop 16 piece.now ++ rest) ≡
            chain_after (aes_encrypt key.now) self.old (piece.now ++ rest) }
    {
        self.value = key.encrypt_number(self.value ^ filled_number(&piece[..16]));
    }

    // Absorbs a block that waits.
    fn make_room(&mut self, key: &AesKey)
        requires { IsKey key.now }
        ensures room { length self.new.waiting < 16 }
        ensures chain { (rest : List ℕ) →
            chain_after (aes_encrypt key.now) self.new rest ≡ chain_after (aes_encrypt key.now) self.old rest }
    {
        if self.waiting.is_full() {
            self.absorb_waiting(key);
        }
    }

    #[tactic(auto, using(crate::proofs::Absorbing::none_waits))]
    // Ends a text: zeros fill its last block.
    pub(crate) fn fill(&mut self, key: &AesKey)
        requires { IsKey key.now }
        ensures empty { self.new.waiting ≡ [] }
        ensures chain { number_block self.new.value ≡ chain_after (aes_encrypt key.now) self.old [] }
    {
        if !self.waiting.is_empty() {
            self.absorb_waiting(key);
        }
    }

    // Ends the last text, and answers the chain's value.
    pub(crate) fn finish(&mut self, key: &AesKey) -> u128
        requires { IsKey key.now }
        ensures { number_block result ≡ chain_after (aes_encrypt key.now) self.old [] }
    {
        self.fill(key);
        self.value
    }

    // Absorbs the bytes that wait, and zeros behind them.
    fn absorb_waiting(&mut self, key: &AesKey)
        requires { IsKey key.now }
        ensures empty { self.new.waiting ≡ [] }
        ensures full { length self.old.waiting ≡ 16 → (rest : List ℕ) →
            chain_after (aes_encrypt key.now) self.new rest ≡ chain_after (aes_encrypt key.now) self.old rest }
        ensures filled { 0 < length self.old.waiting →
            number_block self.new.value ≡ chain_after (aes_encrypt key.now) self.old [] }
    {
        let block = self.waiting.take();
        self.value = key.encrypt_number(self.value ^ block);
    }
}

impl Drop for Chain {
    fn drop(mut self) {
        self.wipe();
        let Chain { value, waiting } = self;
        release(value, waiting);
    }
}

// Lets a chain go, which is clear.
fn release(value: u128, waiting: BlockBuffer)
    requires value { value ≡ 0 }
    requires waiting { waiting ≡ [] }
{}
