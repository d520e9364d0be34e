// A text of which whole blocks are enciphered or deciphered as they come.
ghost use Rattle.std.specs.Prelude.{◌≡◌, ◌+◌, ◌<◌, ◌≤◌, ◌%◌, ℕ, List, [], ◌++◌, Bool, true, length, replicate, take};
ghost use Rattle.crypto_specs.specs.Prelude.{IsKey, pkcs7_padded};
ghost use Rattle.store_model.specs.Prelude.{total_limit};
ghost use Rattle.cipher_states.specs.{Ways.chains, Ways.processed, Modes.due_bytes};

use crate::ways::Way;
use aes_core::AesKey;
use cipher_modes::pad;

/// A text under ECB or CBC. The first `used` bytes of `kept` are those that wait for the rest of their block; where
/// `keeps_last`, a whole block waits until more text comes, since it may be the last one.
#[derive(Drop)]
pub struct BlockText {
    way: Way,
    keeps_last: bool,
    chain: [u8; 16],
    kept: [u8; 16],
    used: usize,
    ghost in_range: { used ≤ 16 },
}

impl BlockText {
    ghost use Rattle.cipher_states.specs.Texts.{HoldsBlockText, IsClearText, RunsBlocks};

    /// One that isn't in use: its buffers are zeros.
    pub fn clear() -> BlockText
        ensures { IsClearText result }
    {
        BlockText::new(Way::EcbEncrypt, false, &[0; 16])
    }

    /// The empty text, of which CBC chains the first block with this one.
    pub fn new(way: Way, keeps_last: bool, chain: &[u8; 16]) -> BlockText
        ensures chain { result.chain ≡ chain.now }
        ensures kept { result.kept ≡ replicate 16 0 }
        ensures used { result.used ≡ 0 }
        ensures runs { (key iv : List ℕ) → (chains way ≡ true → chain.now ≡ iv) →
            RunsBlocks result way keeps_last key iv [] }
    {
        BlockText {
            way,
            keeps_last,
            chain: *chain,
            kept: [0; 16],
            used: 0,
        }
    }

    /// Clears the buffers.
    pub fn wipe(&mut self)
        ensures { IsClearText self.new }
    {
        *self = BlockText::clear();
    }

    /// How many bytes of output so many bytes of input give.
    pub fn due(&self, more: usize) -> usize
        requires { more ≤ total_limit }
        ensures { result ≡ due_bytes self.now.keeps_last (self.now.used + more) }
    {
        let bytes = self.used + more;
        if self.keeps_last {
            16 * (bytes.saturating_sub(1) / 16)
        } else {
            16 * (bytes / 16)
        }
    }

    // Keeps a piece behind what is kept.
    fn keep(&mut self, piece: &[u8])
        requires { self.old.used + length piece.now ≤ 16 }
        ensures way { self.new.way ≡ self.old.way }
        ensures keeps_last { self.new.keeps_last ≡ self.old.keeps_last }
        ensures chain { self.new.chain ≡ self.old.chain }
        ensures used { self.new.used ≡ self.old.used + length piece.now }
        ensures kept { take self.new.used self.new.kept ≡ take self.old.used self.old.kept ++ piece.now }
    {
        let end = self.used + piece.len();
        self.kept[self.used..end].copy_from_slice(piece);
        self.used = end;
    }

    // Fills a buffer with what is kept and the front of a piece behind it, and keeps the rest of the piece.
    fn gather(&mut self, piece: &[u8], out: &mut [u8])
        requires enough { length out.old ≤ self.old.used + length piece.now }
        requires rest { self.old.used + length piece.now ≤ length out.old + 16 }
        requires blocks { length out.old % 16 ≡ 0 }
        ensures way { self.new.way ≡ self.old.way }
        ensures keeps_last { self.new.keeps_last ≡ self.old.keeps_last }
        ensures chain { self.new.chain ≡ self.old.chain }
        ensures used { length out.old + self.new.used ≡ self.old.used + length piece.now }
        ensures text { out.new ++ take self.new.used self.new.kept ≡ take self.old.used self.old.kept ++ piece.now }
    {
        if out.is_empty() {
            self.keep(piece);
        } else {
            let (front, rest) = piece.split_at(out.len() - self.used);
            join(&self.kept[..self.used], front, out);
            self.used = 0;
            self.keep(rest);
        }
    }

    /// Takes in a piece, and fills a buffer with the output that it makes due.
    pub fn update(&mut self, key: &AesKey, piece: &[u8], out: &mut [u8])
        requires key { IsKey key.now }
        requires room { length out.old ≡ due_bytes self.old.keeps_last (self.old.used + length piece.now) }
        ensures out { out.new ≡ processed self.old.way key.now self.old.chain
            (take (length out.old) (take self.old.used self.old.kept ++ piece.now)) }
        ensures runs { (way : Way) (keeps_last : Bool) (iv text : List ℕ) →
            RunsBlocks self.old way keeps_last key.now iv text
            → RunsBlocks self.new way keeps_last key.now iv (text ++ piece.now) }
    {
        self.gather(piece, out);
        self.way.process(key, &mut self.chain, out);
    }

    /// The last block of the text with its padding (PKCS#7), enciphered.
    pub fn padded(&self, key: &AesKey) -> [u8; 16]
        requires { IsKey key.now }
        ensures { self.now.used < 16 →
            result ≡ processed self.now.way key.now self.now.chain (pkcs7_padded (take self.now.used self.now.kept)) }
    {
        let mut block = self.kept;
        pad(self.used % 16, &mut block);
        let mut chain = self.chain;
        self.way.process(key, &mut chain, &mut block);
        block
    }

    /// The whole block that is kept, deciphered.
    pub fn last(&self, key: &AesKey) -> [u8; 16]
        requires { IsKey key.now }
        ensures { self.now.used ≡ 16 →
            result ≡ processed self.now.way key.now self.now.chain (take self.now.used self.now.kept) }
    {
        let mut block = self.kept;
        let mut chain = self.chain;
        self.way.process(key, &mut chain, &mut block);
        block
    }
}

// Fills a buffer with two pieces.
fn join(first: &[u8], second: &[u8], out: &mut [u8])
    requires { length first.now + length second.now ≡ length out.old }
    ensures { out.new ≡ first.now ++ second.now }
{
    let (front, back) = out.split_at_mut(first.len());
    front.copy_from_slice(first);
    back.copy_from_slice(second);
}
