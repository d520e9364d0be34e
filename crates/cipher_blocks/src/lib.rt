//! Blocks of 16 bytes, as numbers whose highest byte is the first one, and pieces of a text that are no
//! longer than a block.
//!
//! What is proved:
//!
//! - `number_of`, `set_number`, `xor_into` and their others: a block of 16 bytes as a number, and parts of blocks read,
//!   written, compared and xored.
#![tactic(auto)]

ghost use Rattle.std.specs.{Prelude.◌≡◌, Prelude.◌+◌, Prelude.◌-◌, Prelude.◌≤◌, Prelude.◌++◌, Prelude.◌↔◌, Prelude.IsTrue, Prelude.length, Prelude.take, Prelude.drop, Prelude.replicate, Int.to_be_bytes, Int.w64};
ghost use Rattle.crypto_specs.specs.Prelude.{xor_bytes, block_number, number_block};

/// The number of a block.
pub fn number_of(block: &[u8]) -> u128
    requires { length block.now ≡ 16 }
    ensures number { result ≡ block_number block.now }
    ensures block { number_block result ≡ block.now }
{
    let mut bytes = [0; 16];
    bytes.copy_from_slice(block);
    u128::from_be_bytes(bytes)
}

/// The number of a block, or of a part of one that zeros fill at its end.
pub fn filled_number(piece: &[u8]) -> u128
    requires { length piece.now ≤ 16 }
    ensures number { result ≡ block_number piece.now }
    ensures block { number_block result ≡ piece.now ++ replicate (16 - length piece.now) 0 }
{
    if piece.len() == 16 {
        return number_of(piece);
    }
    let mut block = [0; 16];
    put_at(&mut block, 0, piece);
    u128::from_be_bytes(block)
}

/// Whether a piece is the front of the block of this number. The comparison doesn't end at the first
/// byte that differs.
pub fn is_front(piece: &[u8], block: u128) -> bool
    requires { length piece.now ≤ 16 }
    ensures { IsTrue result ↔ (piece.now ≡ take (length piece.now) (number_block block)) }
{
    let front = filled_number(&block.to_be_bytes()[..piece.len()]);
    filled_number(piece) == front
}

/// Overwrites a piece by the front of the block of this number.
pub fn set_front(piece: &mut [u8], block: u128)
    requires { length piece.old ≤ 16 }
    ensures { piece.new ≡ take (length piece.old) (number_block block) }
{
    piece.copy_from_slice(&block.to_be_bytes()[..piece.len()]);
}

/// Overwrites a block by the one of this number.
pub fn set_number(block: &mut [u8], number: u128)
    requires { length block.old ≡ 16 }
    ensures { block.new ≡ number_block number }
{
    set_half(&mut block[..8], (number >> 64) as u64);
    set_half(&mut block[8..], (number % (1 << 64)) as u64);
}

// Overwrites half of a block by the bytes of a number. It is a function of its own since compilers store
// the halves of a number of 128 bits byte by byte where they see both at once.
fn set_half(half: &mut [u8], number: u64)
    requires { length half.old ≡ 8 }
    ensures { half.new ≡ to_be_bytes w64 number }
{
    half.copy_from_slice(&number.to_be_bytes());
}

/// Overwrites the bytes of a block from byte `at` on.
pub fn put_at(block: &mut [u8; 16], at: usize, piece: &[u8])
    requires { at + length piece.now ≤ 16 }
    ensures { block.new ≡ take at block.old ++ piece.now ++ drop (length piece.now) (drop at block.old) }
{
    block[at..at + piece.len()].copy_from_slice(piece);
}

/// Xors the front of the block of this number into a piece.
pub fn xor_into(piece: &mut [u8], block: u128)
    requires { length piece.old ≤ 16 }
    ensures { piece.new ≡ xor_bytes piece.old (number_block block) }
{
    if piece.len() == 16 {
        xor_half(&mut piece[..8], (block >> 64) as u64);
        xor_half(&mut piece[8..], (block % (1 << 64)) as u64);
    } else {
        xor_by_byte(piece, &block.to_be_bytes(), 0);
    }
}

// Xors the bytes of a number into half of a block.
fn xor_half(half: &mut [u8], mask: u64)
    requires { length half.old ≡ 8 }
    ensures { half.new ≡ xor_bytes half.old (to_be_bytes w64 mask) }
{
    set_half(half, half_number(half) ^ mask);
}

// The number of half of a block.
fn half_number(half: &[u8]) -> u64
    requires { length half.now ≡ 8 }
    ensures { to_be_bytes w64 result ≡ half.now }
{
    let mut bytes = [0; 8];
    bytes.copy_from_slice(half);
    u64::from_be_bytes(bytes)
}

/// Xors the bytes of a block from byte `from` on into a piece.
pub fn xor_bytes_into(piece: &mut [u8], block: &[u8; 16], from: usize)
    requires { from + length piece.old ≤ 16 }
    ensures { piece.new ≡ xor_bytes piece.old (drop from block.now) }
{
    if piece.len() == 16 {
        xor_into(piece, number_of(block));
    } else {
        xor_by_byte(piece, block, from);
    }
}

// The same, a byte at a time.
fn xor_by_byte(piece: &mut [u8], block: &[u8; 16], from: usize)
    requires { from + length piece.old ≤ 16 }
    ensures { piece.new ≡ xor_bytes piece.old (drop from block.now) }
{
    'bytes: for i in 0..piece.len() {
        piece[i] ^= block[from + i];
    }
}
