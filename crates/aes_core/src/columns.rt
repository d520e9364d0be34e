// A state as its four columns, each a word whose highest byte is row 0 (FIPS 197 section 3.5).

ghost use Rattle.std.specs.{Prelude.◌≡◌, Prelude.◌<◌, Prelude.[], Prelude.◌∷◌, Int.byte_at};
ghost use Rattle.crypto_specs.specs.Prelude.{number_block, sbox, sub_bytes, shift_rows, mix_columns, add_round_key};
ghost use Rattle.aes_core.specs.Words.{word_bytes};

use crate::mixed_tables::mixed_column;
use crate::tables::sub_byte;

// The word of four bytes.
pub(crate) fn word_of(bytes: &[u8; 4]) -> u32
    ensures { word_bytes (result ∷ []) ≡ bytes.now }
{
    u32::from_be_bytes(*bytes)
}

// The columns of a block, and the block of columns, where a block is a number whose highest byte is
// the first one.
pub(crate) fn columns_of(block: u128) -> [u32; 4]
    ensures { word_bytes result ≡ number_block block }
{
    let left = (block >> 64) as u64;
    let right = (block % (1 << 64)) as u64;
    [
        (left >> 32) as u32,
        (left % (1 << 32)) as u32,
        (right >> 32) as u32,
        (right % (1 << 32)) as u32,
    ]
}

pub(crate) fn block_of(s: &[u32; 4]) -> u128
    ensures { number_block result ≡ word_bytes s.now }
{
    let [a, b, c, d] = *s;
    let left = ((a as u64) << 32) + b as u64;
    let right = ((c as u64) << 32) + d as u64;
    ((left as u128) << 64) + right as u128
}

// AddRoundKey with round key `round` of the schedule.
pub(crate) fn add_round_key(schedule: &[u32; 60], s: [u32; 4], round: usize) -> [u32; 4]
    requires { round < 15 }
    ensures { word_bytes result ≡ add_round_key (word_bytes schedule.now) (word_bytes s) round }
{
    let at = 4 * round;
    [
        s[0] ^ schedule[at],
        s[1] ^ schedule[at + 1],
        s[2] ^ schedule[at + 2],
        s[3] ^ schedule[at + 3],
    ]
}

// SubBytes, ShiftRows and MixColumns.
pub(crate) fn mixed_columns(s: [u32; 4]) -> [u32; 4]
    ensures { word_bytes result ≡ mix_columns (shift_rows (sub_bytes (word_bytes s))) }
{
    [
        mixed_column(s[0], s[1], s[2], s[3]),
        mixed_column(s[1], s[2], s[3], s[0]),
        mixed_column(s[2], s[3], s[0], s[1]),
        mixed_column(s[3], s[0], s[1], s[2]),
    ]
}

// A column of the last round: row 0 of `a`, row 1 of `b`, row 2 of `c`, row 3 of `d`.
fn last_column(a: u32, b: u32, c: u32, d: u32) -> u32
    ensures { word_bytes (result ∷ []) ≡ sbox (byte_at 3 a) ∷ sbox (byte_at 2 b) ∷ sbox (byte_at 1 c) ∷ sbox (byte_at 0 d) ∷ [] }
{
    word_of(&[
        sub_byte(a.to_be_bytes()[0]),
        sub_byte(b.to_be_bytes()[1]),
        sub_byte(c.to_be_bytes()[2]),
        sub_byte(d.to_be_bytes()[3]),
    ])
}

// SubBytes and ShiftRows, as the last round has them.
pub(crate) fn last_columns(s: [u32; 4]) -> [u32; 4]
    ensures { word_bytes result ≡ shift_rows (sub_bytes (word_bytes s)) }
{
    [
        last_column(s[0], s[1], s[2], s[3]),
        last_column(s[1], s[2], s[3], s[0]),
        last_column(s[2], s[3], s[0], s[1]),
        last_column(s[3], s[0], s[1], s[2]),
    ]
}
