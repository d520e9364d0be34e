// The steps of the equivalent inverse cipher on the columns of a state (FIPS 197 section 5.3.5).

ghost use Rattle.std.specs.{Prelude.◌≡◌, Prelude.[], Prelude.◌∷◌, Int.byte_at};
ghost use Rattle.crypto_specs.specs.Prelude.{inv_sbox, inv_sub_bytes, inv_shift_rows, inv_mix_columns};
ghost use Rattle.aes_core.specs.Words.{word_bytes};

use crate::columns::word_of;
use crate::inv_mixed_tables::inv_mixed_column;
use crate::tables::inv_sub_byte;

// InvShiftRows, InvSubBytes and InvMixColumns.
pub(crate) fn inv_mixed_columns(s: [u32; 4]) -> [u32; 4]
    ensures { word_bytes result ≡ inv_mix_columns (inv_sub_bytes (inv_shift_rows (word_bytes s))) }
{
    [
        inv_mixed_column(s[0], s[3], s[2], s[1]),
        inv_mixed_column(s[1], s[0], s[3], s[2]),
        inv_mixed_column(s[2], s[1], s[0], s[3]),
        inv_mixed_column(s[3], s[2], s[1], s[0]),
    ]
}

// A column of the last round: row 0 of `a`, row 1 of `b`, row 2 of `c`, row 3 of `d`.
fn inv_last_column(a: u32, b: u32, c: u32, d: u32) -> u32
    ensures { word_bytes (result ∷ []) ≡ inv_sbox (byte_at 3 a) ∷ inv_sbox (byte_at 2 b) ∷ inv_sbox (byte_at 1 c) ∷ inv_sbox (byte_at 0 d) ∷ [] }
{
    word_of(&[
        inv_sub_byte(a.to_be_bytes()[0]),
        inv_sub_byte(b.to_be_bytes()[1]),
        inv_sub_byte(c.to_be_bytes()[2]),
        inv_sub_byte(d.to_be_bytes()[3]),
    ])
}

// InvShiftRows and InvSubBytes, as the last round has them.
pub(crate) fn inv_last_columns(s: [u32; 4]) -> [u32; 4]
    ensures { word_bytes result ≡ inv_sub_bytes (inv_shift_rows (word_bytes s)) }
{
    [
        inv_last_column(s[0], s[3], s[2], s[1]),
        inv_last_column(s[1], s[0], s[3], s[2]),
        inv_last_column(s[2], s[1], s[0], s[3]),
        inv_last_column(s[3], s[2], s[1], s[0]),
    ]
}
