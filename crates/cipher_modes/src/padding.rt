ghost use Rattle.std.specs.Prelude.{◌≡◌, ◌+◌, ◌<◌, ◌≤◌, ◌⊎◌, take, Some, None, MatchOption};
ghost use Rattle.crypto_specs.specs.Prelude.{pkcs7_padded, pkcs7_unpadded};

use cipher_blocks::{is_front, number_of};

/// Fills a block whose first `used` bytes are the end of a message with PKCS#7 padding (RFC 5652
/// section 6.3): 1 to 16 bytes, each of which is their number.
pub fn pad(used: usize, block: &mut [u8; 16])
    requires { used < 16 }
    ensures { block.new ≡ pkcs7_padded (take used block.old) }
{
    let count = (16 - used) as u8;
    block[used..].fill(count);
}

// How many bytes of a block stand before its padding, by its last byte. A byte that ends no padding is
// taken for a 1, which it then differs from.
fn kept_before(last: u8) -> usize
    ensures bound { result < 16 }
    ensures count { 1 ≤ last → last ≤ 16 → result + last ≡ 16 }
    ensures other { (last ≡ 0) ⊎ (16 < last) → result ≡ 15 }
{
    if last == 0 || last > 16 {
        15
    } else {
        16 - usize::from(last)
    }
}

/// How many bytes of the last block of a message are left without its PKCS#7 padding, which are 0 to
/// 15; `None` exactly where no padding ends the block. All of the block is compared, whatever it holds.
pub fn unpad(block: &[u8; 16]) -> Option<usize>
    ensures { MatchOption result (pkcs7_unpadded block.now ≡ None)
        (λ kept. (kept < 16) × (pkcs7_unpadded block.now ≡ Some (take kept block.now))) }
{
    let kept = kept_before(block[15]);
    let mut padded = *block;
    pad(kept, &mut padded);
    let fits = is_front(&padded, number_of(block));
    padded.fill(0);
    if fits { Some(kept) } else { None }
}
