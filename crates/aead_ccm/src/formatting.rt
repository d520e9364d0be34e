// The blocks that CCM makes of lengths and the nonce (SP 800-38C, appendix A).

ghost use Rattle.std.specs.Prelude.{◌≡◌, ℕ, ◌-◌, ◌+◌, ◌*◌, ◌^◌, ◌<◌, ◌≤◌, ◌∷◌, ◌++◌, length, take, drop, IsTrue, ◌↔◌};
ghost use Rattle.crypto_specs.specs.Prelude.{number_block, ccm_counter_block, control_block, encoded_data, flags, in_bytes};
ghost use Rattle.aead_ccm.specs.{Chaining.filled_block, Lengths.IsNonceLength, Lengths.IsPayloadLength, Lengths.IsTagLength};

use cipher_blocks::{number_of, put_at};

/// Whether a payload's length, in bytes, fits into the bytes that a nonce of this length leaves for
/// it.
pub fn permits_payload(nonce: usize, payload: usize) -> bool
    requires { IsNonceLength nonce }
    ensures { IsTrue result ↔ IsPayloadLength nonce payload }
{
    nonce == 7 || payload >> (8 * (15 - nonce)) == 0
}

/// The block B_0 (SP 800-38C, A.2.1), from the lengths in bytes of the tag, the associated data and
/// the payload.
pub fn control_block(tag: usize, nonce: &[u8], ad: usize, payload: usize) -> u128
    requires tag { IsTagLength tag }
    requires nonce { IsNonceLength (length nonce.now) }
    ensures { number_block result ≡ control_block tag nonce.now ad payload }
{
    nonce_block(flags(tag, nonce.len(), ad), nonce, payload as u64)
}

/// The counter block Ctr_i (SP 800-38C, A.3).
pub fn counter_block(nonce: &[u8], i: u64) -> u128
    requires { IsNonceLength (length nonce.now) }
    ensures { number_block result ≡ ccm_counter_block nonce.now i }
{
    nonce_block((14 - nonce.len()) as u8, nonce, i)
}

// The flags of B_0: whether there is associated data, and the lengths of the tag and of the
// payload's length (A.2.1).
fn flags(tag: usize, nonce: usize, ad: usize) -> u8
    requires tag { IsTagLength tag }
    requires nonce { IsNonceLength nonce }
    ensures { result ≡ flags tag (15 - nonce) ad }
{
    let lengths = (8 * ((tag - 2) / 2) + (14 - nonce)) as u8;
    if ad == 0 { lengths } else { lengths + 64 }
}

// A byte, a nonce, and a number in the bytes that are left.
fn nonce_block(first: u8, nonce: &[u8], number: u64) -> u128
    requires { IsNonceLength (length nonce.now) }
    ensures { number_block result ≡ first ∷ nonce.now ++ in_bytes (15 - length nonce.now) number }
{
    let mut block = u128::from(number).to_be_bytes();
    block[0] = first;
    put_at(&mut block, 1, nonce);
    number_of(&block)
}

// The first block of associated data, and how many bytes of it stand there. They come after their
// length, which has 2 bytes or, from 65,280 on, 6 (A.2.2).
pub(crate) fn data_front(ad: &[u8]) -> (u128, usize)
    requires some { 0 < length ad.now }
    requires limit { length ad.now < 2 ^ 32 }
    ensures within { result.1 ≤ length ad.now }
    ensures block { number_block result.0 ≡ filled_block (take 16 (encoded_data ad.now)) }
    ensures rest { drop result.1 ad.now ≡ drop 16 (encoded_data ad.now) }
{
    let mut block = [0; 16];
    if ad.len() < 0xff00 {
        let count = ad.len().min(14);
        put_at(&mut block, 0, &(ad.len() as u16).to_be_bytes());
        put_at(&mut block, 2, &ad[..count]);
        (number_of(&block), count)
    } else {
        put_at(&mut block, 0, &[0xff, 0xfe]);
        put_at(&mut block, 2, &(ad.len() as u32).to_be_bytes());
        put_at(&mut block, 6, &ad[..10]);
        (number_of(&block), 10)
    }
}
