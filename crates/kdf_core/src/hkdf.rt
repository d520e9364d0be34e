// HKDF (RFC 5869).

ghost use Rattle.std.specs.Prelude.{◌≡◌, ◌≤◌, ◌-◌, [], ◌∷◌, ◌++◌, drop, take};
ghost use Rattle.crypto_specs.specs.Prelude.{extract, expand_block, hmac};
ghost use Rattle.hash_ops.specs.Hashes.{block_length, digest_length, hash_of};

use hash_ops::Hash;
use hmac_ops::{HmacState, hmac};

/// Writes the pseudorandom key of a secret (RFC 5869 section 2.2) to the front of `out`, whose rest
/// stays, and answers its length. A salt of no bytes is an absent one.
pub fn hkdf_extract(which: Hash, salt: &[u8], secret: &[u8], out: &mut [u8; 64]) -> usize
    ensures length { result ≡ digest_length which }
    ensures key { take result out.new ≡ extract (hash_of which) (block_length which) salt.now secret.now }
    ensures rest { drop result out.new ≡ drop result out.old }
{
    // HMAC fills a key with zeros, so that no bytes and the zeros of an absent salt are one key.
    hmac(which, salt, secret, out)
}

/// Writes the block `n` of keying material, from 1, to the front of `out`, whose rest stays, and
/// answers its length: T(n), where `previous` is T(n-1), and of no bytes at first (RFC 5869 section
/// 2.3).
pub fn hkdf_block(
    which: Hash,
    prk: &[u8],
    previous: &[u8],
    info: &[u8],
    n: u8,
    out: &mut [u8; 64],
) -> usize
    ensures length { result ≡ digest_length which }
    ensures code { take result out.new ≡ hmac (hash_of which) (block_length which) prk.now (previous.now ++ info.now ++ n ∷ []) }
    ensures block { 1 ≤ n → previous.now ≡ expand_block (hash_of which) (block_length which) prk.now info.now (n - 1)
        → take result out.new ≡ expand_block (hash_of which) (block_length which) prk.now info.now n }
    ensures rest { drop result out.new ≡ drop result out.old }
{
    let mut state = HmacState::new(which, prk);
    state.update(previous);
    state.update(info);
    state.update(&[n]);
    state.finish(out)
}
