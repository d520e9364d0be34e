// PBKDF2 (RFC 8018 section 5.2).

ghost use Rattle.std.specs.{Prelude.◌≡◌, Prelude.◌≤◌, Prelude.ℕ, Prelude.List, Prelude.◌++◌, Prelude.drop, Prelude.length, Prelude.replicate, Prelude.take, Int.w32, Int.to_be_bytes};
ghost use Rattle.crypto_specs.specs.Prelude.{xor_bytes, hmac, pbkdf2_block};
ghost use Rattle.hash_ops.specs.{Hashes.block_length, Hashes.digest_length, Hashes.hash_of, declared.Hash.TheVariants.Sha256};
ghost use Rattle.hmac_ops.specs.{ShortMessages.IsShortMessageKey, States.IsHmacKey};
ghost use Rattle.kdf_core.specs.TurnKeys.{IsTurnKey, IsWipedTurnKey};

use hash_ops::Hash;
use hmac_ops::{HmacKey, ShortMessageKey};

// Xors the bytes of `turn` into those of `sum`.
fn xor_into(sum: &mut [u8; 64], turn: &[u8; 64])
    ensures { sum.new ≡ xor_bytes sum.old turn.now }
{
    'bytes: for i in 0..64 {
        sum[i] ^= turn[i];
    }
}

// Writes the first turn of block `n` to the front of `turn`, whose rest stays, and answers its length.
fn first_turn(key: &HmacKey, salt: &[u8], n: u32, turn: &mut [u8; 64]) -> usize
    ensures bound { result ≤ 64 }
    ensures length { (which : Hash) (k : List ℕ) → IsHmacKey key.now which k → result ≡ digest_length which }
    ensures code { (which : Hash) (k : List ℕ) → IsHmacKey key.now which k
        → take result turn.new ≡ hmac (hash_of which) (block_length which) k (salt.now ++ to_be_bytes w32 n) }
    ensures rest { drop result turn.new ≡ drop result turn.old }
{
    let mut state = key.start();
    state.update(salt);
    state.update(&n.to_be_bytes());
    state.finish(turn)
}

// Moves a code to the front of `turn`, whose rest stays. Where it stood are zeros.
fn move_to_front(code: &mut [u8; 32], turn: &mut [u8; 64])
    ensures front { take 32 turn.new ≡ code.old }
    ensures rest { drop 32 turn.new ≡ drop 32 turn.old }
    ensures wiped { code.new ≡ replicate 32 0 }
{
    turn[..32].copy_from_slice(code);
    code.fill(0);
}

// Writes the next turn under HMAC-SHA-256 over the front of `turn`, whose rest stays, and answers its length.
fn short_turn(key: &ShortMessageKey, turn: &mut [u8; 64]) -> usize
    ensures length { result ≡ 32 }
    ensures code { (k : List ℕ) → IsShortMessageKey key.now k
        → take 32 turn.new ≡ hmac (hash_of Sha256) (block_length Sha256) k (take 32 turn.old) }
    ensures rest { drop 32 turn.new ≡ drop 32 turn.old }
{
    let mut code = key.code(turn.first_chunk::<32>().unwrap());
    move_to_front(&mut code, turn);
    32
}

// Writes the next turn, from one of `length` bytes, over the front of `turn`, whose rest stays, and answers its length.
fn turn_in_pieces(key: &HmacKey, turn: &mut [u8; 64], length: usize) -> usize
    requires { length ≤ 64 }
    ensures bound { result ≤ 64 }
    ensures length { (which : Hash) (k : List ℕ) → IsHmacKey key.now which k → result ≡ digest_length which }
    ensures code { (which : Hash) (k : List ℕ) → IsHmacKey key.now which k
        → take result turn.new ≡ hmac (hash_of which) (block_length which) k (take length turn.old) }
    ensures rest { drop result turn.new ≡ drop result turn.old }
{
    let mut state = key.start();
    state.update(&turn[..length]);
    state.finish(turn)
}

// The key of the turns after the first, whose messages are as long as its codes. HMAC-SHA-256 has a form for
// these alone; a key of another function takes them in pieces.
#[derive(Drop)]
enum TurnKey {
    Sha256(ShortMessageKey),
    Other(HmacKey),
}

impl TurnKey {
    fn new(which: Hash, password: &[u8]) -> TurnKey
        ensures { IsTurnKey result which password.now }
    {
        match which {
            Hash::Sha256 => TurnKey::Sha256(ShortMessageKey::new(password)),
            _ => TurnKey::Other(HmacKey::new(which, password)),
        }
    }

    // Writes the code of a turn of `length` bytes over the front of `turn`, whose rest stays, and answers its length.
    fn next(&self, turn: &mut [u8; 64], length: usize) -> usize
        requires { length ≤ 64 }
        ensures bound { result ≤ 64 }
        ensures length { (which : Hash) (k : List ℕ) → IsTurnKey self.now which k → result ≡ digest_length which }
        ensures code { (which : Hash) (k : List ℕ) → IsTurnKey self.now which k → length ≡ digest_length which
            → take result turn.new ≡ hmac (hash_of which) (block_length which) k (take length turn.old) }
        ensures rest { drop result turn.new ≡ drop result turn.old }
    {
        match self {
            TurnKey::Sha256(key) => short_turn(key, turn),
            TurnKey::Other(key) => turn_in_pieces(key, turn, length),
        }
    }

    // Forgets the key.
    fn wipe(&mut self)
        ensures { IsWipedTurnKey self.new }
    {
        match self {
            TurnKey::Sha256(key) => key.wipe(),
            TurnKey::Other(key) => key.wipe(),
        }
    }
}

/// Writes the block `n` of a derived key, from 1, to the front of `out`, whose rest stays, and answers
/// its length: T_n, the sum of `cost` turns (RFC 8018 section 5.2, step 3).
pub fn pbkdf2_block(
    which: Hash,
    password: &[u8],
    salt: &[u8],
    cost: u32,
    n: u32,
    out: &mut [u8; 64],
) -> usize
    requires cost { 1 ≤ cost }
    requires number { 1 ≤ n }
    ensures length { result ≡ digest_length which }
    ensures block { take result out.new ≡ pbkdf2_block (hash_of which) (block_length which) password.now salt.now cost n }
    ensures rest { drop result out.new ≡ drop result out.old }
{
    let mut first_key = HmacKey::new(which, password);
    // Past the turn are zeros, which leave what they are xored into.
    let mut turn = [0; 64];
    let length = first_turn(&first_key, salt, n, &mut turn);
    first_key.wipe();
    out[..length].copy_from_slice(&turn[..length]);
    let mut key = TurnKey::new(which, password);
    'turns: for i in 1..cost {
        key.next(&mut turn, length);
        xor_into(out, &turn);
    }
    key.wipe();
    turn.fill(0);
    release(&turn);
    length
}

// What is let go of the last turn: zeros.
fn release(turn: &[u8; 64])
    requires { turn.now ≡ replicate 64 0 }
{}
