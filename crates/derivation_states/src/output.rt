// The output of a derivation: one list of bytes, whose front is taken piece by piece.

ghost use Rattle.std.specs.Prelude.{◌≡◌, ◌+◌, ◌*◌, ◌≤◌, ◌<◌, ◌==◌, [], ◌∷◌, ℕ, not, IfOk, IfErr, true, is_some, length, take, drop, min, bytes_eq};
ghost use Rattle.psa_status.specs.declared.Status.TheVariants.{InsufficientData};
ghost use Rattle.hash_ops.specs.Hashes.{digest_length};
ghost use Rattle.store_model.specs.Prelude.{DerivationWork, SetCapacity, derivation_step, derivation_work, next_derived, without};
ghost use Rattle.service_calls.specs.Answers.{plain_reply};
ghost use Rattle.multipart.specs.Phases.{LeadsTo};
ghost use Rattle.multipart.specs.declared.Phase.TheVariants as phase;
ghost use Rattle.derivation_states.specs.{Inputs.HoldsInputs, Streams.block_at};
ghost use Rattle.key_policy.specs.Names.{NamesDerivation, block_limit};

use crate::KEY_ROOM;
use crate::inputs::Inputs;
use hash_ops::Hash;
use kdf_core::{hkdf_block, pbkdf2_block};
use key_policy::{KeyDerivation, Scheme};
use multipart::is_equal;
use psa_status::Status;

/// The bytes that can still be had, `capacity` of them. The current block is the one that the last byte was taken
/// from: the first `length` bytes of `block`, of which `used` are taken. Its number is 0, and its length too, before
/// the first byte.
#[derive(Drop)]
pub struct OutputState {
    pub kdf: KeyDerivation,
    pub capacity: u64,
    number: u32,
    used: usize,
    length: usize,
    block: [u8; 64],
    ghost in_block: { used ≤ length },
    ghost in_buffer: { length ≤ 64 },
    ghost in_blocks: { capacity + digest_length kdf.hash * number + used ≤ digest_length kdf.hash * block_limit kdf.scheme + length },
}

impl OutputState {
    ghost use Rattle.derivation_states.specs.Outputs.{HoldsOutput, IsClearOutput, HasSecret, IsRunning, last_taken};

    /// No bytes.
    pub fn new() -> OutputState
        ensures { IsClearOutput result }
    {
        OutputState {
            kdf: KeyDerivation {
                scheme: Scheme::Hkdf,
                hash: Hash::Sha256,
            },
            capacity: 0,
            number: 0,
            used: 0,
            length: 0,
            block: [0; 64],
        }
    }

    /// Makes it no bytes, and the buffer zeros.
    pub fn wipe(&mut self)
        ensures { IsClearOutput self.new }
    {
        *self = OutputState::new();
    }

    /// Makes it all bytes that a derivation can give.
    pub fn start(&mut self, kdf: KeyDerivation)
        ensures { (alg : ℕ) → NamesDerivation alg kdf → HoldsOutput self.new (derivation_work alg) }
    {
        self.wipe();
        self.kdf = kdf;
        self.capacity = kdf.hash.length() as u64 * u64::from(kdf.scheme.block_limit());
    }

    /// Whether a byte was taken.
    pub fn has_begun(&self) -> bool
        ensures { (w : DerivationWork) → HoldsOutput self.now w → result ≡ not (w.taken == 0) }
    {
        self.number != 0
    }

    /// Lowers how many bytes can be had. `InvalidArgument` where fewer can be had already.
    pub fn lower_capacity(&mut self, capacity: u64) -> Result<(), Status>
        ensures holds { (w : DerivationWork) → HoldsOutput self.old w
            → LeadsTo phase.Active (HoldsOutput self.new) (derivation_step w (SetCapacity capacity)).operation }
        ensures reply { (w : DerivationWork) → HoldsOutput self.old w
            → plain_reply result ≡ (derivation_step w (SetCapacity capacity)).reply }
    {
        if capacity > self.capacity {
            return Err(Status::InvalidArgument);
        }
        self.capacity = capacity;
        Ok(())
    }

    /// `InsufficientData` where fewer than `count` bytes are left; then none is left.
    pub fn check_capacity(&mut self, count: usize) -> Result<(), Status>
        ensures enough { IfOk result (λ _. (count ≤ self.old.capacity) × (self.new ≡ self.old)) }
        ensures exhausted { IfErr result (λ status. (status ≡ InsufficientData) × (self.old.capacity < count)) }
        ensures holds { (w : DerivationWork) → HoldsOutput self.old w
            → IfErr result (λ _. HoldsOutput self.new (record w { capacity = 0 })) }
    {
        if count as u64 > self.capacity {
            self.capacity = 0;
            return Err(Status::InsufficientData);
        }
        Ok(())
    }

    // Writes the block that follows the current one to the front of `out`, and answers its length.
    fn write_next(&self, inputs: &Inputs, out: &mut [u8; 64]) -> usize
        requires { self.now.number < block_limit self.now.kdf.scheme }
        ensures length { result ≡ digest_length self.now.kdf.hash }
        ensures block { (w : DerivationWork) → HoldsInputs inputs.now w → IsRunning self.now w → is_some w.secret ≡ true
            → take result out.new ≡ block_at w (self.now.number + 1) }
    {
        let hash = self.kdf.hash;
        let key = inputs.key.as_slice();
        let number = self.number + 1;
        match self.kdf.scheme {
            Scheme::Hkdf => {
                let previous = &self.block[..self.length];
                hkdf_block(
                    hash,
                    key,
                    previous,
                    inputs.info.as_slice(),
                    number as u8,
                    out,
                )
            }
            Scheme::Pbkdf2 => {
                let turns = inputs.cost.unwrap_or(1);
                pbkdf2_block(hash, key, inputs.salt.as_slice(), turns, number, out)
            }
        }
    }

    // Makes the next block the current one where all bytes of the current one are taken.
    fn make_ready(&mut self, inputs: &Inputs)
        requires { 0 < self.old.capacity }
        ensures some { self.new.used < self.new.length }
        ensures capacity { self.new.capacity ≡ self.old.capacity }
        ensures running { (w : DerivationWork) → HoldsInputs inputs.now w → IsRunning self.old w
            → is_some w.secret ≡ true → IsRunning self.new w }
    {
        if self.used == self.length {
            let mut next = [0; 64];
            self.length = self.write_next(inputs, &mut next);
            self.number += 1;
            self.used = 0;
            self.block = next;
            next.fill(0);
        }
    }

    // Takes what is left of the current block, or the next one where nothing is, but no more than `most` bytes, and answers
    // how many these are: the last ones that are taken of the block.
    fn take_piece(&mut self, inputs: &Inputs, most: usize) -> usize
        requires some { 1 ≤ most }
        requires enough { most ≤ self.old.capacity }
        ensures some { 1 ≤ result }
        ensures most { result ≤ most }
        ensures taken { result ≤ self.new.used }
        ensures capacity { self.new.capacity + result ≡ self.old.capacity }
        ensures holds { (w : DerivationWork) → HasSecret inputs.now self.old w → HasSecret inputs.now self.new (without w result) }
        ensures bytes { (w : DerivationWork) → HasSecret inputs.now self.old w → next_derived w result ≡ last_taken self.new result }
    {
        self.make_ready(inputs);
        let count = most.min(self.length - self.used);
        self.used += count;
        self.capacity -= count as u64;
        count
    }

    /// Takes as many bytes as `out` has, into it.
    pub fn fill(&mut self, inputs: &Inputs, out: &mut [u8])
        requires { length out.old ≤ self.old.capacity }
        ensures capacity { self.new.capacity + length out.old ≡ self.old.capacity }
        ensures holds { (w : DerivationWork) → HasSecret inputs.now self.old w → HasSecret inputs.now self.new (without w (length out.old)) }
        ensures bytes { (w : DerivationWork) → HasSecret inputs.now self.old w → out.new ≡ next_derived w (length out.old) }
    {
        let mut filled = 0;
        'pieces: while filled < out.len() {
            let count = self.take_piece(inputs, out.len() - filled);
            let piece = &self.block[self.used - count..self.used];
            out[filled..filled + count].copy_from_slice(piece);
            filled += count;
        }
    }

    // Takes bytes that nobody sees.
    fn skip(&mut self, inputs: &Inputs, count: usize)
        requires { count ≤ self.old.capacity }
        ensures { (w : DerivationWork) → HasSecret inputs.now self.old w → HasSecret inputs.now self.new (without w count) }
    {
        let mut skipped = 0;
        'pieces: while skipped < count {
            skipped += self.take_piece(inputs, count - skipped);
        }
    }

    /// Takes `count` bytes, of which the first ones are written to the front of `out` as far as it has room, and answers
    /// how many these are.
    pub fn fill_front(&mut self, inputs: &Inputs, count: usize, out: &mut [u8; KEY_ROOM]) -> usize
        requires { count ≤ self.old.capacity }
        ensures written { result ≡ min count 1025 }
        ensures holds { (w : DerivationWork) → HasSecret inputs.now self.old w → HasSecret inputs.now self.new (without w count) }
        ensures length { (w : DerivationWork) → HasSecret inputs.now self.old w → length (next_derived w count) ≡ count }
        ensures front { (w : DerivationWork) → HasSecret inputs.now self.old w → take result out.new ≡ take result (next_derived w count) }
        ensures rest { drop result out.new ≡ drop result out.old }
    {
        let written = count.min(KEY_ROOM);
        self.fill(inputs, &mut out[..written]);
        self.skip(inputs, count - written);
        written
    }

    /// Takes as many bytes as were expected, and answers whether they are those.
    pub fn gives(&mut self, inputs: &Inputs, expected: &[u8]) -> bool
        requires { length expected.now ≤ self.old.capacity }
        ensures holds { (w : DerivationWork) → HasSecret inputs.now self.old w → HasSecret inputs.now self.new (without w (length expected.now)) }
        ensures same { (w : DerivationWork) → HasSecret inputs.now self.old w → result ≡ bytes_eq expected.now (next_derived w (length expected.now)) }
    {
        let mut same = true;
        let mut compared = 0;
        'pieces: while compared < expected.len() {
            let count = self.take_piece(inputs, expected.len() - compared);
            let next = compared + count;
            let piece = &self.block[self.used - count..self.used];
            same &= is_equal(&expected[compared..next], piece);
            compared = next;
        }
        same
    }
}
