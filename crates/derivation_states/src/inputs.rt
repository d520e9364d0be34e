// The inputs of a derivation.

ghost use Rattle.std.specs.{Prelude.◌≡◌, Prelude.◌≤◌, Prelude.◌+◌, Prelude.◌==◌, Prelude.ℕ, Prelude.not, Prelude.IfOk, Prelude.OnOk, Prelude.true, Prelude.false, Prelude.is_some, Prelude.length, Option.ForSome, Result.result_err};
ghost use Rattle.psa_status.specs.Rows.{first_row, unless};
ghost use Rattle.store_model.specs.Prelude.{DerivationWork, input_bytes_rows, input_integer_rows, is_due, is_salt_due, is_secret_due, key_step, key_step_rows, takes_bytes, with_bytes, with_key};
ghost use Rattle.key_policy.specs.Names.{NamesDerivation};

use crate::input::Input;
use kdf_core::hkdf_extract;
use key_policy::steps::{COST, INFO, PASSWORD, SALT, SECRET};
use key_policy::{KeyDerivation, Scheme};
use psa_status::{Memory, Status};
use std::alloc::Global;

// The most bytes of an input.
const LONGEST_INPUT: usize = 1024;

// The most turns of a block of PBKDF2.
const HIGHEST_COST: u64 = 100_000;

/// What was given to a derivation: the cost, the salt, the key of the HMAC that makes the blocks, and the info. The key
/// is HKDF's pseudorandom key of the secret, or PBKDF2's password.
#[derive(Drop)]
pub struct Inputs {
    pub cost: Option<u32>,
    pub salt: Input,
    pub key: Input,
    pub info: Input,
    pub by_key: bool,
    ghost some_turns: { ForSome cost (λ turns. 1 ≤ turns) },
}

impl Inputs {
    ghost use Rattle.derivation_states.specs.Inputs.{HoldsInputs, IsClearInputs, stands_at};

    /// No inputs; `Memory` where there is no room for their buffers.
    pub fn new(alloc: Global) -> Result<Inputs, Memory>
        ensures { IfOk result (λ inputs. IsClearInputs inputs) }
    {
        Ok(Inputs {
            cost: None,
            salt: Input::new(alloc)?,
            key: Input::new(alloc)?,
            info: Input::new(alloc)?,
            by_key: false,
        })
    }

    /// Forgets all inputs, and makes their buffers zeros.
    pub fn wipe(&mut self)
        ensures { IsClearInputs self.new }
    {
        self.cost = None;
        self.salt.wipe();
        self.key.wipe();
        self.info.wipe();
        self.by_key = false;
    }

    // Whether a salt may come.
    fn is_salt_due(&self, kdf: KeyDerivation) -> bool
        ensures { (w : DerivationWork) → NamesDerivation w.alg kdf → HoldsInputs self.now w → result ≡ is_salt_due w }
    {
        let may_come = if kdf.scheme.is_hkdf() {
            !self.salt.is_given()
        } else {
            self.cost.is_some()
        };
        !self.key.is_given() && may_come
    }

    // Whether a secret or a password may come.
    fn is_secret_due(&self, kdf: KeyDerivation) -> bool
        ensures { (w : DerivationWork) → NamesDerivation w.alg kdf → HoldsInputs self.now w → result ≡ is_secret_due w }
    {
        !self.key.is_given() && (kdf.scheme.is_hkdf() || self.salt.is_given())
    }

    // The length of what stands at a step already, to which more is added.
    fn length_at(&self, step: u16) -> usize
        ensures value { result ≡ length (stands_at self.now step) }
        ensures bound { result ≤ 1024 }
    {
        if step == SALT {
            self.salt.as_slice().len()
        } else {
            0
        }
    }

    // Whether bytes may come at a step that takes bytes.
    fn is_due(&self, kdf: KeyDerivation, has_begun: bool, step: u16) -> bool
        ensures { (w : DerivationWork) → NamesDerivation w.alg kdf → HoldsInputs self.now w → has_begun ≡ not (w.taken == 0)
            → result ≡ is_due w step }
    {
        match step {
            SALT => self.is_salt_due(kdf),
            INFO => !self.info.is_given() && !has_begun,
            _ => self.is_secret_due(kdf),
        }
    }

    // Takes a secret or a password.
    fn put_secret(&mut self, kdf: KeyDerivation, secret: &[u8])
        requires { length secret.now ≤ 1024 }
        ensures { (w : DerivationWork) → NamesDerivation w.alg kdf → HoldsInputs self.old w → is_secret_due w ≡ true
            → HoldsInputs self.new (record w { secret = Some secret.now }) }
    {
        match kdf.scheme {
            Scheme::Hkdf => {
                let mut prk = [0; 64];
                let length = hkdf_extract(kdf.hash, self.salt.as_slice(), secret, &mut prk);
                self.key.give(&prk[..length]);
                prk.fill(0);
            }
            Scheme::Pbkdf2 => self.key.give(secret),
        }
    }

    /// Takes bytes at a step, where `has_begun` says whether output was taken.
    pub fn take_bytes(
        &mut self,
        kdf: KeyDerivation,
        has_begun: bool,
        step: u16,
        bytes: &[u8],
    ) -> Result<(), Status>
        ensures refusal { (w : DerivationWork) → NamesDerivation w.alg kdf → HoldsInputs self.old w → has_begun ≡ not (w.taken == 0)
            → result_err result ≡ first_row (input_bytes_rows w step bytes.now) }
        ensures holds { (w : DerivationWork) → NamesDerivation w.alg kdf → HoldsInputs self.old w → has_begun ≡ not (w.taken == 0)
            → OnOk result (HoldsInputs self.new (with_bytes w step bytes.now)) }
    {
        if !takes_bytes(kdf, step) {
            return Err(Status::InvalidArgument);
        }
        if !self.is_due(kdf, has_begun, step) {
            return Err(Status::BadState);
        }
        if self.length_at(step) + bytes.len() > LONGEST_INPUT {
            return Err(Status::NotSupported);
        }
        match step {
            SALT => self.salt.append(bytes),
            INFO => self.info.give(bytes),
            _ => self.put_secret(kdf, bytes),
        }
        Ok(())
    }

    /// The refusal of a key at a step, whatever the key is.
    pub fn check_key_step(&self, kdf: KeyDerivation, step: u16) -> Result<(), Status>
        ensures { (w : DerivationWork) → NamesDerivation w.alg kdf → HoldsInputs self.now w
            → result ≡ unless (first_row (key_step_rows w step)) tt }
    {
        if step != key_step(kdf) {
            return Err(Status::InvalidArgument);
        }
        if !self.is_secret_due(kdf) {
            return Err(Status::BadState);
        }
        Ok(())
    }

    /// Takes a key's bytes as the secret or the password, where it is due.
    pub fn put_key(&mut self, kdf: KeyDerivation, key: &[u8])
        requires { length key.now ≤ 1024 }
        ensures { (w : DerivationWork) → NamesDerivation w.alg kdf → HoldsInputs self.old w → is_secret_due w ≡ true
            → HoldsInputs self.new (with_key w key.now) }
    {
        self.put_secret(kdf, key);
        self.by_key = true;
    }

    /// Takes a number at a step, as the cost.
    pub fn take_integer(&mut self, kdf: KeyDerivation, step: u16, value: u64) -> Result<(), Status>
        ensures refusal { (w : DerivationWork) → NamesDerivation w.alg kdf → HoldsInputs self.old w
            → result_err result ≡ first_row (input_integer_rows w step value) }
        ensures holds { (w : DerivationWork) → NamesDerivation w.alg kdf → HoldsInputs self.old w
            → OnOk result (HoldsInputs self.new (record w { cost = Some value })) }
    {
        if kdf.scheme.is_hkdf() || step != COST {
            return Err(Status::InvalidArgument);
        }
        if self.cost.is_some() {
            return Err(Status::BadState);
        }
        if value == 0 {
            return Err(Status::InvalidArgument);
        }
        if value > HIGHEST_COST {
            return Err(Status::NotSupported);
        }
        self.cost = Some(value as u32);
        Ok(())
    }
}

// The step that a secret or a password has.
fn key_step(kdf: KeyDerivation) -> u16
    ensures { (alg : ℕ) → NamesDerivation alg kdf → result ≡ key_step alg }
{
    match kdf.scheme {
        Scheme::Hkdf => SECRET,
        Scheme::Pbkdf2 => PASSWORD,
    }
}

// Whether a step takes bytes.
fn takes_bytes(kdf: KeyDerivation, step: u16) -> bool
    ensures { (alg : ℕ) → NamesDerivation alg kdf → result ≡ takes_bytes alg step }
{
    step == key_step(kdf) || step == SALT || (kdf.scheme.is_hkdf() && step == INFO)
}
