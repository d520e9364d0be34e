// An algorithm's number, parsed once.
ghost use Rattle.std.specs.{Prelude.◌≡◌, Prelude.IfOk, Prelude.IfSome, Prelude.Some, Prelude.is_some, Prelude.if◌then◌else◌, Result.result_err};
ghost use Rattle.psa_status.specs.{Rows.first_row, declared.Status.TheVariants.InvalidArgument, declared.Status.TheVariants.NotSupported};
ghost use Rattle.alg_encoding.specs.declared.table.Class.TheVariants as class;
ghost use Rattle.alg_encoding.specs.Encoding.{class_of, is_concrete};
ghost use Rattle.store_model.specs.Prelude.{is_hmac, class_rows};
ghost use Rattle.key_policy.specs.{Names.Names, Names.NamesAead, Names.NamesDerivation, Names.NamesHash, Names.NamesMac, Names.NamesMode, Parse.class_in, Parse.is_hmac_in};

use crate::algorithms::{AeadAlgorithm, Algorithm, KeyDerivation, MacAlgorithm};
use crate::modes::Mode;
use alg_encoding::{Alg, Class};
use hash_ops::Hash;
use psa_status::Status;
use std::marker::Model;

/// An algorithm's number, and the algorithm that it names, parsed once. A contract sees the number.
#[derive(Clone, Copy, Drop)]
pub struct NamedAlgorithm {
    number: Alg,
    algorithm: Option<Algorithm>,
}

impl Model for NamedAlgorithm {
    ghost use Rattle.std.specs.Prelude.{◌≡◌};
    ghost use Rattle.std.proofs.Common.{ap, sym};
    ghost use Rattle.alg_encoding.specs.declared.algorithm.Alg.{Alg};
    ghost use Rattle.key_policy.specs.Parse.{algorithm_of};

    ghost Value = { Alg };

    ghost view = { λ named. named.number };

    ghost inverse = { λ alg. record { number = alg; algorithm = algorithm_of alg.0 } };

    ghost inverse_ok = { λ named is. ap (λ o. record { number = named.number; algorithm = o }) (sym is) };

    ghost invariant = { λ named. named.algorithm ≡ algorithm_of named.number.0 };
}

// The refusal of a number that has no class, that has another one than is asked for, or that isn't concrete.
fn refusal(alg: Alg) -> Status
    ensures { result ≡ (if is_some (class_of alg.0) then InvalidArgument else NotSupported) }
{
    match alg.class() {
        Some(_) => Status::InvalidArgument,
        None => Status::NotSupported,
    }
}

impl NamedAlgorithm {
    /// Parses a number.
    pub fn of(alg: Alg) -> NamedAlgorithm
        ensures { result ≡ alg }
    {
        NamedAlgorithm {
            number: alg,
            algorithm: Algorithm::of(alg),
        }
    }

    /// CTR.
    pub fn ctr() -> NamedAlgorithm
        ensures { result.0 ≡ 0x04c01000 }
    {
        NamedAlgorithm {
            number: Alg(0x04c0_1000),
            algorithm: Some(Algorithm::Cipher(Mode::Ctr)),
        }
    }

    pub fn number(self) -> Alg
        ensures { result ≡ self }
    {
        self.number
    }

    /// The algorithm that the number names; `None` exactly for one that names no one algorithm, as a number outside the
    /// table or one that permits several tag lengths.
    pub fn algorithm(self) -> Option<Algorithm>
        ensures concrete { is_some result ≡ is_concrete self.0 }
        ensures class { IfSome result (λ algorithm. class_of self.0 ≡ Some (class_in algorithm)) }
        ensures hmac { IfSome result (λ algorithm. is_hmac self.0 ≡ is_hmac_in algorithm) }
        ensures names { IfSome result (Names self.0) }
    {
        self.algorithm
    }

    /// The algorithm, of this class. `NotSupported` where the number is outside the table of algorithms, and
    /// `InvalidArgument` where it names no one algorithm of the class.
    pub fn of_class(self, class: Class) -> Result<Algorithm, Status>
        ensures refusal { result_err result ≡ first_row (class_rows class self.0) }
        ensures class { IfOk result (λ algorithm. class_in algorithm ≡ class) }
        ensures hmac { IfOk result (λ algorithm. is_hmac self.0 ≡ is_hmac_in algorithm) }
    {
        match self.algorithm() {
            Some(algorithm) if algorithm.class() == class => Ok(algorithm),
            _ => Err(refusal(self.number)),
        }
    }

    /// The hash function that the number names. `NotSupported` where it is outside the table of algorithms, and
    /// `InvalidArgument` where it names no one hash function.
    pub fn hash(self) -> Result<Hash, Status>
        ensures refusal { result_err result ≡ first_row (class_rows class.Hash self.0) }
        ensures names { IfOk result (NamesHash self.0) }
    {
        match self.algorithm() {
            Some(Algorithm::Hash(hash)) => Ok(hash),
            _ => Err(refusal(self.number)),
        }
    }

    /// The MAC that the number names. `NotSupported` where it is outside the table of algorithms, and `InvalidArgument`
    /// where it names no one MAC.
    pub fn mac(self) -> Result<MacAlgorithm, Status>
        ensures refusal { result_err result ≡ first_row (class_rows class.Mac self.0) }
        ensures names { IfOk result (NamesMac self.0) }
    {
        match self.algorithm() {
            Some(Algorithm::Mac(mac)) => Ok(mac),
            _ => Err(refusal(self.number)),
        }
    }

    /// The mode of the cipher that the number names. `NotSupported` where it is outside the table of algorithms, and
    /// `InvalidArgument` where it names no cipher.
    pub fn cipher(self) -> Result<Mode, Status>
        ensures refusal { result_err result ≡ first_row (class_rows class.Cipher self.0) }
        ensures names { IfOk result (NamesMode self.0) }
    {
        match self.algorithm() {
            Some(Algorithm::Cipher(mode)) => Ok(mode),
            _ => Err(refusal(self.number)),
        }
    }

    /// The AEAD that the number names. `NotSupported` where it is outside the table of algorithms, and `InvalidArgument`
    /// where it names no one AEAD.
    pub fn aead(self) -> Result<AeadAlgorithm, Status>
        ensures refusal { result_err result ≡ first_row (class_rows class.Aead self.0) }
        ensures names { IfOk result (NamesAead self.0) }
    {
        match self.algorithm() {
            Some(Algorithm::Aead(aead)) => Ok(aead),
            _ => Err(refusal(self.number)),
        }
    }

    /// The derivation that the number names. `NotSupported` where it is outside the table of algorithms, and
    /// `InvalidArgument` where it names no derivation.
    pub fn derivation(self) -> Result<KeyDerivation, Status>
        ensures refusal { result_err result ≡ first_row (class_rows class.Derivation self.0) }
        ensures names { IfOk result (NamesDerivation self.0) }
    {
        match self.algorithm() {
            Some(Algorithm::Derivation(derivation)) => Ok(derivation),
            _ => Err(refusal(self.number)),
        }
    }
}
