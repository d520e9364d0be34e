// The refusals of a key's uses, each in its order.
ghost use Rattle.std.specs.Prelude.{◌≡◌, ℕ, List, [], ◌∷◌, length, true, IsTrue, OnOk, Some};
ghost use Rattle.psa_status.specs.{declared.Status.TheVariants.NotSupported, Rows.first_row, Rows.unless};
ghost use Rattle.key_attributes.specs.Checks.{permits_size};
ghost use Rattle.store_model.specs.Prelude.{is_hmac, fits_step, fits_type, use_rows, Key, is_opaque};
ghost use Rattle.key_policy.specs.{Parse.is_hmac_in, Permissions.IsKeyFor, Permissions.derivation_refusal, Permissions.export_refusal};

use crate::algorithms::Algorithm;
use crate::named::NamedAlgorithm;
use crate::steps;
use alg_encoding::{Alg, Class};
use key_attributes::{Attributes, KeyType, Usage};
use policy_rules::permits;
use psa_status::Status;

// The refusal of a key of the secure element, where its bytes are needed.
pub(crate) fn check_local(attributes: &Attributes) -> Result<(), Status>
    ensures { result ≡ unless (first_row ((is_opaque attributes.now, NotSupported) ∷ [])) tt }
{
    if attributes.lifetime.0 >> 8 == 1 {
        return Err(Status::NotSupported);
    }
    Ok(())
}

// The refusal of an export, but for that of a buffer without room.
pub(crate) fn check_export(attributes: &Attributes) -> Result<(), Status>
    ensures { (key : Key) → key.attributes ≡ attributes.now → result ≡ unless (export_refusal (Some key)) tt }
{
    if attributes.policy.usage.0 & Usage::EXPORT.0 == 0 {
        return Err(Status::NotPermitted);
    }
    check_local(attributes)
}

// Whether keys of this type are for this algorithm.
fn fits_type(algorithm: Algorithm, key_type: KeyType) -> bool
    ensures { (alg : ℕ) → is_hmac alg ≡ is_hmac_in algorithm → result ≡ fits_type alg key_type.0 }
{
    let wanted = if algorithm.is_hmac() {
        KeyType::HMAC
    } else {
        KeyType::AES
    };
    key_type == wanted
}

/// The refusal of a key with these attributes in a call of a class with an algorithm, where a device that has the key
/// computes such calls: `NotSupported` or `InvalidArgument` by the number, `NotPermitted` by the policy, `InvalidArgument`
/// by the type. Bytes that a key which isn't refused can have are a key for the algorithm.
pub fn check_use(
    class: Class,
    usage: Usage,
    alg: NamedAlgorithm,
    attributes: &Attributes,
) -> Result<(), Status>
    ensures refusal { (key : Key) → key.attributes ≡ attributes.now → result ≡ unless (first_row (use_rows true class usage.0 alg.0 (Some key))) tt }
    ensures fits { OnOk result ((bytes : List ℕ) → IsTrue (permits_size attributes.now.key_type.0 (length bytes)) → IsKeyFor class alg.0 bytes) }
{
    let algorithm = alg.of_class(class)?;
    if !permits(&attributes.policy, usage, alg.number()) {
        return Err(Status::NotPermitted);
    }
    if !fits_type(algorithm, attributes.key_type) {
        return Err(Status::InvalidArgument);
    }
    Ok(())
}

// Whether keys of this type are for this step of a derivation.
fn fits_step(step: u16, key_type: KeyType) -> bool
    ensures { result ≡ fits_step step key_type.0 }
{
    key_type == KeyType::DERIVE || (step != steps::SECRET && key_type == KeyType::PASSWORD)
}

// The refusal of a key with these attributes as the secret or password of a derivation.
pub(crate) fn check_derivation(step: u16, alg: Alg, attributes: &Attributes) -> Result<(), Status>
    ensures { (key : Key) → key.attributes ≡ attributes.now → result ≡ unless (derivation_refusal step alg.0 (Some key)) tt }
{
    if !alg.is_concrete() || !permits(&attributes.policy, Usage::DERIVE, alg) {
        return Err(Status::NotPermitted);
    }
    if !fits_step(step, attributes.key_type) {
        return Err(Status::InvalidArgument);
    }
    check_local(attributes)
}
