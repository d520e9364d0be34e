// What a copy of a key is asked to have.
ghost use Rattle.std.specs.Prelude.{◌≡◌, ℕ, Some, length};
ghost use Rattle.store_model.specs.Prelude.{Key, Store, differs, recorded_copy};
ghost use Rattle.key_policy.specs.Copies.{recorded_after};

use key_attributes::{Attributes, Usage};
use policy_rules::meet;
use psa_status::Status;

// Whether a number is stated and isn't the source's.
fn differs(stated: u16, own: u16) -> bool
    ensures { result ≡ differs stated own }
{
    stated != 0 && stated != own
}

/// The attributes with which a creation is asked for the copy of a key, or the first refusal that the source's and the stated
/// ones decide: the source's type and bits, the stated lifetime and identifier, and the meet of the policies.
pub fn copied_attributes(source: &Attributes, stated: &Attributes) -> Result<Attributes, Status>
    ensures { (store : Store) (caller : ℕ) (key : Key) → key.attributes ≡ source.now →
        recorded_copy store caller (Some key) stated.now ≡ recorded_after store caller (length key.bytes) result }
{
    if source.policy.usage.0 & Usage::COPY.0 == 0 {
        return Err(Status::NotPermitted);
    }
    if differs(stated.key_type.0, source.key_type.0) || differs(stated.bits, source.bits) {
        return Err(Status::InvalidArgument);
    }
    if stated.lifetime.0 / 256 != source.lifetime.0 / 256 {
        return Err(Status::NotSupported);
    }
    let Some(policy) = meet(&source.policy, &stated.policy) else {
        return Err(Status::InvalidArgument);
    };
    Ok(Attributes {
        lifetime: stated.lifetime,
        id: stated.id,
        key_type: source.key_type,
        bits: source.bits,
        policy,
    })
}
