// What the declared lengths say.
ghost use Rattle.std.specs.Prelude.{◌≡◌, ◌≤◌};
ghost use Rattle.store_model.specs.Prelude.{total_limit, declared_payload, is_past_ad, is_past_payload, is_whole_ad, is_whole_payload};
ghost use Rattle.aead_states.specs.DeclaredLengths.{declared_ad, declared_lengths};

use crate::lengths::Lengths;

// How many bytes of associated data were declared, and 0 where none were.
pub(crate) fn declared_ad(lengths: Option<Lengths>) -> u64
    ensures value { result ≡ declared_ad (declared_lengths lengths) }
    ensures limit { result ≤ total_limit }
{
    match lengths {
        Some(lengths) => lengths.ad,
        None => 0,
    }
}

// How many bytes of payload were declared, and 0 where none were.
pub(crate) fn declared_payload(lengths: Option<Lengths>) -> u64
    ensures value { result ≡ declared_payload (declared_lengths lengths) }
    ensures limit { result ≤ total_limit }
{
    match lengths {
        Some(lengths) => lengths.payload,
        None => 0,
    }
}

// Whether so many bytes of associated data are past the declared length.
pub(crate) fn is_past_ad(lengths: Option<Lengths>, n: u64) -> bool
    ensures { result ≡ is_past_ad (declared_lengths lengths) n }
{
    match lengths {
        Some(lengths) => lengths.ad < n,
        None => false,
    }
}

// Whether so many bytes of payload are past the declared length.
pub(crate) fn is_past_payload(lengths: Option<Lengths>, n: u64) -> bool
    ensures { result ≡ is_past_payload (declared_lengths lengths) n }
{
    match lengths {
        Some(lengths) => lengths.payload < n,
        None => false,
    }
}

// Whether so many bytes of associated data are those declared.
pub(crate) fn is_whole_ad(lengths: Option<Lengths>, n: u64) -> bool
    ensures { result ≡ is_whole_ad (declared_lengths lengths) n }
{
    match lengths {
        Some(lengths) => n == lengths.ad,
        None => true,
    }
}

// Whether so many bytes of payload are those declared.
pub(crate) fn is_whole_payload(lengths: Option<Lengths>, n: u64) -> bool
    ensures { result ≡ is_whole_payload (declared_lengths lengths) n }
{
    match lengths {
        Some(lengths) => n == lengths.payload,
        None => true,
    }
}
