// The lengths that are declared.
ghost use Rattle.std.specs.Prelude.{◌≡◌, ◌≤◌, nat_lt};
ghost use Rattle.store_model.specs.Prelude.{total_limit};

use key_policy::TOTAL_LIMIT;

// The bytes of associated data and of payload that were declared.
#[derive(Clone, Copy, Drop)]
pub(crate) struct Lengths {
    pub(crate) ad: u64,
    pub(crate) payload: u64,
    ghost ad_limit: { ad ≤ total_limit },
    ghost payload_limit: { payload ≤ total_limit },
}

// Whether so many bytes are past the limit.
pub(crate) fn is_past_limit(n: u64) -> bool
    ensures { result ≡ nat_lt total_limit n }
{
    n > TOTAL_LIMIT as u64
}
