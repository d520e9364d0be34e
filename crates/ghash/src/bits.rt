// The product of a block and x (SP 800-38D, section 6.3).

ghost use Rattle.std.specs.Prelude.{◌≡◌};
ghost use Rattle.crypto_specs.specs.Prelude.{times_x};

// x^128 = x^7 + x^2 + x + 1.
const REDUCTION: u128 = 0xe1 << 120;

pub(crate) fn times_x(v: u128) -> u128
    ensures { result ≡ times_x v }
{
    if v % 2 == 1 {
        (v >> 1) ^ REDUCTION
    } else {
        v >> 1
    }
}
