// Numbers as texts.
ghost use Rattle.std.specs.Prelude.{◌≡◌, ◌≤◌, ◌*◌, ◌+◌, ◌<◌, ◌^◌, ◌⊎◌, ℕ, IfSome, IfNone};
ghost use Rattle.script_lang.specs.Numbers.{digit_in, number, number_from};

/// The number with one more digit at its end, where it is below 2 ^ 64.
fn pushed(base: u8, front: u64, c: u8) -> Option<u64>
    requires first { 2 ≤ base }
    requires last { base ≤ 16 }
    ensures none { IfNone result ((digit_in base c ≡ None) ⊎ ((d : ℕ) × (digit_in base c ≡ Some d) × (2 ^ 64 ≤ front * base + d))) }
    ensures some { IfSome result (λ n. (d : ℕ) × (digit_in base c ≡ Some d) × (n ≡ front * base + d)) }
{
    let digit = char::from(c).to_digit(base as u32)? as u64;
    front.checked_mul(base as u64)?.checked_add(digit)
}

/// The number that a text spells, at most the greatest.
pub(crate) fn number_of(base: u8, most: usize, greatest: u64, text: &[u8]) -> Option<u64>
    requires first { 2 ≤ base }
    requires last { base ≤ 16 }
    ensures { result ≡ number base most (greatest + 1) text.now }
{
    if text.len() < 1 || most < text.len() {
        return None;
    }
    let mut value: u64 = 0;
    for c in text {
        match pushed(base, value, *c) {
            None => return None,
            Some(next) => value = next,
        }
    }
    if value <= greatest { Some(value) } else { None }
}
