// Numbers as a script has them.
ghost use Rattle.std.specs.Prelude.{◌≡◌, ◌≤◌, ◌<◌, ◌*◌, ◌+◌, ◌^◌, ℕ, IfSome, IfNone, None, Some};
ghost use Rattle.script_lang.specs.Numbers.{digit_in, number};

fn digit_of(base: u8, c: u8) -> Option<u8>
    requires first { 2 ≤ base }
    requires last { base ≤ 16 }
    ensures value { result ≡ digit_in base c }
    ensures below { IfSome result (λ d. d < base) }
{
    match char::from(c).to_digit(base as u32) {
        Some(digit) => Some(digit as u8),
        None => None,
    }
}

/// The number that at most `most` digits spell, where it is at most the greatest.
pub(crate) fn number_of(base: u8, most: usize, greatest: u32, text: &[u8]) -> Option<u32>
    requires first { 2 ≤ base }
    requires last { base ≤ 16 }
    requires few { most ≤ 8 }
    ensures { result ≡ number base most (greatest + 1) text.now }
{
    if text.len() < 1 || most < text.len() {
        return None;
    }
    let mut value: u64 = 0;
    for c in text {
        match digit_of(base, *c) {
            None => return None,
            Some(digit) => value = value * base as u64 + digit as u64,
        }
    }
    if value <= greatest as u64 {
        Some(value as u32)
    } else {
        None
    }
}
