// Numbers beside their names.
ghost use Rattle.std.specs.{Prelude.◌≡◌, Prelude.◌==◌, Prelude.find, Prelude.map, Option.option_copied, Option.option_map, Str.str_eq_ignore_ascii_case};
ghost use Rattle.std.specs.Prelude.{IsTrue, ◌^◌};
ghost use Rattle.psa_names.specs.Names.{name_of, number_named, read_in};
ghost use Rattle.psa_names.specs.Rows.{are_short, name_row};

use crate::numbers::number_of;

/// A number and its name.
#[derive(Clone, Copy, Drop)]
pub(crate) struct Name {
    pub number: u32,
    pub text: &'static [u8],
}

/// Whether two texts are the same but for small and capital letters.
fn is_same_name(name: &[u8], text: &[u8]) -> bool
    ensures { result ≡ str_eq_ignore_ascii_case name.now text.now }
{
    name.eq_ignore_ascii_case(text)
}

fn find_number(names: &[Name], number: u32) -> Option<&Name>
    ensures { option_copied result ≡ find (λ n. n.number == number) names.now }
{
    names.iter().find(|name| name.number == number)
}

fn find_text<'a>(names: &'a [Name], text: &[u8]) -> Option<&'a Name>
    ensures { option_copied result ≡ find (λ n. str_eq_ignore_ascii_case n.text.now text.now) names.now }
{
    names.iter().find(|name| is_same_name(name.text, text))
}

/// The name of a number.
pub(crate) fn name_of(names: &[Name], number: u32) -> Option<&'static [u8]>
    ensures { option_map (λ text. text.now) result ≡ name_of (map name_row names.now) number }
{
    match find_number(names, number) {
        Some(name) => Some(name.text),
        None => None,
    }
}

/// The number of a name, in letters of either case.
pub(crate) fn number_named(names: &[Name], text: &[u8]) -> Option<u32>
    ensures { result ≡ number_named (map name_row names.now) text.now }
{
    match find_text(names, text) {
        Some(name) => Some(name.number),
        None => None,
    }
}

/// The number of 1 to 8 hex digits, or else of a name.
pub(crate) fn read_word(names: &[Name], text: &[u8]) -> Option<u32>
    ensures { result ≡ read_in (map name_row names.now) 8 (2 ^ 32) text.now }
{
    match number_of(16, 8, u32::MAX, text) {
        Some(number) => Some(number),
        None => number_named(names, text),
    }
}

/// The number of 1 to 4 hex digits, or else of a name.
pub(crate) fn read_short(names: &[Name], text: &[u8]) -> Option<u16>
    requires { IsTrue (are_short (map name_row names.now)) }
    ensures { result ≡ read_in (map name_row names.now) 4 (2 ^ 16) text.now }
{
    match number_of(16, 4, 0xffff, text) {
        Some(number) => Some(number as u16),
        None => match number_named(names, text) {
            Some(number) => Some(number as u16),
            None => None,
        },
    }
}
