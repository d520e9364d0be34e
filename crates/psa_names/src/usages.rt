// Usages by the names of their flags.
ghost use Rattle.std.specs.{Prelude.◌≡◌, Prelude.◌++◌, Prelude.◌∷◌, Prelude.IfOk, Prelude.OnErr, Prelude.OnOk, Prelude.if◌then◌else◌, Prelude.bit_and, Option.option_map};
ghost use Rattle.std.specs.{Prelude.◌==◌, Prelude.false, List.join_with_byte, List.slice_split};
ghost use Rattle.psa_names.specs.{Tables.usages, Usages.flag_texts, Usages.read_flag, Usages.read_usage, Usages.usage_text, Usages.with_flags};

use crate::names::read_word;
use crate::tables::usages;
use crate::texts::{append, hex_text};
use key_attributes::Usage;
use memchr::memchr;
use psa_status::Memory;
use std::alloc::{AllocError, Global};

/// The bits that have no name.
const UNNAMED: u32 = 0xffff_00f8;

/// Appends one more of the texts that stand with commas between them.
fn push_flag(out: &mut Vec<u8>, is_first: bool, text: &[u8]) -> Result<(), AllocError>
    ensures { OnOk result (out.new.items ≡ out.old.items ++ (if is_first then text.now else 44 ∷ text.now)) }
{
    if !is_first {
        out.push(b',')?;
    }
    out.extend_from_slice(text)
}

/// The names of the flags, and the bits that have none.
fn flags_text(alloc: Global, usage: u32) -> Result<Vec<u8>, AllocError>
    ensures { IfOk result (λ text. text.items ≡ join_with_byte 44 (flag_texts usage)) }
{
    let mut out = Vec::new(alloc);
    let mut is_first = true;
    let names = usages();
    for name in names {
        if usage & name.number != 0 {
            push_flag(&mut out, is_first, name.text)?;
            is_first = false;
        }
    }
    let rest = usage & UNNAMED;
    if rest != 0 {
        let hex = hex_text(alloc, rest)?;
        push_flag(&mut out, is_first, &hex)?;
    }
    Ok(out)
}

/// A usage by the names of its flags.
#[tactic(auto, unfolding(crate::specs::Usages::usage_text))]
fn text_of(alloc: Global, usage: u32) -> Result<Vec<u8>, AllocError>
    ensures { IfOk result (λ text. text.items ≡ usage_text usage) }
{
    if usage == 0 {
        b"0".to_vec(alloc)
    } else {
        flags_text(alloc, usage)
    }
}

/// Appends the names of a usage's flags (PSA_KEY_USAGE_ of the standard) in the order of their numbers, with commas between
/// them, and behind them the bits that have no name, as one number in hex; `0` where there is none. Without memory nothing
/// is appended.
pub fn push_usage(alloc: Global, out: &mut Vec<u8>, usage: Usage) -> Result<(), Memory>
    ensures ok { OnOk result (out.new.items ≡ out.old.items ++ usage_text usage.0) }
    ensures err { OnErr result (out.new.items ≡ out.old.items) }
{
    append(out, text_of(alloc, usage.0))
}

/// A flag by its name, or bits in hex.
#[tactic(auto, unfolding(crate::specs::Usages::read_flag))]
fn flag_of(text: &[u8]) -> Option<u32>
    ensures { result ≡ read_flag text.now }
{
    read_word(usages(), text)
}

/// The usage of flags by their names, or of bits in hex (1 to 8 digits), with commas between them, in any order and in letters
/// of either case; what is repeated counts once.
#[tactic(auto, unfolding(crate::specs::Usages::read_usage))]
pub fn read_usage(text: &[u8]) -> Option<Usage>
    ensures { option_map (λ usage. usage.0) result ≡ read_usage text.now }
{
    match flags_of(text) {
        Some(usage) => Some(Usage(usage)),
        None => None,
    }
}

fn flags_of(text: &[u8]) -> Option<u32>
    ensures { result ≡ with_flags 0 (slice_split (λ c. c == 44) text.now) }
{
    let mut usage = 0;
    let mut rest = text;
    while let Some(comma) = memchr(b',', rest) {
        let Some(flag) = flag_of(&rest[..comma]) else {
            return None;
        };
        usage |= flag;
        rest = &rest[comma + 1..];
    }
    match flag_of(rest) {
        Some(flag) => Some(usage | flag),
        None => None,
    }
}
