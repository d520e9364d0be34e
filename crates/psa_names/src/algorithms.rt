// Algorithm numbers by the names of their algorithms.
ghost use Rattle.std.specs.{Prelude.◌≡◌, Prelude.◌≤◌, Prelude.length, Prelude.◌==◌, Prelude.◌++◌, Prelude.IfOk, Prelude.OnErr, Prelude.OnOk, Prelude.decimal, Prelude.find, Prelude.map, Option.option_copied, Option.option_map};
ghost use Rattle.alg_encoding.specs.Encoding.{base_of};
ghost use Rattle.psa_names.specs.{Rows.name_row, Tables.algorithms, Algorithms.algorithm_named, Algorithms.algorithm_name, Algorithms.algorithm_text, Algorithms.length_behind, Algorithms.name_length, Algorithms.tagged, Algorithms.read_algorithm, Algorithms.read_tag, Algorithms.stated_tag, Algorithms.tag_of, Algorithms.tag_text};

use crate::names::{Name, number_named};
use crate::numbers::number_of;
use crate::tables::algorithms;
use crate::texts::{append, hex_text};
use alg_encoding::Alg;
use itoa::Buffer;
use memchr::memchr2;
use psa_status::Memory;
use std::alloc::{AllocError, Global};

/// What stands behind the name of an algorithm.
#[derive(Clone, Copy, Drop)]
enum Tag {
    /// Nothing.
    Whole,
    /// The tag is cut to so many bytes.
    Cut(u8),
    /// The tag has at least so many bytes.
    AtLeast(u8),
}

/// The number that an algorithm and its tag make.
fn tagged(tag: Tag, whole: Alg) -> Option<Alg>
    ensures { option_map (λ algorithm. algorithm.0) result ≡ tagged tag whole.0 }
{
    match tag {
        Tag::Whole => Some(whole),
        Tag::Cut(length) => whole.truncated(length),
        Tag::AtLeast(length) => whole.at_least(length),
    }
}

/// The tag that a number states.
fn stated_tag(algorithm: Alg) -> Tag
    ensures { result ≡ stated_tag algorithm.0 }
{
    match (algorithm.tag_length(), algorithm.minimum()) {
        (Some(length), _) => Tag::Cut(length),
        (None, Some(length)) => Tag::AtLeast(length),
        (None, None) => Tag::Whole,
    }
}

/// The tag with which an algorithm makes a number.
#[tactic(auto, unfolding(crate::specs::Algorithms::tag_of))]
fn tag_of(whole: Alg, algorithm: Alg) -> Option<Tag>
    ensures { result ≡ tag_of whole.0 algorithm.0 }
{
    if whole.number() == algorithm.number() {
        return Some(Tag::Whole);
    }
    let tag = stated_tag(algorithm);
    match tagged(tag, whole) {
        Some(made) if made.number() == algorithm.number() => Some(tag),
        _ => None,
    }
}

/// The row of a number's base.
fn row_of(names: &[Name], base: u32) -> Option<&Name>
    ensures { option_copied result ≡ find (λ n. base_of n.number == base) names.now }
{
    names
        .iter()
        .find(|name| Alg::of(name.number).base() == base)
}

fn push_tag(out: &mut Vec<u8>, tag: Tag) -> Result<(), AllocError>
    ensures { OnOk result (out.new.items ≡ out.old.items ++ tag_text tag) }
{
    let (mark, length): (&[u8], u8) = match tag {
        Tag::Whole => return Ok(()),
        Tag::Cut(length) => (b"/", length),
        Tag::AtLeast(length) => (b">=", length),
    };
    out.extend_from_slice(mark)?;
    out.extend_from_slice(Buffer::new().format(length).as_bytes())
}

/// An algorithm by its name with the tag behind it, or in hex.
fn text_of(alloc: Global, algorithm: Alg) -> Result<Vec<u8>, AllocError>
    ensures { IfOk result (λ text. text.items ≡ algorithm_text algorithm.0) }
{
    let Some(name) = row_of(algorithms(), algorithm.base()) else {
        return hex_text(alloc, algorithm.number());
    };
    match tag_of(Alg::of(name.number), algorithm) {
        Some(tag) => {
            let mut text = name.text.to_vec(alloc)?;
            push_tag(&mut text, tag)?;
            Ok(text)
        }
        None => hex_text(alloc, algorithm.number()),
    }
}

/// Appends the name of an algorithm (PSA_ALG_ of the standard). Behind a MAC's or an AEAD's stand `/` and the tag's length in
/// bytes where it isn't the one of the name, and `>=` and the least length where the number has the flag "at least this
/// length". A number that is made in no such way is appended in hex. Without memory nothing is appended.
pub fn push_algorithm(alloc: Global, out: &mut Vec<u8>, algorithm: Alg) -> Result<(), Memory>
    ensures ok { OnOk result (out.new.items ≡ out.old.items ++ algorithm_text algorithm.0) }
    ensures err { OnErr result (out.new.items ≡ out.old.items) }
{
    append(out, text_of(alloc, algorithm))
}

/// The tag that a text behind a name says.
#[tactic(auto, unfolding(crate::specs::Algorithms::read_tag))]
fn read_tag(text: &[u8]) -> Option<Tag>
    ensures { result ≡ read_tag text.now }
{
    if text.is_empty() {
        return Some(Tag::Whole);
    }
    if let Some(length) = length_behind(b"/", text) {
        return Some(Tag::Cut(length));
    }
    match length_behind(b">=", text) {
        Some(length) => Some(Tag::AtLeast(length)),
        None => None,
    }
}

/// A length of one or two decimal digits behind a mark.
#[tactic(auto, unfolding(crate::specs::Algorithms::length_behind))]
fn length_behind(mark: &[u8], text: &[u8]) -> Option<u8>
    ensures { result ≡ length_behind mark.now text.now }
{
    if text.len() < mark.len() || &text[..mark.len()] != mark {
        return None;
    }
    match number_of(10, 2, 99, &text[mark.len()..]) {
        Some(length) => Some(length as u8),
        None => None,
    }
}

/// How long the name at the front of a text is.
fn name_length(text: &[u8]) -> usize
    ensures value { result ≡ name_length text.now }
    ensures within { result ≤ length text.now }
{
    memchr2(b'/', b'>', text).unwrap_or(text.len())
}

/// The algorithm of a name with a tag behind it.
#[tactic(auto, unfolding(crate::specs::Algorithms::algorithm_named))]
fn algorithm_named(text: &[u8]) -> Option<Alg>
    ensures { option_map (λ algorithm. algorithm.0) result ≡ algorithm_named text.now }
{
    let (name, tag) = text.split_at(name_length(text));
    let whole = number_named(algorithms(), name)?;
    tagged(read_tag(tag)?, Alg::of(whole))
}

/// The algorithm of 1 to 8 hex digits, or else of a name in letters of either case, behind which `/` and a length may stand,
/// or `>=` and a length, for tags that the algorithm permits. Lengths are one or two decimal digits.
#[tactic(auto, unfolding(crate::specs::Algorithms::read_algorithm))]
pub fn read_algorithm(text: &[u8]) -> Option<Alg>
    ensures { option_map (λ algorithm. algorithm.0) result ≡ read_algorithm text.now }
{
    match number_of(16, 8, u32::MAX, text) {
        Some(number) => Some(Alg::of(number)),
        None => algorithm_named(text),
    }
}
