// The fields of a line.
ghost use Rattle.std.specs.{Prelude.◌≡◌, Prelude.◌≤◌, Prelude.◌<◌, Prelude.◌+◌, Prelude.◌^◌, Prelude.[], Prelude.ok_or, Option.option_copied, Str.bytes_eq};
ghost use Rattle.script_lang.specs.{declared.faults.Reason.TheVariants.BadValue, Shapes.shape, Steps.Gives, Fields.field_number, Fields.field_named, Fields.field_name, Fields.all_fields, Fields.field_value, Fields.has_field, Fields.is_among, Fields.has_required, Fields.ShortForm, Fields.WordForm, Fields.LongForm, Fields.BytesForm, Fields.form_value, Fields.read_field, Fields.read_fields};

use crate::commands::Row;
use crate::faults::{LineError, Reason};
use crate::field_list::Fields;
use crate::numbers::number_of;
use crate::pieces::{Words, cut, near_place};
use crate::script::ByteList;
use hex::FromHexError;
use std::alloc::Global;

/// A field of a line, by its name.
#[derive(Clone, Copy, Drop)]
pub enum Field {
    Type,
    Usage,
    Alg,
    Data,
    Life,
    Id,
    Bits,
    Room,
    Hash,
    Mac,
    Nonce,
    Ad,
    Iv,
    Tag,
    AdLength,
    PlainLength,
    Capacity,
    Value,
    Length,
    Step,
    Alg2,
}

/// What a field says.
#[derive(Drop)]
pub enum FieldValue {
    Short(u16),
    Word(u32),
    Long(u64),
    Bytes(ByteList),
}

/// The length of an output buffer whose line states none, and the greatest that a line may state.
pub(crate) const ROOM: u16 = 16448;

/// The greatest number of bytes that a line may ask a derivation for.
const LENGTH_LIMIT: u64 = 16384;

/// The greatest number of hex digits in a field: those of 16,384 bytes.
const DIGIT_LIMIT: usize = 32768;

const FIELDS: &[Field] = &[
    Field::Type,
    Field::Usage,
    Field::Alg,
    Field::Data,
    Field::Life,
    Field::Id,
    Field::Bits,
    Field::Room,
    Field::Hash,
    Field::Mac,
    Field::Nonce,
    Field::Ad,
    Field::Iv,
    Field::Tag,
    Field::AdLength,
    Field::PlainLength,
    Field::Capacity,
    Field::Value,
    Field::Length,
    Field::Step,
    Field::Alg2,
];

/// All fields.
fn fields() -> &'static [Field]
    ensures { result.now ≡ all_fields }
{
    FIELDS
}

impl Field {
    /// The number that tells a field from the others.
    pub fn number(self) -> u8
        ensures { result ≡ field_number self }
    {
        self as u8
    }

    /// The field of a name.
    pub fn named(name: &[u8]) -> Option<&'static Field>
        ensures { option_copied result ≡ field_named name.now }
    {
        fields().iter().find(|f| is_text(f.name(), name))
    }

    /// The name of a field.
    pub fn name(self) -> &'static [u8]
        ensures { result.now ≡ field_name self }
    {
        match self {
            Field::Type => b"type",
            Field::Usage => b"usage",
            Field::Alg => b"alg",
            Field::Data => b"data",
            Field::Life => b"life",
            Field::Id => b"id",
            Field::Bits => b"bits",
            Field::Room => b"room",
            Field::Hash => b"hash",
            Field::Mac => b"mac",
            Field::Nonce => b"nonce",
            Field::Ad => b"ad",
            Field::Iv => b"iv",
            Field::Tag => b"tag",
            Field::AdLength => b"ad_len",
            Field::PlainLength => b"plain_len",
            Field::Capacity => b"capacity",
            Field::Value => b"value",
            Field::Length => b"len",
            Field::Step => b"step",
            Field::Alg2 => b"alg2",
        }
    }
}

/// Whether two short texts are equal. Most that are compared differ in their lengths or first bytes.
pub(crate) fn is_text(text: &[u8], other: &[u8]) -> bool
    ensures { result ≡ bytes_eq text.now other.now }
{
    if text.len() != other.len() {
        return false;
    }
    for place in 0..text.len() {
        if text[place] != other[place] {
            return false;
        }
    }
    true
}

/// Whether a field is one of these.
fn is_among(fields: &[Field], field: Field) -> bool
    ensures { result ≡ is_among fields.now field }
{
    fields.iter().any(|f| f.number() == field.number())
}

/// Whether the fields that a row needs are all there.
pub(crate) fn has_required(row: Row, done: &[(Field, FieldValue)]) -> bool
    ensures { result ≡ has_required (shape row) done.now }
{
    row.required.iter().all(|f| has(done, *f))
}

/// Whether a field stands already.
fn has(done: &[(Field, FieldValue)], field: Field) -> bool
    ensures { result ≡ has_field done.now field }
{
    done.iter().any(|f| f.0.number() == field.number())
}

fn short(
    base: u8,
    most: usize,
    least: u64,
    greatest: u64,
    text: &[u8],
) -> Result<FieldValue, LineError>
    requires first { 2 ≤ base }
    requires last { base ≤ 16 }
    requires fits { greatest < 2 ^ 16 }
    ensures { Gives (λ v. v) result (ok_or (form_value (ShortForm base most least (greatest + 1)) text.now) BadValue) }
{
    match number_of(base, most, greatest, text) {
        Some(number) if least <= number => Ok(FieldValue::Short(number as u16)),
        _ => Err(LineError::Bad(Reason::BadValue)),
    }
}

fn word(text: &[u8]) -> Result<FieldValue, LineError>
    ensures { Gives (λ v. v) result (ok_or (form_value WordForm text.now) BadValue) }
{
    match number_of(16, 8, 0xffffffff, text) {
        Some(number) => Ok(FieldValue::Word(number as u32)),
        None => Err(LineError::Bad(Reason::BadValue)),
    }
}

fn long(text: &[u8]) -> Result<FieldValue, LineError>
    ensures { Gives (λ v. v) result (ok_or (form_value LongForm text.now) BadValue) }
{
    match number_of(10, 20, u64::MAX, text) {
        Some(number) => Ok(FieldValue::Long(number)),
        None => Err(LineError::Bad(Reason::BadValue)),
    }
}

fn decoded(alloc: Global, text: &[u8]) -> Result<FieldValue, LineError>
    ensures { Gives (λ v. v) result (ok_or (form_value BytesForm text.now) BadValue) }
{
    if text.len() > DIGIT_LIMIT {
        return Err(LineError::Bad(Reason::BadValue));
    }
    match hex::decode(alloc, text) {
        Ok(items) => Ok(FieldValue::Bytes(ByteList::of(items))),
        Err(FromHexError::OutOfMemory) => Err(LineError::Memory),
        Err(_) => Err(LineError::Bad(Reason::BadValue)),
    }
}

/// The value of a text for a field.
#[tactic(auto, unfolding(crate::specs::Fields::field_value))]
fn value_of(alloc: Global, field: Field, text: &[u8]) -> Result<FieldValue, LineError>
    ensures { Gives (λ v. v) result (field_value field text.now) }
{
    match field {
        Field::Type | Field::Step => short(16, 4, 0, 0xffff, text),
        Field::Bits => short(10, 20, 0, 0xffff, text),
        Field::Room => short(10, 20, 0, ROOM as u64, text),
        Field::Length => short(10, 20, 1, LENGTH_LIMIT, text),
        Field::Usage | Field::Alg | Field::Alg2 | Field::Life | Field::Id => word(text),
        Field::AdLength | Field::PlainLength | Field::Capacity | Field::Value => long(text),
        _ => decoded(alloc, text),
    }
}

/// A further word of a line, after the fields that stand already.
#[tactic(auto, unfolding(crate::specs::Fields::read_field))]
fn field_at(
    alloc: Global,
    row: Row,
    done: &[(Field, FieldValue)],
    word: &[u8],
) -> Result<(Field, FieldValue), LineError>
    ensures { Gives (λ f. f) result (read_field (shape row) done.now word.now) }
{
    let Some((name, text)) = cut(word, b'=', near_place(b'=', word)) else {
        return Err(LineError::Bad(Reason::UnknownField));
    };
    let Some(field) = Field::named(name) else {
        return Err(LineError::Bad(Reason::UnknownField));
    };
    if !is_among(row.required, *field) && !is_among(row.optional, *field) {
        return Err(LineError::Bad(Reason::UnknownField));
    }
    if has(done, *field) {
        return Err(LineError::Bad(Reason::RepeatedField));
    }
    let value = value_of(alloc, *field, text)?;
    Ok((*field, value))
}

/// The fields of the words that are left.
pub(crate) fn fields_of(alloc: Global, row: Row, words: &mut Words) -> Result<Fields, LineError>
    ensures { Gives (λ fields. fields) result (read_fields (shape row) [] words.old) }
{
    let Ok(mut done) = Vec::with_capacity(alloc, row.required.len()) else {
        return Err(LineError::Memory);
    };
    while let Some(word) = words.next() {
        let field = field_at(alloc, row, &done, word)?;
        done.push(field)?;
    }
    Ok(Fields::of(done))
}
