// The fields of a line, and what they say.
ghost use Rattle.std.specs.{Prelude.◌≡◌, Prelude.◌≤◌, Prelude.find, Option.option_copied};
ghost use Rattle.script_lang.specs.Fields.{alg_at, attributes_at, bytes_at, is_field, long_at, room_at, short_at, word_at};

use crate::fields::{Field, FieldValue, ROOM};
use alg_encoding::Alg;
use key_attributes::{Attributes, KeyId, KeyType, Lifetime, Policy, Usage};
use std::marker::Model;

/// The fields of a line, in the line's order.
#[derive(Drop)]
pub struct Fields {
    items: Vec<(Field, FieldValue)>,
}

impl Model for Fields {
    ghost use Rattle.std.specs.Prelude.{List};
    ghost use Rattle.script_lang.specs.declared.fields.Field.{Field};
    ghost use Rattle.script_lang.specs.declared.fields.FieldValue.{FieldValue};

    ghost Value = { List (Field × FieldValue) };

    ghost view = { λ f. f.items.items };
}

impl Fields {
    /// These fields, without taking memory.
    pub fn of(items: Vec<(Field, FieldValue)>) -> Fields
        ensures { result ≡ items.items }
    {
        Fields { items }
    }

    /// The fields as a list.
    pub(crate) fn items(&self) -> &[(Field, FieldValue)]
        ensures { result.now ≡ self.now }
    {
        &self.items
    }

    fn find(&self, field: Field) -> Option<&(Field, FieldValue)>
        ensures { option_copied result ≡ find (is_field field) self.now }
    {
        self.items.iter().find(|f| f.0.number() == field.number())
    }

    /// The number of a field of 16 bits, and a default where it is missing.
    pub fn short(&self, field: Field, default: u16) -> u16
        ensures { result ≡ short_at default field self.now }
    {
        match self.find(field) {
            Some((_, FieldValue::Short(n))) => *n,
            _ => default,
        }
    }

    /// The number of a field of 32 bits, and 0 where it is missing.
    pub fn word(&self, field: Field) -> u32
        ensures { result ≡ word_at field self.now }
    {
        match self.find(field) {
            Some((_, FieldValue::Word(n))) => *n,
            _ => 0,
        }
    }

    /// The number of a field of 64 bits, and 0 where it is missing.
    pub fn long(&self, field: Field) -> u64
        ensures { result ≡ long_at field self.now }
    {
        match self.find(field) {
            Some((_, FieldValue::Long(n))) => *n,
            _ => 0,
        }
    }

    /// The bytes of a field, and none where it is missing.
    pub fn bytes(&self, field: Field) -> &[u8]
        ensures { result.now ≡ bytes_at field self.now }
    {
        match self.find(field) {
            Some((_, FieldValue::Bytes(bytes))) => bytes.as_slice(),
            _ => &[],
        }
    }

    /// The length of the output buffer in bytes.
    pub fn room(&self) -> u16
        ensures value { result ≡ room_at self.now }
        ensures most { result ≤ 16448 }
    {
        ROOM.min(self.short(Field::Length, self.short(Field::Room, ROOM)))
    }

    /// The algorithm.
    pub fn alg(&self) -> Alg
        ensures { result.0 ≡ alg_at self.now }
    {
        Alg(self.word(Field::Alg))
    }

    /// The attributes of a key that the line creates.
    pub fn attributes(&self) -> Attributes
        ensures { result ≡ attributes_at self.now }
    {
        Attributes {
            lifetime: Lifetime(self.word(Field::Life)),
            id: KeyId(self.word(Field::Id)),
            key_type: KeyType(self.short(Field::Type, 0)),
            bits: self.short(Field::Bits, 0),
            policy: Policy {
                usage: Usage(self.word(Field::Usage)),
                alg: self.alg(),
                alg2: Alg(self.word(Field::Alg2)),
            },
        }
    }
}
