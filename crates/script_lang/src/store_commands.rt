// The commands on the store, and the calls that their lines make.
ghost use Rattle.std.specs.Prelude.{◌≡◌};
ghost use Rattle.service_calls.specs.Meanings.{model_store_call};
ghost use Rattle.script_lang.specs.{Commands.key_call, Commands.single_part_call, Fields.room_at};

use crate::field_list::Fields;
use crate::fields::Field;
use key_attributes::KeyId;
use service_calls::{Creation, HashCall, KeyChange, KeyedCall, StoreCall};

/// A command on the keys of the store.
#[derive(Clone, Copy, Drop)]
pub enum KeyCommand {
    Import,
    Generate,
    Copy,
    Destroy,
    Purge,
    Attributes,
    Export,
}

/// A computation in one call.
#[derive(Clone, Copy, Drop)]
pub enum SinglePartCommand {
    HashCompute,
    HashCompare,
    MacCompute,
    MacVerify,
    CipherEncrypt,
    CipherDecrypt,
    AeadEncrypt,
    AeadDecrypt,
}

impl KeyCommand {
    /// The call of a line on this key with these fields.
    pub fn call(self, key: KeyId, fields: &Fields) -> StoreCall<'_>
        ensures { model_store_call result (room_at fields.now) ≡ key_call self key.0 fields.now }
    {
        match self {
            KeyCommand::Import => StoreCall::Create(Creation::Import {
                attributes: fields.attributes(),
                bytes: fields.bytes(Field::Data),
            }),
            KeyCommand::Generate => StoreCall::Create(Creation::Generate(fields.attributes())),
            KeyCommand::Copy => StoreCall::Change(KeyChange::Copy {
                source: key,
                attributes: fields.attributes(),
            }),
            KeyCommand::Destroy => StoreCall::Change(KeyChange::Destroy(key)),
            KeyCommand::Purge => StoreCall::Change(KeyChange::Purge(key)),
            KeyCommand::Attributes => StoreCall::Change(KeyChange::GetAttributes(key)),
            KeyCommand::Export => StoreCall::compute(key, KeyedCall::Export),
        }
    }
}

impl SinglePartCommand {
    /// The call of a line on this key with these fields.
    pub fn call(self, key: KeyId, fields: &Fields) -> StoreCall<'_>
        ensures { model_store_call result (room_at fields.now) ≡ single_part_call self key.0 fields.now }
    {
        let alg = fields.alg();
        let input = fields.bytes(Field::Data);
        let nonce = fields.bytes(Field::Nonce);
        let ad = fields.bytes(Field::Ad);
        let call = match self {
            SinglePartCommand::HashCompute => {
                return StoreCall::Hash(HashCall::Compute { alg, input });
            }
            SinglePartCommand::HashCompare => {
                let hash = fields.bytes(Field::Hash);
                return StoreCall::Hash(HashCall::Compare { alg, input, hash });
            }
            SinglePartCommand::MacCompute => KeyedCall::MacCompute { alg, input },
            SinglePartCommand::MacVerify => {
                let mac = fields.bytes(Field::Mac);
                KeyedCall::MacVerify { alg, input, mac }
            }
            SinglePartCommand::CipherEncrypt => KeyedCall::CipherEncrypt { alg, input },
            SinglePartCommand::CipherDecrypt => KeyedCall::CipherDecrypt { alg, input },
            SinglePartCommand::AeadEncrypt => KeyedCall::AeadEncrypt {
                alg,
                nonce,
                ad,
                input,
            },
            SinglePartCommand::AeadDecrypt => KeyedCall::AeadDecrypt {
                alg,
                nonce,
                ad,
                input,
            },
        };
        StoreCall::compute(key, call)
    }
}
