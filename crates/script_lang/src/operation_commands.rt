// The commands on operations, and the calls that their lines make.
ghost use Rattle.std.specs.Prelude.{◌≡◌};
ghost use Rattle.service_calls.specs.Meanings.{model_handle_call};
ghost use Rattle.script_lang.specs.{Commands.aead_call, Commands.cipher_call, Commands.derivation_call, Commands.hash_call, Commands.mac_call, Fields.room_at};

use crate::field_list::Fields;
use crate::fields::Field;
use key_attributes::KeyId;
use service_calls::{
    AeadStep, CipherStep, DerivationStep, HandleCall, HashStep, KeylessSetup, MacStep, Purpose,
    Step,
};

/// A command on a hash operation.
#[derive(Clone, Copy, Drop)]
pub enum HashCommand {
    Setup,
    Update,
    Finish,
    Verify,
}

/// A command on a MAC operation.
#[derive(Clone, Copy, Drop)]
pub enum MacCommand {
    SignSetup,
    VerifySetup,
    Update,
    SignFinish,
    VerifyFinish,
}

/// A command on a cipher operation.
#[derive(Clone, Copy, Drop)]
pub enum CipherCommand {
    EncryptSetup,
    DecryptSetup,
    GenerateIv,
    SetIv,
    Update,
    Finish,
}

/// A command on an AEAD operation.
#[derive(Clone, Copy, Drop)]
pub enum AeadCommand {
    EncryptSetup,
    DecryptSetup,
    GenerateNonce,
    SetNonce,
    SetLengths,
    UpdateAd,
    Update,
    Finish,
    Verify,
}

/// A command on a key derivation.
#[derive(Clone, Copy, Drop)]
pub enum DerivationCommand {
    Setup,
    GetCapacity,
    SetCapacity,
    InputBytes,
    InputInteger,
    InputKey,
    OutputBytes,
    OutputKey,
    VerifyBytes,
}

impl HashCommand {
    /// The call of a line with these fields.
    pub fn call(self, fields: &Fields) -> HandleCall<'_>
        ensures { model_handle_call result (room_at fields.now) ≡ hash_call self fields.now }
    {
        let step = match self {
            HashCommand::Setup => return HandleCall::set_up(KeylessSetup::Hash(fields.alg())),
            HashCommand::Update => HashStep::Update(fields.bytes(Field::Data)),
            HashCommand::Finish => HashStep::Finish,
            HashCommand::Verify => HashStep::Verify(fields.bytes(Field::Hash)),
        };
        HandleCall::Step(Step::Hash(step))
    }
}

impl MacCommand {
    /// The call of a line on this key with these fields.
    pub fn call(self, key: KeyId, fields: &Fields) -> HandleCall<'_>
        ensures { model_handle_call result (room_at fields.now) ≡ mac_call self key.0 fields.now }
    {
        let alg = fields.alg();
        let step = match self {
            MacCommand::SignSetup => return HandleCall::set_up_with(key, Purpose::SignMac, alg),
            MacCommand::VerifySetup => return HandleCall::set_up_with(key, Purpose::VerifyMac, alg),
            MacCommand::Update => MacStep::Update(fields.bytes(Field::Data)),
            MacCommand::SignFinish => MacStep::SignFinish,
            MacCommand::VerifyFinish => MacStep::VerifyFinish(fields.bytes(Field::Mac)),
        };
        HandleCall::Step(Step::Mac(step))
    }
}

impl CipherCommand {
    /// The call of a line on this key with these fields.
    pub fn call(self, key: KeyId, fields: &Fields) -> HandleCall<'_>
        ensures { model_handle_call result (room_at fields.now) ≡ cipher_call self key.0 fields.now }
    {
        let alg = fields.alg();
        let step = match self {
            CipherCommand::EncryptSetup => {
                return HandleCall::set_up_with(key, Purpose::EncryptCipher, alg);
            }
            CipherCommand::DecryptSetup => {
                return HandleCall::set_up_with(key, Purpose::DecryptCipher, alg);
            }
            CipherCommand::GenerateIv => CipherStep::GenerateIv,
            CipherCommand::SetIv => CipherStep::SetIv(fields.bytes(Field::Iv)),
            CipherCommand::Update => CipherStep::Update(fields.bytes(Field::Data)),
            CipherCommand::Finish => CipherStep::Finish,
        };
        HandleCall::Step(Step::Cipher(step))
    }
}

impl AeadCommand {
    /// The call of a line on this key with these fields.
    pub fn call(self, key: KeyId, fields: &Fields) -> HandleCall<'_>
        ensures { model_handle_call result (room_at fields.now) ≡ aead_call self key.0 fields.now }
    {
        let alg = fields.alg();
        let step = match self {
            AeadCommand::EncryptSetup => {
                return HandleCall::set_up_with(key, Purpose::EncryptAead, alg);
            }
            AeadCommand::DecryptSetup => {
                return HandleCall::set_up_with(key, Purpose::DecryptAead, alg);
            }
            AeadCommand::GenerateNonce => AeadStep::GenerateNonce,
            AeadCommand::SetNonce => AeadStep::SetNonce(fields.bytes(Field::Nonce)),
            AeadCommand::SetLengths => AeadStep::SetLengths {
                ad: fields.long(Field::AdLength),
                payload: fields.long(Field::PlainLength),
            },
            AeadCommand::UpdateAd => AeadStep::UpdateAd(fields.bytes(Field::Data)),
            AeadCommand::Update => AeadStep::Update(fields.bytes(Field::Data)),
            AeadCommand::Finish => AeadStep::Finish,
            AeadCommand::Verify => AeadStep::Verify(fields.bytes(Field::Tag)),
        };
        HandleCall::Step(Step::Aead(step))
    }
}

impl DerivationCommand {
    /// The call of a line on this key with these fields.
    pub fn call(self, key: KeyId, fields: &Fields) -> HandleCall<'_>
        ensures { model_handle_call result (room_at fields.now) ≡ derivation_call self key.0 fields.now }
    {
        let step = fields.short(Field::Step, 0);
        let step = match self {
            DerivationCommand::Setup => return HandleCall::set_up(KeylessSetup::Derivation(
                fields.alg(),
            )),
            DerivationCommand::GetCapacity => DerivationStep::GetCapacity,
            DerivationCommand::SetCapacity => {
                DerivationStep::SetCapacity(fields.long(Field::Capacity))
            }
            DerivationCommand::InputBytes => DerivationStep::InputBytes {
                step,
                bytes: fields.bytes(Field::Data),
            },
            DerivationCommand::InputInteger => DerivationStep::InputInteger {
                step,
                value: fields.long(Field::Value),
            },
            DerivationCommand::InputKey => return HandleCall::InputKey { step, key },
            DerivationCommand::OutputBytes => DerivationStep::OutputBytes,
            DerivationCommand::OutputKey => return HandleCall::OutputKey(fields.attributes()),
            DerivationCommand::VerifyBytes => {
                DerivationStep::VerifyBytes(fields.bytes(Field::Data))
            }
        };
        HandleCall::Step(Step::Derivation(step))
    }
}
