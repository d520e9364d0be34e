// The commands of the grammar, and how each is written.
ghost use Rattle.std.specs.{Prelude.◌≡◌, Prelude.find, Prelude.map, Str.bytes_eq, Option.option_copied, Option.option_map};
ghost use Rattle.script_lang.specs.{Shapes.shape, Commands.row_named, Commands.rows};

use crate::fields::Field::{
    Ad, AdLength, Alg, Alg2, Bits, Capacity, Data, Hash, Id, Iv, Length, Life, Mac, Nonce,
    PlainLength, Room, Step, Tag, Type, Usage, Value,
};
use crate::fields::{Field, is_text};
use crate::operation_commands::{
    AeadCommand, CipherCommand, DerivationCommand, HashCommand, MacCommand,
};
use crate::store_commands::{KeyCommand, SinglePartCommand};
use Kind::{Handle, Key, Name};

/// What a fixed word is: a name that the line gives, a key, or the handle of an operation.
#[derive(Clone, Copy, Drop)]
pub enum Kind {
    Name,
    Key,
    Handle,
}

/// A command.
#[derive(Clone, Copy, Drop)]
pub enum ScriptCommand {
    Key(KeyCommand),
    SinglePart(SinglePartCommand),
    Hash(HashCommand),
    Mac(MacCommand),
    Cipher(CipherCommand),
    Aead(AeadCommand),
    Derivation(DerivationCommand),
    Abort,
}

/// A command's word, its fixed words in order, the fields that it needs, and those that may stand.
#[derive(Clone, Copy, Drop)]
pub(crate) struct Row {
    pub word: &'static [u8],
    pub command: ScriptCommand,
    pub fixed: &'static [Kind],
    pub required: &'static [Field],
    pub optional: &'static [Field],
}

macro_rules! rows {
    ($($word:literal, $command:expr, [$($fixed:ident),*], [$($required:ident),*], [$($optional:ident),*];)*) => {
        &[$(Row {
            word: $word,
            command: $command,
            fixed: &[$($fixed),*],
            required: &[$($required),*],
            optional: &[$($optional),*],
        }),*]
    };
}

const ROWS: &[Row] = rows![
    b"import", ScriptCommand::Key(KeyCommand::Import), [Name], [Type, Usage, Alg, Data], [Life, Id, Bits, Alg2];
    b"generate", ScriptCommand::Key(KeyCommand::Generate), [Name], [Type, Bits, Usage, Alg], [Life, Id, Alg2];
    b"copy", ScriptCommand::Key(KeyCommand::Copy), [Name, Key], [Usage, Alg], [Type, Bits, Life, Id, Alg2];
    b"destroy", ScriptCommand::Key(KeyCommand::Destroy), [Key], [], [];
    b"purge", ScriptCommand::Key(KeyCommand::Purge), [Key], [], [];
    b"attributes", ScriptCommand::Key(KeyCommand::Attributes), [Key], [], [];
    b"export", ScriptCommand::Key(KeyCommand::Export), [Key], [], [Room];
    b"hash_compute", ScriptCommand::SinglePart(SinglePartCommand::HashCompute), [], [Alg, Data], [Room];
    b"hash_compare", ScriptCommand::SinglePart(SinglePartCommand::HashCompare), [], [Alg, Data, Hash], [];
    b"mac_compute", ScriptCommand::SinglePart(SinglePartCommand::MacCompute), [Key], [Alg, Data], [Room];
    b"mac_verify", ScriptCommand::SinglePart(SinglePartCommand::MacVerify), [Key], [Alg, Data, Mac], [];
    b"cipher_encrypt", ScriptCommand::SinglePart(SinglePartCommand::CipherEncrypt), [Key], [Alg, Data], [Room];
    b"cipher_decrypt", ScriptCommand::SinglePart(SinglePartCommand::CipherDecrypt), [Key], [Alg, Data], [Room];
    b"aead_encrypt", ScriptCommand::SinglePart(SinglePartCommand::AeadEncrypt), [Key], [Alg, Nonce, Data], [Ad, Room];
    b"aead_decrypt", ScriptCommand::SinglePart(SinglePartCommand::AeadDecrypt), [Key], [Alg, Nonce, Data], [Ad, Room];
    b"hash_setup", ScriptCommand::Hash(HashCommand::Setup), [Handle], [Alg], [];
    b"hash_update", ScriptCommand::Hash(HashCommand::Update), [Handle], [Data], [];
    b"hash_finish", ScriptCommand::Hash(HashCommand::Finish), [Handle], [], [Room];
    b"hash_verify", ScriptCommand::Hash(HashCommand::Verify), [Handle], [Hash], [];
    b"mac_sign_setup", ScriptCommand::Mac(MacCommand::SignSetup), [Handle, Key], [Alg], [];
    b"mac_verify_setup", ScriptCommand::Mac(MacCommand::VerifySetup), [Handle, Key], [Alg], [];
    b"mac_update", ScriptCommand::Mac(MacCommand::Update), [Handle], [Data], [];
    b"mac_sign_finish", ScriptCommand::Mac(MacCommand::SignFinish), [Handle], [], [Room];
    b"mac_verify_finish", ScriptCommand::Mac(MacCommand::VerifyFinish), [Handle], [Mac], [];
    b"cipher_encrypt_setup", ScriptCommand::Cipher(CipherCommand::EncryptSetup), [Handle, Key], [Alg], [];
    b"cipher_decrypt_setup", ScriptCommand::Cipher(CipherCommand::DecryptSetup), [Handle, Key], [Alg], [];
    b"cipher_generate_iv", ScriptCommand::Cipher(CipherCommand::GenerateIv), [Handle], [], [Room];
    b"cipher_set_iv", ScriptCommand::Cipher(CipherCommand::SetIv), [Handle], [Iv], [];
    b"cipher_update", ScriptCommand::Cipher(CipherCommand::Update), [Handle], [Data], [Room];
    b"cipher_finish", ScriptCommand::Cipher(CipherCommand::Finish), [Handle], [], [Room];
    b"aead_encrypt_setup", ScriptCommand::Aead(AeadCommand::EncryptSetup), [Handle, Key], [Alg], [];
    b"aead_decrypt_setup", ScriptCommand::Aead(AeadCommand::DecryptSetup), [Handle, Key], [Alg], [];
    b"aead_generate_nonce", ScriptCommand::Aead(AeadCommand::GenerateNonce), [Handle], [], [Room];
    b"aead_set_nonce", ScriptCommand::Aead(AeadCommand::SetNonce), [Handle], [Nonce], [];
    b"aead_set_lengths", ScriptCommand::Aead(AeadCommand::SetLengths), [Handle], [AdLength, PlainLength], [];
    b"aead_update_ad", ScriptCommand::Aead(AeadCommand::UpdateAd), [Handle], [Data], [];
    b"aead_update", ScriptCommand::Aead(AeadCommand::Update), [Handle], [Data], [Room];
    b"aead_finish", ScriptCommand::Aead(AeadCommand::Finish), [Handle], [], [Room];
    b"aead_verify", ScriptCommand::Aead(AeadCommand::Verify), [Handle], [Tag], [];
    b"kdf_setup", ScriptCommand::Derivation(DerivationCommand::Setup), [Handle], [Alg], [];
    b"kdf_get_capacity", ScriptCommand::Derivation(DerivationCommand::GetCapacity), [Handle], [], [];
    b"kdf_set_capacity", ScriptCommand::Derivation(DerivationCommand::SetCapacity), [Handle], [Capacity], [];
    b"kdf_input_bytes", ScriptCommand::Derivation(DerivationCommand::InputBytes), [Handle], [Step, Data], [];
    b"kdf_input_integer", ScriptCommand::Derivation(DerivationCommand::InputInteger), [Handle], [Step, Value], [];
    b"kdf_input_key", ScriptCommand::Derivation(DerivationCommand::InputKey), [Handle, Key], [Step], [];
    b"kdf_output_bytes", ScriptCommand::Derivation(DerivationCommand::OutputBytes), [Handle], [Length], [];
    b"kdf_output_key", ScriptCommand::Derivation(DerivationCommand::OutputKey), [Handle, Name], [Type, Bits, Usage, Alg], [Life, Id, Alg2];
    b"kdf_verify_bytes", ScriptCommand::Derivation(DerivationCommand::VerifyBytes), [Handle], [Data], [];
    b"abort", ScriptCommand::Abort, [Handle], [], [];
];

/// All rows.
fn all_rows() -> &'static [Row]
    ensures { map shape result.now ≡ rows }
{
    ROWS
}

fn find_row<'a>(rows: &'a [Row], word: &[u8]) -> Option<&'a Row>
    ensures { option_copied result ≡ find (λ r. bytes_eq r.word.now word.now) rows.now }
{
    rows.iter().find(|row| is_text(row.word, word))
}

/// The row of a command's word.
pub(crate) fn row_named(word: &[u8]) -> Option<Row>
    ensures { option_map shape result ≡ row_named word.now }
{
    find_row(all_rows(), word).copied()
}
