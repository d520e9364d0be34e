// A script as it was read.
ghost use Rattle.std.specs.{Prelude.◌≡◌, Prelude.◌≤◌, Prelude.◌<◌, Prelude.IfOk, Prelude.slice_get, Prelude.length, Prelude.Some, Option.option_map};
ghost use Rattle.service_calls.specs.Meanings.{model_request};
ghost use Rattle.owner_space.specs.{Naming.names_by, Owners.owners_in};
ghost use Rattle.script_lang.specs.{Commands.key_id_of, Commands.request_of, Fields.room_at};

use crate::commands::ScriptCommand;
use crate::field_list::Fields;
use key_attributes::KeyId;
use owner_space::{Names, Owner};
use psa_status::Memory;
use service_calls::{Call, HandleCall, Op};
use std::alloc::Global;
use std::marker::Model;

/// Bytes that are owned.
#[derive(Drop)]
pub struct ByteList {
    items: Vec<u8>,
}

impl Model for ByteList {
    ghost use Rattle.std.specs.Prelude.{List, ℕ};

    ghost Value = { List ℕ };

    ghost view = { λ b. b.items.items };
}

impl ByteList {
    /// A copy of these bytes.
    pub fn from_slice(alloc: Global, bytes: &[u8]) -> Result<ByteList, Memory>
        ensures { IfOk result (λ list. list ≡ bytes.now) }
    {
        match bytes.to_vec(alloc) {
            Ok(items) => Ok(ByteList { items }),
            Err(_) => Err(Memory),
        }
    }

    /// These bytes, without taking memory.
    pub fn of(items: Vec<u8>) -> ByteList
        ensures { result ≡ items.items }
    {
        Self { items }
    }

    /// The bytes as a vector.
    pub(crate) fn into_items(self) -> Vec<u8>
        ensures { result.items ≡ self }
    {
        self.items
    }

    pub fn as_slice(&self) -> &[u8]
        ensures { result.now ≡ self.now }
    {
        &self.items
    }
}

/// A key by its identifier, or by the creation line that gives it: the line's place among the calls of its
/// own session, from 0.
#[derive(Clone, Copy, Drop)]
pub enum KeyWord {
    Given(KeyId),
    Line(u32),
}

impl KeyWord {
    /// The key's identifier, where `given` has the identifiers that the session's calls before gave.
    fn id(self, given: &[u32]) -> KeyId
        ensures { result.0 ≡ key_id_of given.now self }
    {
        match self {
            KeyWord::Given(id) => id,
            KeyWord::Line(place) => KeyId(given.get(place as usize).copied().unwrap_or(0)),
        }
    }
}

/// A call of a script: its command, and what its line says beside it.
#[derive(Drop)]
pub struct ScriptCall {
    pub command: ScriptCommand,
    pub key: KeyWord,
    pub handle: Op,
    pub fields: Fields,
}

impl ScriptCall {
    /// The call as a value, where `given` has the identifiers that the session's calls before gave.
    pub fn value(&self, given: &[u32]) -> Call<'_>
        ensures { model_request result (room_at self.now.fields) ≡ request_of given.now self.now }
    {
        let key = self.key.id(given);
        let fields = &self.fields;
        match self.command {
            ScriptCommand::Key(command) => Call::OnStore(command.call(key, fields)),
            ScriptCommand::SinglePart(command) => Call::OnStore(command.call(key, fields)),
            ScriptCommand::Hash(command) => Call::OnHandle(self.handle, command.call(fields)),
            ScriptCommand::Mac(command) => Call::OnHandle(self.handle, command.call(key, fields)),
            ScriptCommand::Cipher(command) => Call::OnHandle(
                self.handle,
                command.call(key, fields),
            ),
            ScriptCommand::Aead(command) => Call::OnHandle(self.handle, command.call(key, fields)),
            ScriptCommand::Derivation(command) => Call::OnHandle(
                self.handle,
                command.call(key, fields),
            ),
            ScriptCommand::Abort => Call::OnHandle(self.handle, HandleCall::Abort),
        }
    }
}

/// A line of a script that is a call, and the session that makes it, 1 to 16.
#[derive(Drop)]
pub struct ScriptLine {
    pub session: u8,
    pub call: ScriptCall,
}

/// What a script says: its calls, in its order, and the owners of sessions 1 to 16, where a line states one.
#[derive(Drop)]
pub struct Script {
    lines: Vec<ScriptLine>,
    owners: Option<[Owner; 16]>,
}

impl Model for Script {
    ghost use Rattle.script_lang.specs.Lines.{Said};

    ghost Value = { Said };

    ghost view = { λ s. record { lines = s.lines.items; owners = s.owners } };
}

impl Script {
    /// The script of these lines and owners, without taking memory.
    pub(crate) fn of(lines: Vec<ScriptLine>, owners: Option<[Owner; 16]>) -> Script
        ensures { result ≡ record { lines = lines.items; owners = owners } }
    {
        Script { lines, owners }
    }

    /// How many calls there are.
    pub fn count(&self) -> usize
        ensures { result ≡ length self.now.lines }
    {
        self.lines.len()
    }

    /// The call at a place, from 0.
    pub fn line(&self, place: usize) -> &ScriptLine
        requires { place < length self.now.lines }
        ensures { slice_get self.now.lines place ≡ Some result.now }
    {
        &self.lines[place]
    }

    /// All calls.
    pub fn lines(&self) -> &[ScriptLine]
        ensures { result.now ≡ self.now.lines }
    {
        self.lines.as_slice()
    }

    /// The owner of a session, 0 to 15, where a line states one of any session.
    pub fn owner(&self, session: u8) -> Option<u8>
        requires first { 1 ≤ session }
        requires last { session ≤ 16 }
        ensures { result ≡ option_map (λ owners. owners_in owners session) self.now.owners }
    {
        match &self.owners {
            Some(owners) => Some(owners[usize::from(session) - 1].number()),
            None => None,
        }
    }

    /// How the sessions name keys: each as its owner does, where a line states an owner, and else as the store does.
    pub fn names(&self) -> Names
        ensures { result ≡ names_by self.now.owners }
    {
        Names::by(self.owners)
    }
}
