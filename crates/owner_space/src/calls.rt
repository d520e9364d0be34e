// Calls as values with the identifiers that the store has for what their caller names, and answers with those that the
// caller is told.
ghost use Rattle.std.specs.Prelude.{◌≡◌, ◌≤◌, ℕ, Err, IsOk, MatchResult};
ghost use Rattle.store_model.specs.Prelude.{Reply};
ghost use Rattle.service_calls.specs.{Answered.AnswersReply, Meanings.model_change, Meanings.model_creation, Meanings.model_handle_call, Meanings.model_request, Meanings.model_store_call};
ghost use Rattle.owner_space.specs.Owners.{call_inside, handle_call_inside, inside_created, owners_in, renamed_attributes, reply_outside, request_inside};

use crate::owners::OwnerMap;
use key_attributes::Attributes;
use psa_status::Status;
use service_calls::{
    Call, Creation, HandleCall, KeyChange, Keyed, KeyedSetup, Output, Setup, StoreCall,
};

impl OwnerMap {
    // The attributes of a key to be created.
    fn attributes(&self, caller: u8, attributes: Attributes) -> Attributes
        requires first { 1 ≤ caller }
        requires last { caller ≤ 16 }
        ensures { result ≡ renamed_attributes (inside_created (owners_in self.now caller)) attributes }
    {
        Attributes {
            id: self.created(caller, attributes.id),
            ..attributes
        }
    }

    fn creation<'a>(&self, caller: u8, creation: Creation<'a>) -> Creation<'a>
        requires first { 1 ≤ caller }
        requires last { caller ≤ 16 }
        ensures { model_creation result ≡ call_inside (owners_in self.now) caller (model_creation creation.entry) }
    {
        match creation {
            Creation::Import { attributes, bytes } => Creation::Import {
                attributes: self.attributes(caller, attributes),
                bytes,
            },
            Creation::Generate(attributes) => {
                Creation::Generate(self.attributes(caller, attributes))
            }
        }
    }

    fn change(&self, caller: u8, change: KeyChange) -> KeyChange
        requires first { 1 ≤ caller }
        requires last { caller ≤ 16 }
        ensures { model_change result ≡ call_inside (owners_in self.now) caller (model_change change) }
    {
        match change {
            KeyChange::Copy { source, attributes } => KeyChange::Copy {
                source: self.inner(caller, source),
                attributes: self.attributes(caller, attributes),
            },
            KeyChange::Destroy(key) => KeyChange::Destroy(self.inner(caller, key)),
            KeyChange::Purge(key) => KeyChange::Purge(self.inner(caller, key)),
            KeyChange::GetAttributes(key) => KeyChange::GetAttributes(self.inner(caller, key)),
        }
    }

    fn store_call<'a>(&self, caller: u8, call: &StoreCall<'a>) -> StoreCall<'a>
        requires first { 1 ≤ caller }
        requires last { caller ≤ 16 }
        ensures { (room : ℕ) → model_store_call result room ≡ call_inside (owners_in self.now) caller (model_store_call call.now room) }
    {
        match *call {
            StoreCall::Create(creation) => StoreCall::Create(self.creation(caller, creation)),
            StoreCall::Change(change) => StoreCall::Change(self.change(caller, change)),
            StoreCall::Hash(call) => StoreCall::Hash(call),
            StoreCall::Compute(Keyed { key, call }) => StoreCall::Compute(Keyed {
                key: self.inner(caller, key),
                call,
            }),
        }
    }

    fn handle_call<'a>(&self, caller: u8, call: &HandleCall<'a>) -> HandleCall<'a>
        requires first { 1 ≤ caller }
        requires last { caller ≤ 16 }
        ensures { (room : ℕ) → model_handle_call result room ≡ handle_call_inside (owners_in self.now) caller (model_handle_call call.now room) }
    {
        match *call {
            HandleCall::Setup(Setup::Keyed(setup)) => {
                HandleCall::Setup(Setup::Keyed(KeyedSetup {
                    key: self.inner(caller, setup.key),
                    ..setup
                }))
            }
            HandleCall::InputKey { step, key } => HandleCall::InputKey {
                step,
                key: self.inner(caller, key),
            },
            HandleCall::OutputKey(attributes) => {
                HandleCall::OutputKey(self.attributes(caller, attributes))
            }
            keyless => keyless,
        }
    }

    /// A caller's call, with the identifiers that the store has for those in it.
    pub fn call<'a>(&self, caller: u8, call: &Call<'a>) -> Call<'a>
        requires first { 1 ≤ caller }
        requires last { caller ≤ 16 }
        ensures { (room : ℕ) → model_request result room ≡ request_inside (owners_in self.now) caller (model_request call.now room) }
    {
        match *call {
            Call::OnStore(call) => Call::OnStore(self.store_call(caller, &call)),
            Call::OnHandle(op, call) => Call::OnHandle(op, self.handle_call(caller, &call)),
        }
    }

    /// An answer of the store, with the identifiers that its caller is told for those in it.
    pub fn answer(&self, answer: Result<Output, Status>) -> Result<Output, Status>
        ensures answer { (reply : Reply) → AnswersReply answer reply → AnswersReply result (reply_outside reply) }
        ensures status { MatchResult answer (λ output. IsOk result) (λ status. result ≡ Err status) }
    {
        match answer {
            Ok(Output::Identifier(id)) => Ok(Output::Identifier(self.outer(id))),
            Ok(Output::Description(attributes)) => Ok(Output::Description(Attributes {
                id: self.outer(attributes.id),
                ..attributes
            })),
            other => other,
        }
    }
}
