// How the sessions of a script name keys.
ghost use Rattle.std.specs.Prelude.{◌≡◌, ◌≤◌, ℕ, List, Err, IsOk, MatchResult};
ghost use Rattle.store_model.specs.Prelude.{Reply, buffer_after};
ghost use Rattle.service_calls.specs.{Answered.AnswersReply, Meanings.model_request};
ghost use Rattle.owner_space.specs.Naming.{asked, names_by, told};

use crate::owners::{Owner, OwnerMap};
use psa_status::Status;
use service_calls::{Call, Output};

/// How sessions name keys: as the store does, or each as its owner does.
#[derive(Drop)]
pub enum Names {
    Unowned,
    Owned(OwnerMap),
}

// A call as it is.
fn same<'a>(call: &Call<'a>) -> Call<'a>
    ensures { result ≡ call.now }
{
    match *call {
        Call::OnStore(call) => Call::OnStore(call),
        Call::OnHandle(op, call) => Call::OnHandle(op, call),
    }
}

impl Names {
    /// How sessions name keys that have these owners, or none.
    pub fn by(owners: Option<[Owner; 16]>) -> Names
        ensures { result ≡ names_by owners }
    {
        match owners {
            None => Names::Unowned,
            Some(owners) => Names::Owned(OwnerMap::new(owners)),
        }
    }

    /// What is asked of the store where a caller makes this call: without owners the call as it is.
    pub fn call<'a>(&self, caller: u8, call: &Call<'a>) -> Call<'a>
        requires first { 1 ≤ caller }
        requires last { caller ≤ 16 }
        ensures { (room : ℕ) → model_request result room ≡ asked self.now caller (model_request call.now room) }
    {
        match self {
            Names::Unowned => same(call),
            Names::Owned(map) => map.call(caller, call),
        }
    }

    /// What a caller is told where the store answers this: without owners the answer as it is.
    pub fn answer(&self, answer: Result<Output, Status>) -> Result<Output, Status>
        ensures answer { (reply : Reply) → AnswersReply answer reply → AnswersReply result (told self.now reply) }
        ensures status { MatchResult answer (λ output. IsOk result) (λ status. result ≡ Err status) }
        ensures unwritten { (reply : Reply) (old : List ℕ) → buffer_after old (told self.now reply) ≡ buffer_after old reply }
    {
        match self {
            Names::Unowned => answer,
            Names::Owned(map) => map.answer(answer),
        }
    }
}
