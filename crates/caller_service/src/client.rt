// A caller that makes its calls by their names, and the one way in which they are made.
ghost use Rattle.std.specs.Prelude.{◌≡◌, ◌≤◌, []};
ghost use Rattle.service_calls.specs.Asked.{computes, sets_up_with};
ghost use Rattle.caller_service.specs.{Given.nothing, Replies.MayCall, Replies.steps_on};

use crate::replies::{Given, Reply};
use crate::service::Service;
use admission::Admission;
use alg_encoding::Alg;
use callers::{Caller, Gate};
use disk_face::Disk;
use driver_dispatch::Devices;
use key_attributes::KeyId;
use service_calls::{Call, HandleCall, KeyedCall, Op, Purpose, Step, StoreCall};
use std::sync::Wait;

/// A caller of a service, with all that its calls take. It may call whenever no call of its own runs.
pub struct Client<'a, D: Disk, A: Devices, C: Admission, G: Gate, R> {
    rt: &'a R,
    service: &'a Service<D, A, C, G>,
    caller: Caller<D, A, C>,
    ghost may_call: { ∥ MayCall service.now caller ∥₁ },
}

impl<D: Disk, A: Devices, C: Admission, G: Gate> Service<D, A, C, G> {
    /// Makes a client of a caller, who may call.
    pub fn client<'a, R: Wait>(
        &'a self,
        rt: &'a R,
        caller: Caller<D, A, C>,
    ) -> Client<'a, D, A, C, G, R>
        requires { MayCall self.now caller }
        ensures service { result.service.now ≡ self.now }
        ensures caller { result.caller ≡ caller }
    {
        Client {
            rt,
            service: self,
            caller,
        }
    }
}

impl<D: Disk, A: Devices, C: Admission, G: Gate, R: Wait> Client<'_, D, A, C, G, R> {
    ghost use Rattle.caller_service.specs.Clients.{Answers};

    // Its caller may call. Of the field only that it has a proof is known, so that this is proved by hand.
    fn may_call(&self)
        ensures { MayCall self.now.service.now self.now.caller }
    {}

    /// Whose calls these are.
    pub fn caller(&self) -> &Caller<D, A, C>
        ensures { result.now ≡ self.now.caller }
    {
        &self.caller
    }

    /// Gives the caller back, who may call.
    pub fn into_caller(self) -> Caller<D, A, C>
        ensures caller { result ≡ self.entry.caller }
        ensures may_call { MayCall self.entry.service.now result }
    {
        self.may_call();
        let Client {
            rt: _rt,
            service: _service,
            caller,
        } = self;
        caller
    }

    /// Makes a call, and reads its answer.
    pub(crate) fn ask<T: Given>(&mut self, call: &Call<'_>, out: &mut [u8]) -> Reply<T>
        ensures { Answers call.now T.given self.old self.new out.old out.new result }
    {
        self.may_call();
        let (rank, answer) = self.service.call(self.rt, &mut self.caller, call, out);
        let result = match answer {
            Ok(output) => Ok(T::of(output)),
            Err(status) => Err(status),
        };
        Reply { rank, result }
    }

    /// Makes a call that has no output buffer.
    pub(crate) fn tell<T: Given>(&mut self, call: &Call<'_>) -> Reply<T>
        ensures { Answers call.now T.given self.old self.new [] [] result }
    {
        self.ask(call, &mut [])
    }

    /// Begins an operation with this key.
    pub(crate) fn begin(&mut self, op: Op, key: KeyId, purpose: Purpose, alg: Alg) -> Reply<()>
        ensures { Answers (sets_up_with op key purpose alg) nothing self.old self.new [] [] result }
    {
        self.tell(&Call::OnHandle(op, HandleCall::set_up_with(key, purpose, alg)))
    }

    /// Makes a step of the operation at a handle.
    pub(crate) fn step<T: Given>(&mut self, op: Op, step: Step<'_>, out: &mut [u8]) -> Reply<T>
        ensures { Answers (steps_on op step.entry) T.given self.old self.new out.old out.new result }
    {
        self.ask(&Call::OnHandle(op, HandleCall::Step(step)), out)
    }

    /// Makes a step that has no output buffer.
    pub(crate) fn advance<T: Given>(&mut self, op: Op, step: Step<'_>) -> Reply<T>
        ensures { Answers (steps_on op step.entry) T.given self.old self.new [] [] result }
    {
        self.tell(&Call::OnHandle(op, HandleCall::Step(step)))
    }

    /// Computes with this key.
    pub(crate) fn compute<T: Given>(
        &mut self,
        key: KeyId,
        call: KeyedCall<'_>,
        out: &mut [u8],
    ) -> Reply<T>
        ensures { Answers (computes key call.entry) T.given self.old self.new out.old out.new result }
    {
        self.ask(&Call::OnStore(StoreCall::compute(key, call)), out)
    }
}
