// One session.
ghost use Rattle.std.specs.Prelude.{◌≡◌, ◌≤◌, ◌<◌, ◌+◌, ◌-◌, ◌^◌, ◌++◌, ◌∷◌, [], ℕ, List, IfOk, MatchResult, length, ◌⊎◌};
ghost use Rattle.callers.specs.Ready.{IsReady};
ghost use Rattle.locked_store.specs.Prelude.{world};
ghost use Rattle.store_model.specs.Prelude.{Reply};
ghost use Rattle.owner_space.specs.Naming.{asked};
ghost use Rattle.script_lang.specs.Prelude.{request_of, AreKept, ReplyLine};
ghost use Rattle.script_lang.specs.declared.script.ScriptLine as script_line;
ghost use Rattle.session_host.specs.{Replying.IsNoted, Sessions.HasAnswered, Sessions.HasMade, Sessions.IsMade, Sessions.GoesFurther};

use crate::answers::note;
use admission::Admission;
use caller_service::Service;
use callers::{Caller, Gate};
use disk_face::Disk;
use driver_dispatch::Devices;
use owner_space::Names;
use psa_status::Memory;
use script_lang::{Replies, ReplyForm, ScriptLine};
use std::alloc::Global;
use std::sync::Wait;

/// A session: its caller, the replies to its calls, and the identifiers that it was told, or 0.
pub struct Session<D: Disk, A: Devices, C: Admission> {
    pub caller: Caller<D, A, C>,
    pub replies: Replies,
    pub given: Vec<u32>,
}

impl<D: Disk, A: Devices, C: Admission> Session<D, A, C> {
    /// A session without a reply. Its replies are kept in this form.
    pub fn new(alloc: Global, caller: Caller<D, A, C>, form: ReplyForm) -> Session<D, A, C>
        ensures caller { result.caller ≡ caller }
        ensures replies { AreKept result.replies [] }
        ensures session { result.replies.session ≡ caller.number }
        ensures form { result.replies.form ≡ form }
        ensures given { result.given.items ≡ [] }
    {
        let replies = Replies::new(alloc, caller.number(), form);
        Session {
            caller,
            replies,
            given: Vec::new(alloc),
        }
    }

    // Makes the call of a line, and notes what the session is told of its reply. It hands on the identifier that the session
    // is told, or 0; it fails where memory runs out after the call.
    fn call<R: Wait, G: Gate>(
        &mut self,
        rt: &R,
        alloc: Global,
        service: &Service<D, A, C, G>,
        names: &Names,
        buffer: &mut [u8],
        line: &ScriptLine,
    ) -> Result<u32, Memory>
        requires ready { IsReady (world service.now.shared) 0 self.old.caller }
        requires own { line.now.session ≡ self.old.caller.number }
        requires budget { self.old.caller.spent + 2 ≤ service.now.worn }
        requires room { 16448 ≤ length buffer.old }
        requires kept { (lines : List ReplyLine) × AreKept self.old.replies lines × (length lines < 2 ^ 32 - 1) }
        ensures ready { IsReady (world service.now.shared) 0 self.new.caller }
        ensures spent { self.new.caller.spent ≤ self.old.caller.spent + 2 }
        ensures number { self.new.caller.number ≡ self.old.caller.number }
        ensures made { (rank : ℕ) × (reply : Reply) × IsMade (world service.now.shared) names.now self.old.caller.pass.me.0 self.new.caller.pass.me.0 (asked names.now line.now.session (request_of self.old.given.items line.now.call)) rank reply
            × IfOk result (IsNoted self.old.replies self.new.replies rank reply) }
        ensures session { self.new.replies.session ≡ self.old.replies.session }
        ensures form { self.new.replies.form ≡ self.old.replies.form }
        ensures given { self.new.given ≡ self.old.given }
    {
        let out = &mut buffer[..line.call.fields.room() as usize];
        let call = names.call(line.session, &line.call.value(&self.given));
        let (ranked, answer) = service.call(rt, &mut self.caller, &call, out);
        let rank = ranked.unwrap();
        note(alloc, &mut self.replies, rank, names.answer(answer), out)
    }

    /// Makes the call of a line of this session, and notes its reply. Fails where memory runs out, before the call or after
    /// it.
    pub fn run_line<R: Wait, G: Gate>(
        &mut self,
        rt: &R,
        alloc: Global,
        service: &Service<D, A, C, G>,
        names: &Names,
        buffer: &mut [u8],
        line: &ScriptLine,
    ) -> Result<(), Memory>
        requires ready { IsReady (world service.now.shared) 0 self.old.caller }
        requires own { line.now.session ≡ self.old.caller.number }
        requires budget { self.old.caller.spent + 2 ≤ service.now.worn }
        requires room { 16448 ≤ length buffer.old }
        requires kept { (lines : List ReplyLine) × AreKept self.old.replies lines × (length lines < 2 ^ 32 - 1) }
        ensures ran { (lines : List script_line.ScriptLine) → HasAnswered (world service.now.shared) names.now lines self.old →
            MatchResult result (λ done. HasAnswered (world service.now.shared) names.now (lines ++ line.now ∷ []) self.new)
            (λ full. HasMade (world service.now.shared) names.now lines self.new.caller ⊎ HasMade (world service.now.shared) names.now (lines ++ line.now ∷ []) self.new.caller) }
        ensures further { IfOk result (λ done. GoesFurther line.now.session self.old.caller self.new.caller) }
        ensures number { self.new.caller.number ≡ self.old.caller.number }
        ensures form { self.new.replies.form ≡ self.old.replies.form }
    {
        if self.given.reserve(1).is_err() {
            return Err(Memory);
        }
        match self.call(rt, alloc, service, names, buffer, line) {
            Ok(id) => {
                self.given.push_reserved(id);
                Ok(())
            }
            Err(Memory) => Err(Memory),
        }
    }
}
