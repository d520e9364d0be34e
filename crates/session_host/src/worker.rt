// The sessions that one thread runs.
ghost use Rattle.std.specs.{Prelude.◌≡◌, Prelude.◌≢◌, Prelude.◌⊎◌, Prelude.◌≤◌, Prelude.◌<◌, Prelude.◌+◌, Prelude.◌*◌, Prelude.◌++◌, Prelude.◌∷◌, Prelude.[], Prelude.ℕ, Prelude.List, Prelude.All, Prelude.IfSome, Prelude.IfNone, Prelude.MatchResult, Prelude.get_or, Prelude.length, Prelude.vec_capacity, Option.option_to_list};
ghost use Rattle.turn_history.specs.Prelude.{entries_of, StartsWith, IsIdle, watcher};
ghost use Rattle.callers.specs.{Called.Legal, Ready.IsReady};
ghost use Rattle.locked_store.specs.Prelude.{world};
ghost use Rattle.script_lang.specs.declared.replies.ReplyForm as reply_form;
ghost use Rattle.script_lang.specs.declared.script.ScriptLine as script_line;
ghost use Rattle.session_host.specs.declared.session.Session as session;
ghost use Rattle.session_host.specs.{Sessions.HasMade, Workers.ChangesAt, Workers.HasLearned, Workers.HasSeated, Workers.HasWorked, Workers.HaveForm, Workers.HaveRun, Workers.numbers_of};

use crate::session::Session;
use admission::Admission;
use caller_service::Service;
use callers::Gate;
use disk_face::Disk;
use driver_dispatch::Devices;
use locked_store::Held;
use owner_space::Names;
use psa_status::Memory;
use script_lang::ScriptLine;
use std::alloc::Global;
use std::sync::Wait;
use turn_history::Pass;

/// Room that nothing uses. It keeps what one thread's worker writes at each call apart, in the processors' caches, from what
/// another's reads there.
#[derive(Clone, Copy, Drop)]
pub struct Spacing {
    room: [u64; 16],
}

impl Spacing {
    pub fn new() -> Spacing {
        Spacing { room: [0; 16] }
    }
}

/// The sessions that one thread runs, with a buffer for what their calls give.
pub struct Worker<D: Disk, A: Devices, C: Admission> {
    pub sessions: Vec<Session<D, A, C>>,
    /// Where the session stands whose call was the last.
    pub last: Option<usize>,
    pub buffer: Vec<u8>,
    /// Whether all lines were run.
    pub whole: bool,
    pub spacing: Spacing,
}

// Where the session of a number stands among those from one place on, before another. The look begins with the last.
fn place_between<D: Disk, A: Devices, C: Admission>(
    sessions: &[Session<D, A, C>],
    from: usize,
    end: usize,
    number: u8,
) -> Option<usize>
    requires { end ≤ length sessions.now }
    ensures found { IfSome result (λ place. (place < length sessions.now) × ((d : session.Session _ _ _) → (get_or sessions.now place d).caller.number ≡ number)) }
    ensures none { IfNone result ((k : ℕ) (d : session.Session _ _ _) → from ≤ k → k < end → (get_or sessions.now k d).caller.number ≢ number) }
{
    for place in (from..end).rev() {
        if sessions[place].caller.number() == number {
            return Some(place);
        }
    }
    None
}

// Where the session of a number stands. The look begins where that stands whose call was the last: the next session of a
// script is often the same or the next higher, and a worker has its sessions by falling numbers.
fn place_of<D: Disk, A: Devices, C: Admission>(
    sessions: &[Session<D, A, C>],
    last: Option<usize>,
    number: u8,
) -> Option<usize>
    ensures found { IfSome result (λ place. (place < length sessions.now) × ((d : session.Session _ _ _) → (get_or sessions.now place d).caller.number ≡ number)) }
    ensures none { IfNone result (All (λ s. s.caller.number ≢ number) sessions.now) }
{
    let near = match last {
        Some(last) => sessions.len().min(last.saturating_add(1)),
        None => 0,
    };
    match place_between(sessions, 0, near, number) {
        Some(place) => Some(place),
        None => place_between(sessions, near, sessions.len(), number),
    }
}

impl<D: Disk, A: Devices, C: Admission> Worker<D, A, C> {
    /// Takes a session, for which there is room.
    pub fn seat(&mut self, session: Session<D, A, C>)
        requires { length self.old.sessions.items < vec_capacity self.old.sessions }
        ensures { HasSeated self.old self.new session }
    {
        self.sessions.push_reserved(session);
    }

    /// Hands the last session out, where there is one.
    pub fn unseat(&mut self) -> Option<Session<D, A, C>>
        ensures items { self.old.sessions.items ≡ self.new.sessions.items ++ option_to_list result }
        ensures none { IfNone result (self.new.sessions.items ≡ []) }
    {
        self.sessions.pop()
    }

    // A watcher that has seen what the caller of a session has.
    fn watch<G: Gate>(&mut self, service: &Service<D, A, C, G>, place: usize) -> Pass<Held<D, A, C>>
        requires place { place < length self.old.sessions.items }
        requires own { (d : session.Session _ _ _) → (get_or self.old.sessions.items place d).caller.pass.table_id ≡ (world service.now.shared).lock }
        ensures items { self.new.sessions.items ≡ self.old.sessions.items }
        ensures same { (self.new.last ≡ self.old.last) × (self.new.buffer ≡ self.old.buffer) × (self.new.whole ≡ self.old.whole) }
        ensures idle { IsIdle (world service.now.shared).lock result }
        ensures watcher { (d : session.Session _ _ _) → result.me ≡ (watcher (get_or self.old.sessions.items place d).caller.pass.me.0, []) }
    {
        self.sessions[place].caller.watch(&service.shared)
    }

    // Has the caller of a session see what a watcher has seen.
    fn learn<G: Gate>(
        &mut self,
        service: &Service<D, A, C, G>,
        place: usize,
        watcher: Pass<Held<D, A, C>>,
    )
        requires place { place < length self.old.sessions.items }
        requires ready { (d : session.Session _ _ _) → IsReady (world service.now.shared) 0 (get_or self.old.sessions.items place d).caller }
        requires idle { IsIdle (world service.now.shared).lock watcher }
        requires weightless { watcher.me.0.weight ≡ 0 }
        requires legal { Legal (world service.now.shared) (entries_of watcher.me.0.seen) }
        ensures learned { ChangesAt place (HasLearned (world service.now.shared)) self.old.sessions.items self.new.sessions.items }
        ensures met { (d : session.Session _ _ _) → StartsWith (entries_of (get_or self.new.sessions.items place d).caller.pass.me.0.seen) (entries_of watcher.me.0.seen) }
        ensures same { (self.new.last ≡ self.old.last) × (self.new.buffer ≡ self.old.buffer) × (self.new.whole ≡ self.old.whole) }
    {
        self.sessions[place].caller.learn(&service.shared, watcher);
    }

    // Has the caller of a session see all that the caller has seen whose call was the last.
    fn meet<G: Gate>(&mut self, service: &Service<D, A, C, G>, place: usize)
        requires place { place < length self.old.sessions.items }
        requires last { IfSome self.old.last (λ last. last < length self.old.sessions.items) }
        requires ready { All (λ s. IsReady (world service.now.shared) 0 s.caller) self.old.sessions.items }
        ensures learned { ChangesAt place (HasLearned (world service.now.shared)) self.old.sessions.items self.new.sessions.items }
        ensures met { IfSome self.old.last (λ last. (d : session.Session _ _ _) →
            StartsWith (entries_of (get_or self.new.sessions.items place d).caller.pass.me.0.seen) (entries_of (get_or self.old.sessions.items last d).caller.pass.me.0.seen)) }
        ensures same { (self.new.last ≡ self.old.last) × (self.new.buffer ≡ self.old.buffer) × (self.new.whole ≡ self.old.whole) }
    {
        let Some(last) = self.last else {
            return;
        };
        if last != place {
            let watcher = self.watch(service, last);
            self.learn(service, place, watcher);
        }
    }

    // Runs a line, where it is of one of the sessions.
    fn run_line<R: Wait, G: Gate>(
        &mut self,
        rt: &R,
        alloc: Global,
        service: &Service<D, A, C, G>,
        names: &Names,
        line: &ScriptLine,
    ) -> Result<(), Memory>
        requires { (lines : List script_line.ScriptLine) × HaveRun (world service.now.shared) names.now lines self.old × (length lines < 20000) × (2 * length lines + 2 ≤ service.now.worn) }
        ensures ran { (lines : List script_line.ScriptLine) → HaveRun (world service.now.shared) names.now lines self.old →
            MatchResult result (λ done. HaveRun (world service.now.shared) names.now (lines ++ line.now ∷ []) self.new)
            (λ full. All (λ s. HasMade (world service.now.shared) names.now lines s.caller ⊎ HasMade (world service.now.shared) names.now (lines ++ line.now ∷ []) s.caller) self.new.sessions.items) }
        ensures numbers { numbers_of self.new.sessions.items ≡ numbers_of self.old.sessions.items }
        ensures form { (form : reply_form.ReplyForm) → HaveForm form self.old.sessions.items → HaveForm form self.new.sessions.items }
        ensures whole { self.new.whole ≡ self.old.whole }
    {
        let Some(place) = place_of(&self.sessions, self.last, line.session) else {
            return Ok(());
        };
        self.meet(service, place);
        let ran = self.sessions[place].run_line(rt, alloc, service, names, &mut self.buffer, line);
        self.last = Some(place);
        ran
    }

    /// Runs the lines of its sessions, in the order of the script. Stops where memory runs out, and says so.
    pub fn run<R: Wait, G: Gate>(
        &mut self,
        rt: &R,
        alloc: Global,
        service: &Service<D, A, C, G>,
        names: &Names,
        lines: &[ScriptLine],
    )
        requires begun { HaveRun (world service.now.shared) names.now [] self.old }
        requires few { length lines.now ≤ 20000 }
        requires budget { 2 * length lines.now ≤ service.now.worn }
        ensures { HasWorked (world service.now.shared) names.now lines.now self.old self.new }
    {
        self.whole = true;
        for line in lines {
            let Ok(()) = self.run_line(rt, alloc, service, names, line) else {
                self.whole = false;
                return;
            };
        }
    }
}
