// The state of an operation of any family.
ghost use Rattle.std.specs.Prelude.{◌≡◌, ◌≤◌, ℕ, Bool, List, true, length};
ghost use Rattle.store_model.specs.Prelude.{buffer_after, Operation, After, Inactive, is_inactive, refusal};
ghost use Rattle.service_calls.specs.Answered.{AnswersReply};
ghost use Rattle.multipart.specs.Phases.{LeadsTo};
ghost use Rattle.multipart.specs.declared.Phase.TheVariants as phases;

use crate::Phase;
use crate::stepped::Stepped;
use psa_status::Status;
use service_calls::Output;

/// What the operations of a family run.
pub trait Work: Drop {
    /// What is said and given to an operation.
    ghost Said: { Type 0 };

    /// Nothing of it is left.
    ghost is_clear: { Self → Type 0 };

    /// It is what runs.
    ghost holds: { Self → Said → Type 0 };

    /// What is true of it while an operation is active, whatever was said.
    ghost runs: { Self → Type 0 } = { λ _. Unit {0} };

    /// Forgets everything.
    fn forget(&mut self)
        ensures { is_clear self.new };
}

/// What the operations of a family run, whose steps are these values.
pub trait Steps<S>: Work {
    /// What is said and given to an operation, again: no member's type may name a supertrait's `Said`.
    ghost Given: { Type 0 };

    /// It is what runs, again.
    ghost has: { Self → Given → Type 0 };

    /// What a step with an output buffer of so many bytes does in the model, where these are the next random bytes.
    ghost meaning: { (random : List ℕ) → Given → S → (room : ℕ) → After Given };

    /// Whether a step may take random bytes.
    ghost takes: { S → Bool };

    /// Whether a step may take random bytes.
    fn takes_random(step: &S) -> bool
        ensures { result ≡ takes step.now };

    /// How many random bytes a step takes with an output buffer of so many bytes, decided before it is computed.
    fn draws(&self, step: &S, room: usize) -> usize
        requires { Self.runs self.now }
        ensures bound { result ≤ 16 }
        ensures drawn { (r : List ℕ) (w : Given) → has self.now w → result ≡ (meaning r w step.now room).drawn };

    /// Takes one step of an active operation. `random` has the next random bytes for a step that may take them.
    fn advance(&mut self, step: S, random: &[u8; 16], out: &mut [u8]) -> Stepped
        requires { Self.runs self.old }
        ensures runs { result.phase ≡ phases.Active → Self.runs self.new }
        ensures state { (r : List ℕ) (w : Given) → (takes step ≡ true → r ≡ random.now) → has self.old w →
            LeadsTo result.phase (has self.new) (meaning r w step (length out.old)).operation }
        ensures reply { (r : List ℕ) (w : Given) → (takes step ≡ true → r ≡ random.now) → has self.old w →
            AnswersReply result.answer (meaning r w step (length out.old)).reply }
        ensures buffer { (r : List ℕ) (w : Given) → (takes step ≡ true → r ≡ random.now) → has self.old w →
            out.new ≡ buffer_after out.old (meaning r w step (length out.old)).reply };
}

/// An operation in several parts: how it stands, and what it runs while it is active.
#[derive(Drop)]
pub struct OperationState<W> {
    pub phase: Phase,
    pub work: W,
}

impl<W: Work> OperationState<W> {
    ghost use Rattle.multipart.specs.States.{StandsForOperation};
    ghost use Rattle.multipart.specs.Turns.{is_active, loses_key, on_active};

    /// An inactive operation.
    pub fn new(work: W) -> OperationState<W>
        requires { W.is_clear work }
        ensures { StandsForOperation W.is_clear W.holds result Inactive }
    {
        OperationState {
            phase: Phase::Inactive,
            work,
        }
    }

    /// Whether it is inactive.
    pub fn is_inactive(&self) -> bool
        ensures { (op : Operation W.Said) → StandsForOperation W.is_clear W.holds self.now op →
            result ≡ is_inactive op }
    {
        self.phase == Phase::Inactive
    }

    /// Whether it is active.
    pub fn is_active(&self) -> bool
        ensures { (op : Operation W.Said) → StandsForOperation W.is_clear W.holds self.now op →
            result ≡ is_active op }
    {
        self.phase == Phase::Active
    }

    /// Goes on in this phase. What isn't active any more forgets everything.
    pub fn settle(&mut self, phase: Phase)
        ensures phase { self.new.phase ≡ phase }
        ensures active { phase ≡ phases.Active → self.new.work ≡ self.old.work }
        ensures over { (phase ≡ phases.Active → ⊥) → W.is_clear self.new.work }
    {
        if phase != Phase::Active {
            self.work.forget();
        }
        self.phase = phase;
    }

    /// Forgets everything: it is inactive.
    pub fn wipe(&mut self)
        ensures clear { W.is_clear self.new.work }
        ensures inactive { StandsForOperation W.is_clear W.holds self.new Inactive }
    {
        self.settle(Phase::Inactive);
    }

    /// Its key is gone, and an active operation fails: it is in error, and this is `InvalidHandle`. `BadState` where it
    /// isn't active.
    pub fn lose_key(&mut self) -> Status
        ensures state { (op : Operation W.Said) → StandsForOperation W.is_clear W.holds self.old op →
            StandsForOperation W.is_clear W.holds self.new (loses_key op).operation }
        ensures reply { (op : Operation W.Said) → StandsForOperation W.is_clear W.holds self.old op →
            refusal result ≡ (loses_key op).reply }
        ensures ended { self.new.phase ≡ phases.Active → ⊥ }
    {
        match self.phase.check_active() {
            Ok(()) => {
                self.settle(Phase::InError);
                Status::InvalidHandle
            }
            Err(status) => status,
        }
    }

    /// How many random bytes a step takes with an output buffer of so many bytes, decided before it is taken.
    pub fn draws<S>(&self, step: &S, room: usize) -> usize
    where
        W: Steps<S>,
        requires { self.now.phase ≡ phases.Active → W.runs self.now.work }
        ensures bound { result ≤ 16 }
        ensures drawn { (r : List ℕ) (op : Operation W.Given) → StandsForOperation W.is_clear W.has self.now op →
            result ≡ (on_active op (λ w. W.meaning r w step.now room)).drawn }
    {
        match self.phase {
            Phase::Active => self.work.draws(step, room),
            Phase::Inactive | Phase::InError => 0,
        }
    }

    /// Takes one step. `BadState`, and nothing else, where the operation isn't active; one that isn't active any more
    /// after it forgets everything.
    pub fn step<S: Drop>(
        &mut self,
        step: S,
        random: &[u8; 16],
        out: &mut [u8],
    ) -> Result<Output, Status>
    where
        W: Steps<S>,
        requires { self.old.phase ≡ phases.Active → W.runs self.old.work }
        ensures runs { self.new.phase ≡ phases.Active → W.runs self.new.work }
        ensures state { (r : List ℕ) (op : Operation W.Given) → (W.takes step ≡ true → r ≡ random.now) → StandsForOperation W.is_clear W.has self.old op →
            StandsForOperation W.is_clear W.has self.new (on_active op (λ w. W.meaning r w step (length out.old))).operation }
        ensures reply { (r : List ℕ) (op : Operation W.Given) → (W.takes step ≡ true → r ≡ random.now) → StandsForOperation W.is_clear W.has self.old op →
            AnswersReply result (on_active op (λ w. W.meaning r w step (length out.old))).reply }
        ensures buffer { (r : List ℕ) (op : Operation W.Given) → (W.takes step ≡ true → r ≡ random.now) → StandsForOperation W.is_clear W.has self.old op →
            out.new ≡ buffer_after out.old (on_active op (λ w. W.meaning r w step (length out.old))).reply }
    {
        self.phase.check_active()?;
        let stepped = self.work.advance(step, random, out);
        self.settle(stepped.phase);
        stepped.answer
    }
}
