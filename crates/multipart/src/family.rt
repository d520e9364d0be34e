// What the operations of all families have in common.
ghost use Rattle.std.specs.Prelude.{◌≡◌, ◌≤◌, ℕ, Bool, List, true, length};
ghost use Rattle.store_model.specs.Prelude.{buffer_after, refusal, Operation, After};
ghost use Rattle.service_calls.specs.Answered.{AnswersReply};
ghost use Rattle.multipart.specs.Turns.{by_key, loses_key, on_active};

use psa_status::Status;
use service_calls::Output;

/// The state of an operation of one family, whose steps are these values.
pub trait Family<S>: Drop {
    /// The model's work of an operation.
    ghost Work: { Type 0 };

    /// The state stands for an operation.
    ghost stands: { Self → Operation Work → Type 0 };

    /// What a step with an output buffer of so many bytes does in the model, where these are the next random bytes.
    ghost meaning: { (random : List ℕ) → Work → S → (room : ℕ) → After Work };

    /// Whether a step may take random bytes.
    ghost takes: { S → Bool };

    /// The key of the operation is gone: an active one fails.
    fn lose_key(&mut self) -> Status
        ensures state { (own : Operation Work) → stands self.old own → stands self.new (loses_key own).operation }
        ensures reply { (own : Operation Work) → stands self.old own → refusal result ≡ (loses_key own).reply };

    /// Whether a step may take random bytes.
    fn takes_random(step: &S) -> bool
        ensures { result ≡ takes step.now };

    /// How many random bytes a step takes with an output buffer of so many bytes, decided before it is computed.
    fn draws(&self, step: &S, room: usize) -> usize
        ensures bound { result ≤ 16 }
        ensures drawn { (r : List ℕ) (own : Operation Work) → stands self.now own →
            result ≡ (on_active own (λ w. meaning r w step.now room)).drawn };

    /// Takes one step. `random` has the next random bytes for a step that may take them.
    fn step(&mut self, step: S, random: &[u8; 16], out: &mut [u8]) -> Result<Output, Status>
        ensures state { (r : List ℕ) (own : Operation Work) → (takes step ≡ true → r ≡ random.now) → stands self.old own →
            stands self.new (on_active own (λ w. meaning r w step (length out.old))).operation }
        ensures reply { (r : List ℕ) (own : Operation Work) → (takes step ≡ true → r ≡ random.now) → stands self.old own →
            AnswersReply result (on_active own (λ w. meaning r w step (length out.old))).reply }
        ensures buffer { (r : List ℕ) (own : Operation Work) → (takes step ≡ true → r ≡ random.now) → stands self.old own →
            out.new ≡ buffer_after out.old (on_active own (λ w. meaning r w step (length out.old))).reply };
}

/// Takes one step, once it is decided whether the operation's key is still there: an operation whose key is gone fails.
/// It sees no store.
pub fn compute<S: Copy + Drop, F: Family<S>>(
    state: &mut F,
    alive: bool,
    step: S,
    random: &[u8; 16],
    out: &mut [u8],
) -> Result<Output, Status>
    ensures state { (r : List ℕ) (own : Operation F.Work) → (F.takes step ≡ true → r ≡ random.now) → F.stands state.old own →
        F.stands state.new (by_key alive own (λ w. F.meaning r w step (length out.old))).operation }
    ensures reply { (r : List ℕ) (own : Operation F.Work) → (F.takes step ≡ true → r ≡ random.now) → F.stands state.old own →
        AnswersReply result (by_key alive own (λ w. F.meaning r w step (length out.old))).reply }
    ensures buffer { (r : List ℕ) (own : Operation F.Work) → (F.takes step ≡ true → r ≡ random.now) → F.stands state.old own →
        out.new ≡ buffer_after out.old (by_key alive own (λ w. F.meaning r w step (length out.old))).reply }
{
    if !alive {
        return Err(state.lose_key());
    }
    state.step(step, random, out)
}

/// How many random bytes a step takes, by whether the operation's key is still there.
pub fn drawn<S: Copy + Drop, F: Family<S>>(state: &F, alive: bool, step: &S, room: usize) -> usize
    ensures bound { result ≤ 16 }
    ensures drawn { (r : List ℕ) (own : Operation F.Work) → F.stands state.now own →
        result ≡ (by_key alive own (λ w. F.meaning r w step.now room)).drawn }
{
    if !alive {
        return 0;
    }
    state.draws(step, room)
}
