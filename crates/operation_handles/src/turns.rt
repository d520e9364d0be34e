// A turn of any family's operation: the random bytes that it takes from the caller's stream, and then the work.
ghost use Rattle.std.specs.Prelude.{◌≡◌, ◌≤◌, ◌+◌, ◌^◌, ℕ, List, true, length};
ghost use Rattle.random_streams.specs.RandomWords.{drawn_from, next_bytes};
ghost use Rattle.store_model.specs.Prelude.{buffer_after, Operation};
ghost use Rattle.service_calls.specs.Answered.{AnswersReply};
ghost use Rattle.multipart.specs.Turns.{by_key};
ghost use Rattle.operation_handles.specs.Draws.{DrawsFew};

use multipart::{Family, compute, drawn};
use psa_status::Status;
use random_streams::Stream;
use service_calls::Output;

// The stream's next bytes where a step may take them. They are not drawn.
fn random_for(stream: &Stream, takes: bool) -> [u8; 16]
    requires words { stream.now.place + 256 ≤ 2 ^ 60 }
    ensures bytes { takes ≡ true → result ≡ next_bytes stream.now 16 }
    ensures size { length result ≡ 16 }
{
    let mut random = [0; 16];
    if takes {
        stream.peek(&mut random);
    }
    random
}

// Draws the stream's next bytes, 16 at most, of which nothing is kept.
fn skip(stream: &mut Stream, count: usize)
    requires words { stream.old.place + 256 ≤ 2 ^ 60 }
    requires few { count ≤ 16 }
    ensures { stream.new ≡ drawn_from stream.old count }
{
    let mut bytes = [0; 16];
    stream.fill(&mut bytes[..count]);
}

// All that a step asks of its caller's stream, before anything is computed: the next random bytes where the step takes
// them, which are then drawn.
fn decide<S: Copy + Drop, F: Family<S>>(
    stream: &mut Stream,
    state: &F,
    alive: bool,
    step: &S,
    room: usize,
) -> [u8; 16]
    requires words { stream.old.place + 256 ≤ 2 ^ 60 }
    ensures random { F.takes step.now ≡ true → result ≡ next_bytes stream.old 16 }
    ensures stream { (r : List ℕ) (own : Operation F.Work) → F.stands state.now own →
        stream.new ≡ drawn_from stream.old (by_key alive own (λ w. F.meaning r w step.now room)).drawn }
    ensures few { DrawsFew stream.old stream.new }
{
    let random = random_for(stream, F::takes_random(step));
    skip(stream, drawn(state, alive, step, room));
    random
}

/// Takes one step of any family's operation, with the caller's next random bytes where the step takes them.
pub fn turn<S: Copy + Drop, F: Family<S>>(
    stream: &mut Stream,
    state: &mut F,
    alive: bool,
    step: S,
    out: &mut [u8],
) -> Result<Output, Status>
    requires words { stream.old.place + 256 ≤ 2 ^ 60 }
    ensures state { (own : Operation F.Work) → F.stands state.old own →
        F.stands state.new (by_key alive own (λ w. F.meaning (next_bytes stream.old 16) w step (length out.old))).operation }
    ensures reply { (own : Operation F.Work) → F.stands state.old own →
        AnswersReply result (by_key alive own (λ w. F.meaning (next_bytes stream.old 16) w step (length out.old))).reply }
    ensures buffer { (own : Operation F.Work) → F.stands state.old own →
        out.new ≡ buffer_after out.old (by_key alive own (λ w. F.meaning (next_bytes stream.old 16) w step (length out.old))).reply }
    ensures stream { (own : Operation F.Work) → F.stands state.old own →
        stream.new ≡ drawn_from stream.old (by_key alive own (λ w. F.meaning (next_bytes stream.old 16) w step (length out.old))).drawn }
    ensures few { DrawsFew stream.old stream.new }
{
    let random = decide(stream, state, alive, &step, out.len());
    compute(state, alive, step, &random, out)
}
