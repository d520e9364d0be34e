// Steps of an operation.
ghost use Rattle.std.specs.Prelude.{◌≡◌, ◌≤◌, ◌+◌, ◌^◌, length};
ghost use Rattle.random_streams.specs.RandomWords.{drawn_from, next_bytes};
ghost use Rattle.service_calls.specs.{Answered.AnswersReply, Meanings.model_step};
ghost use Rattle.store_model.specs.Prelude.{buffer_after, HandleOperation};
ghost use Rattle.operation_handles.specs.{Handles.IsOperation, Draws.DrawsFew, Steps.stepped_by};

use crate::handle::OperationHandle;
use crate::turns::turn;
use psa_status::Status;
use random_streams::Stream;
use service_calls::{Output, Step};

impl OperationHandle {
    /// Takes one step of the operation, by whether its key, if it was given one, is still there. Bytes that the step gives
    /// are written to the front of the buffer.
    pub fn step(
        &mut self,
        stream: &mut Stream,
        alive: bool,
        step: Step<'_>,
        out: &mut [u8],
    ) -> Result<Output, Status>
        requires words { stream.old.place + 256 ≤ 2 ^ 60 }
        ensures state { (operation : HandleOperation) → IsOperation self.old operation →
            IsOperation self.new (stepped_by alive (next_bytes stream.old 16) operation (model_step step.entry (length out.old))).operation }
        ensures reply { (operation : HandleOperation) → IsOperation self.old operation →
            AnswersReply result (stepped_by alive (next_bytes stream.old 16) operation (model_step step.entry (length out.old))).reply }
        ensures buffer { (operation : HandleOperation) → IsOperation self.old operation →
            out.new ≡ buffer_after out.old (stepped_by alive (next_bytes stream.old 16) operation (model_step step.entry (length out.old))).reply }
        ensures stream { (operation : HandleOperation) → IsOperation self.old operation →
            stream.new ≡ drawn_from stream.old (stepped_by alive (next_bytes stream.old 16) operation (model_step step.entry (length out.old))).drawn }
        ensures lease { self.new.lease ≡ self.old.lease }
        ensures few { DrawsFew stream.old stream.new }
    {
        let states = &mut self.states;
        match step {
            Step::Hash(step) => turn(stream, &mut states.hash, alive, step, out),
            Step::Mac(step) => turn(stream, &mut states.mac, alive, step, out),
            Step::Cipher(step) => turn(stream, &mut states.cipher, alive, step, out),
            Step::Aead(step) => turn(stream, &mut states.aead, alive, step, out),
            Step::Derivation(step) => turn(stream, &mut states.derivation, alive, step, out),
        }
    }
}
