// What calls by their names answer.
ghost use Rattle.std.specs.Prelude.{◌≡◌};
ghost use Rattle.service_calls.specs.declared.output.Output.{Output};
ghost use Rattle.caller_service.specs.Given.{description_of, identifier_of, length_of, nothing, number_of};

use key_attributes::{Attributes, KeyId};
use psa_status::Status;
use service_calls::Output;

/// What a call answers: its rank, which it has unless it is refused with `PassWorn`, and what it gives.
#[derive(Clone, Copy, Drop)]
pub struct Reply<T> {
    pub rank: Option<u64>,
    pub result: Result<T, Status>,
}

/// What a call gives, by its type.
pub(crate) trait Given {
    ghost given: { Output → Self };

    /// What is read of an answer. Of an answer of another kind it is 0.
    fn of(output: Output) -> Self
        ensures { result ≡ given output };
}

impl Given for () {
    ghost given = { nothing };

    fn of(_output: Output) {}
}

impl Given for KeyId {
    ghost given = { identifier_of };

    fn of(output: Output) -> KeyId {
        match output {
            Output::Identifier(id) => id,
            _ => KeyId(0),
        }
    }
}

impl Given for usize {
    ghost given = { length_of };

    fn of(output: Output) -> usize {
        match output {
            Output::Bytes(count) => count,
            _ => 0,
        }
    }
}

impl Given for u64 {
    ghost given = { number_of };

    fn of(output: Output) -> u64 {
        match output {
            Output::Number(number) => number,
            _ => 0,
        }
    }
}

impl Given for Attributes {
    ghost given = { description_of };

    fn of(output: Output) -> Attributes {
        match output {
            Output::Description(attributes) => attributes,
            _ => Attributes::NONE,
        }
    }
}
