// Why a text isn't a script.
ghost use Rattle.std.specs.Prelude.{◌≡◌};
ghost use Rattle.script_lang.specs.declared.faults.LineError.TheVariants.{Memory};

use std::alloc::{AllocError, AllocFailed};
use thiserror::Error;

/// Why a line is outside the grammar.
#[derive(Clone, Copy, Debug, PartialEq, Eq, Drop, Error)]
pub enum Reason {
    #[error("bad session")]
    BadSession,
    #[error("unknown command")]
    UnknownCommand,
    #[error("missing word")]
    MissingWord,
    #[error("bad handle")]
    BadHandle,
    #[error("bad name")]
    BadName,
    #[error("bad key")]
    BadKey,
    #[error("unknown name")]
    UnknownName,
    #[error("unknown field")]
    UnknownField,
    #[error("repeated field")]
    RepeatedField,
    #[error("bad value")]
    BadValue,
    #[error("missing field")]
    MissingField,
    #[error("late owner")]
    LateOwner,
    #[error("bad owner")]
    BadOwner,
}

/// Why a text isn't read as a script: it is longer than 4 MiB, it has more than 20,000 lines, a line is
/// outside the grammar (lines are counted from 1), or there was no memory.
#[derive(Clone, Copy, Debug, PartialEq, Eq, Drop, Error)]
pub enum ScriptFault {
    #[error("script too long")]
    TooLong,
    #[error("too many lines")]
    TooManyLines,
    #[error("line {line}: {reason}")]
    BadLine { line: u32, reason: Reason },
    #[error("out of memory")]
    Memory,
}

/// Why a line was not read.
#[derive(Clone, Copy, Debug, Drop)]
pub(crate) enum LineError {
    Memory,
    Bad(Reason),
}

impl From<AllocError> for LineError {
    ghost from_gives = { λ _ e. e ≡ Memory };

    fn from(_e: AllocError) -> LineError {
        LineError::Memory
    }
}

impl<T: Drop> From<AllocFailed<T>> for LineError {
    ghost from_gives = { λ _ e. e ≡ Memory };

    fn from(_e: AllocFailed<T>) -> LineError {
        LineError::Memory
    }
}
