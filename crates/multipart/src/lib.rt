//! Operations in several parts, as all families have them: phases, the one state and its step, and how bytes are given and compared.
//!
//! What is proved:
//!
//! - `Family`, `compute`, `drawn`, `OperationState`: every family of operations meets `Family`: a step is the model's, by
//!   its value. `compute`, `drawn`: a step by whether the operation's key is there, and the random bytes that it takes.
//!   `OperationState`: a step of what any family runs is one of its operation; what a refusal, a finish, a lost key and a
//!   wipe leave. Bytes that are given or compared, and zeros where they had been computed.
#![tactic(auto)]

ghost use Rattle.std.specs.Prelude.{◌≡◌, if◌then◌else◌, IfOk, IfErr};
ghost use Rattle.psa_status.specs.declared.Status.TheVariants.{BadState};
ghost use Rattle.multipart.specs.declared.Phase.TheVariants as phase;

pub use comparing::{is_equal, is_front};
pub use family::{Family, compute, drawn};
pub use outputs::{give, give_front, move_to_front};
use psa_status::Status;
pub use state::{OperationState, Steps, Work};
pub use stepped::Stepped;

mod comparing;
mod family;
mod optional;
mod outputs;
mod state;
mod stepped;

/// How an operation stands: it waits for a setup, it has failed and waits for its abort, or it is active.
#[derive(Clone, Copy, Debug, Drop, PartialEq, Eq)]
pub enum Phase {
    Inactive,
    InError,
    Active,
}

impl Phase {
    // This phase where a call succeeded, and else in error.
    fn unless_failed(self, succeeded: bool) -> Phase
        ensures { result ≡ (if succeeded then self else phase.InError) }
    {
        if succeeded { self } else { Phase::InError }
    }

    /// The phase after a step: active where it succeeded, and else in error.
    pub fn after_step(succeeded: bool) -> Phase
        ensures { result ≡ (if succeeded then phase.Active else phase.InError) }
    {
        Phase::Active.unless_failed(succeeded)
    }

    /// The phase after a finish: inactive where it succeeded, and else in error.
    pub fn after_finish(succeeded: bool) -> Phase
        ensures phase { result ≡ (if succeeded then phase.Inactive else phase.InError) }
        ensures ended { result ≡ phase.Active → ⊥ }
    {
        Phase::Inactive.unless_failed(succeeded)
    }

    /// `BadState` exactly where the operation isn't inactive, as a setup asks.
    pub fn check_inactive(self) -> Result<(), Status>
        ensures inactive { IfOk result (λ _. self ≡ phase.Inactive) }
        ensures refused { IfErr result (λ status. (status ≡ BadState) × (self ≡ phase.Inactive → ⊥)) }
    {
        match self {
            Phase::Inactive => Ok(()),
            Phase::InError | Phase::Active => Err(Status::BadState),
        }
    }

    /// `BadState` exactly where the operation isn't active, as a step and a finish ask.
    pub fn check_active(self) -> Result<(), Status>
        ensures active { IfOk result (λ _. self ≡ phase.Active) }
        ensures refused { IfErr result (λ status. (status ≡ BadState) × (self ≡ phase.Active → ⊥)) }
    {
        match self {
            Phase::Active => Ok(()),
            Phase::Inactive | Phase::InError => Err(Status::BadState),
        }
    }
}
