//! Places at which calls can be held.
ghost use Rattle.std.specs.Prelude.{◌≡◌};
ghost use Rattle.turn_history.specs.Prelude.{IsOutside};

use turn_history::{Historic, Pass};

/// Where a call stands as a gate is asked.
#[derive(Clone, Copy, Drop)]
pub enum GatePoint {
    /// It has taken the lease of a key.
    Reading,
    /// It has a slot for the key that it makes.
    Filling,
    /// It has its answer.
    Answered,
}

/// A place at which calls can be held. The lock is free meanwhile.
pub trait Gate: Sync + Drop {
    /// Returns as the call of this caller may go on. It may wait.
    fn hold<V: Historic>(&self, caller: u8, pass: &Pass<V>, point: GatePoint)
        requires number { pass.now.me.0.number ≡ caller }
        requires outside { IsOutside pass.now.me };
}

/// Holds no call.
#[derive(Drop)]
pub struct NoGate;

impl Gate for NoGate {
    fn hold<V: Historic>(&self, _caller: u8, _pass: &Pass<V>, _point: GatePoint) {}
}
