// The handles of a caller.
ghost use Rattle.std.specs.Prelude.{◌≡◌, ◌≤◌, ◌<◌, ◌⊎◌, MatchOption};

use std::marker::Model;

/// One of a caller's four handles. A contract sees its number.
#[derive(Clone, Copy, Drop)]
pub struct Op(u8);

impl Model for Op {
    ghost use Rattle.std.specs.Prelude.{ℕ, ◌≤◌};

    ghost Value = { ℕ };

    ghost view = { λ op. op.0 };

    ghost inverse = { λ n. record { 0 = n } };

    ghost invariant = { λ op. (1 ≤ op.0) × (op.0 ≤ 4) };
}

impl Op {
    /// The first handle.
    pub fn first() -> Op
        ensures { result ≡ 1 }
    {
        Op(1)
    }

    /// The handle of this number, which is 1 to 4.
    pub fn new(number: u8) -> Option<Op>
        ensures { MatchOption result ((number ≡ 0) ⊎ (4 < number)) (λ op. op ≡ number) }
    {
        if 1 <= number && number <= 4 {
            Some(Op(number))
        } else {
            None
        }
    }

    pub fn number(self) -> u8
        ensures value { result ≡ self }
        ensures first { 1 ≤ result }
        ensures last { result ≤ 4 }
    {
        self.0
    }
}
