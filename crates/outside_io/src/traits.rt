// The two traits. A count of faults that is said to rise stands still at 2^64 - 1.
ghost use Rattle.std.specs.{Prelude.ℕ, Prelude.List, declared.option.Option.Option, Io.ReadsAtMost, Io.WritesAtMost, Io.KnownBytes.ReadConsumes};
ghost use Rattle.outside_io.specs.Causes.{HasCause, TellsAsBefore, Takes, Progresses};

use psa_status::Failed;

/// Where bytes come from.
pub trait Source {
    /// The bytes that are left, where the source tells them. Whether it does never changes.
    ghost left: { Self → Option (List ℕ) };

    /// How often it has failed. This number never falls.
    ghost faults: { Self → ℕ };

    /// Puts the next bytes at the front of the buffer, and says how many. 0, for a buffer that isn't empty, is
    /// the end of the source. Fails only where the number of faults rose.
    fn read(&mut self, buffer: &mut [u8]) -> Result<usize, Failed>
        ensures bound { ReadsAtMost result buffer.new }
        ensures bytes { ReadConsumes (left self.old) (left self.new) result buffer.new }
        ensures tells { TellsAsBefore (left self.old) (left self.new) }
        ensures cause { HasCause (faults self.old) (faults self.new) result };
}

/// Where bytes go.
pub trait Sink {
    /// The bytes that were taken, where the sink tells them. Whether it does never changes.
    ghost taken: { Self → Option (List ℕ) };

    /// How often it has failed. This number never falls.
    ghost faults: { Self → ℕ };

    /// Takes the first bytes of the piece, and says how many: at least one, where the piece isn't empty. Fails
    /// only where the number of faults rose, and may then have taken some of the first bytes.
    fn write(&mut self, piece: &[u8]) -> Result<usize, Failed>
        ensures bound { WritesAtMost result piece.now }
        ensures progress { Progresses result piece.now }
        ensures bytes { Takes (taken self.old) (taken self.new) result piece.now }
        ensures tells { TellsAsBefore (taken self.old) (taken self.new) }
        ensures cause { HasCause (faults self.old) (faults self.new) result };
}
