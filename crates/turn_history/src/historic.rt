//! What a value under the lock says of itself.
ghost use Rattle.std.specs.Prelude.{◌≡◌, ℕ, List, length};

/// A value that stands for a history, and for what each pass has out of it.
pub trait Historic {
    /// What a turn adds to the history. It is plain data, and no value of it need be made.
    type Entry;
    /// What no turn changes.
    type Base;

    /// The number of the pass that made an entry.
    ghost by: { Self.Entry → ℕ };

    /// The value stands for this history and these holdings: a list for each pass number from 1
    /// on, which has a pair of numbers for each thing that the pass has out of the value.
    ghost stands: { Self → List Self.Entry → List (List (ℕ × ℕ)) → Type 0 };

    ghost base: { Self → Self.Base };

    /// The length of the history.
    fn entries(&self) -> u64
        ensures { (history : List Self.Entry) (holdings : List (List (ℕ × ℕ))) → stands self.now history holdings → result ≡ length history };
}
