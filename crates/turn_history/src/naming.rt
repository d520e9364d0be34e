//! What the end of a turn names, for contracts alone.
use std::marker::Brand;

/// The entry that a turn adds, if any, and what its pass has out of the value afterwards.
pub trait Naming<E> {
    ghost use Rattle.std.specs.Prelude.{ℕ, List, Option};

    ghost entry: { Option E };

    ghost holding: { List (ℕ × ℕ) };
}

/// A turn without an entry, whose pass has nothing out of the value.
impl<E> Naming<E> for Brand {
    ghost use Rattle.std.specs.Prelude.{None, []};

    ghost entry = { None };

    ghost holding = { [] };
}
