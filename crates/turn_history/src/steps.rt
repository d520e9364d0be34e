//! The kinds of atomic step on the table, and what each tells the pass that makes it.
use crate::historic::Historic;
use crate::naming::Naming;
use crate::pass::View;
use atomic_table::{Join, Play, Split};
use std::marker::PhantomData;

/// Draws a ticket.
pub(crate) struct Draw;

impl<V: Historic> Play<Option<Box<V>>, View<V::Entry, V::Base>> for Draw {
    ghost use Rattle.turn_history.specs.Steps.{drawn};

    ghost then = { drawn };
}

/// Looks whose turn it is. On the own turn it takes the slot.
pub(crate) struct Look;

impl<V: Historic> Play<Option<Box<V>>, View<V::Entry, V::Base>> for Look {
    ghost use Rattle.turn_history.specs.Boxed.{boxed_base, boxed_stands};
    ghost use Rattle.turn_history.specs.Steps.{looked};

    ghost then = { looked V.by (boxed_stands V.stands) (boxed_base V.base) };
}

/// Ends a turn, with the named entry or without one, and gives the slot back.
pub(crate) struct End<N> {
    naming: PhantomData<N>,
}

impl<V: Historic, N: Naming<V::Entry>> Play<Option<Box<V>>, View<V::Entry, V::Base>> for End<N> {
    ghost use Rattle.turn_history.specs.Steps.{ended};

    ghost then = { ended V.by N.entry N.holding };
}

/// Reads how many turns have ended.
pub(crate) struct Front;

impl<V: Historic> Play<Option<Box<V>>, View<V::Entry, V::Base>> for Front {
    ghost use Rattle.turn_history.specs.Steps.{fronted};

    ghost then = { fronted V.by };
}

/// Compares what those that were taken in had seen, and forgets them.
pub(crate) struct Compare;

impl<V: Historic> Play<Option<Box<V>>, View<V::Entry, V::Base>> for Compare {
    ghost use Rattle.turn_history.specs.Steps.{compared};

    ghost then = { compared V.by };
}

/// A newcomer that takes passes in at the lock's end.
pub(crate) struct Come;

impl<V: Historic> Play<Option<Box<V>>, View<V::Entry, V::Base>> for Come {
    ghost use Rattle.turn_history.specs.Steps.{came};

    ghost then = { came };
}

/// Splits a watcher off.
pub(crate) struct Watch;

impl<E, B> Split<View<E, B>> for Watch {
    ghost use Rattle.turn_history.specs.Views.{watcher};

    ghost left = { λ view. view };

    ghost right = { watcher };
}

/// Splits off the pass with the next number.
pub(crate) struct Make;

impl<E, B> Split<View<E, B>> for Make {
    ghost use Rattle.turn_history.specs.Views.{after_making, made_pass};

    ghost left = { after_making };

    ghost right = { made_pass };
}

/// Takes in what another pass has seen and has left.
pub(crate) struct Merge;

impl<E, B> Join<View<E, B>> for Merge {
    ghost use Rattle.turn_history.specs.Views.{merged, spent};

    ghost both = { merged };

    ghost spent = { spent };
}

/// Takes in the account of another pass.
pub(crate) struct Gather;

impl<E, B> Join<View<E, B>> for Gather {
    ghost use Rattle.turn_history.specs.Views.{gathering, spent};

    ghost both = { gathering };

    ghost spent = { spent };
}
