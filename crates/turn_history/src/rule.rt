//! The table that all passes share: word 0 is the number of ended turns, word 1 the next ticket,
//! and slot 0 has the value while no pass is in its turn.
use crate::historic::Historic;
use crate::pass::View;
use atomic_table::TableRule;
use std::marker::PhantomData;
use std::snapshot::Snapshot;

/// What the table is told once: the value that it begins with, and the number of passes.
#[derive(Drop)]
pub struct Opening<V> {
    pub value: Snapshot<V>,
    pub passes: u8,
}

/// The rule of the table. No value of it is made.
pub struct Turns<V> {
    value: PhantomData<V>,
}

impl<V: Historic> TableRule<Option<Box<V>>, View<V::Entry, V::Base>, Opening<V>> for Turns<V> {
    ghost use Rattle.turn_history.specs.Boxed.{boxed_base, boxed_stands};
    ghost use Rattle.turn_history.specs.Rule.{Kept};
    ghost use Rattle.turn_history.specs.Views.{first_view};

    ghost holds = { λ key. Kept V.by (boxed_stands V.stands) (boxed_base V.base) (V.base key.value.value) key.passes };

    ghost first = { λ key. first_view (V.base key.value.value) key.passes };
}
