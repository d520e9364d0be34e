//! The lock.
ghost use Rattle.std.specs.Prelude.{◌≡◌};

use crate::historic::Historic;
use crate::pass::View;
use crate::rule::{Opening, Turns};
use atomic_table::Table;
use std::alloc::Global;

/// A value under a lock. It is in a box, so that a turn moves a pointer.
#[derive(Drop)]
pub struct HistoryLock<V: Historic> {
    pub(crate) table: Table<Option<Box<V>>, View<V::Entry, V::Base>, Opening<V>, Turns<V>, Global>,
    ghost sized: { (table.shared.table_id.words ≡ 2) × (table.shared.table_id.slots ≡ 1) },
}
