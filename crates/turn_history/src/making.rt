//! The making of a lock.
ghost use Rattle.std.specs.Prelude.{◌≡◌, ◌<◌, ◌≤◌, ◌∷◌, [], IfOk, IfErr, replicate, Some, vec_capacity};
ghost use Rattle.turn_history.specs.{Views.first_view, Passes.AreNew};

use crate::historic::Historic;
use crate::lock::HistoryLock;
use crate::pass::Pass;
use crate::rule::Opening;
use crate::steps::Make;
use crate::waiting::Board;
use atomic_table::Table;
use std::alloc::{AllocFailed, Global};
use std::snapshot::Snapshot;

/// There was no memory. The value comes back.
#[derive(Drop)]
pub struct Refused<V> {
    pub value: V,
}

type Slots<V> = Vec<Option<V>>;

// One slot with the value.
fn slot_with<V>(alloc: Global, value: V) -> Result<Slots<V>, Refused<V>>
    ensures ok { IfOk result (λ slots. slots.items ≡ Some value ∷ []) }
    ensures err { IfErr result (λ refused. refused.value ≡ value) }
{
    let mut slots = Vec::new(alloc);
    match slots.push(Some(value)) {
        Ok(()) => Ok(slots),
        Err(AllocFailed { value: back }) => {
            slots.destroy_empty();
            let value = back.unwrap();
            Err(Refused { value })
        }
    }
}

// The value out of one slot.
fn out_of<V>(mut slots: Slots<V>) -> V
    requires { (value : V) × (slots.items ≡ Some value ∷ []) }
    ensures { slots.items ≡ Some result ∷ [] }
{
    let Some(Some(value)) = slots.pop() else {
        unreachable!()
    };
    slots.destroy_empty();
    value
}

// Makes the passes, in the order of their numbers.
fn deal<V: Historic>(board: &Board<V>, mut first: Pass<V>, made: &mut Vec<Pass<V>>, passes: u8)
    requires table { (first.table_id ≡ board.now.table_id) × (0 < board.now.table_id.words) × (passes ≡ board.now.key.passes) }
    requires first { first.me ≡ (first_view (V.base board.now.key.value.value) passes, []) }
    requires room { (made.old.items ≡ []) × (passes ≤ vec_capacity made.old) }
    ensures { AreNew board.now.table_id (V.base board.now.key.value.value) passes made.new.items }
{
    for number in 0..passes {
        made.push_reserved(board.split_seat::<Make>(&mut first));
    }
}

impl<V: Historic> HistoryLock<V> {
    /// A lock round the value, with its passes, numbered from 1.
    pub fn new(
        alloc: Global,
        value: V,
        passes: u8,
    ) -> Result<(HistoryLock<V>, Vec<Pass<V>>), Refused<V>>
        requires count { (0 < passes) × (passes ≤ 16) }
        requires stands { V.stands value [] (replicate passes []) }
        ensures lock { IfOk result (λ made. (made.0.table.shared.key.passes ≡ passes) × (V.base made.0.table.shared.key.value.value ≡ V.base value)) }
        ensures passes { IfOk result (λ made. AreNew made.0.table.shared.table_id (V.base value) passes made.1.items) }
        ensures err { IfErr result (λ refused. refused.value ≡ value) }
    {
        let Ok(mut made) = Vec::with_capacity(alloc, usize::from(passes)) else {
            return Err(Refused { value });
        };
        let about = Opening {
            value: Snapshot::of(&value),
            passes,
        };
        let boxed = match Box::new(alloc, value) {
            Ok(boxed) => boxed,
            Err(AllocFailed { value }) => return Err(Refused { value }),
        };
        let slots = match slot_with(alloc, boxed) {
            Ok(slots) => slots,
            Err(Refused { value: boxed }) => {
                return Err(Refused {
                    value: Box::into_inner(boxed),
                });
            }
        };
        let (table, first) = match Table::new(alloc, &[0, 0], slots, &about) {
            Ok(table) => table,
            Err(atomic_table::Refused { slots }) => {
                return Err(Refused {
                    value: Box::into_inner(out_of(slots)),
                });
            }
        };
        deal(&table.shared, first, &mut made, passes);
        Ok((HistoryLock { table }, made))
    }
}
