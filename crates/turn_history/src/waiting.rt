//! How a pass waits for its turn. It draws a ticket once nobody has one that is still to be served,
//! or after a while all the same: a thread that has a ticket and doesn't run holds up all that come
//! after it. With its ticket it looks again at once for a while, then lets other threads run between
//! its looks, and then sleeps until a turn ends. Nothing is claimed of how long that takes.
ghost use Rattle.std.specs.Prelude.{◌≡◌};

use crate::historic::Historic;
use crate::pass::View;
use crate::rule::{Opening, Turns};
use atomic_table::Shared;
use std::sync::Wait;
use std::{hint, thread};

/// Without a ticket: the pauses after the first look. After each further one they are four times as many.
const FEWEST_PAUSES: u32 = 64;

/// Without a ticket: the most pauses after a look. After so many, other threads run too.
const MOST_PAUSES: u32 = 2048;

/// Without a ticket: after so many looks it draws one.
const GLANCES: u32 = 100;

/// With a ticket: so many looks follow each other at once.
const QUICK_LOOKS: u32 = 100;

/// With a ticket: after so many looks it sleeps between them.
const WAKEFUL_LOOKS: u32 = 300;

/// The table of a lock over `V`.
pub(crate) type Board<V> = Shared<
    Option<Box<V>>,
    View<<V as Historic>::Entry, <V as Historic>::Base>,
    Opening<V>,
    Turns<V>,
>;

// Pauses so many times. After the most, other threads run too.
fn rest(pauses: u32) {
    for _ in 0..pauses {
        hint::spin_loop();
    }
    if pauses == MOST_PAUSES {
        thread::yield_now();
    }
}

/// Lets those pass that have a ticket, for a while. The longer they take, the rarer are the looks: what the lock guards then
/// stays with the processor that has it.
pub(crate) fn hold_back<V: Historic>(board: &Board<V>)
    requires { board.now.table_id.words ≡ 2 }
{
    let mut pauses = FEWEST_PAUSES;
    for _ in 0..GLANCES {
        if board.peek(0) == board.peek(1) {
            return;
        }
        rest(pauses);
        pauses = pauses.saturating_mul(4).min(MOST_PAUSES);
    }
}

/// Waits between two looks, of which the last found so many turns ended.
pub(crate) fn pause<V: Historic, R: Wait>(rt: &R, board: &Board<V>, ended: u64, looks: u32)
    requires { board.now.table_id.words ≡ 2 }
{
    if looks < QUICK_LOOKS {
        hint::spin_loop();
    } else if looks < WAKEFUL_LOOKS {
        thread::yield_now();
    } else {
        board.park(rt, 0, (ended % (1 << 32)) as u32);
    }
}

/// Wakes those that sleep, where a further ticket than that of the ended turn was drawn. Whoever
/// draws one later finds that the turn has ended, and need not be woken.
pub(crate) fn wake<V: Historic>(board: &Board<V>, ticket: u64)
    requires { board.now.table_id.words ≡ 2 }
{
    if board.peek(1) > ticket.saturating_add(1) {
        board.wake_all(0);
    }
}
