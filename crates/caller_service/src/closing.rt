// How the callers of a service end.
ghost use Rattle.std.specs.Prelude.{◌≡◌, ◌<◌, ◌+◌, ◌++◌, ℕ, All, length, map, reverse};
ghost use Rattle.turn_history.specs.Prelude.{account_of};
ghost use Rattle.callers.specs.{Ready.IsReady, Retired.IsRetired};
ghost use Rattle.locked_store.specs.Prelude.{world};
ghost use Rattle.caller_service.specs.Closing.{WereRetired};

use admission::Admission;
use callers::Caller;
use disk_face::Disk;
use driver_dispatch::Devices;
use locked_store::{Held, SharedStore};
use std::sync::Wait;
use turn_history::Ending;

/// Wipes all operations of callers and gives their leases back. No rank.
pub(crate) fn retire_all<D: Disk, A: Devices, C: Admission, R: Wait>(
    rt: &R,
    shared: &SharedStore<D, A, C>,
    callers: &mut Vec<Caller<D, A, C>>,
)
    requires ready { All (IsReady (world shared.now) 0) callers.old.items }
    ensures retired { WereRetired (world shared.now) callers.old.items callers.new.items }
{
    for caller in callers.iter_mut() {
        caller.retire(rt, shared);
    }
}

/// Hands the passes of callers in that are retired.
pub(crate) fn hand_in<D: Disk, A: Devices, C: Admission>(
    mut ending: Ending<Held<D, A, C>>,
    callers: Vec<Caller<D, A, C>>,
) -> Ending<Held<D, A, C>>
    requires retired { All (IsRetired ending.lock.table.shared.table_id) callers.items }
    requires one { All (λ c. c.pass.me.0.weight ≡ 1) callers.items }
    ensures lock { result.lock ≡ ending.lock }
    ensures accounts { result.last.me.0.accounts ≡ ending.last.me.0.accounts ++ map (λ c. account_of c.pass.me.0) (reverse callers.items) }
    ensures weight { result.last.me.0.weight ≡ ending.last.me.0.weight + length callers.items }
{
    let mut callers = callers;
    while let Some(caller) = callers.pop() {
        ending.take(caller.into_pass());
    }
    callers.destroy_empty();
    ending
}
