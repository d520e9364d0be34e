// How a caller ends.
ghost use Rattle.std.specs.Prelude.{◌≡◌, ◌-◌, All, None};
ghost use Rattle.turn_history.specs.Prelude.{entries_of};
ghost use Rattle.locked_store.specs.Prelude.{IsAt, world};
ghost use Rattle.callers.specs.Prelude.{AreIdle, IsReady, IsRetired, IsRetiring, Legal, MakesNoCall};

use crate::caller::Caller;
use crate::handles::Handles;
use admission::Admission;
use disk_face::Disk;
use driver_dispatch::Devices;
use locked_store::{Held, SharedStore};
use service_calls::Op;
use std::sync::Wait;
use turn_history::Pass;

impl Handles {
    // Lets the handles go, which hold no lease any more.
    fn free(self)
        requires { All (λ c. c.lease ≡ None) self.list.items }
    {
        let Handles { mut list } = self;
        while let Some(cell) = list.pop() {
            let _states = cell.into_states();
        }
        list.destroy_empty();
    }
}

impl<D: Disk, A: Devices, C: Admission> Caller<D, A, C> {
    /// Wipes all operations, and gives their leases back. The caller then has nothing more out of the store, and makes no
    /// further call. No rank.
    pub fn retire<R: Wait>(&mut self, rt: &R, shared: &SharedStore<D, A, C>)
        requires ready { IsReady (world shared.now) 0 self.old }
        ensures retired { IsRetired (world shared.now).lock self.new }
        ensures at { IsAt (world shared.now) self.new.pass }
        ensures legal { Legal (world shared.now) (entries_of self.new.pass.me.0.seen) }
        ensures quiet { MakesNoCall self.old.pass.me.0 self.new.pass.me.0 }
        ensures number { self.new.number ≡ self.old.number }
    {
        for place in 0..4u8 {
            let op = Op::new(place + 1).unwrap();
            self.wipe(rt, shared, op);
        }
    }

    // Wipes a handle's operation, and gives its lease back. No rank.
    fn wipe<R: Wait>(&mut self, rt: &R, shared: &SharedStore<D, A, C>, op: Op)
        requires retiring { IsRetiring (world shared.now) (op - 1) self.old }
        ensures retiring { IsRetiring (world shared.now) op self.new }
        ensures quiet { MakesNoCall self.old.pass.me.0 self.new.pass.me.0 }
        ensures number { self.new.number ≡ self.old.number }
    {
        let lease = self.handles.abort(op);
        self.give_back(rt, shared, lease);
    }

    /// The pass of a caller that has retired.
    pub fn into_pass(self) -> Pass<Held<D, A, C>>
        requires retired { AreIdle self.handles.list.items }
        ensures pass { result ≡ self.pass }
    {
        let Caller {
            number: _number,
            spent: _spent,
            pass,
            stream: _stream,
            spares: _spares,
            handles,
        } = self;
        handles.free();
        pass
    }
}
