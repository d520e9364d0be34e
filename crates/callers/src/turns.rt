// Parts that several shapes of calls have in common.
ghost use Rattle.std.specs.Prelude.{◌≡◌, ◌≤◌, ◌<◌, ◌+◌, ◌∷◌, ◌++◌, [], All, IfSome, get_or, length, vec_capacity, vec_len};
ghost use Rattle.secret_bytes.specs.Buffer.{IsClear};
ghost use Rattle.turn_history.specs.Prelude.{entries_of};
ghost use Rattle.service_calls.specs.Meanings.{model_request};
ghost use Rattle.store_model.specs.Prelude.{Plain, Inactive};
ghost use Rattle.locked_store.specs.Prelude.{IsAt, IsLater, IsRanked, LeavesAllKeys, lease_pair, without_pair, world};
ghost use Rattle.callers.specs.Prelude.{IsBack, IsReady, KnowsAlive, Legal, MayGoBack, SameButPass};

use crate::caller::Caller;
use admission::Admission;
use disk_face::Disk;
use driver_dispatch::Devices;
use locked_store::SharedStore;
use service_calls::{Call, Op};
use slot_table::Lease;
use std::sync::Wait;

impl<D: Disk, A: Devices, C: Admission> Caller<D, A, C> {
    // Takes the ranked turn of a call that needs no key but that of the operation of a handle, if it has one, and tells whether
    // that is still there. The call has an output buffer of so many bytes.
    pub(crate) fn ask<R: Wait>(
        &mut self,
        rt: &R,
        shared: &SharedStore<D, A, C>,
        call: &Call<'_>,
        room: usize,
        op: Op,
    ) -> (u64, bool)
        requires ready { IsReady (world shared.now) 1 self.old }
        requires leaves { LeavesAllKeys (world shared.now) self.old.pass.me.0 (model_request call.now room) }
        ensures at { IsAt (world shared.now) self.new.pass }
        ensures legal { Legal (world shared.now) (entries_of self.new.pass.me.0.seen) }
        ensures ranked { IsRanked self.old.pass.me.0 self.new.pass.me.0 (model_request call.now room) Plain result.0 self.old.pass.me.0.holding
            (KnowsAlive (world shared.now) self.old op result.1) }
        ensures same { SameButPass self.old self.new }
    {
        match self.handles.lease(op) {
            Some(lease) => {
                let (rank, stepped) = shared.step(rt, &mut self.pass, call, room, lease);
                (rank, stepped.is_ok())
            }
            None => (shared.count(rt, &mut self.pass, call, room), true),
        }
    }

    // Gives a lease back, where there is one, and keeps its spare. No rank.
    pub(crate) fn give_back<R: Wait>(
        &mut self,
        rt: &R,
        shared: &SharedStore<D, A, C>,
        lease: Option<Lease>,
    )
        requires at { IsAt (world shared.now) self.old.pass }
        requires legal { Legal (world shared.now) (entries_of self.old.pass.me.0.seen) }
        requires left { 0 < self.old.pass.me.0.turns_left }
        requires lent { IfSome lease (MayGoBack self.old) }
        ensures at { IsAt (world shared.now) self.new.pass }
        ensures legal { Legal (world shared.now) (entries_of self.new.pass.me.0.seen) }
        ensures back { IsBack lease self.old self.new }
    {
        if let Some(lease) = lease {
            let spare = shared.give_back(rt, &mut self.pass, lease);
            self.spares.push_reserved(spare);
        }
    }
}
