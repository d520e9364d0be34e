//! The turn that lends a key.
ghost use Rattle.std.specs.Prelude.{◌≡◌, ◌<◌, ◌^◌, ◌+◌, true, IfOk, IfErr};
ghost use Rattle.std.specs.FinMap as map;
ghost use Rattle.key_cells.specs.Prelude.{store_size};
ghost use Rattle.psa_status.specs.declared.Status.TheVariants.{InvalidHandle};
ghost use Rattle.disk_face.specs.Disk.{StillTells};
ghost use Rattle.secret_bytes.specs.Buffer.{IsClear, bytes_of};
ghost use Rattle.key_slots.specs.Wiping.{TakesOne};
ghost use Rattle.key_policy.specs.Uses.{FitsUse, use_refusal};
ghost use Rattle.store_model.specs.Prelude.{Plain, is_opaque_key};
ghost use Rattle.store_core.specs.{Represents.HasOpaque, Represents.Reads, Represents.ReadsAndGives, Represents.Stands, Refusals.CallsNothing, Refusals.WritesNothing, Rising.NoFewerFaults, Uses.IsLent, Uses.IsRefused, Uses.KeepsOrEmpties, Uses.mark_of, Zeros.StaysZeros};

use crate::Store;
use admission::Admission;
use disk_face::Disk;
use driver_dispatch::Devices;
use key_attributes::KeyId;
use key_policy::KeyUse;
use psa_status::Status;
use secret_bytes::Secret;
use slot_table::Lease;

impl<D: Disk, A: Devices, C: Admission> Store<D, A, C> {
    /// Lends a key's bytes for what the key is looked for, in a clear spare, which comes back where that is refused:
    /// `InvalidHandle` where there is no key, `StorageFailure` or `DataCorrupt` where the file has it and can't be read, whose
    /// slot is then empty, and else the use's first refusal. Nothing is written to the disk, and no device is called. Ranked.
    pub fn look(
        &mut self,
        id: KeyId,
        wanted: KeyUse,
        spare: Secret,
    ) -> Result<Lease, (Status, Secret)>
        requires stands { Stands D.Disk A.Devices C.Admission self.old }
        requires size { D.size self.old.file.cells.disk ≡ store_size }
        requires clear { IsClear self.old.buffer }
        requires spare { IsClear spare }
        requires few { self.old.ranked < 2 ^ 62 }
        ensures size { D.size self.new.file.cells.disk ≡ store_size }
        ensures clear { IsClear self.new.buffer }
        ensures lent { IfOk result (λ lease. ReadsAndGives D.Disk A.Devices C.Admission self.old self.new id.0 (lease.slot, lease.creation + 1)
            (IsLent (use_refusal wanted) id.0 lease)) }
        ensures fits { IfOk result (λ lease. FitsUse wanted (bytes_of lease.buffer)) }
        ensures refused { IfErr result (λ refused. Reads D.Disk A.Devices C.Admission self.old self.new id.0 (mark_of refused.0)
            (λ m. IsRefused (use_refusal wanted) id.0 refused.0 m × (is_opaque_key (map.get m.keys id.0) ≡ true → HasOpaque D.Disk A.Devices C.Admission self.old id.0))) }
        ensures spare { IfErr result (λ refused. IsClear refused.1) }
        ensures wipes { TakesOne self.old.slots.table.slots self.new.slots.table.slots }
        ensures unmoved { IfErr result (λ refused. refused.0 ≡ InvalidHandle → self.new.slots ≡ self.old.slots) }
        ensures emptied { IfErr result (λ refused. (mark_of refused.0 ≡ Plain → ⊥) → KeepsOrEmpties self.old.slots.table.slots self.new.slots.table.slots) }
        ensures unwritten { WritesNothing D.Disk self.old self.new }
        ensures untouched { IfErr result (λ refused. refused.0 ≡ InvalidHandle → CallsNothing self.old self.new) }
        ensures zeros { StaysZeros D.Disk A.Devices C.Admission self.old self.new }
        ensures later { NoFewerFaults D.faults A.faults self.old self.new }
        ensures tells { StillTells (D.contents self.old.file.cells.disk) (D.contents self.new.file.cells.disk) }
        ensures devices { self.new.devices ≡ self.old.devices }
        ensures opened { self.new.opened ≡ self.old.opened }
    {
        let brought = self.bring(id);
        self.ranked += 1;
        match brought {
            Ok(slot) => match wanted.check(self.slots.attributes(slot)) {
                Ok(()) => Ok(self.slots.lend(slot, spare)),
                Err(status) => Err((status, spare)),
            },
            Err(unread) => Err((unread.status(), spare)),
        }
    }
}
