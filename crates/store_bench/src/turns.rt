// Turns of a store whose first caller may have leases out.
ghost use Rattle.std.specs.Prelude.{◌≡◌, ◌<◌, ◌+◌, ◌^◌, false, IfOk, IfErr};
ghost use Rattle.secret_bytes.specs.Buffer.{IsClear};
ghost use Rattle.store_bench.specs.Keeping.{GivesLease, KeepsLeases, StaysOut};

use admission::Admission;
use disk_face::Disk;
use driver_dispatch::Devices;
use key_attributes::KeyId;
use key_policy::KeyUse;
use psa_status::Status;
use secret_bytes::Secret;
use slot_table::Lease;
use store_core::Store;

// So many turns a trial makes at most.
const LIMIT: u64 = 1 << 60;

/// Whether there were too many turns.
pub fn is_over<D: Disk, A: Devices, C: Admission>(store: &Store<D, A, C>) -> bool
    ensures { result ≡ false → store.now.ranked < 2 ^ 60 }
{
    store.ranked() >= LIMIT
}

/// Lends a key's bytes, as an export does.
pub fn look<D: Disk, A: Devices, C: Admission>(
    store: &mut Store<D, A, C>,
    id: KeyId,
    spare: Secret,
) -> Result<Lease, (Status, Secret)>
    requires keeps { KeepsLeases D.Disk A.Devices C.Admission store.old 4 }
    requires few { store.old.ranked < 2 ^ 60 }
    requires clear { IsClear spare }
    ensures lent { IfOk result (λ lease. GivesLease D.Disk A.Devices C.Admission store.old store.new 4 (lease.slot, lease.creation + 1)) }
    ensures refused { IfErr result (λ refused. StaysOut D.Disk A.Devices C.Admission store.old store.new 4) }
    ensures spare { IfErr result (λ refused. IsClear refused.1) }
{
    store.look(id, KeyUse::Export, spare)
}
