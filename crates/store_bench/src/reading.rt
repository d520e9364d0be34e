// How a keeper reads keys.
use crate::keeper::Keeper;
use crate::turns::look;
use admission::Admission;
use disk_face::Disk;
use driver_dispatch::Devices;
use key_attributes::KeyId;
use psa_status::Status;

impl<D: Disk, A: Devices, C: Admission> Keeper<D, A, C> {
    /// Whether an export of a key gives these bytes.
    pub fn gives(&mut self, id: KeyId, bytes: &[u8]) -> Option<Result<bool, Status>> {
        if self.is_over() {
            return None;
        }
        let spare = self.spare.take()?;
        match look(&mut self.store, id, spare) {
            Ok(lease) => {
                let same = lease.as_slice() == bytes;
                let spare = self.store.leave(lease);
                self.spare = Some(spare);
                Some(Ok(same))
            }
            Err(refused) => {
                self.spare = Some(refused.1);
                Some(Err(refused.0))
            }
        }
    }
}
