// How a keeper makes and purges keys.
use crate::keeper::Keeper;
use admission::Admission;
use disk_face::Disk;
use driver_dispatch::Devices;
use key_attributes::{Attributes, KeyId};
use psa_status::Status;
use store_core::NotMade;

impl<D: Disk, A: Devices, C: Admission> Keeper<D, A, C> {
    /// Makes a key of these bytes.
    pub fn import(
        &mut self,
        attributes: &Attributes,
        bytes: &[u8],
    ) -> Option<Result<KeyId, NotMade>> {
        if self.is_over() {
            return None;
        }
        let filling = self.store.reserve();
        Some(self.store.finish(1, filling, attributes, bytes, None))
    }

    /// Forgets a key in memory that is in the file too.
    pub fn purge(&mut self, id: KeyId) -> Option<Result<(), Status>> {
        if self.is_over() {
            return None;
        }
        Some(self.store.purge(id))
    }
}
