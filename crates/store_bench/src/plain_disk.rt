// A disk in memory that keeps nothing but its bytes, so that a call of it costs no more than the copy.
use disk_face::Disk;
use psa_status::Failed;
use std::alloc::Global;

/// Bytes in memory. What it tells of them is their count. It fails where no memory is left for more.
#[derive(Drop)]
pub struct PlainDisk {
    bytes: Vec<u8>,
    faults: u64,
}

impl PlainDisk {
    /// A disk of length 0.
    pub fn new(alloc: Global) -> PlainDisk {
        PlainDisk {
            bytes: Vec::new(alloc),
            faults: 0,
        }
    }
}

impl Disk for PlainDisk {
    ghost use Rattle.std.specs.Prelude.{None, length, ⊤};

    ghost contents = { λ disk. None };

    ghost size = { λ disk. length disk.bytes.items };

    ghost may_leave = { λ disk image. ⊤ };

    ghost moment = { λ disk. 0 };

    ghost left_since = { λ disk moment image. ⊤ };

    ghost faults = { λ disk. disk.faults };

    fn len(&mut self) -> Result<u64, Failed> {
        Ok(self.bytes.len() as u64)
    }

    fn read_at(&mut self, place: u64, out: &mut [u8]) -> Result<(), Failed> {
        let place = place as usize;
        out.copy_from_slice(&self.bytes[place..place + out.len()]);
        Ok(())
    }

    fn write_at(&mut self, place: u64, bytes: &[u8]) -> Result<(), Failed> {
        let place = place as usize;
        self.bytes[place..place + bytes.len()].copy_from_slice(bytes);
        Ok(())
    }

    fn extend(&mut self, length: u64) -> Result<(), Failed> {
        match self.bytes.resize(length as usize, 0) {
            Ok(()) => Ok(()),
            Err(_) => {
                self.faults = self.faults.saturating_add(1);
                Err(Failed)
            }
        }
    }

    fn sync(&mut self) -> Result<(), Failed> {
        Ok(())
    }

    ghost measured = { λ disk. tt };

    ghost read_is_image = { λ disk. tt };

    ghost counts_now = { λ disk t image h m. tt };

    ghost only_now = { λ disk image m. tt };

    ghost shrinks = { λ disk t u image h m. tt };
}
