// A disk that fails each call, for tests.
ghost use Rattle.std.specs.Prelude.{None, ⊤, ◌≡◌, length, OnOk};
ghost use Rattle.psa_status.specs.Causes.{HasCause};
ghost use Rattle.disk_face.specs.Disk.{Follows, Grown, StillTells, Torn};

use crate::Disk;
use psa_status::Failed;

/// A disk of length 0 that fails each call.
#[derive(Drop)]
pub struct BrokenDisk {
    faults: u64,
}

impl BrokenDisk {
    /// One that wasn't called yet.
    pub fn new() -> BrokenDisk
        ensures { result.faults ≡ 0 }
    {
        BrokenDisk { faults: 0 }
    }

    /// How often it was called.
    pub fn faults(&self) -> u64
        ensures { result ≡ self.now.faults }
    {
        self.faults
    }
}

impl Disk for BrokenDisk {
    ghost contents = { λ disk. None };

    ghost size = { λ disk. 0 };

    ghost may_leave = { λ disk image. ⊤ };

    ghost moment = { λ disk. 0 };

    ghost left_since = { λ disk moment image. ⊤ };

    ghost faults = { λ disk. disk.faults };

    fn len(&mut self) -> Result<u64, Failed>
        ensures fails { OnOk result ⊥ }
        ensures cause { HasCause self.old.faults self.new.faults result }
    {
        self.faults = self.faults.saturating_add(1);
        Err(Failed)
    }

    fn read_at(&mut self, _place: u64, _out: &mut [u8]) -> Result<(), Failed>
        ensures fails { OnOk result ⊥ }
        ensures cause { HasCause self.old.faults self.new.faults result }
    {
        self.faults = self.faults.saturating_add(1);
        Err(Failed)
    }

    fn write_at(&mut self, _place: u64, _bytes: &[u8]) -> Result<(), Failed>
        ensures fails { OnOk result ⊥ }
        ensures tells { StillTells None None }
        ensures crash { Follows (Torn _place (length _bytes.now)) (λ image. ⊤) (λ image. ⊤) }
        ensures cause { HasCause self.old.faults self.new.faults result }
    {
        self.faults = self.faults.saturating_add(1);
        Err(Failed)
    }

    fn extend(&mut self, _length: u64) -> Result<(), Failed>
        ensures fails { OnOk result ⊥ }
        ensures tells { StillTells None None }
        ensures crash { Follows (Grown _length) (λ image. ⊤) (λ image. ⊤) }
        ensures cause { HasCause self.old.faults self.new.faults result }
    {
        self.faults = self.faults.saturating_add(1);
        Err(Failed)
    }

    fn sync(&mut self) -> Result<(), Failed>
        ensures fails { OnOk result ⊥ }
        ensures cause { HasCause self.old.faults self.new.faults result }
    {
        self.faults = self.faults.saturating_add(1);
        Err(Failed)
    }

    ghost measured = { λ disk. tt };

    ghost read_is_image = { λ disk. tt };

    ghost counts_now = { λ disk t image h m. tt };

    ghost only_now = { λ disk image m. tt };

    ghost shrinks = { λ disk t u image h m. tt };
}
