// How the file of an older store grows.
ghost use Rattle.std.specs.Prelude.{◌≡◌, ◌≤◌, ◌-◌, ℕ, List, IfErr, IfSome, OnOk, Some, ◌++◌, length};
ghost use Rattle.psa_status.specs.Causes.{HasCause, Rose};
ghost use Rattle.disk_face.specs.{Disk.LeavesWhatIsRead, Disk.StillTells, Moments.Within};
ghost use Rattle.key_cells.specs.{declared.layout.Layout.TheVariants.Older, declared.layout.Layout.TheVariants.Current, Causes.IsDisk, Causes.IsRefusal, Growth.Each, Growth.GrowsFrom, Growth.HasOlderCells, Growth.ReadsFilled, Growth.zeros_of, Layout.layout_of, Layout.older_size, Layout.store_size};

use crate::layout::{CURRENT, OLDER_SIZE, STORE_SIZE};
use crate::reading::OpenFault;
use disk_face::{Disk, write_through};
use psa_status::Failed;
use std::alloc::Global;

// Makes zeros of what stands behind the older cells. A file that ends with them has nothing there.
fn fill_behind<D: Disk>(disk: &mut D, old: u64, zeros: &[u8]) -> Result<(), Failed>
    requires size { D.size disk.old ≡ store_size }
    requires low { older_size ≤ old }
    requires high { old ≤ store_size }
    requires zeros { zeros.now ≡ zeros_of (old - older_size) }
    ensures size { D.size disk.new ≡ store_size }
    ensures filled { OnOk result ((bytes : List ℕ) → length bytes ≡ old → D.contents disk.old ≡ Some (bytes ++ zeros_of (store_size - old)) →
        ReadsFilled (Some bytes) (D.contents disk.new)) }
    ensures crash { (bytes : List ℕ) → Each (D.may_leave disk.old) (HasOlderCells bytes) → Each (D.may_leave disk.new) (HasOlderCells bytes) }
    ensures within { (bytes : List ℕ) → Each (D.may_leave disk.old) (HasOlderCells bytes) →
        Within (D.moment disk.old) (D.moment disk.new) (D.left_since disk.old) (D.left_since disk.new) (HasOlderCells bytes) }
    ensures tells { StillTells (D.contents disk.old) (D.contents disk.new) }
    ensures cause { HasCause (D.faults disk.old) (D.faults disk.new) result }
{
    if zeros.is_empty() {
        return Ok(());
    }
    disk.write_at(OLDER_SIZE, zeros)
}

// Lengthens an older file, with zeros behind its cells, and makes sure of them.
fn lengthen<D: Disk>(disk: &mut D, old: u64, zeros: &[u8]) -> Result<(), Failed>
    requires size { D.size disk.old ≡ old }
    requires low { older_size ≤ old }
    requires high { old ≤ store_size }
    requires zeros { zeros.now ≡ zeros_of (old - older_size) }
    requires durable { LeavesWhatIsRead (D.contents disk.old) (D.may_leave disk.old) }
    ensures size { OnOk result (D.size disk.new ≡ store_size) }
    ensures filled { OnOk result (ReadsFilled (D.contents disk.old) (D.contents disk.new)) }
    ensures durable { OnOk result (LeavesWhatIsRead (D.contents disk.new) (D.may_leave disk.new)) }
    ensures crash { IfSome (D.contents disk.old) (λ bytes. Each (D.may_leave disk.new) (HasOlderCells bytes)) }
    ensures within { IfSome (D.contents disk.old) (λ bytes.
        Within (D.moment disk.old) (D.moment disk.new) (D.left_since disk.old) (D.left_since disk.new) (HasOlderCells bytes)) }
    ensures tells { StillTells (D.contents disk.old) (D.contents disk.new) }
    ensures cause { HasCause (D.faults disk.old) (D.faults disk.new) result }
{
    disk.extend(STORE_SIZE)?;
    fill_behind(disk, old, zeros)?;
    disk.sync()
}

// Makes a file of today's layout of an older one of so many bytes, of which nothing is pending: the layout is written once the
// zeros behind the older cells are sure.
fn write_layout<D: Disk>(disk: &mut D, old: u64, zeros: &[u8]) -> Result<(), Failed>
    requires size { D.size disk.old ≡ old }
    requires low { older_size ≤ old }
    requires high { old ≤ store_size }
    requires zeros { zeros.now ≡ zeros_of (old - older_size) }
    requires durable { LeavesWhatIsRead (D.contents disk.old) (D.may_leave disk.old) }
    requires layout { IfSome (D.contents disk.old) (λ bytes. layout_of bytes ≡ Older) }
    ensures size { OnOk result (D.size disk.new ≡ store_size) }
    ensures grown { OnOk result (IfSome (D.contents disk.old) (λ bytes. Each (D.may_leave disk.new) (λ image. layout_of image ≡ Current))) }
    ensures crash { IfSome (D.contents disk.old) (λ bytes. Each (D.may_leave disk.new) (GrowsFrom bytes)) }
    ensures within { IfSome (D.contents disk.old) (λ bytes.
        Within (D.moment disk.old) (D.moment disk.new) (D.left_since disk.old) (D.left_since disk.new) (GrowsFrom bytes)) }
    ensures tells { StillTells (D.contents disk.old) (D.contents disk.new) }
    ensures cause { HasCause (D.faults disk.old) (D.faults disk.new) result }
{
    lengthen(disk, old, zeros)?;
    write_through(disk, 8, &[CURRENT])
}

/// Makes a file of today's layout of an older one of so many bytes, of which nothing is pending. Each image at each moment
/// within has the older cells, byte for byte.
pub fn grow<D: Disk>(alloc: Global, disk: &mut D, old: u64) -> Result<(), OpenFault>
    requires size { D.size disk.old ≡ old }
    requires low { older_size ≤ old }
    requires high { old ≤ store_size }
    requires durable { LeavesWhatIsRead (D.contents disk.old) (D.may_leave disk.old) }
    requires layout { IfSome (D.contents disk.old) (λ bytes. layout_of bytes ≡ Older) }
    ensures size { OnOk result (D.size disk.new ≡ store_size) }
    ensures grown { OnOk result (IfSome (D.contents disk.old) (λ bytes. Each (D.may_leave disk.new) (λ image. layout_of image ≡ Current))) }
    ensures crash { IfSome (D.contents disk.old) (λ bytes. Each (D.may_leave disk.new) (GrowsFrom bytes)) }
    ensures within { IfSome (D.contents disk.old) (λ bytes.
        Within (D.moment disk.old) (D.moment disk.new) (D.left_since disk.old) (D.left_since disk.new) (GrowsFrom bytes)) }
    ensures tells { StillTells (D.contents disk.old) (D.contents disk.new) }
    ensures later { D.faults disk.old ≤ D.faults disk.new }
    ensures fault { IfErr result (λ fault. IsRefusal fault → ⊥) }
    ensures disk { IfErr result (λ fault. IsDisk fault → Rose (D.faults disk.old) (D.faults disk.new)) }
{
    let Ok(zeros) = vec![in alloc; 0; (old - OLDER_SIZE) as usize] else {
        return Err(OpenFault::Memory);
    };
    match write_layout(disk, old, &zeros) {
        Ok(()) => Ok(()),
        Err(Failed) => Err(OpenFault::Disk),
    }
}
