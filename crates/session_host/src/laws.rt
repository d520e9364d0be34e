// Laws of runs, each the contract of a function that does nothing.
ghost use Rattle.session_host.specs.{Bounds.LinesAreBounded, Bounds.MarksAreBounded, Replayed.SessionsAreReplayed};

use admission::Admission;
use disk_face::Disk;
use driver_dispatch::Devices;

/// No more calls of a history met a failure of a device than its count rose by, and none corrupt bytes of a disk that tells its
/// bytes.
pub fn marks_are_bounded()
    ensures { MarksAreBounded }
{}

/// And no more reply lines say so, where they tell of the failures that the marks are of.
pub fn lines_are_bounded()
    ensures { LinesAreBounded }
{}

/// Where a history and what the secure element computes are told, a session's turns are those of the replay.
pub fn sessions_are_replayed<D: Disk, A: Devices, C: Admission>()
    ensures { SessionsAreReplayed D.Disk A.Devices C.Admission }
{}
