// A call that the element computes.
ghost use Rattle.std.specs.Prelude.{◌≡◌, ◌≤◌, IsTrue, IsErrOf};
ghost use Rattle.psa_status.specs.Causes.{Rose};
ghost use Rattle.key_policy.specs.Names.{IsOfClass};
ghost use Rattle.driver_dispatch.specs.Calls.{HoldsHandle, has_element};
ghost use Rattle.store_model.specs.Prelude.{fits_type};
ghost use Rattle.secure_element_calls.specs.{Answers.IsComputed, Answers.IsOfServed, Answers.IsRefusedBefore, Calls.AsksElement, Calls.algorithm_asked, Calls.class_asked};
ghost use Rattle.secure_element_calls.specs.declared.calls.NotComputed.TheVariants as uncomputed;

use crate::filling::fill;
use crate::{ElementCall, NotComputed};
use driver_dispatch::Devices;
use psa_status::{Failed, Status};

/// Has the secure element compute a call with the key under a handle, and answers how many bytes it wrote to the front of an
/// output buffer. `Refused` where a length isn't permitted, where the buffer has no room, and where a MAC isn't the message's;
/// it leaves the buffer. `Failed` where the element failed: zeros then stand in place of what was needed.
pub fn compute<A: Devices>(
    devices: &mut A,
    handle: u64,
    call: &ElementCall,
    out: &mut [u8],
) -> Result<usize, NotComputed>
    requires element { IsTrue (has_element (A.locations devices.old)) }
    requires algorithm { IsOfClass (class_asked call.now) (algorithm_asked call.now) }
    requires fits { HoldsHandle (A.keys devices.old) handle (λ key. IsTrue (fits_type (algorithm_asked call.now) key.key_type)) }
    ensures computed { IsComputed (A.keys devices.old) handle call.now out.old out.new result }
    ensures unasked { IsRefusedBefore result → devices.new ≡ devices.old }
    ensures served { IsOfServed result → AsksElement call.now → Rose (A.served devices.old) (A.served devices.new) }
    ensures keys { A.keys devices.new ≡ A.keys devices.old }
    ensures locations { A.locations devices.new ≡ A.locations devices.old }
    ensures later { A.faults devices.old ≤ A.faults devices.new }
    ensures failed { IsErrOf result uncomputed.Failed → Rose (A.faults devices.old) (A.faults devices.new) }
{
    let needed = match call.check(out.len()) {
        Ok(needed) => needed,
        Err(status) => return Err(NotComputed::Refused(status)),
    };
    let part = &mut out[..needed];
    match fill(devices, handle, call, part) {
        Ok(true) => Ok(needed),
        Ok(false) => Err(NotComputed::Refused(Status::InvalidSignature)),
        Err(Failed) => {
            part.fill(0);
            Err(NotComputed::Failed)
        }
    }
}
