//! Turns in which the secure element computes with its keys.
ghost use Rattle.std.specs.Prelude.{◌≡◌, ◌<◌, ◌^◌, ◌+◌, length, IsErrOf};
ghost use Rattle.std.specs.FinMap as map;
ghost use Rattle.psa_status.specs.Causes.{Rose};
ghost use Rattle.store_model.specs.Prelude.{is_opaque_key};
ghost use Rattle.secure_element_calls.specs.{Answers.IsOfServed, Answers.IsRefusedBefore, Answers.mark_computed, Calls.AsksElement, Calls.model_call};
ghost use Rattle.secure_element_calls.specs.declared.calls.NotComputed.TheVariants as uncomputed;
ghost use Rattle.store_core.specs.{Opaque.IsElementAnswered, Opaque.Makes, Represents.HasOpaque, Represents.HoldsOf, Represents.Stands, Rising.NoFewerFaults};

use crate::Store;
use admission::Admission;
use disk_face::Disk;
use driver_dispatch::Devices;
use key_attributes::{KeyId, LAST_STATED_ID};
use key_policy::check_use;
use secure_element_calls::{ElementCall, NotComputed, compute};

impl<D: Disk, A: Devices, C: Admission> Store<D, A, C> {
    /// Whether a key is the secure element's. No rank, and no device is called.
    pub fn is_opaque(&self, id: KeyId) -> bool
        ensures { HoldsOf D.Disk A.Devices C.Admission self.now
            (λ m. is_opaque_key (map.get m.keys id.0) ≡ result) }
    {
        // a key of the file is never the element's
        if id.0 <= LAST_STATED_ID {
            return false;
        }
        match self.slots.find(id) {
            Some(slot) => self.slots.attributes(slot).lifetime.0 >> 8 == 1,
            None => false,
        }
    }

    /// Has the secure element compute a call with its key, and answers how many bytes it wrote to the front of an output
    /// buffer. `Failed` where the element failed: zeros then stand in place of what was needed. Any other refusal leaves the
    /// buffer. Ranked.
    pub fn opaque_call(
        &mut self,
        id: KeyId,
        call: &ElementCall,
        out: &mut [u8],
    ) -> Result<usize, NotComputed>
        requires stands { Stands D.Disk A.Devices C.Admission self.old }
        requires few { self.old.ranked < 2 ^ 62 }
        requires opaque { HasOpaque D.Disk A.Devices C.Admission self.old id.0 }
        ensures made { Makes D.Disk A.Devices C.Admission self.old self.new
            (model_call call.now id.0 (length out.old)) (mark_computed result) (IsElementAnswered (A.keys self.old.devices) id.0 call.now out.old out.new result) }
        ensures served { IsOfServed result → AsksElement call.now → Rose (A.served self.old.devices) (A.served self.new.devices) }
        ensures unasked { IsRefusedBefore result → self.new.devices ≡ self.old.devices }
        ensures failed { IsErrOf result uncomputed.Failed → Rose (A.faults self.old.devices) (A.faults self.new.devices) }
        ensures later { NoFewerFaults D.faults A.faults self.old self.new }
        ensures file { self.new.file ≡ self.old.file }
        ensures slots { self.new.slots ≡ self.old.slots }
        ensures rules { self.new.rules ≡ self.old.rules }
        ensures limits { self.new.limits ≡ self.old.limits }
        ensures keys { A.keys self.new.devices ≡ A.keys self.old.devices }
        ensures buffer { self.new.buffer ≡ self.old.buffer }
        ensures opened { self.new.opened ≡ self.old.opened }
    {
        self.ranked += 1;
        let Some(slot) = self.slots.find(id) else {
            unreachable!();
        };
        let attributes = self.slots.attributes(slot);
        match check_use(call.class(), call.usage(), call.algorithm(), attributes) {
            Ok(()) => compute(&mut self.devices, self.slots.number(slot), call, out),
            Err(status) => Err(NotComputed::Refused(status)),
        }
    }
}
