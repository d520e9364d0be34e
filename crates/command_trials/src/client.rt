//! The calls of a client whose budget ends, over a disk and a secure element in memory.
ghost use Rattle.std.specs.Prelude.{◌≡◌, ℕ, All, length};
ghost use Rattle.driver_dispatch.specs.Calls.{Lacks};
ghost use Rattle.callers.specs.Ready.{IsReady};
ghost use Rattle.locked_store.specs.Prelude.{world};
ghost use Rattle.caller_service.specs.Staff.{AreStaff};

use crate::fixtures::{SECURE_ELEMENT, new_disk, without_keys};
use crate::limits::{BUDGET, try_limits};
use crate::texts::Text;
use admission::{Admission, Rules};
use caller_service::{Closed, Limits, Service};
use callers::{Caller, NoGate};
use disk_face::{Disk, Fails};
use driver_dispatch::{Devices, Driver, Drivers};
use soft_driver::SoftDriver;
use std::alloc::{AllocError, Global};
use std::sync::Wait;

// Makes the calls by one of the callers.
fn make_calls<D: Disk, A: Devices, C: Admission, R: Wait>(
    rt: &R,
    alloc: Global,
    service: &Service<D, A, C, NoGate>,
    callers: &mut Vec<Caller<D, A, C>>,
    page: &mut Text,
) -> Result<(), AllocError>
    requires staff { AreStaff (world service.now.shared) callers.old.items }
    ensures sixteen { length callers.new.items ≡ 16 }
    ensures ready { All (IsReady (world service.now.shared) 0) callers.new.items }
{
    let mut client = service.client(rt, callers.pop().unwrap());
    let told = try_limits(&mut client, alloc, page);
    callers.push_reserved(client.into_caller());
    told
}

// Opens a service, makes the calls, and closes it.
fn run_limits<D: Disk + Drop, A: Devices, C: Admission, R: Wait>(
    rt: &R,
    alloc: Global,
    disk: D,
    devices: A,
    rules: C,
    page: &mut Text,
) -> Result<(), AllocError>
    requires { (handle : ℕ) → Lacks (A.keys devices) handle }
{
    let limits = Limits::Whole;
    let opened = Service::open(
        alloc, disk, devices, rules, limits, &[0; 32], BUDGET, NoGate,
    );
    let Ok((service, mut callers)) = opened else {
        return Err(AllocError);
    };
    let told = make_calls(rt, alloc, &service, &mut callers, page);
    let Closed {
        disk: _disk,
        devices: _devices,
        ended: _ended,
    } = service.close(rt, callers);
    told
}

/// Makes the calls over a new store and a secure element that fails these of its calls, and prints what they give.
pub fn try_client<R: Wait>(
    rt: &R,
    alloc: Global,
    element: &[u64],
    page: &mut Text,
) -> Result<(), AllocError> {
    let Ok(driver) = SoftDriver::new(alloc, SECURE_ELEMENT, element.to_vec(alloc)?) else {
        return Err(AllocError);
    };
    let mut list: Vec<Box<dyn Driver>> = Vec::new(alloc);
    list.push(Box::new(alloc, driver)?)?;
    let devices = without_keys(Drivers::new(list));
    let disk = new_disk(alloc, Vec::new(alloc), Fails::From(u64::MAX))?;
    let rules = Rules::pick(Vec::new(alloc), &[]);
    run_limits(rt, alloc, disk, devices, rules, page)
}
