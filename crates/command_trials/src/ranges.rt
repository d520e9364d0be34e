//! The limits of ranges of identifiers, over a disk in memory.
ghost use Rattle.std.specs.Prelude.{◌≡◌, ◌+◌, ◌≤◌, ℕ, All, length};
ghost use Rattle.driver_dispatch.specs.Calls.{Lacks};
ghost use Rattle.callers.specs.Ready.{IsReady};
ghost use Rattle.locked_store.specs.Prelude.{world};
ghost use Rattle.caller_service.specs.Staff.{AreStaff};

use crate::fixtures::{new_disk, without_keys};
use crate::texts::Text;
use admission::{Admission, Rules};
use alg_encoding::Alg;
use caller_service::{Client, Closed, Limits, Service, StoreFault};
use callers::{Caller, NoGate};
use disk_face::{Disk, Fails};
use driver_dispatch::{Devices, Driver, Drivers};
use key_attributes::{Attributes, KeyId, KeyType, Lifetime, Policy, Usage};
use psa_status::Status;
use std::alloc::{AllocError, Global};
use std::sync::Wait;

/// How much the calls of a service may count together.
const BUDGET: u64 = 1 << 20;

/// The first identifier of the second range.
const SECOND_RANGE: u32 = 1 << 26;

/// Identifiers from one on, for each of which a key is to be made.
#[derive(Clone, Copy, Drop)]
struct Wanted {
    limits: Limits,
    first: u32,
    count: u32,
}

// The attributes of a key that stays.
fn attributes_of(id: u32) -> Attributes {
    Attributes {
        lifetime: Lifetime(1),
        id: KeyId(id),
        key_type: KeyType::RAW_DATA,
        bits: 0,
        policy: Policy {
            usage: Usage(1),
            alg: Alg(0),
            ..Policy::NOTHING
        },
    }
}

// Makes keys, and prints how many there are then, and why no more.
fn import_keys<D: Disk, A: Devices, C: Admission, R: Wait>(
    client: &mut Client<'_, D, A, C, NoGate, R>,
    wanted: Wanted,
    page: &mut Text,
) -> Result<(), AllocError>
    requires { wanted.first + wanted.count ≤ 1073741823 }
    ensures { client.new.service.now ≡ client.old.service.now }
{
    let mut made = 0;
    let mut refusal = None;
    for id in wanted.first..wanted.first + wanted.count {
        match client.import_key(&attributes_of(id), &[0xff]).result {
            Ok(_id) => made += 1,
            Err(status) => refusal = Some(status),
        }
    }
    page.add_number(made)?;
    page.add(" keys made, ")?;
    page.add(refusal.unwrap_or(Status::Success).name())?;
    page.add("\n")
}

// Has keys made by one of the callers.
fn make_keys<D: Disk, A: Devices, C: Admission, R: Wait>(
    rt: &R,
    service: &Service<D, A, C, NoGate>,
    callers: &mut Vec<Caller<D, A, C>>,
    wanted: Wanted,
    page: &mut Text,
) -> Result<(), AllocError>
    requires staff { AreStaff (world service.now.shared) callers.old.items }
    requires few { wanted.first + wanted.count ≤ 1073741823 }
    ensures sixteen { length callers.new.items ≡ 16 }
    ensures ready { All (IsReady (world service.now.shared) 0) callers.new.items }
{
    let mut client = service.client(rt, callers.pop().unwrap());
    let told = import_keys(&mut client, wanted, page);
    callers.push_reserved(client.into_caller());
    told
}

// Prints why a store wasn't opened.
fn tell_fault(fault: StoreFault, page: &mut Text) -> Result<(), AllocError> {
    match fault {
        StoreFault::RangeFull { range } => page.add_heading("range full", &[range as u64]),
        StoreFault::File(_fault) => page.add("not opened\n"),
    }
}

// Opens a service over a disk, has keys made, and closes it. The disk comes back.
fn serve<D: Disk + Drop, A: Devices, C: Admission, R: Wait>(
    rt: &R,
    alloc: Global,
    disk: D,
    devices: A,
    rules: C,
    wanted: Wanted,
    page: &mut Text,
) -> Result<D, AllocError>
    requires empty { (handle : ℕ) → Lacks (A.keys devices) handle }
    requires few { wanted.first + wanted.count ≤ 1073741823 }
{
    let limits = wanted.limits;
    let opened = Service::open(
        alloc, disk, devices, rules, limits, &[0; 32], BUDGET, NoGate,
    );
    let (service, mut callers) = match opened {
        Ok(opened) => opened,
        Err(unopened) => {
            tell_fault(unopened.fault, page)?;
            return Ok(unopened.disk);
        }
    };
    let told = make_keys(rt, &service, &mut callers, wanted, page);
    let Closed {
        disk,
        devices: _devices,
        ended: _ended,
    } = service.close(rt, callers);
    told?;
    Ok(disk)
}

// The same, without a secure element and without rules.
fn try_keys<D: Disk + Drop, R: Wait>(
    rt: &R,
    alloc: Global,
    disk: D,
    wanted: Wanted,
    page: &mut Text,
) -> Result<D, AllocError>
    requires { wanted.first + wanted.count ≤ 1073741823 }
{
    let list: Vec<Box<dyn Driver>> = Vec::new(alloc);
    let devices = without_keys(Drivers::new(list));
    let rules = Rules::pick(Vec::new(alloc), &[]);
    serve(rt, alloc, disk, devices, rules, wanted, page)
}

/// Makes keys in a new store with limits by range, one more than a range has room for, and one of the next range; makes that
/// one without such limits; and opens the store with them again, and without.
pub fn try_ranges<R: Wait>(rt: &R, alloc: Global, page: &mut Text) -> Result<(), AllocError> {
    let mut disk = new_disk(alloc, Vec::new(alloc), Fails::From(u64::MAX))?;
    let by_range = Limits::PerRange;
    let whole = Limits::Whole;
    for wanted in [
        Wanted {
            limits: by_range,
            first: 1,
            count: 129,
        },
        Wanted {
            limits: by_range,
            first: SECOND_RANGE,
            count: 1,
        },
        Wanted {
            limits: whole,
            first: 129,
            count: 1,
        },
        Wanted {
            limits: by_range,
            first: 130,
            count: 1,
        },
        Wanted {
            limits: whole,
            first: 130,
            count: 1,
        },
    ] {
        disk = try_keys(rt, alloc, disk, wanted, page)?;
    }
    Ok(())
}
