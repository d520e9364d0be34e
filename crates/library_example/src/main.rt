//! The service as a library: one caller of a store in memory keeps a key, and another computes a MAC by it. docs/LIBRARY.md
//! goes through it.
#![tactic(auto)]

ghost use Rattle.std.specs.Prelude.{◌≡◌, ◌≤◌, All, Some, length};
ghost use Rattle.driver_dispatch.specs.Held.{no_keys};
ghost use Rattle.callers.specs.Ready.{IsReady};
ghost use Rattle.locked_store.specs.Prelude.{world};
ghost use Rattle.caller_service.specs.Staff.{AreStaff};

use admission::{Admission, Rules};
use alg_encoding::Alg;
use caller_service::{Closed, Limits, Service};
use callers::{Caller, NoGate};
use disk_face::{Disk, Fails, MemoryDisk};
use driver_dispatch::{Devices, Drivers};
use key_attributes::{Attributes, KeyId, KeyType, Lifetime, Policy, Usage};
use psa_status::Status;
use std::alloc::Global;
use std::io;
use std::process::ExitCode;
use std::sync::Wait;

/// How much the calls of one caller may count together.
const BUDGET: u64 = 3;

const CMAC: Alg = Alg(0x03c0_0200);

/// Key and MAC of the empty message are those of SP 800-38B, section D.1, example 1.
const KEY: [u8; 16] = [
    0x2b, 0x7e, 0x15, 0x16, 0x28, 0xae, 0xd2, 0xa6, 0xab, 0xf7, 0x15, 0x88, 0x09, 0xcf, 0x4f, 0x3c,
];

/// A persistent AES key that computes CMACs and does nothing else.
const ROOT: Attributes = Attributes {
    lifetime: Lifetime(1),
    id: KeyId(7),
    key_type: KeyType::AES,
    bits: 0,
    policy: Policy {
        usage: Usage(0x400),
        alg: CMAC,
        ..Policy::NOTHING
    },
};

// Keeps the key by one caller, and computes the MAC of the empty message by another.
fn share_key<D: Disk, A: Devices, C: Admission, R: Wait>(
    rt: &R,
    service: &Service<D, A, C, NoGate>,
    callers: &mut Vec<Caller<D, A, C>>,
    mac: &mut [u8; 16],
) -> Result<usize, Status>
    requires staff { AreStaff (world service.now.shared) callers.old.items }
    ensures sixteen { length callers.new.items ≡ 16 }
    ensures ready { All (IsReady (world service.now.shared) 0) callers.new.items }
{
    let mut keeper = service.client(rt, callers.pop().unwrap());
    let mut user = service.client(rt, callers.pop().unwrap());
    let kept = keeper.import_key(&ROOT, &KEY);
    let computed = user.mac_compute(ROOT.id, CMAC, b"", mac);
    callers.push_reserved(user.into_caller());
    callers.push_reserved(keeper.into_caller());
    kept.result.and(computed.result)
}

// Opens a service, makes the calls, and closes it. The disk that comes back could be opened again.
fn use_service<D: Disk + Drop, A: Devices, C: Admission, R: Wait>(
    rt: &R,
    alloc: Global,
    disk: D,
    devices: A,
    rules: C,
) -> Result<[u8; 16], Status>
    requires { A.keys devices ≡ Some no_keys }
{
    let limits = Limits::Whole;
    let opened = Service::open(
        alloc, disk, devices, rules, limits, &[0; 32], BUDGET, NoGate,
    );
    let Ok((service, mut callers)) = opened else {
        return Err(Status::StorageFailure);
    };
    let mut mac = [0; 16];
    let computed = share_key(rt, &service, &mut callers, &mut mac);
    let Closed {
        disk: _disk,
        devices: _devices,
        ended: _ended,
    } = service.close(rt, callers);
    computed?;
    Ok(mac)
}

// Uses a service on an empty disk in memory, without a secure element and without rules.
fn try_service<R: Wait>(rt: &R, alloc: Global) -> Result<[u8; 16], Status> {
    let Ok(disk) = MemoryDisk::new(alloc, Vec::new(alloc), Fails::From(u64::MAX)) else {
        return Err(Status::InsufficientMemory);
    };
    let devices = Drivers::new(Vec::new(alloc));
    let rules = Rules::pick(Vec::new(alloc), &[]);
    use_service(rt, alloc, disk, devices, rules)
}

fn main(rt: HostRuntime) -> io::Result<ExitCode> {
    match try_service(&rt, rt.alloc()) {
        Ok(mac) => {
            let mac = hex::encode(rt.alloc(), &mac)?;
            println!(rt; "{mac}")?;
            Ok(ExitCode::SUCCESS)
        }
        Err(status) => {
            let name = status.name();
            eprintln!(rt; "{name}")?;
            Ok(ExitCode::FAILURE)
        }
    }
}
