// The buffers of the callers, which are taken before a store is opened.
ghost use Rattle.std.specs.Prelude.{◌≡◌, ◌≤◌, [], All, IfOk, length, vec_capacity};
ghost use Rattle.secret_bytes.specs.Buffer.{IsClear};
ghost use Rattle.operation_handles.specs.States.{AreInactive};
ghost use Rattle.callers.specs.Handles.{AreIdle};
ghost use Rattle.caller_service.specs.Allotments.{IsAllotment};

use operation_handles::{FamilyStates, OperationHandle};
use psa_status::Memory;
use secret_bytes::Secret;
use std::alloc::Global;

/// How many keys a caller can have out at once.
const SPARES: usize = 5;

/// How many operations a caller has.
const HANDLES: usize = 4;

/// What a caller needs of memory: a spare buffer for each key that it reads, and a handle for each of its operations.
pub(crate) struct Allotment {
    pub(crate) spares: Vec<Secret>,
    pub(crate) handles: Vec<OperationHandle>,
}

// A vector with room for so many.
fn with_room<T>(alloc: Global, count: usize) -> Result<Vec<T>, Memory>
    ensures { IfOk result (λ v. (v.items ≡ []) × (count ≤ vec_capacity v)) }
{
    match Vec::with_capacity(alloc, count) {
        Ok(items) => Ok(items),
        Err(_) => Err(Memory),
    }
}

// The spare buffers of a caller.
fn new_spares(alloc: Global) -> Result<Vec<Secret>, Memory>
    ensures count { IfOk result (λ v. length v.items ≡ 5) }
    ensures clear { IfOk result (λ v. All IsClear v.items) }
{
    let mut spares = with_room(alloc, SPARES)?;
    for _ in 0..SPARES {
        spares.push_reserved(Secret::new(alloc)?);
    }
    Ok(spares)
}

// The states of a caller's operations.
fn new_states(alloc: Global) -> Result<Vec<FamilyStates>, Memory>
    ensures count { IfOk result (λ v. length v.items ≡ 4) }
    ensures inactive { IfOk result (λ v. All AreInactive v.items) }
{
    let mut states = with_room(alloc, HANDLES)?;
    for _ in 0..HANDLES {
        states.push_reserved(FamilyStates::new(alloc)?);
    }
    Ok(states)
}

// A handle for each state of an operation.
fn into_handles(states: Vec<FamilyStates>, handles: &mut Vec<OperationHandle>)
    requires count { length states.items ≡ 4 }
    requires inactive { All AreInactive states.items }
    requires room { (handles.old.items ≡ []) × (4 ≤ vec_capacity handles.old) }
    ensures count { length handles.new.items ≡ 4 }
    ensures idle { AreIdle handles.new.items }
{
    let mut states = states;
    while let Some(state) = states.pop() {
        handles.push_reserved(OperationHandle::new(state));
    }
}

impl Allotment {
    fn new(alloc: Global) -> Result<Allotment, Memory>
        ensures { IfOk result IsAllotment }
    {
        let spares = new_spares(alloc)?;
        let states = new_states(alloc)?;
        let mut handles = with_room(alloc, HANDLES)?;
        into_handles(states, &mut handles);
        Ok(Allotment { spares, handles })
    }

    // Lets an allotment go that no caller has.
    fn free(self)
        requires { IsAllotment self }
    {
        let Allotment {
            spares: _spares,
            handles,
        } = self;
        let mut handles = handles;
        while let Some(handle) = handles.pop() {
            let _states = handle.into_states();
        }
        handles.destroy_empty();
    }
}

/// Lets allotments go that no caller has.
pub(crate) fn free(allotments: Vec<Allotment>)
    requires { All IsAllotment allotments.items }
{
    let mut allotments = allotments;
    while let Some(allotment) = allotments.pop() {
        allotment.free();
    }
    allotments.destroy_empty();
}

/// Allotments for so many callers.
pub(crate) fn take(alloc: Global, count: usize) -> Result<Vec<Allotment>, Memory>
    ensures count { IfOk result (λ allotments. length allotments.items ≡ count) }
    ensures allotments { IfOk result (λ allotments. All IsAllotment allotments.items) }
{
    let mut allotments = with_room(alloc, count)?;
    for _ in 0..count {
        match Allotment::new(alloc) {
            Ok(allotment) => allotments.push_reserved(allotment),
            Err(Memory) => {
                free(allotments);
                return Err(Memory);
            }
        }
    }
    Ok(allotments)
}
