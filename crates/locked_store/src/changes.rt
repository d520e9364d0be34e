//! What a turn names at its end.
use key_attributes::{Attributes, KeyId};
use psa_status::Status;
use secure_element_calls::NotComputed;
use slot_table::{Filling, Lease};
use std::snapshot::Snapshot;
use store_core::{NotCopied, NotDestroyed, NotMade};

/// What a turn gives its caller out of the store, or takes back.
#[derive(Drop)]
pub enum Change {
    Nothing,
    Lends(Snapshot<Lease>),
    TakesLease(Snapshot<Lease>),
    Reserves(Snapshot<Filling>),
    TakesFilling(Snapshot<Filling>),
}

/// What a ranked turn met of faults, by its refusal or what came of it.
#[derive(Drop)]
pub enum Met {
    Nothing,
    Unread(Status),
    Read(Snapshot<Result<Attributes, Status>>),
    Made(Snapshot<Result<KeyId, NotMade>>),
    Copied(Snapshot<Result<KeyId, NotCopied>>),
    Destroyed(Snapshot<Result<(), NotDestroyed>>),
    Computed(Snapshot<Result<usize, NotComputed>>),
}
