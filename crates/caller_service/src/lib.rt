//! The service: a store under its lock, sixteen callers, and any call by one of them. A client makes the calls by their
//! names, each with a reply of its own type; `call` takes one as a value. docs/OPERATIONS.md has what operations are
//! refused for.
//!
//! What is proved:
//!
//! - `Service::open`: sixteen callers that have seen and called nothing (`AreStaff`), over a store as `locked_store` opens
//!   it; where it fails, the devices are as they were, and the disk is as `IsOpeningRefused` says or, where memory ran out
//!   after its file was opened, as that opening left it.
//! - `Service::call`, and a client's calls by their names (`import_key`, `mac_compute`, `hash_setup` and so on): `call`
//!   says what `Caller::answer` does. A call by its name is one of the client's caller at its own value, and its reply is
//!   read of that answer (`IsReply`); the caller may then call again, and the client's service is the same (`Answers`).
//!   None has a condition: a client is made of a caller that may call, and always has one.
//! - `Service::close`: it has no refusal. It answers disk and devices and, for contracts alone, the callers as it let them
//!   go: nothing is left of their operations, they have nothing out of the store, and made no further call
//!   (`WereRetired`). There is one history, of which each caller has seen a beginning, and in which its entries are its
//!   calls (`IsClosedOver`); its marks and counts, and what crashes leave, are as `IsLeft` says.
#![tactic(auto)]

mod allotments;
mod client;
mod closing;
mod keys;
mod operations;
mod replies;
mod service;

pub use client::Client;
pub use replies::Reply;
pub use service::{Closed, Service, Staffed};
pub use store_core::{StoreFault, Unopened};
pub use store_model::Limits;
