//! Calls in one part, once it is decided that the key may be used: hashes, MACs, ciphers and AEADs of a whole message, and the call
//! as a value, computed with a key's bytes, by the secure element, or of its input alone, where it is a hash. No store and no lock
//! is in sight.
//!
//! What is proved:
//!
//! - `hash_compute`, `mac_compute`, `cipher_encrypt`, `aead_encrypt` and their others; `Computation::of`, `wanted`,
//!   `compute`, `element_call`; `compute_hash`: a hash, MAC, cipher or AEAD of a whole message, once the key may be used:
//!   reply, output buffer and drawn bytes are the model's. Of a call as a value: the use of its key, what it computes with
//!   the key's bytes, and the call that the element computes, exactly for MACs and CTR. Laws join these to the one-thread
//!   store (`keyed_calls_are_the_models`, `keyed_calls_read`, `keyed_calls_draw`, `hash_calls_are_the_models`); a call
//!   that takes a vector draws it where it succeeds, and else nothing is drawn.
#![tactic(auto)]

mod aeads;
mod ciphers;
mod computation;
mod computing;
mod elements;
mod hashes;
mod hashing;
mod laws;
mod macs;
mod modes;

pub use aeads::{aead_decrypt, aead_encrypt};
pub use ciphers::{cipher_decrypt, cipher_encrypt};
pub use computation::Computation;
pub use hashes::{hash_compare, hash_compute};
pub use hashing::compute_hash;
pub use laws::{
    hash_calls_are_the_models, keyed_calls_are_the_models, keyed_calls_draw, keyed_calls_read,
};
pub use macs::{mac_compute, mac_verify};
