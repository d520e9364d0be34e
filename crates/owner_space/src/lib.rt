//! Owners of callers: each names its own keys, and is answered as if no other owner were there.
//!
//! What is proved:
//!
//! - `OwnerMap::inner`, `created`, `outer`: an identifier inside is in the owner's range, or that of a volatile key of the
//!   owner's callers, or one that no key has (`inside`, `inside_created`); outside it is what the owner names (`outside`).
//! - `OwnerMap::call`, `answer`; `Names::call`, `answer`: of a call and of an answer these change the identifiers alone
//!   (`request_inside`, `reply_outside`), and where there are no owners nothing (`asked`, `told`).
//! - its laws `owners_name_their_own`: what an owner names it is told by the same identifier, no two owners name one key, and no
//!   key has the identifier that stands for what an owner can't name;
//!   `owners_are_isolated`: over every history of which no reply tells of a failed device, an owner's callers are answered as
//!   by a store that has their owner's keys alone and serves their calls alone.
#![tactic(auto)]

ghost use Rattle.owner_space.specs.{Isolation.OwnersAreIsolated, Owners.NamesAreApart, Owners.NamesComeBack, Owners.NoneIsNamed};

mod calls;
mod names;
mod owners;

pub use names::Names;
pub use owners::{Owner, OwnerMap};

/// What an owner names, it is told by the identifier by which it names it; no two owners name one key; and what an owner can't
/// name has an identifier that no key has.
pub fn owners_name_their_own()
    ensures back { NamesComeBack }
    ensures apart { NamesAreApart }
    ensures nobody { NoneIsNamed }
{}

/// Owners don't see each other: from each sound start whose keys are limited by range, over every history of owners' calls
/// of which no reply tells of a failed device, what an owner's callers are answered is what a store with that owner's keys
/// alone answers to those callers' calls alone.
pub fn owners_are_isolated()
    ensures { OwnersAreIsolated }
{}
