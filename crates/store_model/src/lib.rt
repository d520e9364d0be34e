//! The one-thread key store, its calls and its replies: definitions, which stand in `specs/`, and laws of them.
//!
//! What is proved:
//!
//! - `leaves_other_callers`, `leaves_other_handles`, `leaves_shared`: laws of the one-thread service, of all its calls,
//!   with keys found at opening, rules and failing devices. A call leaves what is other callers' and other handles' own,
//!   and, where it neither creates nor destroys, what is shared but for the count of calls.
//! - `refusals_leave_all`: where no device failed, a refusal leaves all but that count and what its table says of its own
//!   handle; any refusal leaves its output buffer, but for the zeros of INVALID_SIGNATURE, INVALID_PADDING and
//!   HARDWARE_FAILURE.
//! - `stays_sound`, `keys_stay`, `alive_by_number`: a sound service stays so over calls of its sixteen callers, with at
//!   most 2,048 persistent keys, with limits by range 128 of each range, and 16 live volatile ones of a caller; its keys
//!   stay until they are destroyed; whether an operation's key is there is whether some key has its creation number, which
//!   no two keys have.
//! - `rules_are_followed`, `copies_gain_nothing`: a created key obeys each rule; no chain of copies gains a flag or an
//!   algorithm.
//! - `marks_alone`, `causes_go_on`: the statuses of failed devices come exactly of marks; a history whose marks stand
//!   where they may, or have their faults, goes on so with one more entry whose mark does.
//! - `draws_few_words`: a call draws at most 256 words.
#![tactic(auto)]

mod limits;

ghost use Rattle.store_model.specs.{Laws.AllowedGoOn, Laws.CausesGoOn, Laws.CountsOnce, Laws.DrawsFewWords, Laws.LeavesOtherCallers, Laws.LeavesOtherHandles, Laws.LeavesSettings, Laws.LeavesShared, Laws.MarksAlone, Laws.RefusalsLeaveAll, Laws.RefusalsLeaveBuffers, Laws.RefusedSetupsLeaveAll, Laws.RulesAreFollowed, Laws.UnreadyHandlesStay, Origin.CopiesGainNothing, Origin.NoneFoundAtStart};
ghost use Rattle.store_model.specs.Sound.{AliveByNumber, KeysStay, StartsSound, StaysSound};

pub use limits::Limits;

/// A request of one caller leaves what is every other caller's own.
pub fn leaves_other_callers()
    ensures { LeavesOtherCallers }
{}

/// A request leaves the operation of each handle that it isn't on.
pub fn leaves_other_handles()
    ensures { LeavesOtherHandles }
{}

/// A request draws at most 256 random words.
pub fn draws_few_words()
    ensures { DrawsFewWords }
{}

/// A request that neither creates nor destroys a key leaves the shared store but for the count of calls, whatever it
/// computes. Each is counted once, whatever its reply and its mark. None changes the settings.
pub fn leaves_shared()
    ensures shared { LeavesShared }
    ensures settings { LeavesSettings }
    ensures counts { CountsOnce }
{}

/// A request that doesn't succeed, though no device failed, leaves all but the count of calls and its own handle's
/// operation, and of that exactly what its call, the operation and its status say (`left_by`). Whether one failed or not,
/// a refusal leaves its output buffer, but for INVALID_SIGNATURE, INVALID_PADDING and HARDWARE_FAILURE, which leave zeros,
/// as many as were needed. A call that isn't in order on its handle, and a refused setup, leave all.
pub fn refusals_leave_all()
    ensures refusals { RefusalsLeaveAll }
    ensures buffers { RefusalsLeaveBuffers }
    ensures unready { UnreadyHandlesStay }
    ensures setups { RefusedSetupsLeaveAll }
{}

/// A service is sound at its start, whatever keys an opening finds, and each request keeps it sound, whatever its mark.
pub fn stays_sound()
    ensures starts { StartsSound }
    ensures stays { StaysSound }
{}

/// A key of a sound service stays as it is until a call destroys it: no creation replaces a key, and no rule narrows one that
/// is there.
pub fn keys_stay()
    ensures { KeysStay }
{}

/// What a request creates obeys each rule of the settings: applied once more, in their order, the rules would neither refuse
/// it nor change it.
pub fn rules_are_followed()
    ensures { RulesAreFollowed }
{}

/// STORAGE_FAILURE, HARDWARE_FAILURE and DATA_CORRUPT come of marks alone: a request answers one of them exactly where its
/// mark says that a device failed.
pub fn marks_alone()
    ensures { MarksAlone }
{}

/// The key that an operation was given is still there exactly where some key has its creation number.
pub fn alive_by_number()
    ensures { AliveByNumber }
{}

/// No chain of copies gains a usage flag or an algorithm, over every history, under every list of rules, and from every
/// sound service, whose keys count as made before it; and each key has the policy that its creation recorded. Where a
/// service begins without a key, nothing counts as made before.
pub fn copies_gain_nothing()
    ensures gains { CopiesGainNothing }
    ensures start { NoneFoundAtStart }
{}

/// A history whose marks have their faults goes on so with one more entry whose mark has its fault since the last entry, or
/// since the opening; and so does one whose marks stand where they may.
pub fn causes_go_on()
    ensures causes { CausesGoOn }
    ensures allowed { AllowedGoOn }
{}
