//! The sessions of a script: one session's calls, made by a caller of a service that others share, and the text of its replies; the
//! sessions of one thread; all sessions, dealt to worker threads, over a store that is opened for them and closed after them.
//!
//! What is proved:
//!
//! - `answer_lines`; within it `run_sessions`, `Worker::run`, `Session::run_line`, `deal`, `gather`: `answer_lines` opens,
//!   runs and closes: there is one history, of which all is said that docs/PROVED.md says of the one order, of replies
//!   whose text is what is kept (`AreAnswers`, `AreAnswered`), or there are no replies, and why (`IsUnanswered`).
//!   `run_sessions`, `Worker::run`, `run_line`, of all sessions, of those of one thread, of one: the calls of their lines
//!   were made, at most 20,000 within the budget, and the replies are there; where memory runs out, the calls of the first
//!   so many lines were made (`HaveMade`, `HaveKept`; `HasWorked`; `HasMade`, `HasAnswered`). With one worker, where all
//!   lines were run, a caller has seen their calls in the order of the lines (`HaveSeen`). `deal`, `gather`: session s
//!   goes to worker s modulo their count; callers and replies come back by their numbers. The calls, session, number and
//!   rank of each reply, and of which failure of a device its status tells, are said always; status, bytes and identifier
//!   of a reply as `Caller::answer` says them (`IsReplyTo`).
//! - its law `sessions_are_replayed`: where a whole history and what the secure element computes are told, a session's
//!   turns are printed as those of the replay, of which the calls are those of the session's lines too.
//! - its laws `marks_are_bounded`, `lines_are_bounded`: no more calls are marked by a failed device than its count of
//!   faults rose by, where that hasn't come to its end; and no more reply lines say so.
#![tactic(auto)]

mod answers;
mod dealing;
mod laws;
mod lines;
mod running;
mod session;
mod worker;

pub use laws::{lines_are_bounded, marks_are_bounded, sessions_are_replayed};
pub use lines::{Run, Unanswered, answer_lines};
pub use running::run_sessions;
