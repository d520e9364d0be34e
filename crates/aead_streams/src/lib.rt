//! GCM (SP 800-38D) and CCM (SP 800-38C) over AES on associated data and a text that come in pieces, however each is cut; the key
//! stream of a block cipher that counts, as these and CTR use it; and the bytes of a block that isn't full.
//!
//! What is proved:
//!
//! - `GcmState`, `CcmState`; `KeyStream::xor`; `BlockBuffer::put`, `take`: a running GCM and CCM: text and tag are the
//!   standards' of all that was given, however it was cut (of CCM within the declared lengths, and the tag once they are
//!   reached). The next bytes of the key stream of CTR, GCM and CCM, in any pieces; the bytes of a block that isn't full;
//!   what `wipe` leaves, and what is let go (`release`): zeros.
#![tactic(auto)]

pub use block_buffer::BlockBuffer;
pub use ccm_state::CcmState;
pub use counter_width::CounterWidth;
pub use gcm_state::GcmState;
pub use key_stream::KeyStream;

mod block_buffer;
mod ccm_chain;
mod ccm_start;
mod ccm_state;
mod counter_width;
mod gcm_state;
mod key_stream;
mod text_hash;
