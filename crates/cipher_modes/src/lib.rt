//! Modes of operation of AES (SP 800-38A), each on a text in place, and the padding of PKCS#7.
//!
//! What is proved:
//!
//! - `ecb_encrypt`, `cbc_encrypt`, `ctr_xor`, `pad`, `unpad` and their others: ECB and CBC of any whole blocks and CTR of
//!   any text are SP 800-38A; the padding of a last block is PKCS#7.
#![tactic(auto)]

pub use cbc::{cbc_decrypt, cbc_encrypt};
pub use ctr::ctr_xor;
pub use ecb::{ecb_decrypt, ecb_encrypt};
pub use padding::{pad, unpad};

mod cbc;
mod ctr;
mod ecb;
mod padding;
