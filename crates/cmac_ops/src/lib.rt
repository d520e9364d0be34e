//! CMAC (SP 800-38B) over AES.
//!
//! What is proved:
//!
//! - `cmac`, `CmacState`: SP 800-38B, of whole messages and in any pieces; what `wipe` leaves, and what is let go
//!   (`release`): chains of zeros.
#![tactic(auto)]

ghost use Rattle.std.specs.Prelude.{◌≡◌};
ghost use Rattle.crypto_specs.specs.Prelude.{IsKey, aes_encrypt, cmac};

use aes_core::AesKey;
use chain::Chain;
pub use state::CmacState;

mod chain;
mod state;

/// The tag of a message, of 16 bytes; a shorter tag is its front (SP 800-38B, section 6.2).
pub fn cmac(key: &AesKey, message: &[u8]) -> [u8; 16]
    requires { IsKey key.now }
    ensures { result ≡ cmac (aes_encrypt key.now) message.now }
{
    let mut chain = Chain::new();
    chain.update(key, message);
    chain.tag(key)
}
