// A message that is authenticated piece by piece.

ghost use Rattle.std.specs.Prelude.{◌≡◌, ℕ, List, [], ◌++◌};
ghost use Rattle.crypto_specs.specs.Prelude.{IsKey, aes_encrypt, cmac};
ghost use Rattle.cmac_ops.specs.States.{HoldsCmac, IsKeyed, IsWipedCmac};

use crate::chain::Chain;
use aes_core::AesKey;

/// A message that is authenticated piece by piece: it stands for its pieces, one after another. It
/// has its key until it is wiped; no call but `wipe` takes it after that. Where it is let go, its key and
/// its chain are cleared.
#[derive(Drop)]
pub struct CmacState {
    key: AesKey,
    chain: Chain,
}

impl CmacState {
    /// The state of the empty message under this key.
    pub fn new(key: AesKey) -> CmacState
        requires { IsKey key }
        ensures keyed { IsKeyed result }
        ensures holds { HoldsCmac result key [] }
    {
        CmacState {
            key,
            chain: Chain::new(),
        }
    }

    /// Adds a piece to the message.
    pub fn update(&mut self, piece: &[u8])
        requires { IsKeyed self.old }
        ensures keyed { IsKeyed self.new }
        ensures holds { (key m : List ℕ) → HoldsCmac self.old key m → HoldsCmac self.new key (m ++ piece.now) }
    {
        self.chain.update(&self.key, piece);
    }

    /// The tag of the message, of 16 bytes. The state is then wiped.
    pub fn finish(&mut self) -> [u8; 16]
        requires { IsKeyed self.old }
        ensures tag { (key m : List ℕ) → HoldsCmac self.old key m → result ≡ cmac (aes_encrypt key) m }
        ensures wiped { IsWipedCmac self.new }
    {
        let tag = self.chain.tag(&self.key);
        self.wipe();
        tag
    }

    /// Forgets key and message: the key's schedule and all buffers are zeros.
    pub fn wipe(&mut self)
        ensures { IsWipedCmac self.new }
    {
        self.key.wipe();
        self.chain.wipe();
    }
}
