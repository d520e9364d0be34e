// AES keys.
ghost use Rattle.std.specs.Prelude.{◌≡◌};
ghost use Rattle.crypto_specs.specs.Prelude.{IsKey};

use aes_core::AesKey;

/// The AES key of these bytes.
pub fn aes_key(bytes: &[u8]) -> AesKey
    requires { IsKey bytes.now }
    ensures { result ≡ bytes.now }
{
    AesKey::new(bytes).unwrap()
}
