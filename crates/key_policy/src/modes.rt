// The modes of the cipher algorithms.
ghost use Rattle.std.specs.Prelude.{◌≡◌, ◌≤◌, ◌<◌, ◌^◌};
ghost use Rattle.store_model.specs.Prelude.{enciphered_length, is_ciphertext_length, iv_length, takes_whole_blocks};
ghost use Rattle.key_policy.specs.Modes.{model_mode};

/// The modes of the cipher algorithms.
#[derive(Clone, Copy, Drop)]
pub enum Mode {
    Ctr,
    CbcNoPadding,
    CbcPkcs7,
    EcbNoPadding,
}

/// The bytes of the initialisation vector, which stands before the ciphertext.
pub fn iv_length(mode: Mode) -> usize
    ensures value { result ≡ iv_length (model_mode mode) }
    ensures bound { result ≤ 16 }
{
    match mode {
        Mode::EcbNoPadding => 0,
        Mode::Ctr | Mode::CbcNoPadding | Mode::CbcPkcs7 => 16,
    }
}

/// Whether a text has to be whole blocks.
pub fn takes_whole_blocks(mode: Mode) -> bool
    ensures { result ≡ takes_whole_blocks (model_mode mode) }
{
    matches!(mode, Mode::CbcNoPadding | Mode::EcbNoPadding)
}

/// The bytes of the ciphertext of so many bytes.
pub fn enciphered_length(mode: Mode, length: usize) -> usize
    requires { length < 2 ^ 32 }
    ensures { result ≡ enciphered_length (model_mode mode) length }
{
    match mode {
        Mode::CbcPkcs7 => length + (16 - length % 16),
        Mode::Ctr | Mode::CbcNoPadding | Mode::EcbNoPadding => length,
    }
}

/// Whether a ciphertext may have so many bytes.
pub fn is_ciphertext_length(mode: Mode, length: usize) -> bool
    ensures { result ≡ is_ciphertext_length (model_mode mode) length }
{
    match mode {
        Mode::Ctr => true,
        Mode::CbcPkcs7 => length % 16 == 0 && length != 0,
        Mode::CbcNoPadding | Mode::EcbNoPadding => length % 16 == 0,
    }
}
