// What is refused before the element is asked.
ghost use Rattle.std.specs.Prelude.{◌≡◌, ◌+◌, ◌-◌, ◌≤◌, ℕ, List, IfOk, OnOk, length};
ghost use Rattle.psa_status.specs.Rows.{first_row, unless};
ghost use Rattle.alg_encoding.specs.declared.table.Class.TheVariants.{Mac};
ghost use Rattle.key_policy.specs.Names.{IsOfClass};
ghost use Rattle.store_model.specs.Prelude.{mac_of, tag_bytes, Ctr, decrypt_rows, encrypt_rows, compute_rows};
ghost use Rattle.secure_element_calls.specs.{Calls.algorithm_asked, Calls.class_asked, Calls.needed_by, Calls.rows_before, Given.HasVector, Given.given_by};
ghost use Rattle.driver_dispatch.specs.Calls.{IsMac};

use crate::ElementCall;
use key_policy::{NamedAlgorithm, TOTAL_LIMIT};
use psa_status::Status;

// The bytes of an initialisation vector.
const IV_LENGTH: usize = 16;

// The bytes of a MAC.
pub(crate) fn mac_length(alg: NamedAlgorithm) -> usize
    requires { IsOfClass Mac alg.0 }
    ensures mac { IsMac alg.0 result }
    ensures bound { result ≤ 64 }
    ensures whole { (key message : List ℕ) → length (mac_of alg.0 key message) ≡ result }
{
    usize::from(alg.mac().unwrap().length)
}

// The bytes of a MAC, or the refusal of a message of so many bytes or of the room for the MAC.
fn check_mac(alg: NamedAlgorithm, bytes: usize, room: usize) -> Result<usize, Status>
    requires { IsOfClass Mac alg.0 }
    ensures value { result ≡ unless (first_row (compute_rows alg.0 bytes room)) (tag_bytes alg.0) }
    ensures room { IfOk result (λ needed. needed ≤ room) }
    ensures given { OnOk result ((key message : List ℕ) → length (mac_of alg.0 key message) ≡ tag_bytes alg.0) }
{
    if bytes > TOTAL_LIMIT {
        return Err(Status::InvalidArgument);
    }
    let needed = mac_length(alg);
    if room < needed {
        return Err(Status::BufferTooSmall);
    }
    Ok(needed)
}

// The bytes of an initialisation vector and a ciphertext, or the refusal of a text of so many bytes or of the room.
fn check_plain(iv: &[u8; 16], bytes: usize, room: usize) -> Result<usize, Status>
    ensures value { result ≡ unless (first_row (encrypt_rows Ctr bytes room)) (16 + bytes) }
    ensures room { IfOk result (λ needed. needed ≤ room) }
    ensures vector { length iv.now ≡ 16 }
{
    if bytes > TOTAL_LIMIT {
        return Err(Status::InvalidArgument);
    }
    let needed = iv.len() + bytes;
    if room < needed {
        return Err(Status::BufferTooSmall);
    }
    Ok(needed)
}

// The bytes of the text of a ciphertext, which comes with its initialisation vector in so many bytes, or the refusal of that
// number or of the room.
fn check_cipher(bytes: usize, room: usize) -> Result<usize, Status>
    ensures value { result ≡ unless (first_row (decrypt_rows Ctr bytes room)) (bytes - 16) }
    ensures vector { OnOk result (16 ≤ bytes) }
    ensures room { IfOk result (λ needed. needed ≤ room) }
{
    if bytes < IV_LENGTH || bytes > TOTAL_LIMIT {
        return Err(Status::InvalidArgument);
    }
    let needed = bytes - IV_LENGTH;
    if room < needed {
        return Err(Status::BufferTooSmall);
    }
    Ok(needed)
}

impl ElementCall<'_> {
    // How many bytes of an output buffer a call writes, or the refusal of a length or of the buffer.
    pub(crate) fn check(&self, room: usize) -> Result<usize, Status>
        requires { IsOfClass (class_asked self.now) (algorithm_asked self.now) }
        ensures value { result ≡ unless (first_row (rows_before self.now room)) (needed_by self.now) }
        ensures room { IfOk result (λ needed. needed ≤ room) }
        ensures vector { OnOk result (HasVector self.now) }
        ensures given { OnOk result ((key : List ℕ) → length (given_by self.now key) ≡ needed_by self.now) }
    {
        match *self {
            ElementCall::MacCompute { alg, input } => check_mac(alg, input.len(), room),
            ElementCall::MacVerify { input, .. } => {
                if input.len() > TOTAL_LIMIT {
                    return Err(Status::InvalidArgument);
                }
                Ok(0)
            }
            ElementCall::CtrEncrypt { iv, input } => check_plain(iv, input.len(), room),
            ElementCall::CtrDecrypt { input } => check_cipher(input.len(), room),
        }
    }
}
