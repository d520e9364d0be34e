// What the element computes for a call.
ghost use Rattle.std.specs.Prelude.{◌≡◌, ◌+◌, ◌-◌, ◌≤◌, ◌<◌, ◌++◌, bytes_eq, false, IfOk, IsTrue, OnOk, length, take, drop};
ghost use Rattle.psa_status.specs.Causes.{HasCause, Rose};
ghost use Rattle.alg_encoding.specs.declared.table.Class.TheVariants.{Mac};
ghost use Rattle.key_policy.specs.Names.{IsOfClass};
ghost use Rattle.crypto_specs.specs.Prelude.{aes_encrypt, ctr_xor};
ghost use Rattle.driver_dispatch.specs.Calls.{CountsServed, HoldsHandle, has_element};
ghost use Rattle.store_model.specs.Prelude.{mac_of, fits_type};
ghost use Rattle.secure_element_calls.specs.{Calls.AsksElement, Calls.algorithm_asked, Calls.class_asked, Calls.needed_by, Given.Compares, Given.HasVector, Given.agrees_by, Given.given_by};

use crate::ElementCall;
use crate::checking::mac_length;
use crate::counters::xor_text;
use driver_dispatch::Devices;
use key_policy::NamedAlgorithm;
use multipart::is_front;
use psa_status::Failed;

// Whether a MAC is that of a message. What was computed is wiped.
fn is_mac<A: Devices>(
    devices: &mut A,
    handle: u64,
    alg: NamedAlgorithm,
    input: &[u8],
    mac: &[u8],
) -> Result<bool, Failed>
    requires element { IsTrue (has_element (A.locations devices.old)) }
    requires algorithm { IsOfClass Mac alg.0 }
    requires fits { HoldsHandle (A.keys devices.old) handle (λ key. IsTrue (fits_type alg.0 key.key_type)) }
    ensures same { IfOk result (λ same. HoldsHandle (A.keys devices.old) handle (λ key. same ≡ bytes_eq mac.now (mac_of alg.0 key.bytes input.now))) }
    ensures keys { A.keys devices.new ≡ A.keys devices.old }
    ensures served { CountsServed (A.served devices.old) (A.served devices.new) result }
    ensures locations { A.locations devices.new ≡ A.locations devices.old }
    ensures cause { HasCause (A.faults devices.old) (A.faults devices.new) result }
{
    let length = mac_length(alg);
    let mut own = [0; 64];
    let computed = devices.compute_mac(handle, alg.number(), input, &mut own[..length]);
    let same = is_front(mac, &mut own, length);
    match computed {
        Ok(()) => Ok(same),
        Err(Failed) => Err(Failed),
    }
}

// Writes an initialisation vector and the ciphertext of a text behind it.
fn encrypt<A: Devices>(
    devices: &mut A,
    handle: u64,
    iv: &[u8; 16],
    input: &[u8],
    out: &mut [u8],
) -> Result<(), Failed>
    requires element { IsTrue (has_element (A.locations devices.old)) }
    requires aes { HoldsHandle (A.keys devices.old) handle (λ key. key.key_type ≡ 0x2400) }
    requires exact { length out.old ≡ 16 + length input.now }
    ensures written { OnOk result (HoldsHandle (A.keys devices.old) handle (λ key. out.new ≡ iv.now ++ ctr_xor (aes_encrypt key.bytes) iv.now input.now)) }
    ensures keys { A.keys devices.new ≡ A.keys devices.old }
    ensures served { OnOk result (0 < length input.now → Rose (A.served devices.old) (A.served devices.new)) }
    ensures locations { A.locations devices.new ≡ A.locations devices.old }
    ensures cause { HasCause (A.faults devices.old) (A.faults devices.new) result }
{
    let (front, cipher) = out.split_at_mut(16);
    front.copy_from_slice(iv);
    cipher.copy_from_slice(input);
    xor_text(devices, handle, iv, cipher)
}

// Writes the text of a ciphertext, before which its initialisation vector stands.
fn decrypt<A: Devices>(
    devices: &mut A,
    handle: u64,
    input: &[u8],
    out: &mut [u8],
) -> Result<(), Failed>
    requires element { IsTrue (has_element (A.locations devices.old)) }
    requires aes { HoldsHandle (A.keys devices.old) handle (λ key. key.key_type ≡ 0x2400) }
    requires vector { 16 ≤ length input.now }
    requires exact { length out.old ≡ length input.now - 16 }
    ensures written { OnOk result (HoldsHandle (A.keys devices.old) handle (λ key. out.new ≡ ctr_xor (aes_encrypt key.bytes) (take 16 input.now) (drop 16 input.now))) }
    ensures keys { A.keys devices.new ≡ A.keys devices.old }
    ensures served { OnOk result (16 < length input.now → Rose (A.served devices.old) (A.served devices.new)) }
    ensures locations { A.locations devices.new ≡ A.locations devices.old }
    ensures cause { HasCause (A.faults devices.old) (A.faults devices.new) result }
{
    let (iv, cipher) = input.split_at(16);
    out.copy_from_slice(cipher);
    xor_text(devices, handle, iv, out)
}

/// Writes what a call gives to a buffer of exactly its bytes, and answers whether the MAC that it is to verify, if one, is the
/// message's. Where the element fails the buffer is spoilt.
pub fn fill<A: Devices>(
    devices: &mut A,
    handle: u64,
    call: &ElementCall,
    out: &mut [u8],
) -> Result<bool, Failed>
    requires element { IsTrue (has_element (A.locations devices.old)) }
    requires algorithm { IsOfClass (class_asked call.now) (algorithm_asked call.now) }
    requires fits { HoldsHandle (A.keys devices.old) handle (λ key. IsTrue (fits_type (algorithm_asked call.now) key.key_type)) }
    requires vector { HasVector call.now }
    requires exact { length out.old ≡ needed_by call.now }
    ensures given { OnOk result (HoldsHandle (A.keys devices.old) handle (λ key. out.new ≡ given_by call.now key.bytes)) }
    ensures agrees { IfOk result (λ agrees. HoldsHandle (A.keys devices.old) handle (λ key. agrees ≡ agrees_by call.now key.bytes)) }
    ensures compared { IfOk result (λ agrees. agrees ≡ false → Compares call.now) }
    ensures keys { A.keys devices.new ≡ A.keys devices.old }
    ensures served { OnOk result (AsksElement call.now → Rose (A.served devices.old) (A.served devices.new)) }
    ensures locations { A.locations devices.new ≡ A.locations devices.old }
    ensures cause { HasCause (A.faults devices.old) (A.faults devices.new) result }
{
    let written = match *call {
        ElementCall::MacVerify { alg, input, mac } => {
            return is_mac(devices, handle, alg, input, mac);
        }
        ElementCall::MacCompute { alg, input } => {
            devices.compute_mac(handle, alg.number(), input, out)
        }
        ElementCall::CtrEncrypt { iv, input } => encrypt(devices, handle, iv, input, out),
        ElementCall::CtrDecrypt { input } => decrypt(devices, handle, input, out),
    };
    match written {
        Ok(()) => Ok(true),
        Err(Failed) => Err(Failed),
    }
}
