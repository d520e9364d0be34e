// The calls of a client that are refused or fail, and others beside them.
ghost use Rattle.std.specs.Prelude.{◌≡◌};

use crate::texts::Text;
use admission::Admission;
use alg_encoding::Alg;
use caller_service::Client;
use callers::NoGate;
use disk_face::Disk;
use driver_dispatch::Devices;
use key_attributes::{Attributes, KeyId, KeyType, Lifetime, Policy, Usage};
use psa_status::Status;
use service_calls::Op;
use std::alloc::{AllocError, Global};
use std::sync::Wait;

/// What all calls of the trial count together, with none to spare.
pub const BUDGET: u64 = 14;

const SHA_256: Alg = Alg(0x0200_0009);

const CMAC: Alg = Alg(0x03c0_0200);

const GCM: Alg = Alg(0x0550_0200);

const CBC_PKCS7: Alg = Alg(0x0440_4100);

const SIGN: u32 = 0x400;

const DECRYPT: u32 = 0x200;

const VOLATILE: u32 = 0;

const OF_THE_ELEMENT: u32 = 0x100;

/// Key and message of SP 800-38B, section D.1, example 2.
const KEY: [u8; 16] = [
    0x2b, 0x7e, 0x15, 0x16, 0x28, 0xae, 0xd2, 0xa6, 0xab, 0xf7, 0x15, 0x88, 0x09, 0xcf, 0x4f, 0x3c,
];

const MESSAGE: [u8; 16] = [
    0x6b, 0xc1, 0xbe, 0xe2, 0x2e, 0x40, 0x9f, 0x96, 0xe9, 0x3d, 0x7e, 0x11, 0x73, 0x93, 0x17, 0x2a,
];

/// The sealed text of GCM's specification by McGrew and Viega, test case 2.
const SEALED: [u8; 32] = [
    0x03, 0x88, 0xda, 0xce, 0x60, 0xb6, 0xa3, 0x92, 0xf3, 0x28, 0xc2, 0xb9, 0x71, 0xb2, 0xfe, 0x78,
    0xab, 0x6e, 0x47, 0xd4, 0x2c, 0xec, 0x13, 0xbd, 0xf5, 0x3a, 0x67, 0xb2, 0x12, 0x57, 0xbd, 0xdf,
];

/// Made by OpenSSL of "Fourteen bytes": an initialisation vector, and a block.
const ENCIPHERED: [u8; 32] = [
    0x61, 0x6e, 0x20, 0x49, 0x56, 0x20, 0x69, 0x73, 0x20, 0x61, 0x20, 0x62, 0x6c, 0x6f, 0x63, 0x6b,
    0x67, 0x54, 0xf7, 0x54, 0xf2, 0x92, 0xd8, 0x5b, 0xbd, 0x0d, 0x9b, 0x4a, 0xab, 0x99, 0x89, 0x3b,
];

// Adds a line: how many bytes a call gave, or its status, and all of its buffer.
fn tell(
    alloc: Global,
    page: &mut Text,
    given: Result<usize, Status>,
    buffer: &[u8],
) -> Result<(), AllocError> {
    match given {
        Ok(count) => page.add_number(count as u64)?,
        Err(status) => page.add(status.name())?,
    }
    page.add(" ")?;
    page.add(&hex::encode(alloc, buffer)?)?;
    page.add("\n")
}

// Makes an AES key. The answer is 0 where that fails.
fn import<D: Disk, A: Devices, C: Admission, R: Wait>(
    client: &mut Client<'_, D, A, C, NoGate, R>,
    lifetime: u32,
    usage: u32,
    alg: Alg,
    bytes: &[u8],
) -> KeyId
    ensures { client.new.service.now ≡ client.old.service.now }
{
    let attributes = Attributes {
        lifetime: Lifetime(lifetime),
        id: KeyId(0),
        key_type: KeyType::AES,
        bits: 0,
        policy: Policy {
            usage: Usage(usage),
            alg,
            ..Policy::NOTHING
        },
    };
    client
        .import_key(&attributes, bytes)
        .result
        .unwrap_or(KeyId(0))
}

// Computes a MAC.
fn compute_mac<D: Disk, A: Devices, C: Admission, R: Wait>(
    client: &mut Client<'_, D, A, C, NoGate, R>,
    alloc: Global,
    page: &mut Text,
    key: KeyId,
    message: &[u8],
    mac: &mut [u8],
) -> Result<(), AllocError>
    ensures { client.new.service.now ≡ client.old.service.now }
{
    let computed = client.mac_compute(key, CMAC, message, mac);
    tell(alloc, page, computed.result, mac)
}

// Computes a MAC into buffers of 15 and of 17 bytes.
fn compute_macs<D: Disk, A: Devices, C: Admission, R: Wait>(
    client: &mut Client<'_, D, A, C, NoGate, R>,
    alloc: Global,
    page: &mut Text,
    key: KeyId,
    message: &[u8],
) -> Result<(), AllocError>
    ensures { client.new.service.now ≡ client.old.service.now }
{
    compute_mac(client, alloc, page, key, message, &mut [7; 15])?;
    compute_mac(client, alloc, page, key, message, &mut [7; 17])
}

// Opens a sealed text with other associated data.
fn open_sealed<D: Disk, A: Devices, C: Admission, R: Wait>(
    client: &mut Client<'_, D, A, C, NoGate, R>,
    alloc: Global,
    page: &mut Text,
) -> Result<(), AllocError>
    ensures { client.new.service.now ≡ client.old.service.now }
{
    let key = import(client, VOLATILE, DECRYPT, GCM, &[0; 16]);
    let mut text = [7; 17];
    let opened = client.aead_decrypt(key, GCM, &[0; 12], b"a", &SEALED, &mut text);
    tell(alloc, page, opened.result, &text)
}

// Deciphers a text.
fn decipher<D: Disk, A: Devices, C: Admission, R: Wait>(
    client: &mut Client<'_, D, A, C, NoGate, R>,
    alloc: Global,
    page: &mut Text,
    key: KeyId,
    input: &[u8],
) -> Result<(), AllocError>
    ensures { client.new.service.now ≡ client.old.service.now }
{
    let mut text = [7; 17];
    let deciphered = client.cipher_decrypt(key, CBC_PKCS7, input, &mut text);
    tell(alloc, page, deciphered.result, &text)
}

// Deciphers a text whole, and with its padding broken.
fn decipher_twice<D: Disk, A: Devices, C: Admission, R: Wait>(
    client: &mut Client<'_, D, A, C, NoGate, R>,
    alloc: Global,
    page: &mut Text,
) -> Result<(), AllocError>
    ensures { client.new.service.now ≡ client.old.service.now }
{
    let key = import(client, VOLATILE, DECRYPT, CBC_PKCS7, b"an AES key of 16");
    decipher(client, alloc, page, key, &ENCIPHERED)?;
    let mut broken = ENCIPHERED;
    broken[15] ^= 1;
    decipher(client, alloc, page, key, &broken)
}

// Begins a hash.
fn begin_hash<D: Disk, A: Devices, C: Admission, R: Wait>(
    client: &mut Client<'_, D, A, C, NoGate, R>,
    op: Op,
)
    ensures { client.new.service.now ≡ client.old.service.now }
{
    let _ = client.hash_setup(op, SHA_256);
    let _ = client.hash_update(op, b"abc");
}

// Finishes a hash, and answers whether that counted.
fn finish_hash<D: Disk, A: Devices, C: Admission, R: Wait>(
    client: &mut Client<'_, D, A, C, NoGate, R>,
    alloc: Global,
    page: &mut Text,
    op: Op,
) -> Result<bool, AllocError>
    ensures { client.new.service.now ≡ client.old.service.now }
{
    let mut hash = [7; 32];
    let finished = client.hash_finish(op, &mut hash);
    tell(alloc, page, finished.result, &hash)?;
    Ok(finished.rank.is_some())
}

// Adds a line: whether a call had a rank, whether an operation was ended, and how much was counted.
fn tell_spent(page: &mut Text, ranked: bool, ended: bool, spent: u64) -> Result<(), AllocError> {
    page.add(if ranked {
        "ranked true"
    } else {
        "ranked false"
    })?;
    page.add(if ended {
        ", ended true"
    } else {
        ", ended false"
    })?;
    page.add(", counted ")?;
    page.add_number(spent)?;
    page.add("\n")
}

// Uses the budget up within a hash, and ends that: an abort is never refused.
fn wear<D: Disk, A: Devices, C: Admission, R: Wait>(
    client: &mut Client<'_, D, A, C, NoGate, R>,
    alloc: Global,
    page: &mut Text,
) -> Result<(), AllocError>
    ensures { client.new.service.now ≡ client.old.service.now }
{
    let op = Op::first();
    begin_hash(client, op);
    let ranked = finish_hash(client, alloc, page, op)?;
    let ended = client.abort(op).rank.is_some();
    tell_spent(page, ranked, ended, client.caller().spent())
}

/// Makes the calls.
pub fn try_limits<D: Disk, A: Devices, C: Admission, R: Wait>(
    client: &mut Client<'_, D, A, C, NoGate, R>,
    alloc: Global,
    page: &mut Text,
) -> Result<(), AllocError>
    ensures { client.new.service.now ≡ client.old.service.now }
{
    let key = import(client, VOLATILE, SIGN, CMAC, &KEY);
    compute_macs(client, alloc, page, key, &MESSAGE)?;
    open_sealed(client, alloc, page)?;
    decipher_twice(client, alloc, page)?;
    let key = import(client, OF_THE_ELEMENT, SIGN, CMAC, &[0; 16]);
    compute_macs(client, alloc, page, key, b"")?;
    wear(client, alloc, page)
}
