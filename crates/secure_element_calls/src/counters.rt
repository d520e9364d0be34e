// CTR, whose counter blocks the element enciphers.
ghost use Rattle.std.specs.Prelude.{◌≡◌, ◌≤◌, ◌<◌, ◌/◌, ◌%◌, ℕ, List, IsTrue, OnOk, length, replicate};
ghost use Rattle.psa_status.specs.Causes.{HasCause, Rose};
ghost use Rattle.crypto_specs.specs.Prelude.{aes_encrypt, xor_bytes, ctr_xor, ecb_encrypt, key_stream, number_block};
ghost use Rattle.driver_dispatch.specs.Calls.{CountsServed, HoldsHandle, has_element};

use cipher_blocks::{number_of, set_number};
use driver_dispatch::Devices;
use psa_status::Failed;

// So many bytes of counter blocks are enciphered at once.
const ROOM: usize = 256;

// Fills whole blocks with the counter blocks from a number on, which wraps at 2^128. What enciphers each of them makes the key
// stream.
fn fill_counters(start: u128, blocks: &mut [u8])
    requires { length blocks.old % 16 ≡ 0 }
    ensures { (e : List ℕ → List ℕ) → ecb_encrypt e blocks.new ≡ key_stream e (number_block start) (length blocks.old / 16) }
{
    let mut counter = start;
    'turns: for n in 0..blocks.len() / 16 {
        set_number(&mut blocks[16 * n..16 * n + 16], counter);
        counter = counter.wrapping_add(1);
    }
}

// Xors a mask into a text that isn't longer.
fn xor_mask(text: &mut [u8], mask: &[u8])
    requires { length text.old ≤ length mask.now }
    ensures { text.new ≡ xor_bytes text.old mask.now }
{
    'bytes: for i in 0..text.len() {
        text[i] ^= mask[i];
    }
}

// Enciphers a piece whose first counter block has this number. The room is wiped.
fn xor_piece<A: Devices>(
    devices: &mut A,
    handle: u64,
    counter: u128,
    room: &mut [u8; ROOM],
    piece: &mut [u8],
) -> Result<(), Failed>
    requires element { IsTrue (has_element (A.locations devices.old)) }
    requires aes { HoldsHandle (A.keys devices.old) handle (λ key. key.key_type ≡ 0x2400) }
    requires short { length piece.old ≤ 256 }
    ensures text { OnOk result (HoldsHandle (A.keys devices.old) handle (λ key. piece.new ≡ ctr_xor (aes_encrypt key.bytes) (number_block counter) piece.old)) }
    ensures wiped { room.new ≡ replicate 256 0 }
    ensures same { A.keys devices.new ≡ A.keys devices.old }
    ensures served { CountsServed (A.served devices.old) (A.served devices.new) result }
    ensures locations { A.locations devices.new ≡ A.locations devices.old }
    ensures cause { HasCause (A.faults devices.old) (A.faults devices.new) result }
{
    let blocks = &mut room[..piece.len().div_ceil(16) * 16];
    fill_counters(counter, blocks);
    let enciphered = devices.encrypt_blocks(handle, blocks);
    xor_mask(piece, blocks);
    room.fill(0);
    enciphered
}

/// Enciphers or deciphers a text in CTR mode (SP 800-38A section 6.5). Where the element fails the text is spoilt.
pub fn xor_text<A: Devices>(
    devices: &mut A,
    handle: u64,
    iv: &[u8],
    text: &mut [u8],
) -> Result<(), Failed>
    requires element { IsTrue (has_element (A.locations devices.old)) }
    requires aes { HoldsHandle (A.keys devices.old) handle (λ key. key.key_type ≡ 0x2400) }
    requires iv { length iv.now ≡ 16 }
    ensures text { OnOk result (HoldsHandle (A.keys devices.old) handle (λ key. text.new ≡ ctr_xor (aes_encrypt key.bytes) iv.now text.old)) }
    ensures same { A.keys devices.new ≡ A.keys devices.old }
    ensures served { OnOk result (0 < length text.old → Rose (A.served devices.old) (A.served devices.new)) }
    ensures locations { A.locations devices.new ≡ A.locations devices.old }
    ensures cause { HasCause (A.faults devices.old) (A.faults devices.new) result }
{
    let mut room = [0; ROOM];
    let mut counter = number_of(iv);
    'pieces: for n in 0..text.len().div_ceil(ROOM) {
        let end = text.len().min(ROOM * n + ROOM);
        let piece = &mut text[ROOM * n..end];
        xor_piece(devices, handle, counter, &mut room, piece)?;
        counter = counter.wrapping_add(16);
    }
    Ok(())
}
