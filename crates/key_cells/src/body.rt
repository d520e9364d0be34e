// The body of a cell that has a key.
ghost use Rattle.std.specs.{Prelude.◌≡◌, Prelude.◌≤◌, Prelude.◌+◌, Prelude.◌-◌, Prelude.◌++◌, Prelude.◌↔◌, Prelude.ℕ, Prelude.List, Prelude.length, Prelude.take, Prelude.drop, Prelude.replicate, Prelude.MatchOption, Prelude.IsTrue, Int.w32, Int.from_le_bytes};
ghost use Rattle.disk_face.specs.Moments.{written};
ghost use Rattle.key_cells.specs.Body.{IsPersistent, IsKeyOf, front_of, body_of, HoldsNoKey, HasKeyUpTo, IsOfOneKey};

use key_attributes::{Attributes, KeyId};
use key_record::{read, total_length, write};

/// The highest identifier that a persistent key may have.
pub const LAST_ID: u32 = 0x3fff_ffff;

/// How many bytes a cell has behind its first one.
pub const BODY: usize = 1087;

// Writes bytes over those from a place on.
fn put(out: &mut [u8; 1087], place: usize, bytes: &[u8])
    requires { place + length bytes.now ≤ 1087 }
    ensures { out.new ≡ written out.old place bytes.now }
{
    out[place..place + bytes.len()].copy_from_slice(bytes);
}

// What stands before the record: the identifier between zeros.
fn front(id: u32) -> [u8; 15]
    ensures { result ≡ front_of id }
{
    let [a, b, c, d] = id.to_le_bytes();
    [0, 0, 0, a, b, c, d, 0, 0, 0, 0, 0, 0, 0, 0]
}

/// Makes bytes zeros that held a key.
pub fn wipe(bytes: &mut [u8])
    ensures { bytes.new ≡ replicate (length bytes.old) 0 }
{
    bytes.fill(0);
}

/// Makes the body of a key's cell out of zeros.
pub fn fill_body(attributes: &Attributes, bytes: &[u8], body: &mut [u8; 1087])
    requires key { IsKeyOf attributes.now bytes.now }
    requires zeros { body.old ≡ replicate 1087 0 }
    ensures { body.new ≡ body_of attributes.now bytes.now }
{
    let mut record = [0; 1060];
    let length = write(attributes, bytes, &mut record);
    put(body, 0, &front(attributes.id.0));
    put(body, 15, &record[..length]);
    wipe(&mut record);
}

/// Whether bytes are all zeros. It looks at all of them in any case, so that a machine takes many at once.
pub fn is_zero(bytes: &[u8]) -> bool
    ensures { IsTrue result ↔ (bytes.now ≡ replicate (length bytes.now) 0) }
{
    let mut bits = 0;
    for byte in bytes {
        bits |= *byte;
    }
    bits == 0
}

// The identifier of a cell.
fn id_of(cell: &[u8; 1088]) -> u32
    ensures { result ≡ from_le_bytes w32 (take 4 (drop 4 cell.now)) }
{
    u32::from_le_bytes([cell[4], cell[5], cell[6], cell[7]])
}

// Whether a persistent key may have this identifier.
fn is_persistent(id: u32) -> bool
    ensures { IsTrue result ↔ IsPersistent id }
{
    1 <= id && id <= LAST_ID
}

// The header of a cell's record.
fn head_of(cell: &[u8; 1088]) -> [u8; 36]
    ensures { result ≡ take 36 (drop 16 cell.now) }
{
    let mut head = [0; 36];
    head.copy_from_slice(&cell[16..52]);
    head
}

// Whether a cell's body begins with these bytes.
fn begins_with(cell: &[u8; 1088], front: &[u8; 15]) -> bool
    ensures { IsTrue result ↔ (take 15 (drop 1 cell.now) ≡ front.now) }
{
    let begin: &[u8] = &cell[1..16];
    let front: &[u8] = front;
    begin == front
}

/// The key of an open cell: its attributes, and where its bytes end, which begin at byte 52. None where the cell is
/// the cell of no key.
pub fn read_key(cell: &[u8; 1088]) -> Option<(Attributes, usize)>
    ensures { MatchOption result (HoldsNoKey (drop 1 cell.now)) (λ found. HasKeyUpTo found.0 found.1 cell.now) }
{
    let id = id_of(cell);
    if !is_persistent(id) {
        return None;
    }
    if !begins_with(cell, &front(id)) {
        return None;
    }
    let Some(length) = total_length(&head_of(cell)) else {
        return None;
    };
    let end = 16 + length;
    let Some((attributes, _start)) = read(&cell[16..end]) else {
        return None;
    };
    if !is_zero(&cell[end..]) {
        return None;
    }
    let named = Attributes {
        id: KeyId(id),
        ..attributes
    };
    Some((named, end))
}

/// A body is of one key.
pub fn a_body_is_of_one_key()
    ensures { IsOfOneKey }
{}
