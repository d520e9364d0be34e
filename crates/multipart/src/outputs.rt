// Bytes at the front of a buffer.
ghost use Rattle.std.specs.{Prelude.◌≡◌, Prelude.◌≤◌, Prelude.IfOk, Prelude.length, Prelude.replicate, Prelude.take, Result.result_err};
ghost use Rattle.psa_status.specs.Rows.{first_row};
ghost use Rattle.store_model.specs.Prelude.{buffer_after, given, reply_unless, room_rows};

use psa_status::Status;

/// Writes bytes to the front of a buffer that has room for them, and answers how many they are. `BufferTooSmall`, and
/// the buffer is left as it is, where it has no room.
pub fn give(bytes: &[u8], out: &mut [u8]) -> Result<usize, Status>
    ensures refusal { result_err result ≡ first_row (room_rows (length bytes.now) (length out.old)) }
    ensures length { IfOk result (λ n. n ≡ length bytes.now) }
    ensures buffer { out.new ≡
        buffer_after out.old (reply_unless (first_row (room_rows (length bytes.now) (length out.old))) (given bytes.now)) }
{
    if out.len() < bytes.len() {
        return Err(Status::BufferTooSmall);
    }
    out[..bytes.len()].copy_from_slice(bytes);
    Ok(bytes.len())
}

/// Gives the first `count` bytes of what was computed as `give` does, and wipes what was computed whole.
pub fn give_front(computed: &mut [u8], count: usize, out: &mut [u8]) -> Result<usize, Status>
    requires { count ≤ length computed.old }
    ensures refusal { result_err result ≡ first_row (room_rows (length (take count computed.old)) (length out.old)) }
    ensures length { IfOk result (λ n. n ≡ length (take count computed.old)) }
    ensures buffer { out.new ≡
        buffer_after out.old (reply_unless (first_row (room_rows (length (take count computed.old)) (length out.old))) (given (take count computed.old))) }
    ensures wiped { computed.new ≡ replicate (length computed.old) 0 }
{
    let given = give(&computed[..count], out);
    computed.fill(0);
    given
}

/// Moves bytes to the front of a buffer for any MAC, and answers how many they are. Where they stood is wiped.
pub fn move_to_front(bytes: &mut [u8], out: &mut [u8; 64]) -> usize
    requires { length bytes.old ≤ 64 }
    ensures length { result ≡ length bytes.old }
    ensures front { take result out.new ≡ bytes.old }
    ensures wiped { bytes.new ≡ replicate (length bytes.old) 0 }
{
    out[..bytes.len()].copy_from_slice(bytes);
    bytes.fill(0);
    bytes.len()
}
