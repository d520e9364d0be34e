// Whole texts, read and written.
ghost use Rattle.std.specs.{Prelude.◌≡◌, Prelude.◌≤◌, Prelude.◌<◌, Prelude.◌+◌, Prelude.length, Prelude.take, Prelude.ℕ, Prelude.List, Prelude.IfOk, Prelude.IfSome, Prelude.OnOk, Prelude.OnErr, Prelude.IsErrOf, Io.KnownBytes.IsAtEnd, Io.KnownBytes.Appends, Io.KnownBytes.Consumes};
ghost use Rattle.outside_io.specs.Causes.{text_limit, Rose, HasCause, TellsAsBefore};

use crate::{Sink, Source};
use psa_status::Failed;
use std::alloc::Global;

/// How many bytes a text may have: 4 MiB.
const TEXT_LIMIT: usize = 4194304;

/// How many bytes are asked for at once.
const PIECE: usize = 32768;

/// Why no text was read: it has more than 4 MiB, the source failed, or there was no memory.
#[derive(Clone, Copy, Debug, PartialEq, Eq, Drop)]
pub enum ReadError {
    TooLong,
    Fault,
    Memory,
}

/// All that a source has left, to its end. `TooLong` exactly where more than 4 MiB were read, which takes one
/// byte more and leaves the rest; `Fault` only where the source's number of faults rose.
pub fn read_text<S: Source>(alloc: Global, source: &mut S) -> Result<Vec<u8>, ReadError>
    ensures text { IfOk result (λ v. (length v.items ≤ text_limit) × IfSome (S.left source.old) (λ bytes. v.items ≡ bytes)) }
    ensures end { OnOk result (IsAtEnd (S.left source.new)) }
    ensures long { IsErrOf result ReadError.TooLong → (bytes : List ℕ) × (length bytes ≡ text_limit + 1) × Consumes (S.left source.old) (S.left source.new) bytes }
    ensures fault { IsErrOf result ReadError.Fault → Rose (S.faults source.old) (S.faults source.new) }
    ensures later { S.faults source.old ≤ S.faults source.new }
    ensures tells { TellsAsBefore (S.left source.old) (S.left source.new) }
{
    match vec![in alloc; 0u8; PIECE] {
        Ok(mut buffer) => read_pieces(alloc, source, &mut buffer),
        Err(_) => Err(ReadError::Memory),
    }
}

// The same, by way of a buffer.
fn read_pieces<S: Source>(
    alloc: Global,
    source: &mut S,
    buffer: &mut [u8],
) -> Result<Vec<u8>, ReadError>
    requires { 0 < length buffer.old }
    ensures text { IfOk result (λ v. (length v.items ≤ text_limit) × IfSome (S.left source.old) (λ bytes. v.items ≡ bytes)) }
    ensures end { OnOk result (IsAtEnd (S.left source.new)) }
    ensures long { IsErrOf result ReadError.TooLong → (bytes : List ℕ) × (length bytes ≡ text_limit + 1) × Consumes (S.left source.old) (S.left source.new) bytes }
    ensures fault { IsErrOf result ReadError.Fault → Rose (S.faults source.old) (S.faults source.new) }
    ensures later { S.faults source.old ≤ S.faults source.new }
    ensures tells { TellsAsBefore (S.left source.old) (S.left source.new) }
{
    let mut text = Vec::new(alloc);
    while text.len() <= TEXT_LIMIT {
        let want = (TEXT_LIMIT + 1 - text.len()).min(buffer.len());
        let piece = &mut buffer[..want];
        match source.read(piece) {
            Ok(0) => return Ok(text),
            Ok(count) => match text.extend_from_slice(&piece[..count]) {
                Ok(()) => {}
                Err(_) => return Err(ReadError::Memory),
            },
            Err(Failed) => return Err(ReadError::Fault),
        }
    }
    Err(ReadError::TooLong)
}

/// Writes all of a piece. Fails only where the sink's number of faults rose; the sink has then taken some of
/// its first bytes.
pub fn write_all<K: Sink>(sink: &mut K, piece: &[u8]) -> Result<(), Failed>
    ensures ok { OnOk result (Appends (K.taken sink.old) (K.taken sink.new) piece.now) }
    ensures err { OnErr result ((n : ℕ) × Appends (K.taken sink.old) (K.taken sink.new) (take n piece.now)) }
    ensures cause { HasCause (K.faults sink.old) (K.faults sink.new) result }
    ensures tells { TellsAsBefore (K.taken sink.old) (K.taken sink.new) }
{
    let mut rest = piece;
    while !rest.is_empty() {
        match sink.write(rest) {
            Ok(count) => rest = &rest[count..],
            Err(Failed) => return Err(Failed),
        }
    }
    Ok(())
}
