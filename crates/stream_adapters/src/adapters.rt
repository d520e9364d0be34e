// What the program runs over: a reader, a writer and a file. They tell no contents; a read gives what the reader gave, and a
// write is what the writer took.
ghost use Rattle.std.specs.{Prelude.◌≡◌, Prelude.None, Prelude.⊤, Prelude.IfOk, Prelude.OnErr, Prelude.IsErr, Prelude.Ok, Io.ReadsAtMost, Io.WritesAtMost, Io.KnownBytes.ReadConsumes, Io.KnownBytes.WriteAppends};
ghost use Rattle.psa_status.specs.Causes.{HasCause};
ghost use Rattle.outside_io.specs.Causes.{Progresses, Takes, TellsAsBefore};

use disk_face::Disk;
use outside_io::{Sink, Source};
use psa_status::Failed;
use std::fs::File;
use std::io::{self, ErrorKind, Read, Seek, SeekFrom, Write};
use std::os::unix::fs::FileExt;

/// A source over a reader.
#[derive(Drop)]
pub struct Reading<R> {
    inner: R,
    faults: u64,
}

impl<R> Reading<R> {
    /// A source that has not failed yet.
    pub fn new(inner: R) -> Reading<R>
        ensures reader { result.inner ≡ inner }
        ensures faults { result.faults ≡ 0 }
    {
        Reading { inner, faults: 0 }
    }
}

/// One read, made again where a signal interrupts it.
fn read_some<R: Read>(reader: &mut R, buffer: &mut [u8]) -> io::Result<usize>
    ensures bound { ReadsAtMost result buffer.new }
    ensures reader { ReadConsumes (R.remaining reader.old) (R.remaining reader.new) result buffer.new }
{
    for _ in 0..u64::MAX {
        match reader.read(buffer) {
            Ok(count) => return Ok(count),
            Err(error) => {
                if error.kind() != ErrorKind::Interrupted {
                    return Err(error);
                }
            }
        }
    }
    Err(io::Error::from(ErrorKind::Interrupted))
}

impl<R: Read> Source for Reading<R> {
    ghost left = { λ _. None };

    ghost faults = { λ s. s.faults };

    fn read(&mut self, buffer: &mut [u8]) -> Result<usize, Failed>
        ensures bound { ReadsAtMost result buffer.new }
        ensures bytes { ReadConsumes None None result buffer.new }
        ensures tells { TellsAsBefore None None }
        ensures cause { HasCause self.old.faults self.new.faults result }
        ensures reader { ReadConsumes (R.remaining self.old.inner) (R.remaining self.new.inner) result buffer.new }
    {
        match read_some(&mut self.inner, buffer) {
            Ok(count) => Ok(count),
            Err(_) => {
                self.faults = self.faults.saturating_add(1);
                Err(Failed)
            }
        }
    }
}

/// A sink over a writer.
#[derive(Drop)]
pub struct Writing<W> {
    inner: W,
    faults: u64,
}

impl<W> Writing<W> {
    /// A sink that has not failed yet.
    pub fn new(inner: W) -> Writing<W>
        ensures writer { result.inner ≡ inner }
        ensures faults { result.faults ≡ 0 }
    {
        Writing { inner, faults: 0 }
    }
}

/// One write, made again where a signal interrupts it. A write of nothing is an error.
fn write_some<W: Write>(writer: &mut W, piece: &[u8]) -> io::Result<usize>
    ensures bound { WritesAtMost result piece.now }
    ensures progress { Progresses result piece.now }
    ensures writer { WriteAppends (W.contents writer.old) (W.contents writer.new) result piece.now }
{
    for _ in 0..u64::MAX {
        match writer.write(piece) {
            Ok(count) => {
                if count == 0 && !piece.is_empty() {
                    return Err(io::Error::from(ErrorKind::WriteZero));
                }
                return Ok(count);
            }
            Err(error) => {
                if error.kind() != ErrorKind::Interrupted {
                    return Err(error);
                }
            }
        }
    }
    Err(io::Error::from(ErrorKind::Interrupted))
}

impl<W: Write> Sink for Writing<W> {
    ghost taken = { λ _. None };

    ghost faults = { λ s. s.faults };

    fn write(&mut self, piece: &[u8]) -> Result<usize, Failed>
        ensures bound { WritesAtMost result piece.now }
        ensures progress { Progresses result piece.now }
        ensures bytes { Takes None None result piece.now }
        ensures tells { TellsAsBefore None None }
        ensures cause { HasCause self.old.faults self.new.faults result }
        ensures writer { WriteAppends (W.contents self.old.inner) (W.contents self.new.inner) result piece.now }
    {
        match write_some(&mut self.inner, piece) {
            Ok(count) => Ok(count),
            Err(_) => {
                self.faults = self.faults.saturating_add(1);
                Err(Failed)
            }
        }
    }
}

/// A disk over a file. What a crash may leave of it is not known.
#[derive(Drop)]
pub struct FileDisk {
    file: File,
    length: u64,
    faults: u64,
}

impl FileDisk {
    /// A disk of length 0 as far as is known, until it is asked.
    pub fn new(file: File) -> FileDisk
        ensures length { result.length ≡ 0 }
        ensures faults { result.faults ≡ 0 }
    {
        FileDisk {
            file,
            length: 0,
            faults: 0,
        }
    }
}

/// What a call on a file answered. A fault is counted where it failed.
fn counted<T>(faults: &mut u64, answer: io::Result<T>) -> Result<T, Failed>
    ensures value { IfOk answer (λ v. result ≡ Ok v) }
    ensures fault { OnErr answer (IsErr result) }
    ensures cause { HasCause faults.old faults.new result }
{
    match answer {
        Ok(value) => Ok(value),
        Err(_) => {
            *faults = faults.saturating_add(1);
            Err(Failed)
        }
    }
}

/// Fails where this would shorten the file, which may be longer than is known.
fn lengthen(file: &mut File, length: u64) -> io::Result<()> {
    if file.seek(SeekFrom::End(0))? > length {
        return Err(io::Error::from(ErrorKind::InvalidInput));
    }
    file.set_len(length)
}

impl Disk for FileDisk {
    ghost contents = { λ _. None };

    ghost size = { λ disk. disk.length };

    ghost may_leave = { λ _ _. ⊤ };

    ghost moment = { λ _. 0 };

    ghost left_since = { λ _ _ _. ⊤ };

    ghost faults = { λ disk. disk.faults };

    fn len(&mut self) -> Result<u64, Failed> {
        let length = counted(&mut self.faults, self.file.seek(SeekFrom::End(0)))?;
        self.length = length;
        Ok(length)
    }

    fn read_at(&mut self, place: u64, out: &mut [u8]) -> Result<(), Failed> {
        counted(&mut self.faults, self.file.read_exact_at(out, place))
    }

    fn write_at(&mut self, place: u64, bytes: &[u8]) -> Result<(), Failed> {
        counted(&mut self.faults, self.file.write_all_at(bytes, place))
    }

    fn extend(&mut self, length: u64) -> Result<(), Failed> {
        counted(&mut self.faults, lengthen(&mut self.file, length))?;
        self.length = length;
        Ok(())
    }

    fn sync(&mut self) -> Result<(), Failed> {
        counted(&mut self.faults, self.file.sync_all())
    }

    ghost measured = { λ _. tt };

    ghost read_is_image = { λ _. tt };

    ghost counts_now = { λ _ _ _ _ _. tt };

    ghost only_now = { λ _ _ _. tt };

    ghost shrinks = { λ _ _ _ _ _ _. tt };
}
