// The forms in memory.
ghost use Rattle.std.specs.{Prelude.◌≡◌, Prelude.◌≤◌, Prelude.◌<◌, Prelude.◌++◌, Prelude.◌↔◌, Prelude.[], Prelude.min, Prelude.length, Prelude.take, Prelude.Some, Prelude.drop, Prelude.IfOk, Prelude.OnErr, Prelude.IsErr, Prelude.true, Prelude.false, Prelude.if◌then◌else◌, Io.ReadsAtMost, Io.WritesAtMost, Io.KnownBytes.ReadConsumes};
ghost use Rattle.outside_io.specs.{Causes.HasCause, Causes.TellsAsBefore, Causes.Takes, Causes.Progresses, Forms.must_fail, Forms.after_read, Forms.after_write, Forms.failed_write, Forms.refused_write};

use crate::{Sink, Source};
use psa_status::Failed;
use std::alloc::Global;
use std::marker::Model;

/// A source in memory. It tells its bytes. Calls are numbered from 0.
#[derive(Drop)]
pub struct MemorySource {
    bytes: Vec<u8>,
    at: usize,
    fails: Vec<u64>,
    calls: u64,
    faults: u64,
}

impl Model for MemorySource {
    ghost use Rattle.std.specs.Prelude.{drop};
    ghost use Rattle.outside_io.specs.Forms.{SourceForm};

    ghost Value = { SourceForm };

    ghost view = { λ s. record { left = drop s.at s.bytes.items; fails = s.fails.items; calls = s.calls; faults = s.faults } };
}

impl MemorySource {
    /// A source of these bytes, whose calls with the listed numbers fail.
    pub fn new(bytes: Vec<u8>, fails: Vec<u64>) -> MemorySource
        ensures { result ≡ record { left = bytes.items; fails = fails.items; calls = 0; faults = 0 } }
    {
        MemorySource {
            bytes,
            at: 0,
            fails,
            calls: 0,
            faults: 0,
        }
    }
}

impl Source for MemorySource {
    ghost left = { λ s. Some s.left };

    ghost faults = { λ s. s.faults };

    fn read(&mut self, buffer: &mut [u8]) -> Result<usize, Failed>
        ensures bound { ReadsAtMost result buffer.new }
        ensures bytes { ReadConsumes (Some self.old.left) (Some self.new.left) result buffer.new }
        ensures tells { TellsAsBefore (Some self.old.left) (Some self.new.left) }
        ensures cause { HasCause self.old.faults self.new.faults result }
        ensures fails { IsErr result ↔ (must_fail self.old.fails self.old.calls ≡ true) }
        ensures count { IfOk result (λ n. n ≡ min (length self.old.left) (length buffer.old)) }
        ensures after { self.new ≡ after_read self.old (length buffer.old) }
    {
        let number = self.calls;
        self.calls = self.calls.saturating_add(1);
        if self.fails.contains(&number) {
            self.faults = self.faults.saturating_add(1);
            return Err(Failed);
        }
        let (count, at) = copied(&self.bytes, self.at, buffer);
        self.at = at;
        Ok(count)
    }
}

// Fills a buffer from a place on, and says how many bytes it took and where the rest begins.
fn copied(bytes: &[u8], at: usize, buffer: &mut [u8]) -> (usize, usize)
    ensures count { result.0 ≡ min (length (drop at bytes.now)) (length buffer.old) }
    ensures room { length buffer.new ≡ length buffer.old }
    ensures front { drop at bytes.now ≡ take result.0 buffer.new ++ drop result.1 bytes.now }
    ensures rest { drop result.1 bytes.now ≡ drop result.0 (drop at bytes.now) }
    ensures end { result.0 ≡ 0 → 0 < length buffer.new → drop result.1 bytes.now ≡ [] }
{
    if bytes.len() <= at {
        return (0, at);
    }
    let count = (bytes.len() - at).min(buffer.len());
    buffer[..count].copy_from_slice(&bytes[at..at + count]);
    (count, at + count)
}

/// A sink in memory. It tells its bytes. Calls are numbered from 0, and a call also fails where it finds no
/// memory.
#[derive(Drop)]
pub struct MemorySink {
    bytes: Vec<u8>,
    fails: Vec<u64>,
    calls: u64,
    faults: u64,
    refused: u64,
}

impl Model for MemorySink {
    ghost use Rattle.outside_io.specs.Forms.{SinkForm};

    ghost Value = { SinkForm };

    ghost view = { λ s. record { taken = s.bytes.items; fails = s.fails.items; calls = s.calls; faults = s.faults; refused = s.refused } };
}

impl MemorySink {
    /// An empty sink, whose calls with the listed numbers fail.
    pub fn new(alloc: Global, fails: Vec<u64>) -> MemorySink
        ensures { result ≡ record { taken = []; fails = fails.items; calls = 0; faults = 0; refused = 0 } }
    {
        MemorySink {
            bytes: Vec::new(alloc),
            fails,
            calls: 0,
            faults: 0,
            refused: 0,
        }
    }

    /// What was taken.
    pub fn as_slice(&self) -> &[u8]
        ensures { result.now ≡ self.now.taken }
    {
        &self.bytes
    }

    /// How many calls failed for want of memory.
    pub fn refused(&self) -> u64
        ensures { result ≡ self.now.refused }
    {
        self.refused
    }
}

impl Sink for MemorySink {
    ghost taken = { λ s. Some s.taken };

    ghost faults = { λ s. s.faults };

    fn write(&mut self, piece: &[u8]) -> Result<usize, Failed>
        ensures bound { WritesAtMost result piece.now }
        ensures progress { Progresses result piece.now }
        ensures bytes { Takes (Some self.old.taken) (Some self.new.taken) result piece.now }
        ensures tells { TellsAsBefore (Some self.old.taken) (Some self.new.taken) }
        ensures cause { HasCause self.old.faults self.new.faults result }
        ensures took { IfOk result (λ n. (n ≡ length piece.now) × (must_fail self.old.fails self.old.calls ≡ false) × (self.new ≡ after_write self.old piece.now)) }
        ensures failed { OnErr result (self.new ≡ (if must_fail self.old.fails self.old.calls then failed_write self.old else refused_write self.old)) }
    {
        let number = self.calls;
        self.calls = self.calls.saturating_add(1);
        if self.fails.contains(&number) {
            self.faults = self.faults.saturating_add(1);
            return Err(Failed);
        }
        match self.bytes.extend_from_slice(piece) {
            Ok(()) => Ok(piece.len()),
            Err(_) => {
                self.refused = self.refused.saturating_add(1);
                self.faults = self.faults.saturating_add(1);
                Err(Failed)
            }
        }
    }
}
