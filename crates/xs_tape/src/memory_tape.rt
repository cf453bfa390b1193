//! A tape in memory, for tests.
ghost use Rattle.std.specs.Prelude.{◌≡◌, ◌+◌, ◌^◌, ◌<◌, [], false, true, Some};
ghost use Rattle.xs_tape.specs.MemoryTape.{bytes_of, tape_bytes};

use crate::tape::{Tape, TapeFailed};
use std::alloc::Global;

/// A tape in memory that serves a number of calls, and fails at the next one. The call that fails writes nothing.
#[derive(Drop)]
pub struct MemoryTape {
    alloc: Global,
    closed: Vec<Vec<u8>>,
    bytes: Vec<u8>,
    kept: usize,
    calls_left: u64,
    broken: bool,
}

impl MemoryTape {
    /// An empty tape that serves `calls_left` calls.
    pub fn new(alloc: Global, calls_left: u64) -> Self
        ensures holds { ⟦<MemoryTape as Tape>⟧.holds result ≡ Some (record { closed = []; written = []; kept = 0 }) }
        ensures broken { ⟦<MemoryTape as Tape>⟧.broken result ≡ false }
    {
        Self {
            alloc,
            closed: Vec::new(alloc),
            bytes: Vec::new(alloc),
            kept: 0,
            calls_left,
            broken: false,
        }
    }

    /// The bytes of the closed files.
    pub fn closed(&self) -> &[Vec<u8>]
        ensures { bytes_of result.now ≡ (tape_bytes self.now).closed }
    {
        &self.closed
    }

    /// The bytes that were written to the last file.
    pub fn bytes(&self) -> &[u8]
        ensures { result.now ≡ (tape_bytes self.now).written }
    {
        &self.bytes
    }

    /// The number of the first of them that are kept.
    pub fn kept(&self) -> usize
        ensures { result ≡ (tape_bytes self.now).kept }
    {
        self.kept
    }

    /// Counts a call, or fails.
    fn takes_call(&mut self) -> bool
        ensures closed { self.new.closed ≡ self.old.closed }
        ensures bytes { self.new.bytes ≡ self.old.bytes }
        ensures kept { self.new.kept ≡ self.old.kept }
        ensures broken { result ≡ false → self.new.broken ≡ true }
        ensures sound { result ≡ true → self.new.broken ≡ self.old.broken }
    {
        if self.calls_left == 0 {
            self.broken = true;
            return false;
        }
        self.calls_left -= 1;
        true
    }
}

impl Tape for MemoryTape {
    ghost holds = { λ tape. Some (tape_bytes tape) };

    ghost broken = { λ tape. tape.broken };

    fn append(&mut self, bytes: &[u8]) -> Result<(), TapeFailed> {
        if !self.takes_call() {
            return Err(TapeFailed);
        }
        if self.bytes.extend_from_slice(bytes).is_err() {
            self.broken = true;
            return Err(TapeFailed);
        }
        Ok(())
    }

    fn sync(&mut self) -> Result<(), TapeFailed> {
        if !self.takes_call() {
            return Err(TapeFailed);
        }
        self.kept = self.bytes.len();
        Ok(())
    }

    fn begin_next(&mut self) -> Result<(), TapeFailed> {
        if !self.takes_call() {
            return Err(TapeFailed);
        }
        let Ok(bytes) = Vec::from_slice(self.alloc, &self.bytes) else {
            self.broken = true;
            return Err(TapeFailed);
        };
        if self.closed.push(bytes).is_err() {
            self.broken = true;
            return Err(TapeFailed);
        }
        self.bytes.clear();
        self.kept = 0;
        Ok(())
    }

    fn size(&self) -> u64 {
        self.bytes.len() as u64
    }
}
