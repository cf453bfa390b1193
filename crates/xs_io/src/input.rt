//! The bytes that were read and aren't used yet.
ghost use Rattle.std.specs.Prelude.{◌≡◌, ◌+◌, ◌≤◌, ◌++◌, [], true, length, take, drop, IfOk, OnOk, OnErr};
ghost use Rattle.xs_io.specs.Passing.{Consumes, Keeps, IsAtEnd};
ghost use Rattle.xs_io.specs.Device.{counter_at};

use crate::device::{Failed, Source};
use crate::fill::{Fill, FillFault};
use std::alloc::{AllocError, Global};
use std::marker::Model;

#[cfg(test)]
mod tests;

/// The most bytes of one read.
const READ_BYTES: usize = 65_536;

/// How many bytes of memory a buffer keeps after it has grown.
const KEPT: usize = 262_144;

/// The bytes that were read and aren't used yet, in the buffer that they were read into. A contract sees them as a
/// list.
#[derive(Debug, Drop)]
pub struct Input {
    // The bytes before `start` are used, those from `end` on are room.
    bytes: Vec<u8>,
    start: usize,
    end: usize,
}

impl Model for Input {
    ghost use Rattle.std.specs.Prelude.{ℕ, ◌≤◌, List, take, drop, length};

    ghost Value = { List ℕ };

    ghost view = { λ i. drop i.start (take i.end i.bytes.items) };

    ghost invariant = { λ i. (i.start ≤ i.end) × (i.end ≤ length i.bytes.items) };
}

impl Input {
    /// An empty buffer. It takes no memory.
    pub fn new(alloc: Global) -> Self
        ensures { result ≡ [] }
    {
        Self {
            bytes: Vec::new(alloc),
            start: 0,
            end: 0,
        }
    }

    /// An empty buffer, with memory for `capacity` bytes.
    pub fn with_capacity(alloc: Global, capacity: usize) -> Result<Self, AllocError>
        ensures { IfOk result (λ input. input ≡ []) }
    {
        Ok(Self {
            bytes: Vec::with_capacity(alloc, capacity)?,
            start: 0,
            end: 0,
        })
    }

    /// The bytes.
    pub fn bytes(&self) -> &[u8]
        ensures { result.now ≡ self.now }
    {
        &self.bytes[self.start..self.end]
    }

    /// Removes the first `count` bytes.
    pub fn consume(&mut self, count: usize)
        requires { count ≤ length self.old }
        ensures { self.new ≡ drop count self.old }
    {
        self.start += count;
    }

    /// Removes all bytes. The memory is kept, except what a large content needed.
    pub fn clear(&mut self)
        ensures { self.new ≡ [] }
    {
        self.start = 0;
        self.end = 0;
        self.bytes.truncate(KEPT);
        self.bytes.shrink_to(KEPT);
    }

    /// Moves the bytes to the front of the buffer if there is no room for a read behind them. Memory that isn't needed
    /// any more is given back.
    fn compact(&mut self)
        ensures { self.new ≡ self.old }
    {
        if self.start == self.end {
            self.clear();
            return;
        }
        if self.start == 0 {
            return;
        }
        if self.bytes.len() - self.end >= READ_BYTES {
            return;
        }
        let count = self.end - self.start;
        if count <= self.start && self.bytes.len() <= KEPT {
            copy_to_front(&mut self.bytes, self.start, count);
        } else {
            self.bytes.truncate(self.end);
            drop(self.bytes.drain(..self.start));
            self.bytes.shrink_to(KEPT);
        }
        self.start = 0;
        self.end = count;
    }
}

impl Fill for Input {
    ghost with_bytes = { λ input bytes. input ++ bytes };

    /// Reads bytes into the buffer. Bytes are copied only to make room.
    fn fill<R: Source>(&mut self, reader: &mut R) -> Result<usize, FillFault> {
        self.compact();
        let Ok(()) = make_room(&mut self.bytes, self.end) else {
            return Err(FillFault::Memory);
        };
        let Ok(count) = read_behind(&mut self.bytes, self.end, reader) else {
            return Err(FillFault::Read);
        };
        self.end += count;
        Ok(count)
    }
}

/// Copies `count` bytes from index `start` to the front, which they don't overlap.
fn copy_to_front(bytes: &mut Vec<u8>, start: usize, count: usize)
    requires apart { count ≤ start }
    requires within { start + count ≤ length bytes.old.items }
    ensures front { take count bytes.new.items ≡ take count (drop start bytes.old.items) }
    ensures len { length bytes.new.items ≡ length bytes.old.items }
{
    let (front, behind) = bytes.as_mut_slice().split_at_mut(start);
    let (room, _) = front.split_at_mut(count);
    room.copy_from_slice(&behind[..count]);
}

/// Makes room for a read behind an index.
fn make_room(bytes: &mut Vec<u8>, end: usize) -> Result<(), AllocError>
    requires { end ≤ length bytes.old.items }
    ensures room { OnOk result (end + 65536 ≤ length bytes.new.items) }
    ensures front { take end bytes.new.items ≡ take end bytes.old.items }
    ensures within { end ≤ length bytes.new.items }
{
    if bytes.len() - end >= READ_BYTES {
        return Ok(());
    }
    bytes.resize(end + READ_BYTES, 0)
}

/// Reads to behind an index, and returns the number of bytes.
fn read_behind<R: Source>(bytes: &mut Vec<u8>, end: usize, reader: &mut R) -> Result<usize, Failed>
    requires { end + 65536 ≤ length bytes.old.items }
    ensures bound { IfOk result (λ n. n ≤ 65536) }
    ensures front { take end bytes.new.items ≡ take end bytes.old.items }
    ensures len { length bytes.new.items ≡ length bytes.old.items }
    ensures bytes { IfOk result (λ n. Consumes (R.rest reader.old) (R.rest reader.new)
        (take n (drop end bytes.new.items))) }
    ensures end { IfOk result (λ n. n ≡ 0 → IsAtEnd (R.rest reader.new) × (R.ended reader.new ≡ true)) }
    ensures counted { R.calls reader.new ≡ counter_at (R.calls reader.old + 1) }
    ensures err { OnErr result ((R.broken reader.new ≡ true) × Keeps (R.rest reader.old) (R.rest reader.new)) }
{
    let (_, behind) = bytes.as_mut_slice().split_at_mut(end);
    let (room, _) = behind.split_at_mut(READ_BYTES);
    reader.read(room)
}
