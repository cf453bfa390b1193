//! Readers and writers, and what contracts see of them: the bytes that have passed, the bytes that are known, the
//! number of calls that have returned, whether one has failed, and whether the end was reached.
ghost use Rattle.std.specs.Prelude.{◌≡◌, ℕ, ◌+◌, ◌≤◌, Bool, false, ◌||◌, List, Option, IfOk, length, is_err};
ghost use Rattle.xs_io.specs.Passing.{Passing, at_first, ReadConsumes, WriteAppends};
ghost use Rattle.xs_io.specs.Device.{counter_at, is_end, is_failure};

use std::io::{Read, Write};
use xs_trace::Trace;

/// A read or a write failed. It carries no cause.
#[derive(Clone, Copy, Debug, PartialEq, Eq)]
pub struct Failed;

/// A reader of bytes.
pub trait Source {
    /// The bytes that it has given, and those that are left, if they are known.
    ghost rest: { Self → Passing };

    /// The number of calls that have returned. The count stops at the greatest 64-bit number.
    ghost calls: { Self → ℕ };

    /// A call has returned an error.
    ghost broken: { Self → Bool };

    /// Its end was reached: it gave no byte though there was room.
    ghost ended: { Self → Bool };

    /// Reads some bytes into the front of a slice, and returns their number.
    fn read(&mut self, into: &mut [u8]) -> Result<usize, Failed>
        ensures bound { IfOk result (λ n. n ≤ length into.new) }
        ensures bytes { ReadConsumes (rest self.old) (rest self.new) result into.new }
        ensures counted { calls self.new ≡ counter_at (calls self.old + 1) }
        ensures fault { broken self.new ≡ (broken self.old || is_err result) }
        ensures end { ended self.new ≡ (ended self.old || is_end result into.old) };
}

/// A writer of bytes.
pub trait Sink {
    /// The bytes that it has taken, and those that it holds, if they are known.
    ghost held: { Self → Passing };

    /// The number of calls that have returned. The count stops at the greatest 64-bit number.
    ghost calls: { Self → ℕ };

    /// A call has returned an error, or has taken no byte of a slice that isn't empty.
    ghost broken: { Self → Bool };

    /// Takes some bytes from the front of a slice, and returns their number.
    fn write(&mut self, from: &[u8]) -> Result<usize, Failed>
        ensures bound { IfOk result (λ n. n ≤ length from.now) }
        ensures bytes { WriteAppends (held self.old) (held self.new) result from.now }
        ensures counted { calls self.new ≡ counter_at (calls self.old + 1) }
        ensures fault { broken self.new ≡ (broken self.old || is_failure result from.now) };
}

/// A reader made of one of `std`.
#[derive(Drop)]
pub struct FromRead<R: Read + Drop> {
    inner: R,
    passed: Trace<u8>,
    calls: u64,
    broken: bool,
    ended: bool,
}

impl<R: Read + Drop> FromRead<R> {
    /// The reader, before its first call. It takes no memory.
    pub fn new(inner: R) -> Self
        ensures rest { ⟦<FromRead<R> as Source>⟧.rest result ≡ at_first (R.remaining inner) }
        ensures calls { ⟦<FromRead<R> as Source>⟧.calls result ≡ 0 }
        ensures broken { ⟦<FromRead<R> as Source>⟧.broken result ≡ false }
        ensures ended { ⟦<FromRead<R> as Source>⟧.ended result ≡ false }
    {
        Self {
            inner,
            passed: Trace::new(),
            calls: 0,
            broken: false,
            ended: false,
        }
    }
}

impl<R: Read + Drop> Source for FromRead<R> {
    ghost rest = { λ s. record { known = R.remaining s.inner; passed = s.passed } };

    ghost calls = { λ s. s.calls };

    ghost broken = { λ s. s.broken };

    ghost ended = { λ s. s.ended };

    fn read(&mut self, into: &mut [u8]) -> Result<usize, Failed> {
        self.calls = self.calls.saturating_add(1);
        let room = !into.is_empty();
        match self.inner.read(into) {
            Ok(count) => {
                if count == 0 && room {
                    self.ended = true;
                }
                self.passed.add_all(&into[..count]);
                Ok(count)
            }
            Err(_) => {
                self.broken = true;
                Err(Failed)
            }
        }
    }
}

/// A writer made of one of `std`.
#[derive(Drop)]
pub struct ToWrite<W: Write + Drop> {
    inner: W,
    passed: Trace<u8>,
    calls: u64,
    broken: bool,
}

impl<W: Write + Drop> ToWrite<W> {
    /// The writer, before its first call. It takes no memory.
    pub fn new(inner: W) -> Self
        ensures held { ⟦<ToWrite<W> as Sink>⟧.held result ≡ at_first (W.contents inner) }
        ensures calls { ⟦<ToWrite<W> as Sink>⟧.calls result ≡ 0 }
        ensures broken { ⟦<ToWrite<W> as Sink>⟧.broken result ≡ false }
    {
        Self {
            inner,
            passed: Trace::new(),
            calls: 0,
            broken: false,
        }
    }

    /// Returns the writer.
    pub fn into_inner(self) -> W
        ensures { W.contents result ≡ (⟦<ToWrite<W> as Sink>⟧.held self).known }
    {
        let Self { inner, .. } = self;
        inner
    }
}

impl<W: Write + Drop> Sink for ToWrite<W> {
    ghost held = { λ s. record { known = W.contents s.inner; passed = s.passed } };

    ghost calls = { λ s. s.calls };

    ghost broken = { λ s. s.broken };

    fn write(&mut self, from: &[u8]) -> Result<usize, Failed> {
        self.calls = self.calls.saturating_add(1);
        match self.inner.write(from) {
            Ok(count) => {
                if count == 0 && !from.is_empty() {
                    self.broken = true;
                }
                self.passed.add_all(&from[..count]);
                Ok(count)
            }
            Err(_) => {
                self.broken = true;
                Err(Failed)
            }
        }
    }
}
