//! Bytes that are being written to a tape. Only making a writer takes memory.
ghost use Rattle.std.specs.Prelude.{◌≡◌, ◌≢◌, ◌+◌, ◌<◌, ◌≤◌, ◌++◌, ◌∷◌, [], ℕ, List, false, length};
ghost use Rattle.std.specs.Prelude.{IfOk, IfSome, OnOk, is_err};
ghost use Rattle.xs_tape.specs.Crash.{HasNoZero};
ghost use Rattle.xs_tape.specs.Tape.{AllKept};
ghost use Rattle.xs_tape.specs.Writing.{Has, Puts, Keeps, Closes};

use crate::tape::{Tape, TapeFailed};
use std::alloc::{AllocError, Global};
use std::marker::Model;

/// The most bytes that are gathered before they are written.
const GATHERED: usize = 65_536;

/// A tape, and the bytes that are still to be appended to it.
#[derive(Drop)]
pub struct LogWriter<T: Tape + Drop> {
    tape: T,
    pending: Vec<u8>,
    // Nothing was written since the last sync.
    is_synced: bool,
}

impl<T: Tape + Drop> Model for LogWriter<T> {
    ghost use Rattle.std.specs.Prelude.{◌≡◌, ◌≤◌, length, vec_capacity};
    ghost use Rattle.xs_tape.specs.Crash.{HasNoZero};
    ghost use Rattle.xs_tape.specs.Writing.{Writing, IsSynced};

    ghost Value = { Writing };

    ghost view = { λ w. record { broken = T.broken w.tape; holds = T.holds w.tape; pending = w.pending.items } };

    ghost invariant = { λ w. (65536 ≤ vec_capacity w.pending) × (length w.pending.items ≤ 65536)
        × HasNoZero w.pending.items × IsSynced w.is_synced (T.holds w.tape) };
}

impl<T: Tape + Drop> LogWriter<T> {
    /// A writer for a tape, with nothing pending. This is the only call that takes memory.
    pub fn new(alloc: Global, tape: T) -> Result<Self, AllocError>
        ensures { IfOk result (λ writer. writer
            ≡ record { broken = T.broken tape; holds = T.holds tape; pending = [] }) }
    {
        Ok(Self {
            tape,
            pending: Vec::with_capacity(alloc, GATHERED)?,
            is_synced: false,
        })
    }

    /// The tape.
    pub fn tape(&self) -> &T
        ensures holds { T.holds result.now ≡ self.now.holds }
        ensures broken { T.broken result.now ≡ self.now.broken }
    {
        &self.tape
    }

    /// Returns the tape, and drops what is pending.
    pub fn into_tape(self) -> T
        ensures holds { T.holds result ≡ self.holds }
        ensures broken { T.broken result ≡ self.broken }
    {
        self.tape
    }

    /// The number of bytes of the last file of the tape.
    pub fn size(&self) -> u64
        ensures { IfSome self.now.holds (λ tape. result ≡ length tape.written) }
    {
        self.tape.size()
    }

    /// Writes what is pending.
    fn flush(&mut self) -> Result<(), TapeFailed>
        requires sound { self.old.broken ≡ false }
        ensures puts { Puts self.old self.new [] }
        ensures pending { OnOk result (self.new.pending ≡ []) }
        ensures fault { self.new.broken ≡ is_err result }
    {
        self.is_synced = false;
        self.tape.append(&self.pending)?;
        self.pending.clear();
        Ok(())
    }

    /// Makes room for `size` bytes after those that are pending.
    #[inline(always)]
    pub(crate) fn make_room(&mut self, size: usize) -> Result<(), TapeFailed>
        requires sound { self.old.broken ≡ false }
        requires small { size ≤ 65536 }
        ensures puts { Puts self.old self.new [] }
        ensures room { OnOk result (length self.new.pending + size ≤ 65536) }
        ensures fault { self.new.broken ≡ is_err result }
    {
        if size <= GATHERED - self.pending.len() {
            return Ok(());
        }
        self.flush()
    }

    /// Gathers bytes. There has to be room.
    pub(crate) fn gather(&mut self, bytes: &[u8])
        requires room { length self.old.pending + length bytes.now ≤ 65536 }
        requires bytes { HasNoZero bytes.now }
        requires sound { self.old.broken ≡ false }
        ensures puts { Puts self.old self.new bytes.now }
        ensures more { length self.new.pending ≡ length self.old.pending + length bytes.now }
        ensures sound { self.new.broken ≡ false }
    {
        let _ = self.pending.extend_from_slice(bytes);
    }

    /// Gathers a byte. There has to be room.
    #[inline(always)]
    pub(crate) fn gather_byte(&mut self, byte: u8)
        requires room { length self.old.pending < 65536 }
        requires byte { byte ≢ 0 }
        requires sound { self.old.broken ≡ false }
        ensures puts { Puts self.old self.new (byte ∷ []) }
        ensures more { length self.new.pending ≡ length self.old.pending + 1 }
        ensures sound { self.new.broken ≡ false }
    {
        self.pending.push_reserved(byte);
    }

    /// Writes what is pending, and then these bytes.
    fn put_long(&mut self, bytes: &[u8]) -> Result<(), TapeFailed>
        requires sound { self.old.broken ≡ false }
        requires bytes { HasNoZero bytes.now }
        ensures puts { Puts self.old self.new bytes.now }
        ensures fault { self.new.broken ≡ is_err result }
    {
        self.flush()?;
        self.is_synced = false;
        self.tape.append(bytes)
    }

    /// Puts bytes after the others.
    pub(crate) fn put(&mut self, bytes: &[u8]) -> Result<(), TapeFailed>
        requires sound { self.old.broken ≡ false }
        requires bytes { HasNoZero bytes.now }
        ensures puts { Puts self.old self.new bytes.now }
        ensures fault { self.new.broken ≡ is_err result }
    {
        if bytes.len() > GATHERED {
            return self.put_long(bytes);
        }
        self.make_room(bytes.len())?;
        self.gather(bytes);
        Ok(())
    }

    /// Writes what is pending, if there is anything.
    fn write_all(&mut self) -> Result<(), TapeFailed>
        requires sound { self.old.broken ≡ false }
        ensures puts { Puts self.old self.new [] }
        ensures pending { OnOk result (self.new.pending ≡ []) }
        ensures fault { self.new.broken ≡ is_err result }
    {
        if self.pending.is_empty() {
            return Ok(());
        }
        self.flush()
    }

    /// Has the tape keep what was written, unless it is kept already.
    fn keep_all(&mut self) -> Result<(), TapeFailed>
        requires sound { self.old.broken ≡ false }
        requires pending { self.old.pending ≡ [] }
        ensures keeps { (closed : List (List ℕ)) (text : List ℕ) (sure : ℕ) → Has self.old closed text sure →
            Keeps result self.new closed text sure }
        ensures pending { self.new.pending ≡ [] }
        ensures kept { OnOk result (AllKept self.new.holds) }
        ensures fault { self.new.broken ≡ is_err result }
    {
        if self.is_synced {
            return Ok(());
        }
        self.tape.sync()?;
        self.is_synced = true;
        Ok(())
    }

    /// Writes what is pending, and has the tape keep all. If there is nothing to write or to keep, it does nothing.
    pub fn commit(&mut self) -> Result<(), TapeFailed>
        requires sound { self.old.broken ≡ false }
        ensures keeps { (closed : List (List ℕ)) (text : List ℕ) (sure : ℕ) → Has self.old closed text sure →
            Keeps result self.new closed text sure }
        ensures pending { OnOk result (self.new.pending ≡ []) }
        ensures kept { OnOk result (AllKept self.new.holds) }
        ensures fault { self.new.broken ≡ is_err result }
    {
        self.write_all()?;
        self.keep_all()
    }

    /// Begins the next file, after those that are kept.
    fn begin_file(&mut self) -> Result<(), TapeFailed>
        requires sound { self.old.broken ≡ false }
        requires pending { self.old.pending ≡ [] }
        requires kept { AllKept self.old.holds }
        ensures closes { (closed : List (List ℕ)) (text : List ℕ) → Has self.old closed text (length text) →
            Closes result self.new closed text }
        ensures pending { self.new.pending ≡ [] }
        ensures fault { self.new.broken ≡ is_err result }
    {
        self.is_synced = false;
        self.tape.begin_next()
    }

    /// Keeps all, closes the last file, and begins the next one.
    pub fn begin_next(&mut self) -> Result<(), TapeFailed>
        requires sound { self.old.broken ≡ false }
        ensures closes { (closed : List (List ℕ)) (text : List ℕ) → Has self.old closed text (length text) →
            Closes result self.new closed text }
        ensures pending { OnOk result (self.new.pending ≡ []) }
        ensures fault { self.new.broken ≡ is_err result }
    {
        self.commit()?;
        self.begin_file()
    }
}
