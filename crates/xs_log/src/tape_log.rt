//! A log of events over the files of a tape.
ghost use Rattle.std.specs.Prelude.{◌≡◌, ◌∷◌, [], List, None, false, ◌||◌, codes, decimal, length, IfOk, is_err};
ghost use Rattle.xs_keys.specs.Event.{Event};
ghost use Rattle.xs_replay.specs.Log.{model_number};
ghost use Rattle.xs_log.specs.TapeLog.{HasLog, AwaitsHeader, MayBeLogs};

use crate::header::{FORMAT, MODEL_NUMBER, NAME};
use itoa::Buffer;
use std::alloc::{AllocError, Global};
use xs_bytes::Bytes;
use xs_replay::{EventLog, LogFailed};
use xs_stream::Moment;
use xs_tape::{LogWriter, Tape};

/// Logs on a tape, each a file of it. Events are noted in the last one.
#[derive(Drop)]
pub struct TapeLog<T: Tape + Drop> {
    alloc: Global,
    writer: LogWriter<T>,
    // The number of the last log.
    number: u64,
    // A log with at least this many bytes is closed, and the next one begun.
    full: u64,
    // Whether memory ran out for a header.
    failed: bool,
}

/// A number as a word, in decimal.
fn number_word(alloc: Global, number: u64) -> Result<Bytes, AllocError>
    ensures { IfOk result (λ word. word ≡ decimal number) }
{
    let mut buffer = Buffer::new();
    Bytes::from_slice(alloc, buffer.format(number).as_bytes())
}

/// The words of a header after the name and the checksum.
fn header_rest(alloc: Global, number: u64) -> Result<[Bytes; 3], AllocError>
    ensures { IfOk result (λ words. words
        ≡ codes "2" ∷ decimal number ∷ decimal model_number ∷ []) }
{
    let format = Bytes::from_slice(alloc, FORMAT)?;
    let log_number = number_word(alloc, number)?;
    let model = number_word(alloc, MODEL_NUMBER)?;
    Ok([format, log_number, model])
}

impl<T: Tape + Drop> TapeLog<T> {
    /// Puts the header of the last log, and keeps it.
    fn put_header(&mut self) -> Result<(), LogFailed>
        requires sound { (self.old.failed || self.old.writer.broken) ≡ false }
        ensures has { (events : List Event) → AwaitsHeader self.old.number self.old.writer events →
            HasLog (self.new.failed || self.new.writer.broken) self.new.number self.new.writer events
            (length events) }
        ensures unknown { self.old.writer.holds ≡ None → self.new.writer.holds ≡ None }
        ensures fault { (self.new.failed || self.new.writer.broken) ≡ is_err result }
    {
        let Ok(rest) = header_rest(self.alloc, self.number) else {
            self.failed = true;
            return Err(LogFailed);
        };
        match self.writer.push(NAME, &rest) {
            Ok(()) => {}
            Err(_) => return Err(LogFailed),
        }
        let kept = self.writer.commit();
        match kept {
            Ok(()) => Ok(()),
            Err(_) => Err(LogFailed),
        }
    }

    /// Closes the last log, all of whose events are kept, and begins the next one.
    fn begin_next(&mut self) -> Result<(), LogFailed>
        requires sound { (self.old.failed || self.old.writer.broken) ≡ false }
        ensures has { (events : List Event) →
            HasLog (self.old.failed || self.old.writer.broken) self.old.number self.old.writer events
            (length events) →
            HasLog (self.new.failed || self.new.writer.broken) self.new.number self.new.writer events
            (length events) }
        ensures unknown { self.old.writer.holds ≡ None → self.new.writer.holds ≡ None }
        ensures fault { (self.new.failed || self.new.writer.broken) ≡ is_err result }
    {
        let Some(number) = self.number.checked_add(1) else {
            self.failed = true;
            return Err(LogFailed);
        };
        match self.writer.begin_next() {
            Ok(()) => {}
            Err(_) => return Err(LogFailed),
        }
        self.number = number;
        self.put_header()
    }

    /// The logs on a tape, the last of which has this number. If it has no header yet, one is put and kept. A log that
    /// has at least `full` bytes is closed, and the next one begun.
    pub fn new(alloc: Global, tape: T, number: u64, full: u64) -> Result<Self, LogFailed>
        requires { T.broken tape ≡ false }
        ensures sound { IfOk result (λ log. ⟦<TapeLog<T> as EventLog>⟧.broken log ≡ false) }
        ensures has { IfOk result (λ log. (events : List Event) → MayBeLogs number (T.holds tape) events →
            ⟦<TapeLog<T> as EventLog>⟧.has log events (length events)) }
    {
        let Ok(writer) = LogWriter::new(alloc, tape) else {
            return Err(LogFailed);
        };
        let mut log = Self {
            alloc,
            writer,
            number,
            full,
            failed: false,
        };
        if log.writer.size() > 0 {
            return Ok(log);
        }
        log.put_header()?;
        Ok(log)
    }

    /// The tape.
    pub fn tape(&self) -> &T
        ensures { T.holds result.now ≡ self.now.writer.holds }
    {
        self.writer.tape()
    }
}

impl<T: Tape + Drop> EventLog for TapeLog<T> {
    ghost has = { λ log events kept. HasLog (log.failed || log.writer.broken) log.number log.writer events kept };

    ghost broken = { λ log. log.failed || log.writer.broken };

    fn note(&mut self, now: Moment, words: &[Bytes]) -> Result<(), LogFailed> {
        let mut buffer = Buffer::new();
        let moment = buffer.format(now.get()).as_bytes();
        match self.writer.push(moment, words) {
            Ok(()) => Ok(()),
            Err(_) => Err(LogFailed),
        }
    }

    fn keep(&mut self) -> Result<(), LogFailed> {
        match self.writer.commit() {
            Ok(()) => {}
            Err(_) => return Err(LogFailed),
        }
        if self.writer.size() < self.full {
            return Ok(());
        }
        self.begin_next()
    }
}
