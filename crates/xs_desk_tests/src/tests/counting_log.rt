//! A log that counts, and fails.
ghost use Rattle.std.specs.Prelude.{◌≡◌, true, false};

use std::sync::Arc;
use std::sync::atomic::{AtomicU64, Ordering};
use xs_bytes::Bytes;
use xs_replay::{EventLog, LogFailed};
use xs_stream::Moment;

/// The figures of a log, as a test sees them.
#[derive(Drop)]
pub struct Counts {
    pub noted: AtomicU64,
    pub kept: AtomicU64,
    pub calls_left: AtomicU64,
}

impl Counts {
    /// The number of events that were noted, and the number of those that are kept.
    pub fn seen(&self) -> (u64, u64) {
        (
            self.noted.load(Ordering::SeqCst),
            self.kept.load(Ordering::SeqCst),
        )
    }
}

/// A log that counts, and fails after a number of calls.
#[derive(Drop)]
pub struct CountingLog {
    pub counts: Arc<Counts>,
    pub broken: bool,
}

impl CountingLog {
    fn takes_call(&mut self) -> bool
        ensures sound { result ≡ true → self.new.broken ≡ self.old.broken }
        ensures broken { result ≡ false → self.new.broken ≡ true }
    {
        let left = self.counts.calls_left.load(Ordering::SeqCst);
        if left == 0 {
            self.broken = true;
            return false;
        }
        self.counts.calls_left.store(left - 1, Ordering::SeqCst);
        true
    }
}

impl EventLog for CountingLog {
    ghost has = { λ log events kept. Unit {0} };

    ghost broken = { λ log. log.broken };

    fn note(&mut self, _now: Moment, _words: &[Bytes]) -> Result<(), LogFailed> {
        if !self.takes_call() {
            return Err(LogFailed);
        }
        let noted = self.counts.noted.load(Ordering::SeqCst);
        self.counts
            .noted
            .store(noted.saturating_add(1), Ordering::SeqCst);
        Ok(())
    }

    fn keep(&mut self) -> Result<(), LogFailed> {
        if !self.takes_call() {
            return Err(LogFailed);
        }
        let noted = self.counts.noted.load(Ordering::SeqCst);
        self.counts.kept.store(noted, Ordering::SeqCst);
        Ok(())
    }
}
