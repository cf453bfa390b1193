//! When a log is synced, and by which thread.
use crate::names::log_path;
use std::alloc::{AllocError, Global};
use std::fs::{File, OpenOptions};
use std::rt::Files;
use std::sync::Arc;
use std::sync::atomic::{AtomicBool, AtomicU64, Ordering};

/// When a log is synced.
#[derive(Clone, Copy, Debug, PartialEq, Eq)]
pub enum SyncPolicy {
    /// Before the calls are answered: nothing that was answered is lost.
    Always,
    /// Each second, by a `Syncer`: what was answered in the last second or two may be lost if the machine stops.
    EachSecond,
    /// When the system does it, and when the next log is begun: what was answered in the last half minute or so may be
    /// lost if the machine stops.
    Never,
}

/// What a tape and its syncer share.
#[derive(Drop)]
pub struct Beside {
    // The number of the last log.
    number: AtomicU64,
    // Whether something was written since the last sync.
    was_written: AtomicBool,
    // Whether a sync has failed.
    failed: AtomicBool,
}

impl Beside {
    /// The last log has this number, and nothing was written to it.
    pub fn new(number: u64) -> Beside {
        Beside {
            number: AtomicU64::new(number),
            was_written: AtomicBool::new(false),
            failed: AtomicBool::new(false),
        }
    }

    /// Notes that the log with this number is the last one now.
    pub fn begins(&self, number: u64) {
        self.number.store(number, Ordering::SeqCst);
    }

    /// Notes that something was written to the last log.
    pub fn wrote(&self) {
        self.was_written.store(true, Ordering::SeqCst);
    }

    /// Whether a sync has failed.
    pub fn has_failed(&self) -> bool {
        self.failed.load(Ordering::SeqCst)
    }
}

/// Syncs the last log of a folder, beside the tape that writes to it.
#[derive(Drop)]
pub struct Syncer {
    alloc: Global,
    folder: String,
    beside: Arc<Beside>,
    // The last log, if it was synced before.
    opened: Option<OpenedLog>,
}

/// A log that is open.
#[derive(Drop)]
struct OpenedLog {
    number: u64,
    file: File,
}

impl Syncer {
    /// A syncer beside the tape of this folder.
    pub fn new(alloc: Global, folder: &str, beside: &Arc<Beside>) -> Result<Syncer, AllocError> {
        Ok(Syncer {
            alloc,
            folder: String::from_str(alloc, folder)?,
            beside: Arc::try_clone(beside)?,
            opened: None,
        })
    }

    /// Opens the log with this number, unless it is open. Returns whether it is open now.
    fn open<R: Files<File = File>>(&mut self, rt: &R, number: u64) -> bool {
        if let Some(opened) = &self.opened {
            if opened.number == number {
                return true;
            }
        }
        let Ok(path) = log_path(self.alloc, self.folder.as_str(), number) else {
            return false;
        };
        match OpenOptions::new().append(true).open(rt, path.as_str()) {
            Ok(file) => {
                self.opened = Some(OpenedLog { number, file });
                true
            }
            Err(_) => false,
        }
    }

    /// Has the system keep what was written since the last call, if anything was. If that fails, the tape fails at its
    /// next call. If the log can't be opened now, the next call tries again.
    pub fn sync<R: Files<File = File>>(&mut self, rt: &R) {
        if !self.beside.was_written.swap(false, Ordering::SeqCst) {
            return;
        }
        // The logs before the last one were synced when they were closed.
        let number = self.beside.number.load(Ordering::SeqCst);
        if !self.open(rt, number) {
            self.beside.wrote();
            return;
        }
        if let Some(opened) = &self.opened {
            if opened.file.sync_data().is_err() {
                self.beside.failed.store(true, Ordering::SeqCst);
            }
        }
    }
}
