//! The state of the compactions of a folder.
use crate::compaction::Compaction;
use crate::fault::FolderFault;
use std::sync::atomic::{AtomicBool, AtomicU64, Ordering};

/// The state of the compactions of a folder. The thread that compacts the folder writes it, and any thread may read it.
#[derive(Drop)]
pub struct CompactionState {
    is_running: AtomicBool,
    // Whether the last compaction has failed.
    has_failed: AtomicBool,
    // Whether the folder couldn't be listed.
    is_unlisted: AtomicBool,
    snapshot: AtomicU64,
}

impl CompactionState {
    /// The state before any compaction, with no snapshot read.
    pub fn new() -> CompactionState {
        CompactionState {
            is_running: AtomicBool::new(false),
            has_failed: AtomicBool::new(false),
            is_unlisted: AtomicBool::new(false),
            snapshot: AtomicU64::new(0),
        }
    }

    /// Notes that the snapshot with this number was read; 0 for none.
    pub fn reads(&self, number: u64) {
        self.snapshot.store(number, Ordering::SeqCst);
    }

    /// Notes that a compaction begins.
    pub(crate) fn begins(&self) {
        self.is_running.store(true, Ordering::SeqCst);
    }

    /// Notes the result of a compaction; None if there was nothing to do.
    pub(crate) fn ends(&self, done: &Result<Option<Compaction>, FolderFault>) {
        if let Ok(Some(made)) = done {
            self.snapshot.store(made.number, Ordering::SeqCst);
        }
        self.has_failed.store(done.is_err(), Ordering::SeqCst);
        self.is_running.store(false, Ordering::SeqCst);
    }

    /// Notes whether the folder could be listed. Returns whether it couldn't be before.
    pub(crate) fn lists(&self, is_listed: bool) -> bool {
        self.is_unlisted.swap(!is_listed, Ordering::SeqCst)
    }

    /// Whether a compaction runs.
    pub fn is_running(&self) -> bool {
        self.is_running.load(Ordering::SeqCst)
    }

    /// Whether the last compaction has failed, or the folder can't be listed to see if one is due.
    pub fn has_failed(&self) -> bool {
        self.has_failed.load(Ordering::SeqCst) || self.is_unlisted.load(Ordering::SeqCst)
    }

    /// The number of the last snapshot that was read or made; 0 if there is none.
    pub fn snapshot(&self) -> u64 {
        self.snapshot.load(Ordering::SeqCst)
    }
}
