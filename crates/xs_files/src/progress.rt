//! How far the logs of a folder are read.
use std::sync::atomic::{AtomicU64, Ordering};

/// The number of bytes of the logs of a folder that were read. Another thread may read it meanwhile.
#[derive(Drop)]
pub struct Progress {
    bytes: AtomicU64,
}

impl Progress {
    /// Nothing is read yet.
    pub fn new() -> Progress {
        Progress {
            bytes: AtomicU64::new(0),
        }
    }

    /// Adds to the number of bytes that were read.
    pub(crate) fn add(&self, count: usize) {
        self.bytes.fetch_add(count as u64, Ordering::SeqCst);
    }

    /// The number of bytes that were read.
    pub fn bytes(&self) -> u64 {
        self.bytes.load(Ordering::SeqCst)
    }
}
