//! A writer that takes a few bytes at a time.
use std::alloc::{AllocError, Global};
use std::io::{self, ErrorKind, Write};
use std::sync::Arc;
use std::sync::atomic::{AtomicU64, Ordering};

/// Takes at most `size` bytes at a time and counts them. At its call `fails_at`, counted from 1, it fails: by an error,
/// or by taking none.
#[derive(Drop)]
pub struct Sips {
    pub bytes: Vec<u8>,
    pub size: usize,
    pub fails_at: u64,
    pub stops: bool,
    pub counted: Arc<AtomicU64>,
    calls: u64,
}

impl Sips {
    /// A writer that doesn't fail.
    pub fn new(alloc: Global, size: usize) -> Result<Self, AllocError> {
        Ok(Self {
            bytes: Vec::new(alloc),
            size,
            fails_at: 0,
            stops: false,
            counted: Arc::new(alloc, AtomicU64::new(0))?,
            calls: 0,
        })
    }
}

impl Write for Sips {
    fn write(&mut self, from: &[u8]) -> io::Result<usize> {
        if from.is_empty() {
            return Ok(0);
        }
        self.calls = self.calls.saturating_add(1);
        if self.calls == self.fails_at {
            return if self.stops {
                Ok(0)
            } else {
                Err(io::Error::from(ErrorKind::Other))
            };
        }
        let count = self.size.min(from.len());
        self.bytes.extend_from_slice(&from[..count])?;
        self.counted.fetch_add(count as u64, Ordering::SeqCst);
        Ok(count)
    }

    fn flush(&mut self) -> io::Result<()> {
        Ok(())
    }
}
