//! A writer that counts complete texts.
use std::io::{self, ErrorKind, Write};
use std::sync::Arc;
use std::sync::atomic::{AtomicU64, Ordering};

/// Counts how often this text was written completely, again and again. Any other byte makes the count wrong for good.
/// It may fail at each call.
#[derive(Drop)]
pub struct Tally {
    text: &'static [u8],
    fails: bool,
    counted: Arc<AtomicU64>,
    at: usize,
    spoiled: bool,
}

impl Tally {
    pub fn new(text: &'static [u8], fails: bool, counted: Arc<AtomicU64>) -> Self {
        Self {
            text,
            fails,
            counted,
            at: 0,
            spoiled: false,
        }
    }

    fn take(&mut self, byte: u8) {
        if self.spoiled || self.text.get(self.at) != Some(&byte) {
            self.spoiled = true;
            return;
        }
        self.at = self.at.saturating_add(1);
        if self.at == self.text.len() {
            self.at = 0;
            self.counted.fetch_add(1, Ordering::SeqCst);
        }
    }
}

impl Write for Tally {
    fn write(&mut self, from: &[u8]) -> io::Result<usize> {
        if self.fails {
            return Err(io::Error::from(ErrorKind::Other));
        }
        for byte in from {
            self.take(*byte);
        }
        Ok(from.len())
    }

    fn flush(&mut self) -> io::Result<()> {
        Ok(())
    }
}
