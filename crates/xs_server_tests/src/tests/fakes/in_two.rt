//! A reader that waits in the middle.
use std::io::{self, ErrorKind, Read};
use std::sync::Arc;
use std::sync::atomic::{AtomicU64, Ordering};
use std::thread;

/// Gives some bytes, and then, once `counted` is at least `wants`, others and its end. It fails if `counted` stays
/// below that for a number of looks, between which it yields its processor.
#[derive(Drop)]
pub struct InTwo<'a> {
    pub first: &'a [u8],
    pub others: &'a [u8],
    pub wants: u64,
    pub counted: Arc<AtomicU64>,
    pub looks: u64,
}

impl<'a> InTwo<'a> {
    fn has_come(&self) -> bool {
        for _ in 0..self.looks {
            if self.counted.load(Ordering::SeqCst) >= self.wants {
                return true;
            }
            thread::yield_now();
        }
        false
    }
}

impl<'a> Read for InTwo<'a> {
    fn read(&mut self, into: &mut [u8]) -> io::Result<usize> {
        if self.first.is_empty() {
            if !self.has_come() {
                return Err(io::Error::from(ErrorKind::TimedOut));
            }
            self.first = self.others;
            self.others = b"";
        }
        let count = self.first.len().min(into.len());
        let (given, left) = self.first.split_at(count);
        into[..count].copy_from_slice(given);
        self.first = left;
        Ok(count)
    }
}
