//! A reader that gives a few bytes at a time.
use std::io::{self, ErrorKind, Read};

/// Gives at most `size` bytes at a time, and fails at its call `fails_at`, counted from 1.
#[derive(Drop)]
pub struct Pieces<'a> {
    pub bytes: &'a [u8],
    pub size: usize,
    pub fails_at: u64,
    calls: u64,
}

impl<'a> Pieces<'a> {
    /// A reader that doesn't fail.
    pub fn new(bytes: &'a [u8], size: usize) -> Self {
        Self::failing(bytes, size, 0)
    }

    pub fn failing(bytes: &'a [u8], size: usize, fails_at: u64) -> Self {
        Self {
            bytes,
            size,
            fails_at,
            calls: 0,
        }
    }
}

impl<'a> Read for Pieces<'a> {
    fn read(&mut self, into: &mut [u8]) -> io::Result<usize> {
        self.calls = self.calls.saturating_add(1);
        if self.calls == self.fails_at {
            return Err(io::Error::from(ErrorKind::Other));
        }
        let count = self.size.min(into.len()).min(self.bytes.len());
        let (piece, rest) = self.bytes.split_at(count);
        into[..count].copy_from_slice(piece);
        self.bytes = rest;
        Ok(count)
    }
}
