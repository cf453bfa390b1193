//! A few bytes that lie in the value itself.
ghost use Rattle.std.specs.Prelude.{◌≡◌, ◌≤◌, ◌+◌, [], ◌++◌, length};

use std::marker::Model;

/// The most bytes that fit.
pub const INLINE_BYTES: usize = 30;

/// At most 30 bytes. They take no memory of their own.
#[derive(Drop)]
pub struct Short {
    room: [u8; INLINE_BYTES],
    len: u8,
}

impl Model for Short {
    ghost use Rattle.std.specs.Prelude.{◌≡◌, ◌≤◌, List, ℕ, length, take};

    ghost Value = { List ℕ };

    ghost view = { λ s. take s.len s.room };

    ghost invariant = { λ s. s.len ≤ 30 };
}

impl Short {
    /// No bytes.
    pub fn new() -> Self
        ensures { result ≡ [] }
    {
        Self {
            room: [0; INLINE_BYTES],
            len: 0,
        }
    }

    /// The bytes.
    pub fn as_slice(&self) -> &[u8]
        ensures value { result.now ≡ self.now }
        ensures fits { length self.now ≤ 30 }
    {
        &self.room[..usize::from(self.len)]
    }

    /// Appends bytes that fit.
    pub fn extend_from_slice(&mut self, more: &[u8])
        requires { length self.old + length more.now ≤ 30 }
        ensures { self.new ≡ self.old ++ more.now }
    {
        let start = usize::from(self.len);
        let end = start + more.len();
        self.room[start..end].copy_from_slice(more);
        self.len = end as u8;
    }
}
