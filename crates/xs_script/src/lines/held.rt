//! The bytes of a script that were read and aren't taken yet.
ghost use Rattle.std.specs.Prelude.{◌≡◌, ◌+◌, ◌<◌, ◌≤◌, ◌++◌, ◌∷◌, [], false, length, take, drop, MatchOption};
ghost use Rattle.std.specs.List.{list_any};
ghost use Rattle.xs_script.specs.Line.{is_line_end};

use memchr::memchr;
use std::alloc::Global;
use std::marker::Model;
use xs_io::{Fill, FillFault, Input, Source};

/// Bytes that were read and aren't taken yet. A contract sees them as a list.
#[derive(Drop)]
pub struct HeldBytes {
    input: Input,
    // No line ends before this index, so no byte is searched twice for a line end.
    searched: usize,
}

impl Model for HeldBytes {
    ghost use Rattle.std.specs.Prelude.{ℕ, ◌≡◌, ◌≤◌, false, List, take, length};
    ghost use Rattle.std.specs.List.{list_any};
    ghost use Rattle.xs_script.specs.Line.{is_line_end};

    ghost Value = { List ℕ };

    ghost view = { λ h. h.input };

    ghost invariant = { λ h. (h.searched ≤ length h.input) × (list_any is_line_end (take h.searched h.input) ≡ false) };
}

/// The end of the first line of some bytes, without its LF. None if no line ends.
fn first_line_end(bytes: &[u8]) -> Option<usize>
    ensures { MatchOption result (list_any is_line_end bytes.now ≡ false)
        (λ at. (at < length bytes.now) × (list_any is_line_end (take at bytes.now) ≡ false)
        × (bytes.now ≡ take at bytes.now ++ 10 ∷ drop (at + 1) bytes.now)) }
{
    memchr(b'\n', bytes)
}

impl HeldBytes {
    /// No bytes. It takes no memory.
    pub fn new(alloc: Global) -> Self
        ensures { result ≡ [] }
    {
        Self {
            input: Input::new(alloc),
            searched: 0,
        }
    }

    /// The bytes.
    pub fn bytes(&self) -> &[u8]
        ensures { result.now ≡ self.now }
    {
        self.input.bytes()
    }

    /// The end of the first line, without its LF. None if no line ends.
    pub fn line_end(&mut self) -> Option<usize>
        ensures found { MatchOption result (list_any is_line_end self.new ≡ false)
            (λ at. (at < length self.new) × (list_any is_line_end (take at self.new) ≡ false)
            × (self.new ≡ take at self.new ++ 10 ∷ drop (at + 1) self.new)) }
        ensures same { self.new ≡ self.old }
    {
        let (_, rest) = self.bytes().split_at(self.searched);
        match first_line_end(rest) {
            Some(at) => Some(self.searched + at),
            None => {
                self.searched = self.bytes().len();
                None
            }
        }
    }

    /// Removes the first `count` bytes.
    pub fn consume(&mut self, count: usize)
        requires { count ≤ length self.old }
        ensures { self.new ≡ drop count self.old }
    {
        self.input.consume(count);
        self.searched = 0;
    }
}

impl Fill for HeldBytes {
    ghost with_bytes = { λ held bytes. held ++ bytes };

    fn fill<R: Source>(&mut self, reader: &mut R) -> Result<usize, FillFault> {
        self.input.fill(reader)
    }
}
