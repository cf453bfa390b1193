//! Tokens without their strings.
ghost use Rattle.std.specs.Prelude.{◌≡◌};
ghost use Rattle.xs_resp.specs.Marks.{string_length};

use crate::fault::Fault;
use crate::reply::Simple;

/// A token without its string, which is stored elsewhere.
#[derive(Clone, Copy, Debug)]
pub(crate) enum Mark {
    /// A simple string.
    Simple(Simple),
    /// An error.
    Error(Fault),
    /// An error whose text has this many bytes.
    ErrorText(usize),
    /// An integer.
    Int(u64),
    /// A bulk string of this many bytes.
    Bulk(usize),
    /// The null bulk string.
    NullBulk,
    /// The header of an array of this many items.
    Array(usize),
    /// The null array.
    NullArray,
}

impl Mark {
    /// The number of bytes of its string.
    pub(crate) fn string_length(self) -> usize
        ensures { result ≡ string_length self }
    {
        match self {
            Mark::ErrorText(length) | Mark::Bulk(length) => length,
            _ => 0,
        }
    }
}
