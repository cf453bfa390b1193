//! Replies as values.
ghost use Rattle.std.specs.Prelude.{◌≡◌, ◌==◌};

use crate::fault::Fault;
use crate::tokens::Tokens;
use std::marker::Model;
use xs_bytes::{Bytes, U63};

/// A simple string.
#[derive(Clone, Copy, Debug, PartialEq, Eq)]
pub enum Simple {
    /// `OK`
    Okay,
    /// `PONG`
    Pong,
    /// `stream`, the type of a key that exists.
    Stream,
    /// `none`, the type of a key that doesn't.
    Nothing,
    /// `RESET`, for a connection that is like new.
    Reset,
    /// `QUEUED`, for a command that waits for EXEC.
    Queued,
}

/// The reply to a request.
#[derive(Debug, Drop)]
pub enum Reply {
    /// A simple string.
    Simple(Simple),
    /// An error.
    Error(Fault),
    /// An error with a text of its own, which has no line end.
    ErrorText(Bytes),
    /// An integer. RESP2's are signed numbers of 64 bits; none here is negative.
    Int(U63),
    /// A bulk string.
    Bulk(Bytes),
    /// The null bulk string.
    NullBulk,
    /// An array.
    Array(Replies),
    /// The header of an array of this many items, which are the replies after it.
    Opening(usize),
    /// The null array.
    NullArray,
}

/// The items of an array: their number, and their tokens in order. An item that is an array is its header and the tokens
/// of its own items, so a reply of many small arrays is one list in memory. The tokens are always this many items, each
/// of them complete.
#[derive(Debug, Drop)]
pub struct Replies {
    count: usize,
    tokens: Tokens,
}

impl Model for Replies {
    ghost use Rattle.xs_resp.specs.Items.{Items};
    ghost use Rattle.xs_resp.specs.Whole.{AreItems};

    ghost Value = { Items };

    ghost view = { λ b. record { count = b.count; tokens = b.tokens } };

    ghost invariant = { λ b. AreItems b.count b.tokens };
}

impl Replies {
    ghost use Rattle.std.specs.Prelude.{◌≡◌};
    ghost use Rattle.xs_resp.specs.Whole.{AreItems};

    /// The items with these tokens; `count` is their number. It takes no memory.
    pub fn new(count: usize, tokens: Tokens) -> Self
        requires { AreItems count tokens }
        ensures { result ≡ record { count = count; tokens = tokens } }
    {
        Self { count, tokens }
    }

    /// The number of items.
    pub fn count(&self) -> usize
        ensures value { result ≡ self.now.count }
        ensures whole { AreItems self.now.count self.now.tokens }
    {
        self.count
    }

    /// The tokens of the items, in order.
    pub fn tokens(&self) -> &Tokens
        ensures { result.now ≡ self.now.tokens }
    {
        &self.tokens
    }
}
