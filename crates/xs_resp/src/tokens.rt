//! Tokens in order, from which replies are written.
ghost use Rattle.std.specs.Prelude.{◌≡◌, [], ◌∷◌, ◌++◌, length, IfOk, OnOk, OnErr};
ghost use Rattle.xs_resp.specs.Token as token;
ghost use Rattle.xs_resp.specs.Marks.{token_in, tokens_in, string_length, strings_length};

use crate::mark::Mark;
use std::alloc::{AllocError, Global};
use std::marker::Model;
use xs_bytes::U63;

/// The room for the string of a token, in bytes.
const STRING_ROOM: usize = 16;

/// A list of tokens. A token is a complete reply that isn't an array, or the header of an array, whose items follow it.
/// The strings of all tokens are in one buffer, one after the other.
#[derive(Debug, Drop)]
pub struct Tokens {
    marks: Vec<Mark>,
    strings: Vec<u8>,
}

impl Model for Tokens {
    ghost use Rattle.std.specs.Prelude.{◌≡◌, List, length};
    ghost use Rattle.xs_resp.specs.Token.{Token};
    ghost use Rattle.xs_resp.specs.Marks.{tokens_in, strings_length};

    ghost Value = { List Token };

    ghost view = { λ t. tokens_in t.marks.items t.strings.items };

    ghost invariant = { λ t. strings_length t.marks.items ≡ length t.strings.items };
}

impl Tokens {
    /// No tokens. It takes no memory.
    pub fn new(alloc: Global) -> Self
        ensures { result ≡ [] }
    {
        Self {
            marks: Vec::new(alloc),
            strings: Vec::new(alloc),
        }
    }

    /// No tokens, with room for `count`.
    pub fn with_capacity(alloc: Global, count: usize) -> Result<Self, AllocError>
        ensures { IfOk result (λ tokens. tokens ≡ []) }
    {
        let mut tokens = Self::new(alloc);
        tokens.reserve(count)?;
        Ok(tokens)
    }

    /// Makes room for `more` further tokens, with strings of usual length.
    pub fn reserve(&mut self, more: usize) -> Result<(), AllocError>
        ensures { self.new ≡ self.old }
    {
        self.marks.reserve(more)?;
        self.strings.reserve(more.saturating_mul(STRING_ROOM))
    }

    /// Appends an integer. If memory runs out, nothing is appended, here and below.
    pub fn push_int(&mut self, number: U63) -> Result<(), AllocError>
        ensures ok { OnOk result (self.new ≡ self.old ++ token.Int number ∷ []) }
        ensures err { OnErr result (self.new ≡ self.old) }
    {
        self.push_mark(Mark::Int(number.get()))
    }

    /// Appends a bulk string.
    pub fn push_bulk(&mut self, bytes: &[u8]) -> Result<(), AllocError>
        ensures ok { OnOk result (self.new ≡ self.old ++ token.Bulk bytes.now ∷ []) }
        ensures err { OnErr result (self.new ≡ self.old) }
    {
        let before = self.strings.len();
        self.strings.extend_from_slice(bytes)?;
        match self.marks.push(Mark::Bulk(bytes.len())) {
            Ok(_) => Ok(()),
            Err(_) => {
                self.strings.truncate(before);
                Err(AllocError)
            }
        }
    }

    /// Appends the null bulk string.
    pub fn push_null_bulk(&mut self) -> Result<(), AllocError>
        ensures ok { OnOk result (self.new ≡ self.old ++ token.NullBulk ∷ []) }
        ensures err { OnErr result (self.new ≡ self.old) }
    {
        self.push_mark(Mark::NullBulk)
    }

    /// Appends the header of an array of `count` items.
    pub fn push_array(&mut self, count: usize) -> Result<(), AllocError>
        ensures ok { OnOk result (self.new ≡ self.old ++ token.Array count ∷ []) }
        ensures err { OnErr result (self.new ≡ self.old) }
    {
        self.push_mark(Mark::Array(count))
    }

    /// Appends the null array.
    pub fn push_null_array(&mut self) -> Result<(), AllocError>
        ensures ok { OnOk result (self.new ≡ self.old ++ token.NullArray ∷ []) }
        ensures err { OnErr result (self.new ≡ self.old) }
    {
        self.push_mark(Mark::NullArray)
    }

    /// Appends a token that has no string.
    fn push_mark(&mut self, mark: Mark) -> Result<(), AllocError>
        requires { string_length mark ≡ 0 }
        ensures ok { OnOk result (self.new ≡ self.old ++ token_in mark [] ∷ []) }
        ensures err { OnErr result (self.new ≡ self.old) }
    {
        self.marks.push(mark)?;
        Ok(())
    }

    /// The tokens without their strings, and all strings.
    pub(crate) fn parts(&self) -> (&[Mark], &[u8])
        ensures value { tokens_in result.0.now result.1.now ≡ self.now }
        ensures lengths { strings_length result.0.now ≡ length result.1.now }
    {
        (self.marks.as_slice(), self.strings.as_slice())
    }
}
