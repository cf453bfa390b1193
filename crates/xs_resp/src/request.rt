//! The words of a complete request, lent from the bytes that hold it.
ghost use Rattle.std.specs.Prelude.{◌≡◌, ◌==◌, ◌≤◌, ◌∷◌, [], length, IfOk, MatchOption};
ghost use Rattle.xs_resp.specs.Reading.{words, words_in, IsWhole};

use crate::word::{read_word, rest_of};
use std::alloc::{AllocError, Global};
use std::marker::Model;
use xs_bytes::{Bytes, List};

/// The words of a complete request, or the last of them. They are lent from the bytes that hold the request, and each
/// is found when it is needed. A contract sees the list of them.
#[derive(Drop)]
pub struct Request<'a> {
    count: usize,
    bytes: &'a [u8],
}

impl<'a> Model for Request<'a> {
    ghost use Rattle.std.specs.Prelude.{List, ℕ, ◌≤◌};
    ghost use Rattle.xs_resp.specs.Reading.{words, words_in, IsWhole};

    ghost Value = { List (List ℕ) };

    ghost view = { λ r. words_in (words r.count r.bytes.now) };

    ghost invariant = { λ r. IsWhole (words r.count r.bytes.now) × (r.count ≤ 1048576) };
}

impl<'a> Request<'a> {
    /// No words.
    pub fn none() -> Self
        ensures { result ≡ [] }
    {
        Self {
            count: 0,
            bytes: &[],
        }
    }

    /// The first `count` words of these bytes.
    pub(crate) fn new(count: usize, bytes: &'a [u8]) -> Self
        requires whole { IsWhole (words count bytes.now) }
        requires small { count ≤ 1048576 }
        ensures { result ≡ words_in (words count bytes.now) }
    {
        Self { count, bytes }
    }

    /// A second view of the same words.
    pub fn again(&self) -> Self
        ensures { result ≡ self.now }
    {
        Self {
            count: self.count,
            bytes: self.bytes,
        }
    }

    /// The number of words.
    pub fn len(&self) -> usize
        ensures count { result ≡ length self.now }
        ensures small { result ≤ 1048576 }
    {
        self.count
    }

    /// Whether there are no words.
    pub fn is_empty(&self) -> bool
        ensures { result ≡ (length self.now == 0) }
    {
        self.count == 0
    }

    /// The first word, and the words after it. None if there are no words.
    pub fn split_first(&self) -> Option<(&'a [u8], Request<'a>)>
        ensures { MatchOption result (self.now ≡ []) (λ first. self.now ≡ first.0.now ∷ first.1) }
    {
        if self.count == 0 {
            return None;
        }
        let span = read_word(self.bytes).unwrap().unwrap();
        let rest = Request {
            count: self.count - 1,
            bytes: rest_of(self.bytes, span.end + 2),
        };
        Some((&self.bytes[span.start..span.end], rest))
    }

    /// The words, copied, each at its exact size.
    pub fn copy(&self, alloc: Global) -> Result<List<Bytes>, AllocError>
        ensures { IfOk result (λ copies. copies ≡ self.now) }
    {
        let mut copies = Vec::with_capacity(alloc, self.count)?;
        let mut left = self.again();
        while let Some((word, behind)) = left.split_first() {
            copies.push(Bytes::from_slice(alloc, word)?)?;
            left = behind;
        }
        Ok(List::new(copies))
    }
}
