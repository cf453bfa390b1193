//! Requests that wait, in their order.
ghost use Rattle.std.specs.Prelude.{◌≡◌, ◌++◌, ◌∷◌, [], true, length, OnOk, OnErr, MatchOption};

use std::alloc::{AllocError, Global};
use std::collections::VecDeque;
use std::marker::Model;
use xs_bytes::{Bytes, List};

/// Requests that wait, by their words. A contract sees the list of them.
#[derive(Drop)]
pub struct Waiting {
    requests: VecDeque<List<Bytes>>,
}

impl Model for Waiting {
    ghost use Rattle.std.specs.Prelude.{List, ℕ};

    ghost Value = { List (List (List ℕ)) };

    ghost view = { λ w. w.requests.items };
}

impl Waiting {
    ghost use Rattle.std.specs.Prelude.{◌≡◌, ◌++◌, ◌∷◌, ℕ, List, [], length, MatchOption};

    /// An empty list. It takes no memory.
    pub fn new(alloc: Global) -> Self
        ensures { result ≡ [] }
    {
        Self {
            requests: VecDeque::new(alloc),
        }
    }

    /// The number of requests that wait.
    pub fn len(&self) -> usize
        ensures { result ≡ length self.now }
    {
        self.requests.len()
    }

    /// Appends a request.
    ///
    /// # Errors
    /// Out of memory; nothing is appended.
    pub fn push(&mut self, words: List<Bytes>) -> Result<(), AllocError>
        ensures ok { OnOk result (self.new ≡ self.old ++ words ∷ []) }
        ensures err { OnErr result (self.new ≡ self.old) }
    {
        match self.requests.push_back(words) {
            Ok(()) => Ok(()),
            Err(_) => Err(AllocError),
        }
    }

    /// The words of the first one.
    pub fn front(&self) -> Option<&List<Bytes>>
        ensures { MatchOption result (self.now ≡ [])
            (λ words. (others : List (List (List ℕ))) × (self.now ≡ words.now ∷ others)) }
    {
        self.requests.front()
    }

    /// Takes the first one.
    pub fn pop(&mut self) -> Option<List<Bytes>>
        ensures { MatchOption result ((self.old ≡ []) × (self.new ≡ [])) (λ words. self.old ≡ words ∷ self.new) }
    {
        self.requests.pop_front()
    }
}
