//! Requests that wait for EXEC, within a limit.
ghost use Rattle.std.specs.Prelude.{◌≡◌, ◌<◌, ◌≤◌, ◌++◌, ◌∷◌, [], if◌then◌else◌, MatchOption, MatchResult};
ghost use Rattle.xs_connection.specs.QueueRoom.{size_of, has_room};

use crate::waiting::Waiting;
use std::alloc::{AllocError, Global};
use std::marker::Model;
use xs_bytes::{Bytes, List};

/// The most requests, and the most bytes of their words.
const MOST_REQUESTS: usize = 1_024;

const MOST_BYTES: usize = 1_048_576;

/// Requests that wait for EXEC, by their words. A contract sees the list of them.
#[derive(Drop)]
pub struct Queue {
    waiting: Waiting,
    // The number of bytes of their words.
    size: usize,
}

impl Model for Queue {
    ghost use Rattle.std.specs.Prelude.{◌≡◌, ◌≤◌, List, ℕ};
    ghost use Rattle.xs_connection.specs.QueueRoom.{size_of_all};

    ghost Value = { List (List (List ℕ)) };

    ghost view = { λ q. q.waiting };

    ghost invariant = { λ q. (q.size ≡ size_of_all q.waiting) × (q.size ≤ 1048576) };
}

/// The number of bytes of these words, if it is at most `most`.
fn size_within(words: &[Bytes], most: usize) -> Option<usize>
    ensures { MatchOption result (most < size_of words.now) (λ size. (size ≡ size_of words.now) × (size ≤ most)) }
{
    let mut size = 0;
    for word in words {
        if word.len() > most - size {
            return None;
        }
        size += word.len();
    }
    Some(size)
}

impl Queue {
    ghost use Rattle.std.specs.Prelude.{◌≡◌, ◌++◌, ◌∷◌, [], length, if◌then◌else◌, MatchResult};
    ghost use Rattle.xs_connection.specs.QueueRoom.{has_room};

    /// An empty queue. It takes no memory.
    pub fn new(alloc: Global) -> Self
        ensures { result ≡ [] }
    {
        Self {
            waiting: Waiting::new(alloc),
            size: 0,
        }
    }

    /// The number of requests that wait.
    pub fn len(&self) -> usize
        ensures { result ≡ length self.now }
    {
        self.waiting.len()
    }

    /// Appends a request if there is room for it. Returns whether there was.
    ///
    /// # Errors
    /// Out of memory; nothing is appended.
    pub fn push(&mut self, words: List<Bytes>) -> Result<bool, AllocError>
        ensures { MatchResult result
            (λ fits. (fits ≡ has_room self.old words)
            × (self.new ≡ (if fits then self.old ++ words ∷ [] else self.old)))
            (λ _. self.new ≡ self.old) }
    {
        if self.waiting.len() >= MOST_REQUESTS {
            return Ok(false);
        }
        let Some(size) = size_within(words.as_slice(), MOST_BYTES - self.size) else {
            return Ok(false);
        };
        self.waiting.push(words)?;
        self.size += size;
        Ok(true)
    }

    /// The requests that wait, in their order.
    pub fn into_waiting(self) -> Waiting
        ensures { result ≡ self }
    {
        let Self { waiting, size: _ } = self;
        waiting
    }
}
