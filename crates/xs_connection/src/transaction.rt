//! The requests between MULTI and EXEC.
ghost use Rattle.std.specs.Prelude.{◌≡◌, ◌<◌, ◌∷◌, ℕ, List, [], length, IfOk, OnErr, MatchOption};
ghost use Rattle.xs_connection.specs.Transaction.{is_queueing, spoiled, begun, queued, executed, discarded};
ghost use Rattle.xs_connection.specs.Transaction.{released, released_of};

use crate::queue::Queue;
use crate::waiting::Waiting;
use std::alloc::{AllocError, Global};
use std::mem;
use xs_bytes::{Bytes, List};
use xs_resp::{Reply, Simple};

const NESTED: &[u8] = b"ERR MULTI calls can not be nested";

const NO_ROOM: &[u8] = b"ERR a transaction holds at most 1024 commands of 1048576 bytes";

const ABORTED: &[u8] = b"EXECABORT Transaction discarded because of previous errors.";

const NO_EXEC: &[u8] = b"ERR EXEC without MULTI";

const NO_DISCARD: &[u8] = b"ERR DISCARD without MULTI";

/// The state of a transaction.
#[derive(Drop)]
pub enum Transaction {
    /// There is no transaction.
    Closed,
    /// After MULTI. These requests wait for EXEC.
    Open(Queue),
    /// After MULTI, and after a request that was refused.
    Spoiled,
    /// After EXEC. These requests are still to be served.
    Released(Waiting),
}

/// An error with this text.
fn error(alloc: Global, text: &[u8]) -> Result<Reply, AllocError>
    ensures { IfOk result (λ reply. reply ≡ Reply.ErrorText text.now) }
{
    Ok(Reply::ErrorText(Bytes::from_slice(alloc, text)?))
}

/// Requests that are still to be served, if there are any.
fn released(waiting: Waiting) -> Transaction
    ensures { result ≡ released waiting }
{
    if waiting.len() == 0 {
        return Transaction::Closed;
    }
    Transaction::Released(waiting)
}

impl Transaction {
    /// Whether requests wait for EXEC.
    pub fn is_queueing(&self) -> bool
        ensures { result ≡ is_queueing self.now }
    {
        matches!(self, Self::Open(_) | Self::Spoiled)
    }

    /// A request was refused: nothing waits any more, and EXEC will report it.
    pub fn spoil(&mut self)
        ensures { self.new ≡ spoiled self.old }
    {
        if matches!(self, Self::Open(_)) {
            *self = Self::Spoiled;
        }
    }

    /// MULTI.
    pub fn begin(&mut self, alloc: Global) -> Result<Reply, AllocError>
        ensures ok { IfOk result (λ reply. (reply, self.new) ≡ begun self.old) }
        ensures err { OnErr result (self.new ≡ self.old) }
    {
        if self.is_queueing() {
            return error(alloc, NESTED);
        }
        *self = Self::Open(Queue::new(alloc));
        Ok(Reply::Simple(Simple::Okay))
    }

    /// Appends a request to those that wait.
    ///
    /// # Errors
    /// Out of memory, and nothing waits any more.
    pub fn enqueue(&mut self, alloc: Global, words: List<Bytes>) -> Result<Reply, AllocError>
        ensures ok { IfOk result (λ reply. (reply, self.new) ≡ queued self.old words) }
        ensures err { OnErr result (self.new ≡ spoiled self.old) }
    {
        let fits = match self {
            Self::Open(queue) => queue.push(words),
            _ => Ok(true),
        };
        match fits {
            Ok(true) => Ok(Reply::Simple(Simple::Queued)),
            Ok(false) => {
                self.spoil();
                error(alloc, NO_ROOM)
            }
            Err(refused) => {
                self.spoil();
                Err(refused)
            }
        }
    }

    /// EXEC.
    pub fn execute(&mut self, alloc: Global) -> Result<Reply, AllocError>
        ensures ok { IfOk result (λ reply. (reply, self.new) ≡ executed self.old) }
        ensures err { OnErr result (self.new ≡ self.old) }
    {
        match mem::replace(self, Self::Closed) {
            Self::Open(queue) => {
                let count = queue.len();
                *self = released(queue.into_waiting());
                Ok(Reply::Opening(count))
            }
            Self::Spoiled => {
                *self = Self::Spoiled;
                let reply = error(alloc, ABORTED)?;
                *self = Self::Closed;
                Ok(reply)
            }
            other => {
                *self = other;
                error(alloc, NO_EXEC)
            }
        }
    }

    /// DISCARD.
    pub fn discard(&mut self, alloc: Global) -> Result<Reply, AllocError>
        ensures ok { IfOk result (λ reply. (reply, self.new) ≡ discarded self.old) }
        ensures err { OnErr result (self.new ≡ self.old) }
    {
        if !self.is_queueing() {
            return error(alloc, NO_DISCARD);
        }
        *self = Self::Closed;
        Ok(Reply::Simple(Simple::Okay))
    }

    /// The words of the request that is served next, if EXEC has released some.
    pub fn next(&self) -> Option<&List<Bytes>>
        ensures { MatchOption result (released_of self.now ≡ [])
            (λ words. (others : List (List (List ℕ))) × (self.now ≡ Transaction.Released (words.now ∷ others))) }
    {
        match self {
            Self::Released(waiting) => waiting.front(),
            _ => None,
        }
    }

    /// Takes that request.
    pub fn take_next(&mut self) -> List<Bytes>
        requires { 0 < length (released_of self.old) }
        ensures { (others : List (List (List ℕ))) × (self.old ≡ Transaction.Released (result ∷ others))
            × (self.new ≡ released others) }
    {
        match mem::replace(self, Self::Closed) {
            Self::Released(mut waiting) => {
                let words = waiting.pop().unwrap();
                *self = released(waiting);
                words
            }
            _ => unreachable!(),
        }
    }
}
