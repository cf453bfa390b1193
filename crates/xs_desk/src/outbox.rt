//! The answers of a lane on their way to its client.
ghost use Rattle.std.specs.Prelude.{◌≤◌, length};
ghost use Rattle.rtrb.specs.Ring.{known_free};

use crate::answer::Answer;
use rtrb::Producer;
use std::alloc::{AllocError, Global};
use std::collections::VecDeque;

/// The ring of answers, and after those that were sent through it the answers that are held back until the events
/// before them are kept.
#[derive(Drop)]
pub(crate) struct Outbox {
    pub ring: Producer<Answer>,
    pub held_back: VecDeque<Answer>,
    ghost room: { length held_back.items ≤ known_free ring },
}

impl Outbox {
    ghost use Rattle.std.specs.Prelude.{◌≡◌, ◌++◌, ◌∷◌, [], true, false};
    ghost use Rattle.rtrb.specs.Ring.{sent};
    ghost use Rattle.xs_desk.specs.Outbox.{given, HasRoom, IsFull};
    ghost use Rattle.xs_desk.specs.Rings.{producer_ring};

    /// An outbox that holds nothing back. It takes no memory.
    pub(crate) fn new(alloc: Global, ring: Producer<Answer>) -> Outbox
        ensures given { given result ≡ sent ring }
        ensures ring { producer_ring result.ring ≡ producer_ring ring }
    {
        Outbox {
            ring,
            held_back: VecDeque::new(alloc),
        }
    }

    /// Makes room to hold `count` answers back.
    pub(crate) fn reserve(&mut self, count: usize) -> Result<(), AllocError>
        ensures ring { self.new.ring ≡ self.old.ring }
        ensures held_back { self.new.held_back.items ≡ self.old.held_back.items }
    {
        self.held_back.reserve_exact(count)
    }

    /// Whether there is room for another answer, which may be held back.
    #[inline(always)]
    pub(crate) fn has_room(&mut self, holds_back: bool) -> bool
        ensures given { given self.new ≡ given self.old }
        ensures ring { producer_ring self.new.ring ≡ producer_ring self.old.ring }
        ensures sent { sent self.new.ring ≡ sent self.old.ring }
        ensures yes { result ≡ true → HasRoom holds_back self.new }
        ensures no { result ≡ false → IsFull self.new }
    {
        if !holds_back && self.held_back.is_empty() {
            return !self.ring.is_full();
        }
        self.held_back.len() < self.held_back.capacity() && self.ring.slots() > self.held_back.len()
    }

    /// Gives an answer: sends it, or holds it back.
    pub(crate) fn give(&mut self, answer: Answer, holds_back: bool)
        requires { HasRoom holds_back self.old }
        ensures given { given self.new ≡ given self.old ++ answer ∷ [] }
        ensures ring { producer_ring self.new.ring ≡ producer_ring self.old.ring }
        ensures sent { holds_back ≡ true → sent self.new.ring ≡ sent self.old.ring }
    {
        if !holds_back && self.held_back.is_empty() {
            self.ring.push_reserved(answer);
            return;
        }
        if self.held_back.push_back(answer).is_err() {
            unreachable!()
        }
    }

    /// Sends the answers that were held back. Returns whether there were any.
    pub(crate) fn release(&mut self) -> bool
        ensures given { given self.new ≡ given self.old }
        ensures sent { sent self.new.ring ≡ given self.old }
        ensures ring { producer_ring self.new.ring ≡ producer_ring self.old.ring }
    {
        let some = !self.held_back.is_empty();
        while let Some(answer) = self.held_back.pop_front() {
            self.ring.push_reserved(answer);
        }
        some
    }
}
