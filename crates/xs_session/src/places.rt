//! The places of the answers that aren't begun yet.
ghost use Rattle.std.specs.Prelude.{◌≡◌, ◌+◌, ◌<◌, ◌≤◌, ◌++◌, ◌∷◌, [], length, true, IfOk, MatchOption};
ghost use Rattle.std.specs.VecDeque.{deque_len, deque_capacity};
ghost use Rattle.xs_session.specs.declared.places.Place.TheVariants as place;
ghost use Rattle.xs_session.specs.Places.{is_open, has_open, answered, fill_first, places_of, IsSettled};
ghost use Rattle.xs_session.specs.Places.{NoneReady};

use crate::information::Information;
use std::alloc::{AllocError, Global};
use std::collections::VecDeque;
use std::marker::Model;
use xs_resp::Reply;

/// The most places of a session.
pub const AHEAD: usize = 32;

/// The place of an answer.
#[derive(Drop)]
pub enum Place {
    /// The answer is there.
    Answer(Reply),
    /// It waits for a reply, which is the answer.
    Awaits,
    /// It waits for a reply with the number of keys. The answer has this text, and then the line with that number.
    AwaitsKeys(Information),
}

impl Place {
    ghost use Rattle.std.specs.Prelude.{◌≡◌};

    /// The answer at this place, after the reply for which it waits has come.
    fn answer(self, reply: Reply) -> Reply
        ensures { result ≡ answered self reply }
    {
        match self {
            Place::Answer(other) => other,
            Place::Awaits => reply,
            Place::AwaitsKeys(information) => information.answer(reply),
        }
    }
}

/// The places of answers, in the order of their requests: answers that are there, and then places from the first one on
/// that waits. A contract sees the list of the places.
#[derive(Drop)]
pub struct Places {
    ready: VecDeque<Reply>,
    // An answer for which nothing was asked can come after places that wait.
    behind: VecDeque<Place>,
}

impl Model for Places {
    ghost use Rattle.std.specs.Prelude.{List, ◌+◌, ◌≤◌};
    ghost use Rattle.std.specs.VecDeque.{deque_len, deque_capacity};
    ghost use Rattle.xs_session.specs.declared.places.Place.{Place};
    ghost use Rattle.xs_session.specs.Places.{places_of, IsSettled};

    ghost Value = { List Place };

    ghost view = { λ p. places_of p.ready.items p.behind.items };

    ghost invariant = { λ p. (deque_len p.ready + deque_len p.behind ≤ 32)
        × (32 ≤ deque_capacity p.ready) × (32 ≤ deque_capacity p.behind) × IsSettled p.behind.items };
}

impl Places {
    ghost use Rattle.std.specs.Prelude.{◌≡◌, ◌<◌, ◌≤◌, ◌++◌, ◌∷◌, [], length, true, IfOk, MatchOption};

    /// No places, with the memory for all.
    pub fn new(alloc: Global) -> Result<Self, AllocError>
        ensures { IfOk result (λ places. places ≡ []) }
    {
        Ok(Self {
            ready: VecDeque::with_capacity(alloc, AHEAD)?,
            behind: VecDeque::with_capacity(alloc, AHEAD)?,
        })
    }

    /// Drops all places.
    pub fn clear(&mut self)
        ensures { self.new ≡ [] }
    {
        self.ready.clear();
        self.behind.clear();
    }

    /// Whether there is room for one more, if there may be at most `most`.
    pub fn has_room(&self, most: usize) -> bool
        ensures { result ≡ true → length self.now < 32 }
    {
        let count = self.ready.len() + self.behind.len();
        count < most && count < AHEAD
    }

    /// Whether there is no place.
    pub fn is_empty(&self) -> bool
        ensures { result ≡ true → self.now ≡ [] }
    {
        self.ready.is_empty() && self.behind.is_empty()
    }

    /// Whether a place waits for a reply. There are never more than 32 places.
    pub fn is_open(&self) -> bool
        ensures open { result ≡ has_open self.now }
        ensures few { length self.now ≤ 32 }
    {
        !self.behind.is_empty()
    }

    /// Appends a place that waits.
    pub fn ask(&mut self, place: Place)
        requires room { length self.old < 32 }
        requires waits { is_open place ≡ true }
        ensures { self.new ≡ self.old ++ place ∷ [] }
    {
        self.behind.push_back_reserved(place);
    }

    /// Appends this answer.
    pub fn say(&mut self, reply: Reply)
        requires { length self.old < 32 }
        ensures { self.new ≡ self.old ++ place.Answer reply ∷ [] }
    {
        if self.behind.is_empty() {
            self.ready.push_back_reserved(reply);
        } else {
            self.behind.push_back_reserved(Place::Answer(reply));
        }
    }

    /// Fills the first place that waits, with this reply.
    pub fn answer(&mut self, reply: Reply)
        requires { has_open self.old ≡ true }
        ensures { self.new ≡ fill_first reply self.old }
    {
        let place = self.behind.pop_front().unwrap();
        self.ready.push_back_reserved(place.answer(reply));
        settle(&mut self.ready, &mut self.behind);
    }

    /// Takes the first answer, if it is there.
    pub fn next(&mut self) -> Option<Reply>
        ensures { MatchOption result ((self.new ≡ self.old) × NoneReady self.old)
            (λ reply. self.old ≡ place.Answer reply ∷ self.new) }
    {
        self.ready.pop_front()
    }
}

/// Moves the answers at the front of `behind` to `ready`.
fn settle(ready: &mut VecDeque<Reply>, behind: &mut VecDeque<Place>)
    requires { (deque_len ready.old + deque_len behind.old ≤ 32) × (32 ≤ deque_capacity ready.old) }
    ensures view { places_of ready.new.items behind.new.items ≡ places_of ready.old.items behind.old.items }
    ensures settled { IsSettled behind.new.items }
    ensures room { deque_len ready.new + deque_len behind.new ≤ 32 }
    ensures capacity { (32 ≤ deque_capacity ready.new) × (deque_capacity behind.new ≡ deque_capacity behind.old) }
{
    while let Some(Place::Answer(_)) = behind.front() {
        if let Some(Place::Answer(reply)) = behind.pop_front() {
            ready.push_back_reserved(reply);
        }
    }
}
