//! The client's side of a lane.
ghost use Rattle.std.specs.Prelude.{◌≡◌, ◌++◌, ◌∷◌, [], ◌<◌, length, IfOk, IfErr, IsOk, MatchOption};

use crate::answer::{Answer, Call, Formed};
use crate::poll_set::Registration;
use crate::waiting::Backoff;
use rtrb::{Consumer, Producer};
use std::alloc::Global;
use std::marker::Model;
use std::sync::atomic::{AtomicBool, Ordering};
use std::sync::{Arc, Wait};
use std::time::{Clock, Duration};
use xs_command::Command;

/// There is no room for the command, or no further ticket. It contains the command.
#[derive(Debug, Drop)]
pub struct Full(pub Command);

/// The client of a lane. Contracts see the number of the lane, the commands submitted, the answers taken, their rings,
/// and the number of places of these.
#[derive(Drop)]
pub struct Client {
    calls: Producer<Call, Global, Formed>,
    answers: Consumer<Answer>,
    lane: usize,
    ticket: u64,
    // Notifies the keeper.
    registration: Registration,
    backoff: Backoff,
    // Set once no call is served any more.
    gone: Arc<AtomicBool>,
    wants_words: bool,
}

impl Model for Client {
    ghost use Rattle.xs_desk.specs.Callers.{Caller};

    ghost Value = { Caller };

    ghost use Rattle.std.specs.Prelude.{◌≡◌, length};
    ghost use Rattle.rtrb.specs.Ring.{sent};
    ghost use Rattle.xs_desk.specs.Callers.{caller_of};

    ghost view = { λ c. caller_of c.lane c.calls c.answers };

    ghost invariant = { λ c. c.ticket ≡ length (sent c.calls) };
}

/// What is left of a client that makes no further call. Contracts see the same as of the client.
#[derive(Drop)]
pub struct Ended {
    pub(crate) calls: Producer<Call, Global, Formed>,
    pub(crate) answers: Consumer<Answer>,
    pub(crate) lane: usize,
}

impl Model for Ended {
    ghost use Rattle.xs_desk.specs.Callers.{Caller};

    ghost Value = { Caller };

    ghost use Rattle.xs_desk.specs.Callers.{caller_of};

    ghost view = { λ e. caller_of e.lane e.calls e.answers };
}

impl Client {
    ghost use Rattle.std.specs.Prelude.{◌≡◌, ◌^◌, ◌++◌, ◌∷◌, [], ◌<◌, length, IfOk, IfErr, IsOk, MatchOption};
    ghost use Rattle.rtrb.specs.Ring.{sent};
    ghost use Rattle.xs_command.specs.WellFormed.{IsWellFormed};
    ghost use Rattle.xs_desk.specs.Callers.{caller_of};
    ghost use Rattle.xs_desk.specs.Calls.{IsFormed};

    /// A client that has submitted nothing.
    pub(crate) fn new(
        lane: usize,
        calls: Producer<Call, Global, Formed>,
        answers: Consumer<Answer>,
        registration: Registration,
        backoff: Backoff,
        gone: Arc<AtomicBool>,
        wants_words: bool,
    ) -> Client
        requires { sent calls ≡ [] }
        ensures { result ≡ caller_of lane calls answers }
    {
        Client {
            calls,
            answers,
            lane,
            ticket: 0,
            registration,
            backoff,
            gone,
            wants_words,
        }
    }

    /// Whether a call has to contain the words that spell its command, because the desk has a log.
    pub fn wants_words(&self) -> bool {
        self.wants_words
    }

    /// Submits a command, and wakes the keeper if it sleeps. Returns the ticket: 0, 1, 2, .. in this lane. It takes no
    /// memory.
    ///
    /// # Errors
    /// `Full`, with the command. Nothing has changed. A lane has at most 2^64 - 1 calls, and is full from then on.
    pub fn submit(&mut self, command: Command) -> Result<u64, Full>
        requires { IsWellFormed command }
        ensures ok { IfOk result (λ ticket. (ticket ≡ length self.old.submitted)
            × (self.new ≡ record self.old { submitted = self.old.submitted ++ command ∷ [] })) }
        ensures full { IfErr result (λ full. (full.0 ≡ command) × (self.new ≡ self.old)) }
        ensures room { length self.old.submitted < self.old.depth → IsOk result }
        ensures last { length self.new.submitted < 2 ^ 64 }
    {
        let call = Call {
            command,
            words: None,
        };
        match self.submit_call(call) {
            Ok(ticket) => Ok(ticket),
            Err(call) => Err(Full(call.command)),
        }
    }

    /// Submits a call, like `submit`. Returns the call if there is no room for it.
    pub fn submit_call(&mut self, call: Call) -> Result<u64, Call>
        requires { IsFormed call }
        ensures ok { IfOk result (λ ticket. (ticket ≡ length self.old.submitted)
            × (self.new ≡ record self.old { submitted = self.old.submitted ++ call.command ∷ [] })) }
        ensures full { IfErr result (λ back. (back ≡ call) × (self.new ≡ self.old)) }
        ensures room { length self.old.submitted < self.old.depth → IsOk result }
        ensures last { length self.new.submitted < 2 ^ 64 }
    {
        let ticket = self.ticket;
        let Some(next) = ticket.checked_add(1) else {
            return Err(call);
        };
        if self.calls.is_full() {
            return Err(call);
        }
        self.calls.push_reserved(call);
        self.ticket = next;
        self.backoff.begin_anew();
        self.registration.notify();
        Ok(ticket)
    }

    /// The next answer, if it has come. If a call of this lane may be waiting for the room that it leaves, it wakes the
    /// keeper. It takes no memory.
    pub fn take(&mut self) -> Option<Answer>
        ensures { MatchOption result (self.new ≡ self.old)
            (λ answer. self.new ≡ record self.old { taken = self.old.taken ++ answer ∷ [] }) }
    {
        if self.is_blocked() {
            self.backoff.begin_last_look();
        } else {
            self.backoff.begin_look();
        }
        let answer = self.answers.pop().ok()?;
        self.backoff.found(answer.moment);
        // The keeper skips a call only while the ring of answers is full, so after an answer that is taken. Without a
        // further call there is nothing to notify, and the keeper sleeps on.
        if answer.ticket.saturating_add(1) < self.ticket {
            self.registration.notify();
        }
        Some(answer)
    }

    /// Waits. It must be called only after a `take` that returned nothing: between two such calls a `take` has to look
    /// for an answer. After many in a row it parks until the keeper has answered or is gone; before that it returns at
    /// once, for another `take`.
    pub fn idle<R: Wait>(&self, rt: &R) {
        self.backoff.snooze(rt);
    }

    /// Whether `idle` would wait for the keeper now, and not return at once.
    pub fn will_sleep(&self) -> bool {
        self.backoff.may_sleep()
    }

    /// Whether the keeper was seen to let the last call wait, so its answer may take long.
    pub fn is_blocked(&self) -> bool {
        self.registration.is_blocked_before(self.ticket)
    }

    /// Waits like `idle`, but at most for this time. Returns whether that time has passed.
    pub fn idle_for<R: Wait + Clock>(&self, rt: &R, time: Duration) -> bool {
        self.backoff.snooze_for(rt, time)
    }

    /// Ends the waits of all calls made so far: the keeper answers those that wait as if their time were over.
    pub fn hurry(&self) {
        self.registration.hurry(self.ticket);
    }

    /// Whether the keeper is gone. If it is, and a `take` after that returns nothing, no answer comes any more.
    pub fn is_gone(&self) -> bool {
        self.gone.load(Ordering::SeqCst)
    }

    /// Ends the client: it makes no further call.
    pub fn finish(self) -> Ended
        ensures { result ≡ self }
    {
        let Client {
            calls,
            answers,
            lane,
            ..
        } = self;
        Ended {
            calls,
            answers,
            lane,
        }
    }
}
