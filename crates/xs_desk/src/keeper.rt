//! The keeper of a desk.
ghost use Rattle.std.specs.Prelude.{◌≡◌, ℕ, ◌+◌, ◌^◌, length, map, slice_get, Some, MatchResult};
ghost use Rattle.xs_desk.specs.Durable.{NotesTurn};
ghost use Rattle.xs_desk.specs.KeeperTurns.{HasPlaces};
ghost use Rattle.xs_desk.specs.LaneEnds.{desk_of, lane_of, handed_out};

use crate::journal::Journal;
use crate::lane_end::{LaneEnd, Look};
use crate::log_journal::LogJournal;
use crate::no_journal::NoJournal;
use crate::schedule::{Schedule, Span};
use crate::waiting::Waker;
use std::alloc::AllocError;
use std::marker::Model;
use std::snapshot::Snapshot;
use std::sync::atomic::{AtomicBool, Ordering};
use std::sync::{Arc, Wait};
use std::thread::Promise;
use std::time;
use thiserror::Error;
use xs_keys::{Clock, Keyspace};
use xs_replay::{EventLog, LogFailed};

/// Why a turn stopped.
#[derive(Clone, Copy, Debug, PartialEq, Eq, Error)]
pub enum KeeperError {
    /// The next place is the last number, and no call is served any more.
    #[error("there is no further place")]
    Exhausted,
}

/// The keeper of a desk: it owns the keyspace, and one side of each lane. Contracts see the lanes, the content of the
/// keyspace, and the next place. When it is dropped, each lane is notified. It notes what it has applied in a journal,
/// if there is one.
pub struct Keeper<J: Journal + Drop = NoJournal> {
    lane_ends: Vec<LaneEnd>,
    keyspace: Keyspace,
    place: u64,
    schedule: Schedule,
    // Set once no call is served any more.
    gone: Arc<AtomicBool>,
    journal: J,
}

impl<J: Journal + Drop> Model for Keeper<J> {
    ghost use Rattle.xs_desk.specs.ServedCalls.{Desk};

    ghost Value = { Desk };

    ghost use Rattle.std.specs.Prelude.{List};
    ghost use Rattle.xs_desk.specs.ServedCalls.{ServedCall, AreCallsOf};
    ghost use Rattle.xs_desk.specs.LaneEnds.{desk_of};
    ghost use Rattle.xs_desk.specs.Durable.{IsDurable};

    ghost view = { λ k. desk_of k.lane_ends.items k.keyspace k.place (J.start k.journal) };

    ghost invariant = { λ k. (calls : List ServedCall)
        × AreCallsOf calls (desk_of k.lane_ends.items k.keyspace k.place (J.start k.journal))
        × IsDurable J.has calls k.lane_ends.items (J.start k.journal) k.keyspace k.journal };
}

impl<J: Journal + Drop> Drop for Keeper<J> {
    fn drop(self) {
        let Keeper {
            lane_ends,
            keyspace: _keyspace,
            place: _,
            schedule: _schedule,
            gone,
            journal: _journal,
        } = self;
        say_gone(&lane_ends, &gone);
    }
}

/// A thread that returns its keeper ensures this: it has the rings of this one.
#[derive(Drop)]
pub struct SameRings<J: Journal + Drop = NoJournal>(pub Snapshot<Keeper<J>>);

impl<J: Journal + Drop> Promise<Keeper<J>> for SameRings<J> {
    ghost use Rattle.xs_desk.specs.KeptRings.{KeepsRings};

    ghost kept_by = { λ p keeper. KeepsRings p.0.value keeper };
}

/// Notifies each lane that no call is served any more. A lane reads the flag before it looks for an answer, and parks
/// after that. Its token, which comes after the flag, ends a park that began before the flag was set.
fn say_gone(lane_ends: &Vec<LaneEnd>, gone: &Arc<AtomicBool>) {
    gone.store(true, Ordering::SeqCst);
    for lane_end in lane_ends {
        lane_end.waker.wake();
    }
}

/// Looks once at each lane of the span, in order, up to one that has served a call for which others wait.
fn serve_each<C: Clock, J: Journal>(
    lane_ends: &mut Vec<LaneEnd>,
    schedule: &mut Schedule,
    keyspace: &mut Keyspace,
    place: &mut u64,
    clock: &mut C,
    journal: &mut J,
    span: Span,
) -> Result<u64, KeeperError>
    requires { HasPlaces (desk_of lane_ends.old.items keyspace.old place.old (J.start journal.old)) }
    ensures turned { let old = desk_of lane_ends.old.items keyspace.old place.old (J.start journal.old) in
        let new = desk_of lane_ends.new.items keyspace.new place.new (J.start journal.old) in
        MatchResult result
        (λ n. NotesTurn J.has C.gives old clock.old journal.old lane_ends.old.items n (length lane_ends.old.items) new
        clock.new journal.new lane_ends.new.items)
        (λ _. (n : ℕ) × NotesTurn J.has C.gives old clock.old journal.old lane_ends.old.items n
        (length lane_ends.old.items) new clock.new journal.new lane_ends.new.items × (place.new + 1 ≡ 2 ^ 64)) }
    ensures start { J.start journal.new ≡ J.start journal.old }
{
    let mut served = 0;
    let mut end = span.end.min(lane_ends.len());
    let mut next = span.from.min(end);
    while let Some(k) = schedule.first_from(next, end.min(lane_ends.len())) {
        next = k + 1;
        let manner = schedule.manner(&span);
        let lane_end = &mut lane_ends[k];
        match lane_end.serve(keyspace, place, clock, journal, manner) {
            Look::Idle => {}
            Look::Blocked(wish) => schedule.found_blocked(k, wish),
            Look::Served(done) => {
                served += 1;
                if schedule.found_call(k, done, next) {
                    end = next;
                }
            }
            Look::Exhausted => return Err(KeeperError::Exhausted),
        }
    }
    Ok(served)
}

/// Hands out the answers that are held back, and counts the lanes that had some.
fn release_each(lane_ends: &mut Vec<LaneEnd>) -> u64
    ensures lanes { map lane_of lane_ends.new.items ≡ map lane_of lane_ends.old.items }
    ensures handed { (k : ℕ) (lane_end : LaneEnd) → slice_get lane_ends.new.items k ≡ Some lane_end →
        handed_out lane_end ≡ (lane_of lane_end).sent }
{
    let mut count = 0;
    for k in 0..lane_ends.len() {
        let lane_end = &mut lane_ends[k];
        if lane_end.release() {
            count = u64::saturating_add(count, 1);
        }
    }
    count
}

impl<J: Journal + Drop> Keeper<J> {
    ghost use Rattle.std.specs.Prelude.{◌≡◌, ℕ, ◌+◌, ◌^◌, ◌<◌, length, List, [], slice_get, Some, MatchResult};
    ghost use Rattle.xs_desk.specs.ServedCalls.{ServedCall, AreCallsOf};
    ghost use Rattle.xs_desk.specs.KeeperTurns.{ExtendsCalls};
    ghost use Rattle.xs_desk.specs.LaneEnds.{desk_of};
    ghost use Rattle.xs_desk.specs.KeptRings.{KeepsRings};
    ghost use Rattle.xs_keys.specs.KeysRoom.{IsRoomOf};

    /// A keeper that has served no call.
    pub(crate) fn new(
        lane_ends: Vec<LaneEnd>,
        keyspace: Keyspace,
        schedule: Schedule,
        gone: Arc<AtomicBool>,
        journal: J,
    ) -> Keeper<J>
        requires calls { AreCallsOf [] (desk_of lane_ends.items keyspace 0 (J.start journal)) }
        requires start { J.start journal ≡ keyspace }
        requires noted { J.has journal [] 0 }
        ensures { result ≡ desk_of lane_ends.items keyspace 0 (J.start journal) }
    {
        Keeper {
            lane_ends,
            keyspace,
            place: 0,
            schedule,
            gone,
            journal,
        }
    }

    /// The number of lanes.
    pub fn lanes(&self) -> usize
        ensures { result ≡ length self.now.lanes }
    {
        self.lane_ends.len()
    }

    /// The number of bytes that its keyspace is counted with, modulo 2^128.
    pub fn bytes_held(&self) -> u128
        ensures { IsRoomOf self.now.keyspace result }
    {
        self.keyspace.bytes_held()
    }

    /// The number of calls that wait.
    pub fn blocked_calls(&self) -> usize {
        self.schedule.blocked.len()
    }

    /// Looks at each lane once, in order, and serves at most one call of each, at the moment that the clock gives. A
    /// lane that has had no call while others had many is skipped until its client gives notice of a call, or of room
    /// for an answer. A call whose answer has no room stays in its lane. It takes no memory but that of
    /// `Keyspace::apply`; if that is refused, the reply is `OOM`. Returns the number of calls that it served. All that
    /// was served so far is one run, answered as in the model, which these calls extend.
    ///
    /// # Errors
    /// `Exhausted` at the last place, 2^64 - 1, and no call is served any more. What the turn served before stays
    /// served.
    pub fn turn<C: Clock>(&mut self, clock: &mut C) -> Result<u64, KeeperError>
        ensures calls { MatchResult result
            (λ n. ExtendsCalls C.gives self.old clock.old n (length self.old.lanes) self.new clock.new)
            (λ _. (n : ℕ) × ExtendsCalls C.gives self.old clock.old n (length self.old.lanes) self.new clock.new
            × (self.new.place + 1 ≡ 2 ^ 64)) }
        ensures rings { KeepsRings self.old self.new }
        ensures last { self.new.place < 2 ^ 64 }
    {
        let span = self.schedule.begin_turn(self.lane_ends.len());
        let served = serve_each(
            &mut self.lane_ends,
            &mut self.schedule,
            &mut self.keyspace,
            &mut self.place,
            clock,
            &mut self.journal,
            span,
        );
        // The proof knows that the place is a number of 64 bits once it is read.
        let _place = self.place;
        let Ok(count) = served else {
            say_gone(&self.lane_ends, &self.gone);
            return Err(KeeperError::Exhausted);
        };
        Ok(count)
    }

    /// Keeps what the turns since the last call have noted, and then hands out the answers that were held back. Returns
    /// the number of lanes that had some.
    ///
    /// # Errors
    /// The log has failed: none of those answers is handed out, and no call is served any more.
    pub fn settle(&mut self) -> Result<u64, LogFailed>
        ensures { self.new ≡ self.old }
    {
        if !J::holds_back() {
            return Ok(0);
        }
        if let Err(failed) = self.journal.keep() {
            say_gone(&self.lane_ends, &self.gone);
            return Err(failed);
        }
        Ok(release_each(&mut self.lane_ends))
    }

    /// Waits. It must be called only after a turn that served no call: between two such calls a turn has to look at the
    /// lanes. After many such turns in a row it parks until a lane or a waker gives the keeper's token; before that it
    /// returns at once, for another turn.
    pub fn idle<R: Wait>(&self, rt: &R) {
        self.schedule.backoff.snooze(rt);
    }

    /// Whether `idle` may park now, and not return at once.
    pub fn will_sleep(&self) -> bool {
        self.schedule.backoff.may_sleep()
    }

    /// From now on a read with BLOCK that would be answered with the null array waits: it stays in its lane until it
    /// would be answered otherwise, its time is over, or its client hurries it. Then `read_clock` has to be called
    /// before each turn, and `idle_until` in the place of `idle`.
    pub fn let_wait(&mut self)
        ensures { self.new ≡ self.old }
    {
        self.schedule.lets_wait = true;
    }

    /// From now on additions, new groups and new consumers are refused if the bytes in the keyspace and those that they
    /// take are together more than `bytes`; 0 if there is no bound.
    pub fn set_bound(&mut self, bytes: u64)
        ensures { self.new ≡ self.old }
    {
        self.keyspace.set_bound(bytes);
    }

    /// Ends the waits whose time is over: the next turns serve those calls. It reads the clock only if a call waits.
    pub fn read_clock<S: time::Clock>(&mut self, system: &S)
        ensures { self.new ≡ self.old }
    {
        self.schedule.blocked.read_clock(system);
    }

    /// The lane of a call that has waited and may now find something. The next turn looks at this lane only.
    pub fn next_due(&self) -> Option<usize> {
        match self.schedule.blocked.next_due() {
            Some(due) if due.may_wait => Some(due.lane),
            _ => None,
        }
    }

    /// Lets others come before the lane that `next_due` returned, because its client has left. Its call waits for a
    /// second more.
    pub fn postpone<S: time::Clock>(&mut self, system: &S, lane: usize)
        ensures { self.new ≡ self.old }
    {
        self.schedule.blocked.postpone(system, lane);
    }

    /// Waits like `idle`, but at most up to the end of the first of the waits.
    pub fn idle_until<R: Wait + time::Clock>(&self, rt: &R) {
        self.schedule
            .backoff
            .snooze_until(rt, self.schedule.blocked.next_end());
    }

    /// The waker of this keeper.
    pub fn waker(&self) -> Result<Waker, AllocError> {
        self.schedule.backoff.waker()
    }
}

impl<L: EventLog + Drop> Keeper<LogJournal<L>> {
    /// Whether its log has failed. If so, no call is served any more.
    pub fn has_failed(&self) -> bool {
        self.journal.has_failed()
    }

    /// The number of events that its log is known to keep, without those that it had at the start.
    pub fn events_kept(&self) -> u64 {
        self.journal.events_kept()
    }
}

impl Keeper {
    ghost use Rattle.std.specs.Prelude.{◌≡◌, ℕ, List};
    ghost use Rattle.xs_bytes.specs.SortedMap.{empty};
    ghost use Rattle.xs_desk.specs.ServedCalls.{ServedCall, AreCallsOf};
    ghost use Rattle.xs_desk.specs.LaneEnds.{desk_of};

    /// Takes the keeper apart, if no client waits for it any more.
    pub(crate) fn into_parts(self) -> (Vec<LaneEnd>, Keyspace)
        ensures parts { (place : ℕ) × (self ≡ desk_of result.0.items result.1 place empty) }
        ensures calls { (calls : List ServedCall) × AreCallsOf calls self }
    {
        let Keeper {
            lane_ends,
            keyspace,
            place: _,
            schedule: _schedule,
            gone: _gone,
            journal: _journal,
        } = self;
        (lane_ends, keyspace)
    }
}
