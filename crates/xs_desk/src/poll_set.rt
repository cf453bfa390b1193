//! Which lanes the keeper looks at. No contract depends on it.
//!
//! A lane that has had no call while others had a whole round of them is at rest: the keeper looks at it again once its
//! client gives notice. Both are stored in words that all lanes share, with a bit for each. So a turn over many lanes
//! costs little more than those in use, and a client that calls again and again writes only to the words of its rings.
//!
//! Nothing is missed, since all loads and stores have one order. Before the last looks of a round the keeper stores
//! which lanes will be at rest unless these looks find a call. A client pushes or takes something, and then loads that.
//! If the keeper's look came before the push, so did its store: the client finds the lane at rest, and gives notice
//! before its call ends. If the look came after the push, it has found what was pushed.
//!
//! Notices have two levels, so a turn reads one word if there are none. A client sets its lane's bit in a word of
//! notices, then that word's bit in the word above; the keeper takes the word above first. So a bit below that it
//! doesn't take has, or gets, its bit above.
ghost use Rattle.std.specs.Prelude.{◌≤◌, ◌<◌, ◌^◌, IfSome};

use crate::lane_set::{LaneSet, bit_of, word_of};
use crate::wait_marks::WaitMarks;
use crate::waiting::Waker;
use std::alloc::{AllocError, Global};
use std::sync::Arc;
use std::sync::atomic::{AtomicU64, Ordering};

/// The number of calls in a round. The others of the turn in which the last of them is served are in the round too, and
/// those of the next turn, which looks a last time.
const ROUND: u32 = 64;

/// What the keeper and the clients of 64 lanes share: a bit for each lane.
#[derive(Drop)]
struct Rests {
    // The lanes at rest; the keeper stores them.
    resting: AtomicU64,
    // The lanes whose clients gave notice; the keeper takes them.
    notices: AtomicU64,
}

/// What the keeper and all clients share.
#[derive(Drop)]
struct Board {
    rests: Vec<Rests>,
    // A bit for each of the words of notices: some client has set a bit in it.
    noticed: AtomicU64,
}

/// The lanes that the keeper looks at.
#[derive(Drop)]
pub(crate) struct PollSet {
    lanes: LaneSet,
    // The lanes that had a call in this round.
    used: LaneSet,
    // The number of calls in this round so far.
    calls: u32,
    // Whether the round ends with this turn.
    is_last: bool,
    board: Arc<Board>,
}

/// By which the client of a lane notifies the keeper.
#[derive(Drop)]
pub(crate) struct Registration {
    lane: usize,
    board: Arc<Board>,
    // Wakes the keeper.
    waker: Waker,
    marks: Arc<WaitMarks>,
}

impl PollSet {
    /// Room for `lanes` lanes. None is looked at.
    pub fn new(alloc: Global, lanes: usize) -> Result<PollSet, AllocError> {
        let mut rests = Vec::new(alloc);
        for _ in (0..lanes).step_by(64) {
            rests.push(Rests {
                resting: AtomicU64::new(0),
                notices: AtomicU64::new(0),
            })?;
        }
        let board = Board {
            rests,
            noticed: AtomicU64::new(0),
        };
        Ok(PollSet {
            lanes: LaneSet::new(),
            used: LaneSet::new(),
            calls: 0,
            is_last: false,
            board: Arc::new(alloc, board)?,
        })
    }

    /// The registration of a lane, which is looked at from now on. `waker` wakes the keeper.
    pub fn register(
        &mut self,
        lane: usize,
        waker: Waker,
        marks: Arc<WaitMarks>,
    ) -> Result<Registration, AllocError> {
        let board = Arc::try_clone(&self.board)?;
        self.lanes.insert(lane);
        Ok(Registration {
            lane,
            board,
            waker,
            marks,
        })
    }

    /// Begins a turn over all lanes that are looked at.
    pub fn begin_turn(&mut self) {
        if self.is_last {
            self.end_round();
        }
        self.take_notices();
        if self.calls >= ROUND {
            self.is_last = true;
            self.let_rest_all_but(self.used);
        }
    }

    /// The first lane to look at that is at least `from` and below `end`.
    pub fn first_from(&self, from: usize, end: usize) -> Option<usize>
        requires { end < 2 ^ 63 }
        ensures { IfSome result (λ lane. (from ≤ lane) × (lane < end)) }
    {
        self.lanes.first_from(from, end)
    }

    /// Notes that a look at the lane has found a call.
    pub fn found(&mut self, lane: usize) {
        self.used.insert(lane);
        self.calls = self.calls.saturating_add(1);
    }

    /// The lane is looked at from now on.
    pub fn insert(&mut self, lane: usize) {
        self.lanes.insert(lane);
    }

    /// The lane isn't looked at until it is inserted, or gives notice.
    pub fn remove(&mut self, lane: usize) {
        self.lanes.remove(lane);
    }

    fn end_round(&mut self) {
        self.lanes = self.used;
        self.used = LaneSet::new();
        self.calls = 0;
        self.is_last = false;
        self.let_rest_all_but(self.lanes);
    }

    fn take_notices(&mut self) {
        if self.board.noticed.load(Ordering::SeqCst) == 0 {
            return;
        }
        let noticed = self.board.noticed.swap(0, Ordering::SeqCst);
        for (place, rests) in self.board.rests.iter().enumerate() {
            if noticed & bit_of(place) != 0 {
                let bits = rests.notices.swap(0, Ordering::SeqCst);
                self.lanes.insert_bits(place, bits);
                rests
                    .resting
                    .store(!self.lanes.word(place), Ordering::SeqCst);
            }
        }
    }

    fn let_rest_all_but(&self, lanes: LaneSet) {
        for (place, rests) in self.board.rests.iter().enumerate() {
            rests.resting.store(!lanes.word(place), Ordering::SeqCst);
        }
    }
}

impl Registration {
    /// Notifies the keeper of a call, or of room for an answer, if it doesn't look at the lane. The notice comes before
    /// the waker: if the keeper sleeps, the turn to which it wakes finds the notice; if it doesn't yet, the look after
    /// which it may sleep comes later than the notice.
    pub fn notify(&self) {
        if let Some(rests) = self.board.rests.get(word_of(self.lane)) {
            if rests.resting.load(Ordering::SeqCst) & bit_of(self.lane) != 0 {
                self.give_notice(rests);
            }
        }
        self.waker.wake_if_asleep();
    }

    /// Notifies the keeper that no call with a ticket below this one waits, so it looks at the lane.
    pub fn hurry(&self, ticket: u64) {
        self.marks.hurry_below(ticket);
        if let Some(rests) = self.board.rests.get(word_of(self.lane)) {
            self.give_notice(rests);
        }
        self.waker.wake_if_asleep();
    }

    /// Whether the keeper was seen to let the call before this ticket wait.
    pub fn is_blocked_before(&self, ticket: u64) -> bool {
        self.marks.is_blocked_before(ticket)
    }

    fn give_notice(&self, rests: &Rests) {
        rests.notices.fetch_or(bit_of(self.lane), Ordering::SeqCst);
        self.board
            .noticed
            .fetch_or(bit_of(word_of(self.lane)), Ordering::SeqCst);
    }
}
