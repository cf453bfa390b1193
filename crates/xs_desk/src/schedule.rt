//! Which lanes the keeper looks at, and when it sleeps. No contract depends on it.
ghost use Rattle.std.specs.Prelude.{◌≤◌, ◌<◌, ◌^◌, IfSome};

use crate::blocked::{BlockedCalls, Wish};
use crate::lane_end::{Done, Manner};
use crate::poll_set::PollSet;
use crate::waiting::Backoff;

/// Which lanes the keeper looks at, and when it sleeps.
#[derive(Drop)]
pub(crate) struct Schedule {
    pub poll_set: PollSet,
    pub blocked: BlockedCalls,
    pub backoff: Backoff,
    /// Whether calls may wait at all.
    pub lets_wait: bool,
}

/// The lanes of a turn: those of the poll set from `from` on and below `end`.
#[derive(Clone, Copy, Debug, PartialEq, Eq)]
pub(crate) struct Span {
    pub from: usize,
    pub end: usize,
    /// Whether their calls may wait.
    pub may_wait: bool,
}

impl Schedule {
    /// Begins a turn over a desk with `lanes` lanes: over the lane whose call is due next, or over all, or over those
    /// that were left out when the last turn ended early. The keeper sleeps only after one over all.
    pub fn begin_turn(&mut self, lanes: usize) -> Span {
        self.backoff.begin_look();
        if self.blocked.is_quiet() {
            return self.begin_whole_turn(lanes);
        }
        if let Some(due) = self.blocked.take_due() {
            self.backoff.begin_anew();
            self.poll_set.insert(due.lane);
            return Span {
                from: due.lane,
                end: due.lane.saturating_add(1),
                may_wait: due.may_wait,
            };
        }
        let from = self.blocked.take_start();
        if from == 0 || from >= lanes {
            return self.begin_whole_turn(lanes);
        }
        self.backoff.begin_anew();
        Span {
            from,
            end: lanes,
            may_wait: self.lets_wait,
        }
    }

    fn begin_whole_turn(&mut self, lanes: usize) -> Span {
        self.poll_set.begin_turn();
        Span {
            from: 0,
            end: lanes,
            may_wait: self.lets_wait,
        }
    }

    /// The first lane to look at that is at least `from` and below `end`.
    pub fn first_from(&self, from: usize, end: usize) -> Option<usize>
        requires { end < 2 ^ 63 }
        ensures { IfSome result (λ lane. (from ≤ lane) × (lane < end)) }
    {
        self.poll_set.first_from(from, end)
    }

    /// How the lanes of this span are looked at.
    pub fn manner(&self, span: &Span) -> Manner {
        Manner {
            may_wait: span.may_wait,
            others_wait: !self.blocked.is_empty(),
        }
    }

    /// A look has found that the call of this lane may wait. If it begins to, the keeper doesn't sleep before it has
    /// read the clock, and looks at the lane again once the call is due, or the client gives notice.
    pub fn found_blocked(&mut self, lane: usize, wish: Wish) {
        if self.blocked.has(lane) {
            self.blocked.found_nothing(wish);
        } else if self.blocked.begin(lane, wish) {
            self.backoff.begin_anew();
        }
        if self.blocked.has(lane) {
            self.poll_set.remove(lane);
        }
    }

    /// A call of this lane was served. Returns whether the turn ends, to be resumed at the next lane later, because a
    /// call that waits is due.
    pub fn found_call(&mut self, lane: usize, done: Done, next: usize) -> bool {
        self.poll_set.found(lane);
        self.backoff.found(done.moment);
        self.blocked.served(lane, done.touched, next)
    }
}
