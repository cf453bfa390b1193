//! What both sides of a lane share about calls that wait. No contract depends on it.
use std::sync::atomic::{AtomicU64, Ordering};

/// What both sides of a lane share about calls that wait.
#[derive(Drop)]
pub(crate) struct WaitMarks {
    // No call with a ticket below it waits; the client stores it.
    hurried: AtomicU64,
    // The ticket after that of the call that was last found to wait; the keeper stores it.
    behind_blocked: AtomicU64,
}

impl WaitMarks {
    /// No call has been found to wait, and each may.
    pub fn new() -> WaitMarks {
        WaitMarks {
            hurried: AtomicU64::new(0),
            behind_blocked: AtomicU64::new(0),
        }
    }

    /// No call with a ticket below this one waits any longer.
    pub fn hurry_below(&self, ticket: u64) {
        self.hurried.store(ticket, Ordering::SeqCst);
    }

    /// Whether the call with this ticket needn't be served at once.
    pub fn may_wait(&self, ticket: u64) -> bool {
        ticket >= self.hurried.load(Ordering::SeqCst)
    }

    /// Notes that the call with this ticket waits.
    pub fn found_blocked(&self, ticket: u64) {
        self.behind_blocked
            .store(ticket.saturating_add(1), Ordering::SeqCst);
    }

    /// Whether the call before this ticket was the last that was found to wait.
    pub fn is_blocked_before(&self, ticket: u64) -> bool {
        ticket == self.behind_blocked.load(Ordering::SeqCst)
    }
}
