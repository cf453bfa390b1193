//! The figures of the server for INFO. Each thread writes figures of its own, and any thread reads them.
use crossbeam_utils::CachePadded;
use std::alloc::{AllocError, Global};
use std::sync::Arc;
use std::sync::atomic::{AtomicBool, AtomicU64, Ordering};
use xs_session::Tally;

/// The figures of one worker, which only this worker writes.
#[derive(Drop)]
pub struct WorkerFigures {
    opened: AtomicU64,
    closed: AtomicU64,
    replies: AtomicU64,
    errors: AtomicU64,
}

/// The figures of a worker, in a cache line that no other thread writes.
pub type SharedFigures = Arc<CachePadded<WorkerFigures>>;

/// Counts one more. No other thread writes this figure.
fn count(figure: &AtomicU64) {
    let value = figure.load(Ordering::Relaxed);
    figure.store(value.wrapping_add(1), Ordering::Relaxed);
}

impl WorkerFigures {
    /// The figures of a worker that has served no connection.
    pub fn new(alloc: Global) -> Result<SharedFigures, AllocError> {
        let figures = WorkerFigures {
            opened: AtomicU64::new(0),
            closed: AtomicU64::new(0),
            replies: AtomicU64::new(0),
            errors: AtomicU64::new(0),
        };
        Ok(Arc::new(alloc, CachePadded::new(figures))?)
    }

    /// Counts a connection that begins.
    pub fn open(&self) {
        count(&self.opened);
    }

    /// Counts a connection that has ended.
    pub fn close(&self) {
        count(&self.closed);
    }

    /// Notes the number of answers over all its connections.
    pub fn note(&self, tally: Tally) {
        self.replies.store(tally.replies, Ordering::Relaxed);
        self.errors.store(tally.errors, Ordering::Relaxed);
    }
}

/// The sums of the figures of all workers.
#[derive(Clone, Copy, Debug, Default, PartialEq, Eq)]
pub struct Sums {
    pub opened: u64,
    pub closed: u64,
    pub replies: u64,
    pub errors: u64,
}

impl Sums {
    /// With the figures of one more worker.
    fn with(self, one: &WorkerFigures) -> Sums {
        Sums {
            opened: self.opened.wrapping_add(one.opened.load(Ordering::Relaxed)),
            closed: self.closed.wrapping_add(one.closed.load(Ordering::Relaxed)),
            replies: self
                .replies
                .wrapping_add(one.replies.load(Ordering::Relaxed)),
            errors: self.errors.wrapping_add(one.errors.load(Ordering::Relaxed)),
        }
    }

    /// The number of connections that are served.
    pub fn connected(&self) -> u64 {
        self.opened.saturating_sub(self.closed)
    }
}

/// The figures that the keeper reports between its turns, if they are requested.
#[derive(Drop)]
struct KeeperFigures {
    bytes_held: AtomicU64,
    blocked: AtomicU64,
    // The number of reports.
    reports: AtomicU64,
    // Whether a report is requested.
    asked: AtomicBool,
    // Whether it waits for calls, and has reported before.
    rests: AtomicBool,
}

/// The figures of the keeper between two turns.
#[derive(Clone, Copy, Debug, PartialEq, Eq)]
pub struct KeeperState {
    /// The number of bytes that the keys are counted with.
    pub bytes_held: u64,
    /// The number of calls that wait.
    pub blocked: u64,
}

/// The figures of all threads of a server.
#[derive(Drop)]
pub struct Figures {
    workers: Vec<SharedFigures>,
    keeper: CachePadded<KeeperFigures>,
}

impl Figures {
    /// The figures of a server with these workers.
    pub fn new(workers: Vec<SharedFigures>) -> Figures {
        let keeper = KeeperFigures {
            bytes_held: AtomicU64::new(0),
            blocked: AtomicU64::new(0),
            reports: AtomicU64::new(0),
            asked: AtomicBool::new(false),
            rests: AtomicBool::new(false),
        };
        Figures {
            workers,
            keeper: CachePadded::new(keeper),
        }
    }

    /// Reports the figures of the keeper.
    pub fn tell(&self, state: KeeperState) {
        self.keeper
            .bytes_held
            .store(state.bytes_held, Ordering::Relaxed);
        self.keeper.blocked.store(state.blocked, Ordering::Relaxed);
        let reports = self.keeper.reports.load(Ordering::Relaxed);
        self.keeper
            .reports
            .store(reports.wrapping_add(1), Ordering::SeqCst);
    }

    /// Notes that the keeper goes on. Returns whether a report is requested.
    pub fn is_asked(&self) -> bool {
        if self.keeper.rests.load(Ordering::Relaxed) {
            self.keeper.rests.store(false, Ordering::SeqCst);
        }
        if !self.keeper.asked.load(Ordering::SeqCst) {
            return false;
        }
        self.keeper.asked.store(false, Ordering::SeqCst);
        true
    }

    /// Notes that the keeper has reported, and waits for calls.
    pub fn rest(&self) {
        self.keeper.rests.store(true, Ordering::SeqCst);
    }

    /// Requests a report of the keeper. Returns the number of reports before.
    pub fn ask(&self) -> u64 {
        let reports = self.keeper.reports.load(Ordering::SeqCst);
        self.keeper.asked.store(true, Ordering::SeqCst);
        reports
    }

    /// Whether the keeper has reported since there were this many reports: then its figures include each answer that
    /// was given until then.
    pub fn has_reported_since(&self, reports: u64) -> bool {
        self.keeper.rests.load(Ordering::SeqCst)
            || self.keeper.reports.load(Ordering::SeqCst) != reports
    }

    /// The number of bytes that the keys are counted with.
    pub fn bytes_held(&self) -> u64 {
        self.keeper.bytes_held.load(Ordering::Relaxed)
    }

    /// The number of calls that wait.
    pub fn blocked(&self) -> u64 {
        self.keeper.blocked.load(Ordering::Relaxed)
    }

    /// The sums of the figures of all workers.
    pub fn sums(&self) -> Sums {
        let mut sums = Sums::default();
        for one in &self.workers {
            sums = sums.with(one);
        }
        sums
    }
}
