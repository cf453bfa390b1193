//! The queue of connections that wait for a worker.
use std::alloc::{AllocError, Global};
use std::collections::VecDeque;
use std::net::TcpStream;
use std::sync::{Condvar, Mutex, Wait};
use std::time::{Clock, Duration, Instant};

/// How long a connection waits for a worker, in milliseconds.
const PATIENCE_MILLIS: u64 = 1000;

/// How long the thread that refuses connections sleeps while it has some in hand, in milliseconds.
const BEAT_MILLIS: u64 = 10;

/// A connection that waits for a worker.
#[derive(Drop)]
struct Arrival {
    stream: TcpStream,
    since: Instant,
}

#[derive(Drop)]
struct Waiting {
    arrivals: VecDeque<Arrival>,
    // Connections that had to make room.
    leaving: VecDeque<TcpStream>,
    // The number of workers that wait for a connection.
    idle_workers: usize,
    // An upper bound of the workers that haven't come for their first connection yet.
    starting_workers: usize,
    // Whether no further connection comes.
    is_closed: bool,
}

/// The queue of connections that wait for a worker, in the order in which they came.
#[derive(Drop)]
pub struct Hall {
    waiting: Mutex<Waiting>,
    // A connection has come for a worker, or none comes any more.
    arrived: Condvar,
    // More connections wait than workers.
    crowded: Condvar,
    room: usize,
}

/// What the thread that refuses connections has to do.
#[derive(Drop)]
pub enum Overdue {
    /// No worker was free for this one in time, or it had to make room.
    Leaves(TcpStream),
    /// Nothing yet.
    Nobody,
    /// No further connection comes.
    Closed,
}

impl Hall {
    /// A hall for `workers` workers, with room for `room` connections, at least one, besides those that workers are
    /// about to take.
    pub fn new(alloc: Global, room: usize, workers: usize) -> Result<Hall, AllocError> {
        let most = room.max(1).saturating_add(workers);
        let waiting = Waiting {
            arrivals: VecDeque::with_capacity(alloc, most)?,
            leaving: VecDeque::new(alloc),
            idle_workers: 0,
            starting_workers: workers,
            is_closed: false,
        };
        Ok(Hall {
            waiting: Mutex::new(waiting),
            arrived: Condvar::new(),
            crowded: Condvar::new(),
            room: room.max(1),
        })
    }

    /// Lets a connection in that came at this moment. If there is no room, the one that has waited longest has to
    /// leave.
    pub fn enter<R: Wait>(&self, rt: &R, stream: TcpStream, since: Instant) {
        let mut waiting = self.waiting.lock(rt);
        let takers = waiting
            .idle_workers
            .saturating_add(waiting.starting_workers);
        if waiting.arrivals.len() >= self.room.saturating_add(takers) {
            if let Some(arrival) = waiting.arrivals.pop_front() {
                // Without memory it is closed at once.
                let _ = waiting.leaving.push_back(arrival.stream);
                self.crowded.notify_one();
            }
        }
        // There is room, so this takes no memory.
        if waiting
            .arrivals
            .push_back(Arrival { stream, since })
            .is_ok()
        {
            self.arrived.notify_one();
        }
        if waiting.arrivals.len() > waiting.idle_workers {
            self.crowded.notify_one();
        }
    }

    /// Waits for a connection, and returns the one that has waited longest. None if no further one comes.
    pub fn next<R: Wait>(&self, rt: &R) -> Option<TcpStream> {
        let mut waiting = self.waiting.lock(rt);
        waiting.starting_workers = waiting.starting_workers.saturating_sub(1);
        waiting.idle_workers = waiting.idle_workers.saturating_add(1);
        let mut waiting = self.arrived.wait_while(rt, waiting, |waiting| {
            waiting.arrivals.is_empty() && !waiting.is_closed
        });
        waiting.idle_workers = waiting.idle_workers.saturating_sub(1);
        Some(waiting.arrivals.pop_front()?.stream)
    }

    /// Waits until a connection has waited too long for a worker, and returns it. If the caller is busy, it soon
    /// returns `Nobody`.
    pub fn next_overdue<R: Wait + Clock>(&self, rt: &R, is_busy: bool) -> Overdue {
        let patience = Duration::from_millis(PATIENCE_MILLIS);
        let mut waiting = self.waiting.lock(rt);
        if waiting.is_closed {
            return Overdue::Closed;
        }
        if let Some(stream) = waiting.leaving.pop_front() {
            return Overdue::Leaves(stream);
        }
        let waited = match waiting.arrivals.front() {
            Some(arrival) => arrival.since.elapsed(rt).unwrap_or(patience),
            None => Duration::from_secs(0),
        };
        if waited >= patience {
            if let Some(arrival) = waiting.arrivals.pop_front() {
                return Overdue::Leaves(arrival.stream);
            }
        }
        let left = patience.saturating_sub(waited);
        if is_busy {
            let _ = self
                .crowded
                .wait_timeout(rt, waiting, left.min(Duration::from_millis(BEAT_MILLIS)));
        } else if waiting.arrivals.is_empty() {
            let _ = self.crowded.wait(rt, waiting);
        } else {
            let _ = self.crowded.wait_timeout(rt, waiting, left);
        }
        Overdue::Nobody
    }

    /// Notes that no further connection comes.
    pub fn close<R: Wait>(&self, rt: &R) {
        self.waiting.lock(rt).is_closed = true;
        self.arrived.notify_all();
        self.crowded.notify_all();
    }
}
