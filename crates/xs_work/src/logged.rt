//! Work over gates at a desk with a log.
ghost use Rattle.std.specs.Prelude.{◌≡◌, ◌≤◌, false, [], length, vec_capacity};
ghost use Rattle.xs_desk.specs.LogJournals.{ContinuesLog};
ghost use Rattle.xs_work.specs.WorkOutcome.{IsLoggedEnd};

use crate::fault::WorkFault;
use crate::gate::Gate;
use crate::mode::Mode;
use crate::started::{StartedThreads, WorkerPool, make_pool, start_threads};
use std::alloc::Global;
use std::snapshot::Snapshot;
use std::sync::Wait;
use std::thread::Threads;
use xs_desk::{Journal, Keeper, logged_desk};
use xs_keys::{Clock, Keyspace};
use xs_replay::EventLog;

/// Why work with a log has ended.
#[derive(Clone, Copy, Debug, PartialEq, Eq)]
pub enum LoggedEnd {
    /// The work did not begin, or a gate refused a connection, or there was no further place.
    Work(WorkFault),
    /// The log has failed. This many events of this life are kept.
    Log { kept: u64 },
}

/// Runs the keeper and the workers, each in a thread of its own, up to the end of the keeper. It doesn't wait for
/// workers that then still wait for a connection or a request. If a thread can't be started, no call is served.
fn run_to_end_of_keeper<
    J: Journal + Send + Drop + 'static,
    G: Gate + Send + Drop + 'static,
    C: Clock + Send + Drop + 'static,
    M: Mode<G> + Send + Drop + 'static,
    R: Threads + Wait + Copy + Send + 'static,
>(rt: &R, keeper: Keeper<J>, clock: C, mode: M, pool: WorkerPool<G, M::Pause>) -> Option<Keeper<J>>
    requires { (pool.started.items ≡ []) × (length pool.workers.items ≤ vec_capacity pool.started) }
{
    let WorkerPool {
        workers,
        started,
        ended: _,
        gates: _,
        lifecycle,
    } = pool;
    let StartedThreads {
        keeper,
        workers: _workers,
        all,
    } = start_threads(rt, keeper, clock, mode, workers, started, &lifecycle)?;
    let keeper = keeper.join(rt);
    if all { Some(keeper) } else { None }
}

/// Serves the connections of 1 to 1024 gates like `work_with`, over a keyspace with the content after a log's events.
/// Before them the content was `first`. An answer is handed out once the log keeps the events of its call and of those
/// before it. The work ends if the log fails, or if no gate gives a further connection. Returns why it ended.
pub fn work_logged<
    L: EventLog + Send + Drop + 'static,
    G: Gate + Send + Drop + 'static,
    C: Clock + Send + Drop + 'static,
    M: Mode<G> + Send + Drop + 'static,
    R: Threads + Wait + Copy + Send + 'static,
>(
    rt: &R,
    alloc: Global,
    gates: Vec<G>,
    depth: usize,
    clock: C,
    mode: M,
    keyspace: Keyspace,
    first: Snapshot<Keyspace>,
    log: L,
) -> LoggedEnd
    requires log { ContinuesLog L.has first.value log keyspace }
    requires sound { L.broken log ≡ false }
    ensures { IsLoggedEnd 1024 (length gates.items) depth result }
{
    let (keeper, clients) = match logged_desk(alloc, gates.len(), depth, keyspace, first, log) {
        Ok(made) => made,
        Err(fault) => return LoggedEnd::Work(WorkFault::Desk(fault)),
    };
    let Ok(pool) = make_pool(alloc, &keeper, clients, gates, &mode) else {
        return LoggedEnd::Work(WorkFault::Memory);
    };
    let Some(keeper) = run_to_end_of_keeper(rt, keeper, clock, mode, pool) else {
        return LoggedEnd::Work(WorkFault::Start);
    };
    if keeper.has_failed() {
        return LoggedEnd::Log {
            kept: keeper.events_kept(),
        };
    }
    LoggedEnd::Work(WorkFault::Gate)
}
