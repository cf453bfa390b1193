//! Work over gates: a thread for each, and one for the keeper of their desk.
ghost use Rattle.std.specs.Prelude.{◌≡◌, ◌⊎◌, ◌<◌, ◌≤◌, ℕ, true, false, [], length, map, vec_capacity};
ghost use Rattle.std.specs.Prelude.{List, None, IfOk, IfErr, IfSome, IsSome, IsErrAnd, OnOk, is_err};
ghost use Rattle.xs_desk.specs.Callers.{AreEndsOfLanes, HasEndOfLane};
ghost use Rattle.xs_desk.specs.KeptRings.{KeepsRings, KeepSides};
ghost use Rattle.xs_desk.specs.Opening.{AreNew, IsLaneCount, IsDepth};
ghost use Rattle.xs_work.specs.Gates.{GateTrace};
ghost use Rattle.xs_work.specs.Workers.{WorkEach};
ghost use Rattle.xs_work.specs.WorkOutcome.{AreServed, IsClosed, IsOfWorker, IsWorkFault, work_fault};

use crate::fault::WorkFault;
use crate::gate::Gate;
use crate::mode::{Bounded, Mode};
use crate::started::{StartedThreads, WorkerPool, make_pool, start_threads};
use crate::worker::WorkerFault;
use crate::worker_pool::join_all;
use std::alloc::Global;
use std::sync::Wait;
use std::thread::Threads;
use xs_desk::{Client, CloseError, DeskError, Ended, Keeper, Summary, close, wide_desk};
use xs_keys::Clock;

/// The most gates of `work`.
const MAX_GATES: usize = 64;

/// The result of work: the desk was closed, and the gates came back.
#[derive(Drop)]
pub struct WorkOutcome<G: Drop> {
    pub summary: Summary,
    /// In the order in which they were given.
    pub gates: Vec<G>,
}

/// Why work over gates failed.
#[derive(Drop)]
pub struct WorkFailed<G: Drop> {
    pub fault: WorkFault,
    /// The result of the work all the same. It is there if the fault is that of a worker: `Gate` or `Lane`.
    pub outcome: Option<WorkOutcome<G>>,
}

impl<G: Drop> WorkFailed<G> {
    /// A fault without a result.
    fn without_outcome(fault: WorkFault) -> Self
        ensures fault { result.fault ≡ fault }
        ensures outcome { result.outcome ≡ None }
    {
        Self {
            fault,
            outcome: None,
        }
    }
}

/// What came back from the threads.
#[derive(Drop)]
struct Done<G: Drop> {
    keeper: Keeper,
    ended: Vec<Ended>,
    gates: Vec<G>,
    // The fault of the first worker that had one.
    outcome: Result<(), WorkerFault>,
}

/// Runs the keeper and the workers, each in a thread of its own, to their ends. If a thread can't be started, no call
/// is served.
fn run_all<
    G: Gate + Send + Drop + 'static,
    C: Clock + Send + Drop + 'static,
    M: Mode<G> + Send + Drop + 'static,
    R: Threads + Wait + Copy + Send + 'static,
>(rt: &R, keeper: Keeper, clock: C, mode: M, pool: WorkerPool<G, M::Pause>) -> Option<Done<G>>
    requires started { (pool.started.items ≡ []) × (length pool.workers.items ≤ vec_capacity pool.started) }
    requires ended { (pool.ended.items ≡ []) × (length pool.workers.items ≤ vec_capacity pool.ended) }
    requires gates { (pool.gates.items ≡ []) × (length pool.workers.items ≤ vec_capacity pool.gates) }
    ensures keeper { IfSome result (λ done. KeepsRings keeper done.keeper) }
    ensures sides { IfSome result (λ done. KeepSides (map (λ w. w.client) pool.workers.items) done.ended.items) }
    ensures count { IfSome result (λ done. length done.ended.items ≡ length pool.workers.items) }
    ensures all { IfSome result (λ done. length done.gates.items ≡ length pool.workers.items) }
    ensures work { IfSome result (λ done. WorkEach (is_err done.outcome) (map (λ w. w.client) pool.workers.items)
        done.ended.items (map (λ w. G.trace w.gate) pool.workers.items) (map G.trace done.gates.items)) }
{
    let WorkerPool {
        workers,
        started,
        mut ended,
        mut gates,
        lifecycle,
    } = pool;
    let threads = start_threads(rt, keeper, clock, mode, workers, started, &lifecycle)?;
    let StartedThreads {
        keeper,
        workers,
        all,
    } = threads;
    let outcome = join_all(rt, workers, &mut ended, &mut gates);
    let keeper = keeper.join(rt);
    if !all {
        return None;
    }
    Some(Done {
        keeper,
        ended,
        gates,
        outcome,
    })
}

/// The fault of work for the fault of a worker.
fn fault_of(fault: WorkerFault) -> WorkFault
    ensures exact { result ≡ work_fault fault }
    ensures fault { (most n depth : ℕ) → IsLaneCount most n × IsDepth depth → IsWorkFault most n depth result }
{
    match fault {
        WorkerFault::Start => WorkFault::Start,
        WorkerFault::Gate => WorkFault::Gate,
        WorkerFault::Lane => WorkFault::Lane,
    }
}

/// Closes the desk. No end may be missing.
fn conclude<G: Gate + Drop>(alloc: Global, done: Done<G>) -> Result<WorkOutcome<G>, WorkFailed<G>>
    requires ends { AreEndsOfLanes done.keeper.lanes done.ended.items }
    requires all { (k : ℕ) → k < length done.keeper.lanes → HasEndOfLane done.ended.items k }
    ensures closed { (before : List GateTrace) → length done.keeper.lanes ≡ length before
        → AreServed (is_err done.outcome) done.ended.items before (map G.trace done.gates.items)
        → IfOk result (λ outcome. IsClosed false before (map G.trace outcome.gates.items) outcome.summary) }
    ensures stopped { (before : List GateTrace) → length done.keeper.lanes ≡ length before
        → AreServed (is_err done.outcome) done.ended.items before (map G.trace done.gates.items)
        → IfErr result (λ failed. IfSome failed.outcome (λ outcome. IsClosed true before
        (map G.trace outcome.gates.items) outcome.summary)) }
    ensures reported { IfErr result (λ failed. IsOfWorker failed.fault → IsSome failed.outcome) }
    ensures fault { (most n depth : ℕ) → IsLaneCount most n × IsDepth depth
        → IfErr result (λ failed. IsWorkFault most n depth failed.fault) }
    ensures worker { IfErr done.outcome (λ fault. IsErrAnd result (λ failed. (failed.fault ≡ work_fault fault)
        ⊎ (failed.fault ≡ WorkFault.Memory))) }
    ensures memory { OnOk done.outcome (IfErr result (λ failed. failed.fault ≡ WorkFault.Memory)) }
{
    let Done {
        keeper,
        ended,
        gates,
        outcome,
    } = done;
    let summary = match close(alloc, keeper, ended) {
        Ok(summary) => summary,
        Err(CloseError::Unfinished(_, _)) => return Err(WorkFailed::without_outcome(
            WorkFault::Close,
        )),
        Err(CloseError::Memory(_, _)) => return Err(WorkFailed::without_outcome(WorkFault::Memory)),
    };
    let closed = WorkOutcome { summary, gates };
    match outcome {
        Ok(()) => Ok(closed),
        Err(fault) => Err(WorkFailed {
            fault: fault_of(fault),
            outcome: Some(closed),
        }),
    }
}

fn open<G: Drop>(
    alloc: Global,
    n: usize,
    depth: usize,
) -> Result<(Keeper, Vec<Client>), WorkFailed<G>>
    ensures new { IfOk result (λ r. AreNew 0 depth r.0.lanes r.1.items × (length r.0.lanes ≡ n)) }
    ensures count { IfOk result (λ _. IsLaneCount 1024 n × IsDepth depth) }
    ensures fault { IfErr result (λ failed. IsWorkFault 1024 n depth failed.fault) }
    ensures reported { IfErr result (λ failed. IsOfWorker failed.fault → IsSome failed.outcome) }
    ensures none { IfErr result (λ failed. failed.outcome ≡ None) }
{
    match wide_desk(alloc, n, depth) {
        Ok(made) => Ok(made),
        Err(fault) => Err(WorkFailed::without_outcome(WorkFault::Desk(fault))),
    }
}

/// Serves the connections of 1 to 64 gates like `work_with`. No call waits.
///
/// # Errors
/// `WorkFailed`.
#[tactic(auto, using(crate::proofs::WorkerEnds::fewer_lanes))]
pub fn work<
    G: Gate + Send + Drop + 'static,
    C: Clock + Send + Drop + 'static,
    R: Threads + Wait + Copy + Send + 'static,
>(
    rt: &R,
    alloc: Global,
    gates: Vec<G>,
    depth: usize,
    clock: C,
) -> Result<WorkOutcome<G>, WorkFailed<G>>
    ensures closed { IfOk result (λ outcome. IsClosed false (map G.trace gates.items)
        (map G.trace outcome.gates.items) outcome.summary) }
    ensures stopped { IfErr result (λ failed. IfSome failed.outcome (λ outcome. IsClosed true
        (map G.trace gates.items) (map G.trace outcome.gates.items) outcome.summary)) }
    ensures reported { IfErr result (λ failed. IsOfWorker failed.fault → IsSome failed.outcome) }
    ensures fault { IfErr result (λ failed. IsWorkFault 64 (length gates.items) depth failed.fault) }
{
    if gates.len() > MAX_GATES {
        return Err(WorkFailed::without_outcome(WorkFault::Desk(DeskError::Lanes)));
    }
    work_with(rt, alloc, gates, depth, clock, Bounded)
}

/// Serves the connections of 1 to 1024 gates. Each gate has a thread, which serves its connections one after the other
/// through a lane of its own, and the keeper of the lanes has a thread too. After all gates have ended, the desk is
/// closed. The fault of a connection ends only that connection.
///
/// # Errors
/// `WorkFailed`.
pub fn work_with<
    G: Gate + Send + Drop + 'static,
    C: Clock + Send + Drop + 'static,
    M: Mode<G> + Send + Drop + 'static,
    R: Threads + Wait + Copy + Send + 'static,
>(
    rt: &R,
    alloc: Global,
    gates: Vec<G>,
    depth: usize,
    clock: C,
    mode: M,
) -> Result<WorkOutcome<G>, WorkFailed<G>>
    ensures closed { IfOk result (λ outcome. IsClosed false (map G.trace gates.items)
        (map G.trace outcome.gates.items) outcome.summary) }
    ensures stopped { IfErr result (λ failed. IfSome failed.outcome (λ outcome. IsClosed true
        (map G.trace gates.items) (map G.trace outcome.gates.items) outcome.summary)) }
    ensures reported { IfErr result (λ failed. IsOfWorker failed.fault → IsSome failed.outcome) }
    ensures fault { IfErr result (λ failed. IsWorkFault 1024 (length gates.items) depth failed.fault) }
{
    let (keeper, clients) = open::<G>(alloc, gates.len(), depth)?;
    let Ok(pool) = make_pool(alloc, &keeper, clients, gates, &mode) else {
        return Err(WorkFailed::without_outcome(WorkFault::Memory));
    };
    let Some(done) = run_all(rt, keeper, clock, mode, pool) else {
        return Err(WorkFailed::without_outcome(WorkFault::Start));
    };
    conclude(alloc, done)
}
