//! The threads of a desk: one for its keeper, and one for each worker.
ghost use Rattle.std.specs.Prelude.{◌≡◌, ◌≤◌, true, [], length, map, vec_capacity, IfOk, IfSome};

use crate::gate::Gate;
use crate::keeper_thread::{KeeperThread, start_keeper};
use crate::lifecycle::Lifecycle;
use crate::mode::Mode;
use crate::worker::Worker;
use crate::worker_pool::{WorkerThread, make_workers, start_all};
use std::alloc::{AllocError, Global};
use std::sync::{Arc, Wait};
use std::thread::Threads;
use xs_desk::{Client, Ended, Journal, Keeper, Pause};
use xs_keys::Clock;

/// All that the threads need, made before the first is started.
#[derive(Drop)]
pub struct WorkerPool<G: Gate + Drop, P: Drop> {
    pub workers: Vec<Worker<G, P>>,
    /// Room for the threads of the workers.
    pub started: Vec<WorkerThread<G>>,
    /// Room for the ends of lanes that come back from them.
    pub ended: Vec<Ended>,
    /// Room for the gates that come back.
    pub gates: Vec<G>,
    pub lifecycle: Arc<Lifecycle>,
}

/// A pool with a worker for each gate.
pub fn make_pool<G: Gate + Drop, M: Mode<G>, J: Journal + Drop>(
    alloc: Global,
    keeper: &Keeper<J>,
    clients: Vec<Client>,
    gates: Vec<G>,
    mode: &M,
) -> Result<WorkerPool<G, M::Pause>, AllocError>
    requires count { length clients.items ≡ length gates.items }
    ensures workers { IfOk result (λ pool. map (λ w. w.client) pool.workers.items ≡ clients.items) }
    ensures served { IfOk result (λ pool. map (λ w. w.gate) pool.workers.items ≡ gates.items) }
    ensures started { IfOk result (λ pool. (pool.started.items ≡ [])
        × (length pool.workers.items ≤ vec_capacity pool.started)) }
    ensures ended { IfOk result (λ pool. (pool.ended.items ≡ [])
        × (length pool.workers.items ≤ vec_capacity pool.ended)) }
    ensures gates { IfOk result (λ pool. (pool.gates.items ≡ [])
        × (length pool.workers.items ≤ vec_capacity pool.gates)) }
{
    let count = clients.len();
    let started = Vec::with_capacity(alloc, count)?;
    let ended = Vec::with_capacity(alloc, count)?;
    let room = Vec::with_capacity(alloc, count)?;
    let lifecycle = Arc::new(alloc, Lifecycle::new(count, keeper.waker()?))?;
    let workers = make_workers(alloc, clients, gates, mode)?;
    Ok(WorkerPool {
        workers,
        started,
        ended,
        gates: room,
        lifecycle,
    })
}

/// The threads that were started.
#[derive(Drop)]
pub struct StartedThreads<J: Journal + Drop + 'static, G: Gate + Drop> {
    pub keeper: KeeperThread<J>,
    pub workers: Vec<WorkerThread<G>>,
    /// Every thread was started. If not, the workers end before their first connection.
    pub all: bool,
}

/// Starts a thread for the keeper and one for each worker. None if the keeper's can't be started.
pub fn start_threads<
    J: Journal + Send + Drop + 'static,
    G: Gate + Send + Drop + 'static,
    C: Clock + Send + Drop + 'static,
    M: Mode<G> + Send + Drop + 'static,
    R: Threads + Wait + Copy + Send + 'static,
>(
    rt: &R,
    keeper: Keeper<J>,
    clock: C,
    mode: M,
    workers: Vec<Worker<G, M::Pause>>,
    started: Vec<WorkerThread<G>>,
    lifecycle: &Arc<Lifecycle>,
) -> Option<StartedThreads<J, G>>
    requires room { (started.items ≡ []) × (length workers.items ≤ vec_capacity started) }
    ensures keeper { IfSome result (λ threads. threads.keeper.promise.0.value ≡ keeper) }
    ensures count { IfSome result (λ threads. length threads.workers.items ≤ length workers.items) }
    ensures all { IfSome result (λ threads. threads.all ≡ true →
        map (λ s. s.promise.0.value) threads.workers.items ≡ map (λ w. w.client) workers.items) }
    ensures gates { IfSome result (λ threads. threads.all ≡ true →
        map (λ s. s.promise.1.value) threads.workers.items ≡ map (λ w. w.gate) workers.items) }
{
    let mut started = started;
    let told = Arc::try_clone(lifecycle).ok()?;
    let keeper = start_keeper::<J, C, M, R>(rt, keeper, clock, mode, told)?;
    let all = start_all(rt, workers, lifecycle, &mut started);
    if all {
        lifecycle.begin(rt);
    } else {
        lifecycle.give_up(rt);
    }
    Some(StartedThreads {
        keeper,
        workers: started,
        all,
    })
}
