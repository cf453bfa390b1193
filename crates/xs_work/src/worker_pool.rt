//! The workers, each in a thread of its own.
ghost use Rattle.std.specs.Prelude.{◌≡◌, ◌≤◌, true, [], length, map, vec_capacity, IfOk, IfSome, is_err};
ghost use Rattle.xs_desk.specs.KeptRings.{KeepsSide, KeepSides};
ghost use Rattle.xs_work.specs.Workers.{WorkEach};

use crate::gate::Gate;
use crate::lifecycle::Lifecycle;
use crate::mode::{Attend, Mode};
use crate::worker::{Worked, Worker, WorkerFault, run_worker};
use std::alloc::{AllocError, Global};
use std::snapshot::Snapshot;
use std::sync::{Arc, Wait};
use std::thread::{Builder, Promise, PromisedHandle, Threads};
use xs_bytes::U63;
use xs_desk::{Client, Ended};

/// The bytes of stack of a thread: twice the deepest that was seen in use, and more.
pub const STACK: usize = 262_144;

/// A worker returns the end of this client's lane, and this gate, in the state in which it left both.
#[derive(Drop)]
pub struct SameSide<G: Gate + Drop>(pub Snapshot<Client>, pub Snapshot<G>);

impl<G: Gate + Drop> Promise<Worked<G>> for SameSide<G> {
    ghost use Rattle.std.specs.Prelude.{is_err};
    ghost use Rattle.xs_desk.specs.KeptRings.{KeepsSide};
    ghost use Rattle.xs_work.specs.Workers.{Works};

    ghost kept_by = { λ p worked. KeepsSide p.0.value worked.ended
        × Works (is_err worked.outcome) p.0.value worked.ended (G.trace p.1.value) (G.trace worked.gate) };
}

/// A worker in its thread.
pub type WorkerThread<G> = PromisedHandle<Worked<G>, SameSide<G>>;

/// A worker for each gate.
pub fn make_workers<G: Drop, M: Mode<G>>(
    alloc: Global,
    clients: Vec<Client>,
    gates: Vec<G>,
    mode: &M,
) -> Result<Vec<Worker<G, M::Pause>>, AllocError>
    requires count { length clients.items ≡ length gates.items }
    ensures clients { IfOk result (λ workers. map (λ w. w.client) workers.items ≡ clients.items) }
    ensures gates { IfOk result (λ workers. map (λ w. w.gate) workers.items ≡ gates.items) }
{
    let mut gates = gates.into_iter();
    let mut workers = Vec::with_capacity(alloc, clients.len())?;
    for client in clients {
        let Some(gate) = gates.next() else {
            return Err(AllocError);
        };
        let pause = mode.pause_of(&gate)?;
        let number = U63::new(workers.len() as u64);
        let memory = mode.memory(alloc, number)?;
        workers.push(Worker {
            client,
            gate,
            pause,
            memory,
        })?;
    }
    Ok(workers)
}

fn start<
    G: Gate + Send + Drop + 'static,
    P: Attend + Send + Drop + 'static,
    R: Threads + Wait + Copy + Send + 'static,
>(rt: &R, worker: Worker<G, P>, lifecycle: Arc<Lifecycle>) -> Option<WorkerThread<G>>
    ensures client { IfSome result (λ started. started.promise.0.value ≡ worker.client) }
    ensures gate { IfSome result (λ started. started.promise.1.value ≡ worker.gate) }
{
    let handle = *rt;
    let promise = SameSide(Snapshot::of(&worker.client), Snapshot::of(&worker.gate));
    match Builder::new().stack_size(STACK).spawn_with(
        rt,
        promise,
        move || run_worker(&handle, worker, &lifecycle),
    ) {
        Ok(started) => Some(started),
        Err(_) => None,
    }
}

/// Starts a thread for each worker, up to the first that can't be started. Returns whether all were. There has to be
/// room for them.
pub fn start_all<
    G: Gate + Send + Drop + 'static,
    P: Attend + Send + Drop + 'static,
    R: Threads + Wait + Copy + Send + 'static,
>(
    rt: &R,
    workers: Vec<Worker<G, P>>,
    lifecycle: &Arc<Lifecycle>,
    started: &mut Vec<WorkerThread<G>>,
) -> bool
    requires room { (started.old.items ≡ []) × (length workers.items ≤ vec_capacity started.old) }
    ensures count { length started.new.items ≤ length workers.items }
    ensures all { result ≡ true → map (λ s. s.promise.0.value) started.new.items ≡ map (λ w. w.client) workers.items }
    ensures gates { result ≡ true → map (λ s. s.promise.1.value) started.new.items ≡ map (λ w. w.gate) workers.items }
{
    for worker in workers {
        let Ok(told) = Arc::try_clone(lifecycle) else {
            return false;
        };
        let Some(one) = start(rt, worker, told) else {
            return false;
        };
        if started.push(one).is_err() {
            unreachable!();
        }
    }
    true
}

/// Waits for the end of each worker. There has to be room for the ends of lanes and for the gates.
///
/// # Errors
/// A `WorkerFault`, that of the first worker that had one. No end or gate is missing.
pub fn join_all<G: Gate + Drop, R: Threads>(
    rt: &R,
    started: Vec<WorkerThread<G>>,
    ended: &mut Vec<Ended>,
    gates: &mut Vec<G>,
) -> Result<(), WorkerFault>
    requires room { (ended.old.items ≡ []) × (length started.items ≤ vec_capacity ended.old) }
    requires gate_room { (gates.old.items ≡ []) × (length started.items ≤ vec_capacity gates.old) }
    ensures count { length ended.new.items ≡ length started.items }
    ensures gates { length gates.new.items ≡ length started.items }
    ensures sides { KeepSides (map (λ s. s.promise.0.value) started.items) ended.new.items }
    ensures work { WorkEach (is_err result) (map (λ s. s.promise.0.value) started.items) ended.new.items
        (map (λ s. G.trace s.promise.1.value) started.items) (map G.trace gates.new.items) }
{
    let mut outcome = Ok(());
    for one in started {
        let worked = one.join(rt);
        outcome = outcome.and(worked.outcome);
        if ended.push(worked.ended).is_err() {
            unreachable!();
        }
        if gates.push(worked.gate).is_err() {
            unreachable!();
        }
    }
    outcome
}
