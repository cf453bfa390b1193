//! A desk whose clients and keeper each have a thread.
ghost use Rattle.std.specs.Prelude.{◌≡◌, ℕ, ◌<◌, IfOk, length, map, slice_index_or};
ghost use Rattle.xs_desk.specs.KeptRings.{KeepsRings, KeepsSide, KeepSides};

use std::alloc::{AllocError, Global};
use std::snapshot::Snapshot;
use std::sync::Wait;
use std::sync::atomic::{AtomicBool, Ordering};
use std::thread;
use std::thread::Threads;
use xs_desk::{Client, Keeper, SameRings};
use xs_keys::Clock;

/// The most turns of a client or a keeper.
pub const MOST_TURNS: u64 = 100_000_000;

/// What a thread does with its client.
pub trait Job {
    ghost use Rattle.xs_desk.specs.KeptRings.{KeepsSide};

    fn run<R: Wait>(&mut self, rt: &R, client: Client) -> Client
        ensures { KeepsSide client result };
}

/// A client and its job.
#[derive(Drop)]
pub struct Seated<J> {
    client: Client,
    job: J,
}

/// Turns until `stop` is set and no call is found. It is idle after a turn that served no call.
pub fn keep<C: Clock + Drop, R: Wait>(rt: &R, keeper: Keeper, clock: C, stop: &AtomicBool) -> Keeper
    ensures { KeepsRings keeper result }
{
    let mut keeper = keeper;
    let mut clock = clock;
    for _ in 0..MOST_TURNS {
        let stops = stop.load(Ordering::SeqCst);
        match keeper.turn(&mut clock) {
            Ok(0) if stops => break,
            Ok(0) => keeper.idle(rt),
            Ok(_) => {}
            Err(_) => break,
        }
    }
    keeper
}

/// A client for each job, as far as there are jobs.
fn seat_all<J: Drop>(
    alloc: Global,
    clients: Vec<Client>,
    jobs: Vec<J>,
) -> Result<Vec<Seated<J>>, AllocError>
    ensures { IfOk result (λ seated. map (λ s. s.client) seated.items ≡ clients.items) }
{
    let mut jobs = jobs.into_iter();
    let mut seated = Vec::new(alloc);
    for client in clients {
        let Some(job) = jobs.next() else {
            return Err(AllocError);
        };
        seated.push(Seated { client, job })?;
    }
    Ok(seated)
}

/// The clients, and their jobs.
fn parted<J: Drop>(
    alloc: Global,
    seated: Vec<Seated<J>>,
) -> Result<(Vec<Client>, Vec<J>), AllocError>
    ensures { IfOk result (λ r. r.0.items ≡ map (λ s. s.client) seated.items) }
{
    let mut clients = Vec::new(alloc);
    let mut jobs = Vec::new(alloc);
    for one in seated {
        let Seated { client, job } = one;
        clients.push(client)?;
        jobs.push(job)?;
    }
    Ok((clients, jobs))
}

fn run_one<J: Job + Drop, R: Wait>(rt: &R, seated: Seated<J>) -> Seated<J>
    ensures { KeepsSide seated.client result.client }
{
    let Seated { client, mut job } = seated;
    let client = job.run(rt, client);
    Seated { client, job }
}

fn run_all<J: Job + Send + Drop, R: Threads + Wait + Sync>(
    rt: &R,
    seated: Vec<Seated<J>>,
) -> Result<Vec<Seated<J>>, AllocError>
    ensures len { IfOk result (λ v. length v.items ≡ length seated.items) }
    ensures each { IfOk result (λ v. (i : ℕ) (s : _) (e : _) → i < length seated.items
        → KeepsSide (slice_index_or seated.items i s).client (slice_index_or v.items i e).client) }
{
    thread::map_vec(
        rt,
        seated,
        &|s: Seated<J>| -> Seated<J>
            ensures { KeepsSide s.client result.client }
        { run_one(rt, s) },
    )
}

/// Runs the keeper and the jobs at once, until all jobs have ended.
fn run_both<J: Job + Send + Drop, C: Clock + Send + Drop, R: Threads + Wait + Sync>(
    rt: &R,
    keeper: Keeper,
    clock: C,
    seated: Vec<Seated<J>>,
) -> Result<(Keeper, Vec<Seated<J>>), AllocError>
    ensures keeper { IfOk result (λ r. KeepsRings keeper r.0) }
    ensures len { IfOk result (λ r. length r.1.items ≡ length seated.items) }
    ensures each { IfOk result
        (λ r. (i : ℕ) (s : _) (e : _) → i < length seated.items
        → KeepsSide (slice_index_or seated.items i s).client (slice_index_or r.1.items i e).client) }
{
    let waker = keeper.waker()?;
    let stop = AtomicBool::new(false);
    let stop = &stop;
    thread::scope(
        thread::scope_env(),
        rt,
        move |scope| -> Result<(Keeper, Vec<Seated<J>>), AllocError>
            ensures keeper { IfOk result (λ r. KeepsRings keeper r.0) }
            ensures len { IfOk result (λ r. length r.1.items ≡ length seated.items) }
            ensures each { IfOk result
                (λ r. (i : ℕ) (s : _) (e : _) → i < length seated.items
                → KeepsSide (slice_index_or seated.items i s).client (slice_index_or r.1.items i e).client) }
        {
            let promise = SameRings(Snapshot::of(&keeper));
            let Ok(kept) = scope.spawn_with(promise, move || keep(rt, keeper, clock, stop)) else {
                return Err(AllocError);
            };
            let done = run_all(rt, seated);
            stop.store(true, Ordering::SeqCst);
            waker.wake();
            let keeper = kept.join(rt);
            match done {
                Ok(seated) => Ok((keeper, seated)),
                Err(AllocError) => Err(AllocError),
            }
        },
    )
}

/// Runs a job for each client, at once with the keeper. What comes back has kept the rings.
pub fn run_jobs<J: Job + Send + Drop, C: Clock + Send + Drop, R: Threads + Wait + Sync>(
    rt: &R,
    alloc: Global,
    keeper: Keeper,
    clients: Vec<Client>,
    clock: C,
    jobs: Vec<J>,
) -> Result<(Keeper, Vec<Client>, Vec<J>), AllocError>
    ensures keeper { IfOk result (λ r. KeepsRings keeper r.0) }
    ensures clients { IfOk result (λ r. KeepSides clients.items r.1.items) }
{
    let seated = seat_all(alloc, clients, jobs)?;
    let (keeper, seated) = run_both(rt, keeper, clock, seated)?;
    let (clients, jobs) = parted(alloc, seated)?;
    Ok((keeper, clients, jobs))
}
