//! The keeper in a thread of its own.
ghost use Rattle.std.specs.Prelude.{◌≡◌, IfSome};
ghost use Rattle.xs_desk.specs.KeptRings.{KeepsRings};

use crate::lifecycle::Lifecycle;
use crate::mode::KeeperMode;
use crate::worker_pool::STACK;
use std::snapshot::Snapshot;
use std::sync::{Arc, Wait};
use std::thread::{Builder, PromisedHandle, Threads};
use xs_desk::{Journal, Keeper, SameRings};
use xs_keys::Clock;

/// A keeper in its thread.
pub type KeeperThread<J> = PromisedHandle<Keeper<J>, SameRings<J>>;

/// Keeps what was noted, and hands out the answers that wait for that. If there were none, and the last turn served no
/// call, it waits. Returns whether the keeper goes on.
fn rest<J: Journal + Drop, M: KeeperMode, R: Wait>(
    rt: &R,
    keeper: &mut Keeper<J>,
    mode: &M,
    lifecycle: &Lifecycle,
    is_idle: bool,
) -> bool
    ensures { keeper.new ≡ keeper.old }
{
    match keeper.settle() {
        Ok(0) if is_idle => {
            if lifecycle.has_ended() {
                return false;
            }
            mode.idle(rt, keeper);
            true
        }
        Ok(_) => true,
        Err(_) => false,
    }
}

/// Serves turn after turn, until all workers have ended and no call is left to serve, the log has failed, or there is
/// no further place.
fn keep<J: Journal + Drop, C: Clock + Drop, M: KeeperMode + Drop, R: Wait>(
    rt: &R,
    keeper: Keeper<J>,
    clock: C,
    mode: M,
    lifecycle: &Lifecycle,
) -> Keeper<J>
    ensures { KeepsRings keeper result }
{
    let mut keeper = keeper;
    let mut clock = clock;
    // The number of calls that were served since answers were last handed out.
    let mut served: u64 = 0;
    mode.begin(&mut keeper);
    for _ in rt.forever() {
        mode.before_turn(&mut keeper);
        let Ok(count) = keeper.turn(&mut clock) else {
            break;
        };
        served = served.saturating_add(count);
        if count > 0 && served < mode.most_held_back() {
            continue;
        }
        served = 0;
        if !rest(rt, &mut keeper, &mode, lifecycle, count == 0) {
            break;
        }
    }
    keeper
}

/// Starts the keeper's thread. None if it can't be started.
pub fn start_keeper<
    J: Journal + Send + Drop + 'static,
    C: Clock + Send + Drop + 'static,
    M: KeeperMode + Send + Drop + 'static,
    R: Threads + Wait + Copy + Send + 'static,
>(
    rt: &R,
    keeper: Keeper<J>,
    clock: C,
    mode: M,
    lifecycle: Arc<Lifecycle>,
) -> Option<KeeperThread<J>>
    ensures { IfSome result (λ thread. thread.promise.0.value ≡ keeper) }
{
    let handle = *rt;
    let promise = SameRings(Snapshot::of(&keeper));
    match Builder::new().stack_size(STACK).spawn_with(
        rt,
        promise,
        move || keep::<J, C, M, R>(&handle, keeper, clock, mode, &lifecycle),
    ) {
        Ok(thread) => Some(thread),
        Err(_) => None,
    }
}
