//! How the connections of gates are served: whether calls wait, and when the memory of connections is taken.
use crate::session_memory::SessionMemory;
use std::alloc::{AllocError, Global};
use std::sync::Wait;
use std::thread;
use xs_bytes::{Bytes, U63};
use xs_command::Words;
use xs_desk::{Idle, Journal, Keeper, Pause};
use xs_session::Tally;

/// How often a worker without a clock yields while it waits for memory.
const YIELDS: u32 = 1000;

/// How a worker waits for answers and for memory, what it does once a client has given the password, and what it
/// reports.
pub trait Attend: Pause {
    /// Removes the deadline of the present connection's client.
    fn let_in(&self);

    /// The client of the present connection has to give the password, by a deadline that begins now unless there is one
    /// already.
    fn ask_for_password(&self);

    /// Lets other threads go on for a moment.
    fn rest(&self);

    /// The text of INFO, with the sections that these words name.
    fn inform(&self, alloc: Global, sections: &Words<'_>) -> Result<Bytes, AllocError>;

    /// Notes the number of answers of this worker.
    fn note(&self, tally: Tally);
}

impl Attend for Idle {
    fn let_in(&self) {}

    fn ask_for_password(&self) {}

    fn rest(&self) {
        for _ in 0..YIELDS {
            thread::yield_now();
        }
    }

    fn inform(&self, alloc: Global, _sections: &Words<'_>) -> Result<Bytes, AllocError> {
        Ok(Bytes::new(Vec::new(alloc)))
    }

    fn note(&self, _tally: Tally) {}
}

/// What a keeper does between its turns, with any journal.
pub trait KeeperMode {
    ghost use Rattle.std.specs.Prelude.{◌≡◌};

    /// Is called before the keeper's first turn.
    fn begin<J: Journal + Drop>(&self, keeper: &mut Keeper<J>)
        ensures { keeper.new ≡ keeper.old };

    /// Is called before each of its turns.
    fn before_turn<J: Journal + Drop>(&self, keeper: &mut Keeper<J>)
        ensures { keeper.new ≡ keeper.old };

    /// After this many calls what was noted is kept, and the answers that wait for that are handed out, even if there
    /// are more calls.
    fn most_held_back(&self) -> u64;

    /// Waits after a turn that served no call.
    fn idle<J: Journal + Drop, R: Wait>(&self, rt: &R, keeper: &Keeper<J>);
}

/// How the connections of gates are served.
pub trait Mode<G>: KeeperMode {
    /// How a worker waits for an answer.
    type Pause: Attend + Send + Drop + 'static;

    /// How the worker of this gate waits for an answer. It takes no memory.
    fn pause_of(&self, gate: &G) -> Result<Self::Pause, AllocError>;

    /// The memory of the connections of the worker with this number.
    fn memory(&self, alloc: Global, number: U63) -> Result<SessionMemory, AllocError>;
}

/// No call waits, and all memory is taken at the start.
#[derive(Clone, Copy, Debug, PartialEq, Eq)]
pub struct Bounded;

impl KeeperMode for Bounded {
    fn begin<J: Journal + Drop>(&self, _keeper: &mut Keeper<J>) {}

    fn before_turn<J: Journal + Drop>(&self, _keeper: &mut Keeper<J>) {}

    fn most_held_back(&self) -> u64 {
        u64::MAX
    }

    fn idle<J: Journal + Drop, R: Wait>(&self, rt: &R, keeper: &Keeper<J>) {
        keeper.idle(rt);
    }
}

impl<G> Mode<G> for Bounded {
    type Pause = Idle;

    fn pause_of(&self, _gate: &G) -> Result<Idle, AllocError> {
        Ok(Idle)
    }

    fn memory(&self, alloc: Global, number: U63) -> Result<SessionMemory, AllocError> {
        SessionMemory::made(alloc, number)
    }
}
