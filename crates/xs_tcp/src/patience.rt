//! How calls wait in a server that runs until it is stopped, and how their clients are watched.
//!
//! While its call waits a worker sends the replies that are unsent, and looks once a second whether its client is still
//! there. If it isn't, the worker lets the keeper answer as if the time of the wait were over. Before the keeper gives
//! something to a call that has waited it looks too, so a job goes to a client that is there.
use crate::figures::{Figures, KeeperState, SharedFigures};
use crate::halves::Peer;
use crate::information::{Information, Settings};
use crate::run_gate::RunGate;
use std::alloc::{AllocError, Global};
use std::sync::{Arc, Wait};
use std::thread;
use std::time::{Clock, Duration};
use xs_bytes::{Bytes, U63};
use xs_command::Words;
use xs_desk::{Client, Journal, Keeper, Pause};
use xs_session::Tally;
use xs_work::{Attend, KeeperMode, Mode, SessionMemory};

/// How often a worker looks at its client, in milliseconds.
const BEAT_MILLIS: u64 = 1000;

/// How long a worker lets other threads go on while it waits for memory, or for the keeper's figures, in milliseconds.
const REST_MILLIS: u64 = 1;

/// How often it does so at most for the keeper's figures.
const MOST_RESTS: u32 = 1000;

/// After how many milliseconds a worker sends the replies to the requests before the one whose answer it waits for.
const PROMPT_MILLIS: u64 = 1;

/// Up to this number workers have the memory of their connections from the start on. Of more, most may never serve a
/// connection.
const MADE_AT_START: usize = 64;

/// How a worker waits if its client may leave.
#[derive(Drop)]
pub struct Watch<S: Drop> {
    system: S,
    // By which INFO reads files.
    files: HostRuntime,
    peer: Peer,
    // The figures of this worker.
    own: SharedFigures,
    information: Arc<Information>,
}

impl<S: Wait + Clock + Drop> Watch<S> {
    /// Waits until the keeper has reported figures that include the answers that were given until now, for at most a
    /// second.
    fn wait_for_keeper(&self) {
        let figures = &self.information.figures;
        let reports = figures.ask();
        for _ in 0..MOST_RESTS {
            if figures.has_reported_since(reports) {
                return;
            }
            thread::sleep(&self.system, Duration::from_millis(REST_MILLIS));
        }
    }
}

impl<S: Wait + Clock + Drop> Pause for Watch<S> {
    fn pause<R: Wait>(&self, rt: &R, client: &Client) {
        if !client.will_sleep() {
            client.idle(rt);
            return;
        }
        if self.peer.was_seen_to_leave() {
            client.hurry();
        }
        if client.idle_for(&self.system, Duration::from_millis(BEAT_MILLIS))
            && self.peer.has_left()
        {
            client.hurry();
        }
    }

    fn pause_briefly<R: Wait>(&self, rt: &R, client: &Client) -> bool {
        if !client.will_sleep() {
            client.idle(rt);
            return false;
        }
        client.is_blocked() || client.idle_for(&self.system, Duration::from_millis(PROMPT_MILLIS))
    }
}

impl<S: Wait + Clock + Drop> Attend for Watch<S> {
    fn let_in(&self) {
        self.peer.let_in();
    }

    fn ask_for_password(&self) {
        self.peer.ask_for_password(&self.system);
    }

    fn rest(&self) {
        thread::sleep(&self.system, Duration::from_millis(REST_MILLIS));
    }

    fn inform(&self, alloc: Global, sections: &Words<'_>) -> Result<Bytes, AllocError> {
        self.wait_for_keeper();
        self.information.text(&self.files, alloc, sections)
    }

    fn note(&self, tally: Tally) {
        self.own.note(tally);
    }
}

/// Calls wait, and with many workers the memory of connections is taken when they come.
#[derive(Drop)]
pub struct Patience<S: Drop> {
    system: S,
    files: HostRuntime,
    // The client of each lane.
    peers: Vec<Peer>,
    most_held_back: u64,
    information: Arc<Information>,
}

/// The figures of a keeper now.
fn state_of<J: Journal + Drop>(keeper: &Keeper<J>) -> KeeperState {
    KeeperState {
        bytes_held: u64::try_from(keeper.bytes_held()).unwrap_or(u64::MAX),
        blocked: keeper.blocked_calls() as u64,
    }
}

/// What INFO reports about a server over these gates.
fn information_of<S: Wait + Clock + Copy + Drop>(
    alloc: Global,
    gates: &[RunGate<S>],
    settings: Settings,
) -> Result<Arc<Information>, AllocError> {
    let mut workers = Vec::with_capacity(alloc, gates.len())?;
    for gate in gates {
        workers.push(gate.figures()?)?;
    }
    let information = Information {
        settings,
        figures: Figures::new(workers),
    };
    Ok(Arc::new(alloc, information)?)
}

impl<S: Wait + Clock + Copy + Drop> Patience<S> {
    /// The mode of the workers of these gates.
    pub fn new(
        system: S,
        files: HostRuntime,
        gates: &[RunGate<S>],
        settings: Settings,
    ) -> Result<Patience<S>, AllocError> {
        let alloc = files.alloc();
        let mut peers = Vec::with_capacity(alloc, gates.len())?;
        for gate in gates {
            peers.push(gate.peer()?)?;
        }
        Ok(Patience {
            system,
            files,
            peers,
            most_held_back: u64::MAX,
            information: information_of(alloc, gates, settings)?,
        })
    }

    /// The same, but answers that wait for a log are handed out after this many calls.
    pub fn with_most_held_back(self, calls: u64) -> Patience<S> {
        let mut patience = self;
        patience.most_held_back = calls;
        patience
    }

    /// Whether the client of this lane has left.
    fn has_left(&self, lane: usize) -> bool {
        match self.peers.get(lane) {
            Some(peer) => peer.has_left(),
            None => false,
        }
    }
}

impl<S: Wait + Clock + Copy + Send + Drop + 'static> Mode<RunGate<S>> for Patience<S> {
    type Pause = Watch<S>;

    fn pause_of(&self, gate: &RunGate<S>) -> Result<Watch<S>, AllocError> {
        Ok(Watch {
            system: gate.system(),
            files: self.files,
            peer: gate.peer()?,
            own: gate.figures()?,
            information: Arc::try_clone(&self.information)?,
        })
    }

    fn memory(&self, alloc: Global, number: U63) -> Result<SessionMemory, AllocError> {
        if self.peers.len() <= MADE_AT_START {
            return SessionMemory::made(alloc, number);
        }
        Ok(SessionMemory::lazy(alloc, number))
    }
}

impl<S: Wait + Clock + Copy + Drop> KeeperMode for Patience<S> {
    fn begin<J: Journal + Drop>(&self, keeper: &mut Keeper<J>) {
        keeper.let_wait();
        keeper.set_bound(self.information.settings.max_memory);
    }

    fn before_turn<J: Journal + Drop>(&self, keeper: &mut Keeper<J>) {
        if self.information.figures.is_asked() {
            self.information.figures.tell(state_of(keeper));
        }
        keeper.read_clock(&self.system);
        for _ in 0..self.peers.len() {
            let Some(lane) = keeper.next_due() else {
                return;
            };
            if !self.has_left(lane) {
                return;
            }
            keeper.postpone(&self.system, lane);
        }
    }

    fn most_held_back(&self) -> u64 {
        self.most_held_back
    }

    fn idle<J: Journal + Drop, R: Wait>(&self, _rt: &R, keeper: &Keeper<J>) {
        if keeper.will_sleep() {
            self.information.figures.tell(state_of(keeper));
            self.information.figures.rest();
        }
        keeper.idle_until(&self.system);
    }
}
