//! A desk with all its clients.
ghost use Rattle.std.specs.Prelude.{◌≡◌, List, [], ◌∷◌, ◌++◌, IfOk, IfSome};
ghost use Rattle.xs_desk.specs.Callers.{Caller, AreEndsOfLanes};

use crate::together::{Job, run_jobs};
use std::alloc::{AllocError, Global};
use std::marker::Model;
use std::sync::Wait;
use std::thread::Threads;
use xs_command::Command;
use xs_desk::{
    Answer, Client, CloseError, DeskError, Ended, Full, Keeper, KeeperError, Summary, Waker, close,
    desk, wide_desk,
};
use xs_keys::Clock;

/// A keeper and its clients. Contracts see the number of clients.
#[derive(Drop)]
pub struct Trial {
    keeper: Keeper,
    clients: Vec<Client>,
}

impl Model for Trial {
    ghost use Rattle.std.specs.Prelude.{ℕ, length};

    ghost Value = { ℕ };

    ghost use Rattle.xs_desk.specs.Callers.{Caller, AreEndsOfLanes};

    ghost view = { λ t. length t.clients.items };

    ghost invariant = { λ t. AreEndsOfLanes t.keeper.lanes t.clients.items };
}

/// Room for `count` ends, taken with a second try if memory was refused.
fn room(alloc: Global, count: usize) -> Result<Vec<Ended>, AllocError>
    ensures { IfOk result (λ ended. ended.items ≡ []) }
{
    match Vec::with_capacity(alloc, count) {
        Ok(ended) => Ok(ended),
        Err(AllocError) => Vec::with_capacity(alloc, count),
    }
}

/// The clients, each of which makes no further call.
fn finished(alloc: Global, clients: Vec<Client>) -> Result<Vec<Ended>, AllocError>
    ensures { IfOk result (λ ended. ended.items ≡ clients.items) }
{
    let mut ended = room(alloc, clients.len())?;
    for client in clients {
        ended.push(client.finish())?;
    }
    Ok(ended)
}

/// The last two clients.
fn last_two(clients: Vec<Client>) -> Option<(Client, Client)>
    ensures { IfSome result (λ r. (others : List Caller) × (clients.items ≡ (others ++ r.0 ∷ []) ++ r.1 ∷ [])) }
{
    let mut clients = clients;
    let last = clients.pop()?;
    let first = clients.pop()?;
    Some((first, last))
}

/// These ends and one more.
fn with_end(ended: Vec<Ended>, client: Client) -> Option<Vec<Ended>>
    ensures { IfSome result (λ all. all.items ≡ ended.items ++ client ∷ []) }
{
    let mut ended = ended;
    match ended.push(client.finish()) {
        Ok(()) => Some(ended),
        Err(_) => None,
    }
}

/// Tries to close a desk of which an end is missing.
fn refused(alloc: Global, keeper: Keeper, ended: Vec<Ended>) -> Option<(Keeper, Vec<Ended>)>
    requires { AreEndsOfLanes keeper.lanes ended.items }
    ensures { IfSome result (λ r. (r.0 ≡ keeper) × (r.1.items ≡ ended.items)) }
{
    match close(alloc, keeper, ended) {
        Err(CloseError::Unfinished(keeper, ended)) => Some((keeper, ended)),
        _ => None,
    }
}

impl Trial {
    ghost use Rattle.std.specs.Prelude.{length};
    ghost use Rattle.xs_command.specs.WellFormed.{IsWellFormed};

    pub fn new(alloc: Global, lanes: usize, depth: usize) -> Result<Trial, DeskError> {
        let (keeper, clients) = desk(alloc, lanes, depth)?;
        Ok(Trial { keeper, clients })
    }

    /// The same over a wide desk.
    pub fn wide(alloc: Global, lanes: usize, depth: usize) -> Result<Trial, DeskError> {
        let (keeper, clients) = wide_desk(alloc, lanes, depth)?;
        Ok(Trial { keeper, clients })
    }

    pub fn submit(&mut self, lane: usize, command: Command) -> Result<u64, Full>
        requires { IsWellFormed command }
    {
        if lane >= self.clients.len() {
            return Err(Full(command));
        }
        let client = &mut self.clients[lane];
        client.submit(command)
    }

    pub fn turn<C: Clock>(&mut self, clock: &mut C) -> Result<u64, KeeperError> {
        self.keeper.turn(clock)
    }

    pub fn take(&mut self, lane: usize) -> Option<Answer> {
        if lane >= self.clients.len() {
            return None;
        }
        let client = &mut self.clients[lane];
        client.take()
    }

    /// Submits a command and returns the answer to it, in one turn.
    pub fn call<C: Clock>(&mut self, lane: usize, clock: &mut C, command: Command) -> Option<Answer>
        requires { IsWellFormed command }
    {
        let ticket = self.submit(lane, command).ok()?;
        self.turn(clock).ok()?;
        let answer = self.take(lane)?;
        if answer.ticket == ticket {
            Some(answer)
        } else {
            None
        }
    }

    /// Runs each job with its client, and the keeper, in threads of their own.
    pub fn together<J: Job + Send + Drop, C: Clock + Send + Drop, R: Threads + Wait + Sync>(
        self,
        rt: &R,
        alloc: Global,
        clock: C,
        jobs: Vec<J>,
    ) -> Result<(Trial, Vec<J>), AllocError> {
        let Trial { keeper, clients } = self;
        let (keeper, clients, jobs) = run_jobs(rt, alloc, keeper, clients, clock, jobs)?;
        Ok((Trial { keeper, clients }, jobs))
    }

    pub fn waker(&self) -> Result<Waker, AllocError> {
        self.keeper.waker()
    }

    /// Closes the desk, with a second try if memory was refused.
    pub fn close(self, alloc: Global) -> Option<Summary> {
        let Trial { keeper, clients } = self;
        let Ok(ended) = finished(alloc, clients) else {
            return None;
        };
        match close(alloc, keeper, ended) {
            Ok(summary) => Some(summary),
            Err(CloseError::Memory(keeper, ended)) => close(alloc, keeper, ended).ok(),
            Err(CloseError::Unfinished(_, _)) => None,
        }
    }

    /// Tries to close a desk of two lanes with only the end of the last one, and then closes it with both.
    pub fn close_late(self, alloc: Global) -> Option<Summary> {
        let Trial { keeper, clients } = self;
        let (first, last) = last_two(clients)?;
        let ended = with_end(Vec::new(alloc), last)?;
        let (keeper, ended) = refused(alloc, keeper, ended)?;
        let ended = with_end(ended, first)?;
        close(alloc, keeper, ended).ok()
    }
}
