//! Making a desk.
ghost use Rattle.std.specs.Prelude.{◌≡◌, ℕ, [], false, length, map, IfOk, MatchResult};
ghost use Rattle.xs_bytes.specs.SortedMap.{empty};
ghost use Rattle.xs_desk.specs.LaneEnds.{lane_of};
ghost use Rattle.xs_desk.specs.LogJournals.{ContinuesLog};
ghost use Rattle.xs_desk.specs.Opening.{AreNew, IsNewLane, IsDeskError, IsLaneCount, IsDepth};

use crate::answer::{Answer, Call, Formed};
use crate::blocked::BlockedCalls;
use crate::client::Client;
use crate::journal::Journal;
use crate::keeper::Keeper;
use crate::lane_end::LaneEnd;
use crate::log_journal::LogJournal;
use crate::no_journal::NoJournal;
use crate::outbox::Outbox;
use crate::poll_set::PollSet;
use crate::schedule::Schedule;
use crate::wait_marks::WaitMarks;
use crate::waiting::Backoff;
use rtrb::RingBuffer;
use std::alloc::{AllocError, Global};
use std::snapshot::Snapshot;
use std::sync::Arc;
use std::sync::atomic::AtomicBool;
use thiserror::Error;
use xs_keys::Keyspace;
use xs_replay::EventLog;

/// The most lanes of a desk.
pub const MAX_LANES: usize = 64;

/// The most lanes of a wide desk.
pub const MOST_LANES: usize = 1024;

/// The most places of a ring.
pub const MAX_DEPTH: usize = 65_536;

/// The number of bytes that the keyspace of a desk leaves to the threads of its clients.
const LEFT_FREE: usize = 262_144;

/// Why no desk was made. The first cause that applies is reported.
#[derive(Clone, Copy, Debug, PartialEq, Eq, Error)]
pub enum DeskError {
    /// The number of lanes isn't from 1 to 64, or from 1 to 1024 for a wide desk.
    #[error("a desk has 1 to 64 lanes, a wide one 1 to 1024")]
    Lanes,
    /// The number of places isn't from 1 to 65536.
    #[error("a ring has 1 to 65536 places")]
    Depth,
    /// Out of memory.
    #[error("out of memory")]
    Memory,
}

/// Both sides of a new lane.
fn open_lane(
    alloc: Global,
    lane: usize,
    depth: usize,
    poll_set: &mut PollSet,
    keeper: &Backoff,
    gone: &Arc<AtomicBool>,
    holds_back: bool,
) -> Result<(LaneEnd, Client), AllocError>
    ensures { IfOk result (λ r. IsNewLane lane depth (lane_of r.0) r.1) }
{
    let (to_keeper, calls) = RingBuffer::<Call>::with_protocol::<Global, Formed>(alloc, depth)?;
    let (answers, from_keeper) = RingBuffer::<Answer>::new(alloc, depth)?;
    let backoff = Backoff::of_lane(alloc)?;
    let waker = backoff.waker()?;
    let marks = Arc::new(alloc, WaitMarks::new())?;
    let mut answers = Outbox::new(alloc, answers);
    if holds_back {
        answers.reserve(depth)?;
    }
    let registration = poll_set.register(lane, keeper.waker()?, Arc::try_clone(&marks)?)?;
    let lane_end = LaneEnd {
        calls,
        answers,
        ticket: 0,
        waker,
        marks,
    };
    let gone = Arc::try_clone(gone)?;
    let client = Client::new(
        lane,
        to_keeper,
        from_keeper,
        registration,
        backoff,
        gone,
        holds_back,
    );
    Ok((lane_end, client))
}

#[tactic(auto, using(crate::proofs::Openings::lane_ends_grow))]
fn open_lanes(
    alloc: Global,
    count: usize,
    depth: usize,
    poll_set: &mut PollSet,
    keeper: &Backoff,
    gone: &Arc<AtomicBool>,
    holds_back: bool,
) -> Result<(Vec<LaneEnd>, Vec<Client>), AllocError>
    ensures { IfOk result (λ r. AreNew 0 depth (map lane_of r.0.items) r.1.items × (length r.0.items ≡ count)) }
{
    let mut lane_ends = Vec::with_capacity(alloc, count)?;
    let mut clients = Vec::with_capacity(alloc, count)?;
    for lane in 0..count {
        let (lane_end, client) = open_lane(alloc, lane, depth, poll_set, keeper, gone, holds_back)?;
        lane_ends.push(lane_end)?;
        clients.push(client)?;
    }
    Ok((lane_ends, clients))
}

/// A desk over a keyspace, whose keeper has this journal.
#[tactic(auto, using(crate::proofs::Openings::no_calls_of_new))]
fn open_desk<J: Journal + Drop>(
    alloc: Global,
    count: usize,
    depth: usize,
    keyspace: Keyspace,
    journal: J,
) -> Result<(Keeper<J>, Vec<Client>), AllocError>
    requires start { J.start journal ≡ keyspace }
    requires has { J.has journal [] 0 }
    ensures { IfOk result (λ r. AreNew 0 depth r.0.lanes r.1.items × (length r.0.lanes ≡ count)
        × (r.0.keyspace ≡ keyspace) × (r.0.place ≡ 0) × (r.0.start ≡ keyspace)) }
{
    let mut keyspace = keyspace;
    keyspace.leave_free(LEFT_FREE);
    let backoff = Backoff::of_keeper(alloc)?;
    let gone = Arc::new(alloc, AtomicBool::new(false))?;
    let mut poll_set = PollSet::new(alloc, count)?;
    let blocked = BlockedCalls::new(alloc, count)?;
    let holds_back = J::holds_back();
    let (lane_ends, clients) = open_lanes(
        alloc,
        count,
        depth,
        &mut poll_set,
        &backoff,
        &gone,
        holds_back,
    )?;
    let schedule = Schedule {
        poll_set,
        blocked,
        backoff,
        lets_wait: false,
    };
    Ok((
        Keeper::new(lane_ends, keyspace, schedule, gone, journal),
        clients,
    ))
}

/// Checks that a desk may have `n` lanes, at most `most`, with `depth` places each.
fn check_counts(most: usize, n: usize, depth: usize) -> Result<(), DeskError>
    ensures { MatchResult result (λ _. IsLaneCount most n × IsDepth depth) (IsDeskError most n depth) }
{
    if n == 0 || n > most {
        return Err(DeskError::Lanes);
    }
    if depth == 0 || depth > MAX_DEPTH {
        return Err(DeskError::Depth);
    }
    Ok(())
}

/// A desk of 1 to 64 lanes, otherwise like `wide_desk`.
///
/// # Errors
/// A `DeskError`.
pub fn desk(alloc: Global, n: usize, depth: usize) -> Result<(Keeper, Vec<Client>), DeskError>
    ensures new { IfOk result (λ r. AreNew 0 depth r.0.lanes r.1.items × (length r.0.lanes ≡ n)
        × (r.0.keyspace ≡ empty) × (r.0.place ≡ 0) × (r.0.start ≡ empty)) }
    ensures cause { MatchResult result (λ _. IsLaneCount 64 n × IsDepth depth) (IsDeskError 64 n depth) }
{
    check_counts(MAX_LANES, n, depth)?;
    open_desk(alloc, n, depth, Keyspace::new(alloc), NoJournal).map_err(|_| DeskError::Memory)
}

/// A desk with an empty keyspace and `n` lanes, 1 to 1024, each with `depth` places for calls and as many for answers;
/// and the client of each lane, in the order of their numbers. All memory for rings and waiting is taken here.
///
/// # Errors
/// A `DeskError`.
pub fn wide_desk(alloc: Global, n: usize, depth: usize) -> Result<(Keeper, Vec<Client>), DeskError>
    ensures new { IfOk result (λ r. AreNew 0 depth r.0.lanes r.1.items × (length r.0.lanes ≡ n)
        × (r.0.keyspace ≡ empty) × (r.0.place ≡ 0) × (r.0.start ≡ empty)) }
    ensures cause { MatchResult result (λ _. IsLaneCount 1024 n × IsDepth depth) (IsDeskError 1024 n depth) }
{
    check_counts(MOST_LANES, n, depth)?;
    open_desk(alloc, n, depth, Keyspace::new(alloc), NoJournal).map_err(|_| DeskError::Memory)
}

/// A desk like that of `wide_desk`, over a keyspace with the content after a log's events. Before them the content was
/// `first`. Its keeper notes in the log what it applies, and hands an answer out once the log keeps that.
///
/// # Errors
/// A `DeskError`.
pub fn logged_desk<L: EventLog + Drop>(
    alloc: Global,
    n: usize,
    depth: usize,
    keyspace: Keyspace,
    first: Snapshot<Keyspace>,
    log: L,
) -> Result<(Keeper<LogJournal<L>>, Vec<Client>), DeskError>
    requires log { ContinuesLog L.has first.value log keyspace }
    requires sound { L.broken log ≡ false }
    ensures new { IfOk result (λ r. AreNew 0 depth r.0.lanes r.1.items × (length r.0.lanes ≡ n)
        × (r.0.keyspace ≡ keyspace) × (r.0.place ≡ 0) × (r.0.start ≡ keyspace)) }
    ensures cause { MatchResult result (λ _. IsLaneCount 1024 n × IsDepth depth) (IsDeskError 1024 n depth) }
{
    check_counts(MOST_LANES, n, depth)?;
    let journal = LogJournal::new(log, first, &keyspace);
    open_desk(alloc, n, depth, keyspace, journal).map_err(|_| DeskError::Memory)
}
