//! Commands of all kinds, made at random, from many lanes at once, and whether they are one run in the order of their
//! places.
use super::asking::{Asking, Told, by_place, is_in_order};
use super::lines::Line;
use std::alloc::{AllocError, Global};
use std::sync::Wait;
use std::thread::Threads;
use xs_command::Refusal;
use xs_desk::Summary;
use xs_keys::{Clock, Keyspace};
use xs_resp::Reply;
use xs_stream::Moment;
use xs_testing::{Trial, text_of};

/// The number of places for calls, over all lanes.
const ON_THEIR_WAY: usize = 1024;

/// A clock that advances slowly, and goes back.
#[derive(Clone, Copy)]
struct Slow {
    calls: u64,
}

impl Clock for Slow {
    ghost gives = { λ old now new. Unit {0} };

    fn now(&mut self) -> Moment {
        self.calls = self.calls.wrapping_add(1);
        Moment::new(self.calls / 40 % 8 + 1).unwrap()
    }
}

/// The result of a check of calls, in the order of their places.
#[derive(Clone, Copy, Debug, PartialEq, Eq)]
pub enum Seen {
    /// They are `calls` calls of one run, of which `errors` were answered by an error.
    OneRun { calls: u64, errors: u64 },
    /// At this place there is another place, or another reply.
    Differs(u64),
    /// A lane got answers out of order, or too many or too few.
    Disorder,
    /// No lane had a call while another one had its calls.
    OneByOne,
}

/// The reply to the line, by a run of one event.
fn ran_alone(
    alloc: Global,
    keyspace: &mut Keyspace,
    now: Moment,
    line: Line,
) -> Result<Option<Reply>, Refusal> {
    let events = [(now, line.command(alloc)?)];
    let mut replies = keyspace.run(events.as_slice())?;
    Ok(replies.pop())
}

/// The reply of the keyspace to this call, if it is that of the answer.
fn same_reply(
    alloc: Global,
    keyspace: &mut Keyspace,
    one: &Told,
) -> Result<Option<Reply>, Refusal> {
    let Some(reply) = ran_alone(alloc, keyspace, one.moment, one.line)? else {
        return Ok(None);
    };
    let text = text_of(alloc, &reply)?;
    Ok((text.as_slice() == one.text.as_slice()).then_some(reply))
}

/// Whether the places are 0, 1, 2, .., and each reply is that of the keyspace after the calls at the places before.
fn see(alloc: Global, told: &Vec<Told>) -> Result<Seen, Refusal> {
    let mut keyspace = Keyspace::new(alloc);
    let mut calls = 0u64;
    let mut errors = 0u64;
    for one in told {
        let reply = same_reply(alloc, &mut keyspace, one)?;
        if one.place != calls || reply.is_none() {
            return Ok(Seen::Differs(calls));
        }
        if matches!(reply, Some(Reply::Error(_))) {
            errors = errors.saturating_add(1);
        }
        calls = calls.saturating_add(1);
    }
    Ok(Seen::OneRun { calls, errors })
}

/// The jobs of this number of lanes. Each makes lines of its own.
fn askers(alloc: Global, lanes: usize, each: u64, seed: u64) -> Result<Vec<Asking>, AllocError> {
    let mut jobs = Vec::new(alloc);
    let mut seed = seed;
    for _ in 0..lanes {
        jobs.push(Asking::new(alloc, Line::AtRandom(seed), each))?;
        seed = seed.wrapping_add(each);
    }
    Ok(jobs)
}

/// Whether a lane's first call came between the first one of another of these lanes and its last.
fn begins_within_any(one: &Asking, jobs: &Vec<Asking>) -> bool {
    for other in jobs {
        if one.begins_within(other) {
            return true;
        }
    }
    false
}

/// Whether two lanes were at work at once.
fn are_at_once(jobs: &Vec<Asking>) -> bool {
    for one in jobs {
        if begins_within_any(one, jobs) {
            return true;
        }
    }
    false
}

/// Whether each job has all its answers in order.
fn are_in_order(jobs: &Vec<Asking>) -> bool {
    for job in jobs {
        if !is_in_order(job, 0) {
            return false;
        }
    }
    true
}

/// Submits `each` commands from each of this number of lanes at once. Returns the result of the check, and the desk's
/// summary. None if a desk, a thread or memory for it is missing.
pub fn ask_at_random<R: Threads + Wait + Sync>(
    rt: &R,
    alloc: Global,
    lanes: usize,
    each: u64,
    seed: u64,
) -> Option<(Seen, Summary)> {
    let jobs = askers(alloc, lanes, each, seed).ok()?;
    let trial = Trial::new(alloc, lanes, ON_THEIR_WAY / lanes.max(1)).ok()?;
    let (trial, jobs) = trial.together(rt, alloc, Slow { calls: 0 }, jobs).ok()?;
    let summary = trial.close(alloc)?;
    if !are_in_order(&jobs) {
        return Some((Seen::Disorder, summary));
    }
    if lanes > 1 && !are_at_once(&jobs) {
        return Some((Seen::OneByOne, summary));
    }
    let seen = see(alloc, &by_place(alloc, jobs).ok()?).ok()?;
    Some((seen, summary))
}
