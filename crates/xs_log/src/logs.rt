//! All logs of a server, in their order.
ghost use Rattle.std.specs.Prelude.{◌≡◌, ◌+◌, ◌≤◌, ◌++◌, ℕ, List, Some, length, take, drop, IfErr, IfOk};
ghost use Rattle.xs_io.specs.Passing.{known_by};
ghost use Rattle.xs_keys.specs.Event.{Event};
ghost use Rattle.xs_tape.specs.Crash.{before_zero};
ghost use Rattle.xs_tape.specs.Heads.{MayBeCut};
ghost use Rattle.xs_replay.specs.After.{contents_after, moment_after};
ghost use Rattle.xs_replay.specs.Log.{HasEvents};
ghost use Rattle.xs_log.specs.Fault.{IsWant};
ghost use Rattle.xs_log.specs.Logs.{CrashLeavesLog, GiveClosedLogs, MayGiveClosedLogs};

use crate::closed::read_closed_log;
use crate::fault::LogFault;
use crate::last::read_last_log;
use crate::reading::{Extent, Recovered};
use std::alloc::Global;
use thiserror::Error;
use xs_io::Source;

/// Why logs aren't read: the number of the first that isn't, and the cause.
#[derive(Clone, Copy, Debug, PartialEq, Eq, Error)]
#[error("log-{number} {fault}")]
pub struct LogsFault {
    pub number: u64,
    pub fault: LogFault,
}

/// Reads closed logs, one after the other, whose numbers count up from this one, and applies their events to the
/// content after the logs before them. Returns the number of the next one.
///
/// # Errors
/// A `LogsFault`.
pub fn read_closed_logs<R: Source + Drop>(
    alloc: Global,
    first: u64,
    recovered: &mut Recovered,
    logs: Vec<R>,
) -> Result<u64, LogsFault>
    ensures ok { IfOk result (λ next. ((events : List Event) × MayGiveClosedLogs (known_by R.rest) first logs.items events
        × (recovered.new.keyspace ≡ contents_after recovered.old.keyspace events)
        × (recovered.new.last ≡ moment_after recovered.old.last events)) × (next ≡ first + length logs.items)) }
    // Logs that were written completely are never refused.
    ensures err { (events : List Event) → GiveClosedLogs (known_by R.rest) first logs.items events →
        IfErr result (λ refusal. IsWant refusal.fault) }
{
    let mut number = first;
    for log in logs {
        let mut log = log;
        match read_closed_log(alloc, number, recovered, &mut log) {
            Ok(()) => {}
            Err(fault) => return Err(LogsFault { number, fault }),
        }
        let Some(next) = number.checked_add(1) else {
            return Err(LogsFault {
                number,
                fault: LogFault::TooLong,
            });
        };
        number = next;
    }
    Ok(number)
}

/// Reads all logs of a server, from this number on: those that are closed, whose numbers count up, and after them the
/// last one. Returns the content after their events, and the extent of the last one.
///
/// # Errors
/// A `LogsFault`.
pub fn recover<R: Source + Drop>(
    alloc: Global,
    first: u64,
    start: Recovered,
    closed: Vec<R>,
    last: R,
) -> Result<(Recovered, Extent), LogsFault>
    // The content is that of some events.
    ensures content { IfOk result (λ found. (events : List Event)
        × (found.0.keyspace ≡ contents_after start.keyspace events)
        × (found.0.last ≡ moment_after start.last events)) }
    // What follows the complete records of the last log may be what a crash left of a record.
    ensures cut { (left : List ℕ) → known_by R.rest last ≡ Some left →
        IfOk result (λ found. MayBeCut (drop found.1.whole (before_zero left))) }
    // Closed logs that were written completely, and whatever a crash has left of the last one, are never refused.
    ensures err { (before events : List Event) (kept : ℕ) (left : List ℕ) →
        GiveClosedLogs (known_by R.rest) first closed.items before →
        CrashLeavesLog (first + length closed.items) events kept left → known_by R.rest last ≡ Some left →
        IfErr result (λ refusal. IsWant refusal.fault) }
    // All events of the closed logs were applied, and then the first of the last one, including all that were kept.
    ensures ok { IfOk result (λ found. (before : List Event) × MayGiveClosedLogs (known_by R.rest) first closed.items before
        × ((events : List Event) (kept : ℕ) (left : List ℕ) →
        CrashLeavesLog (first + length closed.items) events kept left → known_by R.rest last ≡ Some left →
        (count : ℕ) × (count ≤ length events) × (kept ≤ count + 1)
        × HasEvents (first + length closed.items) (before_zero left) (take count events) found.1.whole found.1.part
        × (found.0.keyspace ≡ contents_after start.keyspace (before ++ take count events))
        × (found.0.last ≡ moment_after start.last (before ++ take count events)))) }
{
    let mut recovered = start;
    let number = read_closed_logs(alloc, first, &mut recovered, closed)?;
    match read_last_log(alloc, number, &mut recovered, last) {
        Ok(extent) => Ok((recovered, extent)),
        Err(fault) => Err(LogsFault { number, fault }),
    }
}
