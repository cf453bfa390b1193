//! The logs on a tape after a crash.
ghost use Rattle.std.specs.Prelude.{◌≡◌, ℕ, List, Bool, None, Some, drop, map, IfOk, MatchResult};
ghost use Rattle.xs_io.specs.Passing.{known_by};
ghost use Rattle.xs_bytes.specs.SortedMap.{empty};
ghost use Rattle.xs_replay.specs.After.{contents_after, moment_after};
ghost use Rattle.xs_keys.specs.Event.{Event};
ghost use Rattle.xs_tape.specs.Crash.{before_zero, CrashLeaves};
ghost use Rattle.xs_tape.specs.Heads.{MayBeCut};
ghost use Rattle.xs_tape.specs.Tape.{TapeBytes};
ghost use Rattle.xs_log.specs.Fault.{IsWant};
ghost use Rattle.xs_log.specs.Restart.{Restarts};
ghost use Rattle.xs_log.specs.TapeLog.{IsLogOnTape};

use crate::logs::{LogsFault, recover};
use crate::reading::{Extent, Recovered};
use std::alloc::Global;
use xs_io::Source;

/// Reads the files of a tape, the closed ones and the last one. Returns the content after their events, and the extent
/// of the last one: its file has to be cut there before events are noted again.
///
/// # Errors
/// A `LogsFault`.
pub fn restart<R: Source + Drop>(
    alloc: Global,
    closed: Vec<R>,
    last: R,
) -> Result<(Recovered, Extent), LogsFault>
    // The content is that of some events.
    ensures content { IfOk result (λ found. (events : List Event)
        × (found.0.keyspace ≡ contents_after empty events) × (found.0.last ≡ moment_after None events)) }
    // What follows the complete records of the last file may be what a crash left of a record.
    ensures cut { (file : List ℕ) → known_by R.rest last ≡ Some file →
        IfOk result (λ found. MayBeCut (drop found.1.whole (before_zero file))) }
    // Whatever a crash has left of the logs on a tape is read, unless memory, a reader or a number of 64 bits runs out.
    // The content is that after the first of their events, including all that were kept.
    ensures read { (broken : Bool) (number : ℕ) (pending : List ℕ) (tape : TapeBytes) (events : List Event) (kept : ℕ)
        (file : List ℕ) → IsLogOnTape broken number pending tape events kept →
        CrashLeaves tape.kept tape.written file →
        map (known_by R.rest) closed.items ≡ map (λ bytes. Some bytes) tape.closed → known_by R.rest last ≡ Some file →
        MatchResult result
        (λ found. Restarts tape events kept file found.0.keyspace found.0.last found.1.whole)
        (λ refusal. IsWant refusal.fault) }
{
    recover(alloc, 1, Recovered::new(alloc), closed, last)
}
