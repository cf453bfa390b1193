//! The last log, which a crash may have torn.
ghost use Rattle.std.specs.Prelude.{◌≡◌, ◌+◌, ◌≤◌, ℕ, List, Some, length, take, drop, IfOk, IfErr, OnOk};
ghost use Rattle.xs_io.specs.Passing.{known_by};
ghost use Rattle.xs_keys.specs.Event.{Event};
ghost use Rattle.xs_tape.specs.Crash.{before_zero};
ghost use Rattle.xs_tape.specs.Heads.{MayBeCut};
ghost use Rattle.xs_replay.specs.After.{contents_after, moment_after};
ghost use Rattle.xs_replay.specs.Log.{HasEvents};
ghost use Rattle.xs_log.specs.Fault.{IsWant};
ghost use Rattle.xs_log.specs.Logs.{CrashLeavesLog};

use crate::fault::LogFault;
use crate::reading::{Extent, Recovered, read_log};
use std::alloc::Global;
use xs_io::Source;
use xs_tape::BeforeZero;

/// Reads the last log, up to its first zero byte, and applies its events to the content after the logs before it. Its
/// file has to be cut after the complete records before more is appended.
///
/// # Errors
/// A `LogFault`. What is recovered must not be used then.
pub fn read_last_log<R: Source + Drop>(
    alloc: Global,
    number: u64,
    recovered: &mut Recovered,
    file: R,
) -> Result<Extent, LogFault>
    // The content is that of some events.
    ensures content { OnOk result ((events : List Event)
        × (recovered.new.keyspace ≡ contents_after recovered.old.keyspace events)
        × (recovered.new.last ≡ moment_after recovered.old.last events)) }
    // What follows the complete records may be what a crash left of a record: its lengths haven't changed.
    ensures cut { (left : List ℕ) → known_by R.rest file ≡ Some left →
        IfOk result (λ extent. MayBeCut (drop extent.whole (before_zero left))) }
    // Whatever a crash has left of a log is read, unless memory, the reader or a number of 64 bits runs out.
    ensures err { (events : List Event) (kept : ℕ) (left : List ℕ) → CrashLeavesLog number events kept left →
        known_by R.rest file ≡ Some left → IfErr result IsWant }
    // The content is that after the first of its events, including all whose records, after the header, were kept.
    ensures ok { (events : List Event) (kept : ℕ) (left : List ℕ) → CrashLeavesLog number events kept left →
        known_by R.rest file ≡ Some left → IfOk result (λ extent. (count : ℕ) × (count ≤ length events) × (kept ≤ count + 1)
        × HasEvents number (before_zero left) (take count events) extent.whole extent.part
        × (recovered.new.keyspace ≡ contents_after recovered.old.keyspace (take count events))
        × (recovered.new.last ≡ moment_after recovered.old.last (take count events))) }
{
    let mut before = BeforeZero::new(file);
    read_log(alloc, number, recovered, &mut before)
}
