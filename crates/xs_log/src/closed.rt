//! A log that is closed: all of it was kept before the next one began.
ghost use Rattle.std.specs.Prelude.{◌≡◌, ◌≢◌, ℕ, List, true, false, Some, IfErr, OnOk};
ghost use Rattle.xs_io.specs.Passing.{known_by, Consumes, IsAtEnd};
ghost use Rattle.xs_keys.specs.Event.{Event};
ghost use Rattle.xs_replay.specs.After.{contents_after, moment_after};
ghost use Rattle.xs_log.specs.Fault.{IsWant};
ghost use Rattle.xs_log.specs.Reading.{IsClosedLog};

use crate::fault::LogFault;
use crate::reading::{Extent, Recovered, read_log};
use std::alloc::Global;
use xs_io::Source;

/// Whether a log has its header, and no part of a record after the complete ones.
fn is_closed(extent: Extent) -> bool
    ensures yes { result ≡ true → (extent.whole ≢ 0) × (extent.part ≡ 0) }
    ensures no { result ≡ false → (extent.whole ≢ 0) × (extent.part ≡ 0) → ⊥ }
{
    if extent.whole == 0 {
        return false;
    }
    extent.part == 0
}

/// Reads a closed log, and applies its events to the content after the logs before it. It must have its header and no
/// torn end.
///
/// # Errors
/// A `LogFault`. What is recovered must not be used then.
pub fn read_closed_log<R: Source>(
    alloc: Global,
    number: u64,
    recovered: &mut Recovered,
    log: &mut R,
) -> Result<(), LogFault>
    ensures ok { OnOk result ((bytes : List ℕ) × (events : List Event)
        × Consumes (R.rest log.old) (R.rest log.new) bytes × IsAtEnd (R.rest log.new)
        × IsClosedLog number bytes events
        × (recovered.new.keyspace ≡ contents_after recovered.old.keyspace events)
        × (recovered.new.last ≡ moment_after recovered.old.last events)) }
    // A log that was written completely is never refused.
    ensures err { (bytes : List ℕ) (events : List Event) → known_by R.rest log.old ≡ Some bytes →
        IsClosedLog number bytes events → IfErr result IsWant }
{
    let extent = match read_log(alloc, number, recovered, log) {
        Ok(extent) => extent,
        Err(fault) => return Err(fault),
    };
    if !is_closed(extent) {
        return Err(LogFault::Damaged(extent.whole));
    }
    Ok(())
}
