//! A script over a reader and a writer.
ghost use Rattle.std.specs.Prelude.{◌≡◌, ◌+◌, ◌*◌, ◌<◌, ◌≤◌, ◌⊎◌, ◌++◌, [], ℕ, List, true, Err, length, take};
ghost use Rattle.std.specs.Prelude.{OnOk, OnErr, IfErr, MatchResult};
ghost use Rattle.xs_io.specs.Passing.{Appends, Consumes};
ghost use Rattle.xs_io.specs.Device.{counter_at};
ghost use Rattle.xs_io.specs.DeviceState.{ReaderState, WriterState, input_of, output_of};
ghost use Rattle.xs_keys.specs.Content.{Content};
ghost use Rattle.xs_script.specs.Cause.{Cause, HasCause, reads_limit, writer as writer_failed};
ghost use Rattle.xs_script.specs.ScriptRun.{Runs, RunsBy, ScriptIsAfter, EndsOnceWritten, IsWritten, cause_of_script};

use crate::fault::ScriptFault;
use crate::state::{Next, Script};
use std::alloc::Global;
use xs_io::{Fill, FillFault, Sink, Source, write_all};
use xs_keys::Keyspace;

/// The most calls of a reader.
const READS: u64 = 1_000_000_000_000;

/// The unwritten bytes from which on replies are written.
const WRITE_BYTES: usize = 65_536;

/// Takes the script's next step, and reads on if it waits. If the script ends, its end is the error.
fn step<R: Source>(
    reader: &mut R,
    left: &mut u64,
    script: &mut Script,
    keyspace: &mut Keyspace,
) -> Result<(), Result<u64, ScriptFault>>
    ensures steps { (read sent : List ℕ) → ScriptIsAfter read sent script.old keyspace.old →
        (got : List ℕ) × Consumes (R.rest reader.old) (R.rest reader.new) got
        × MatchResult result (λ _. ScriptIsAfter (read ++ got) sent script.new keyspace.new)
        (λ end. (cause : Cause) × EndsOnceWritten cause end (read ++ got) sent script.new
        × ((first : ReaderState) (output : WriterState) →
        counter_at (R.calls reader.old + left.old) ≡ counter_at (first.calls + reads_limit)
        → HasCause cause first (input_of R.Source reader.new) output)) }
    ensures counted { counter_at (R.calls reader.new + left.new) ≡ counter_at (R.calls reader.old + left.old) }
    ensures less { OnOk result
        (left.new * 65537 + length script.new.held < left.old * 65537 + length script.old.held) }
{
    match script.advance(keyspace) {
        Next::Goes => return Ok(()),
        Next::Ends(end) => return Err(end),
        Next::Waits => {}
    }
    if *left == 0 {
        return Err(script.read_error());
    }
    let count = match script.held.fill(reader) {
        Ok(count) => count,
        Err(FillFault::Memory) => return Err(script.out_of_memory()),
        Err(FillFault::Read) => {
            *left -= 1;
            return Err(script.read_error());
        }
    };
    *left -= 1;
    if count == 0 {
        return Err(script.end(keyspace));
    }
    Ok(())
}

/// Writes the unwritten bytes. If the script ends, its end is the error.
fn send<W: Sink>(writer: &mut W, script: &mut Script) -> Result<(), Result<u64, ScriptFault>>
    ensures sent { OnOk result (Appends (W.held writer.old) (W.held writer.new) script.old.owed.items) }
    ensures paid { OnOk result (IsWritten script.old script.new) }
    ensures err { IfErr result (λ end. (count : ℕ) × (count < length script.old.owed.items)
        × Appends (W.held writer.old) (W.held writer.new) (take count script.old.owed.items)
        × (end ≡ Err (ScriptFault.Write (counter_at (script.old.written + count))))) }
    ensures cause { OnErr result (W.broken writer.new ≡ true) }
{
    match write_all(writer, script.owed.as_slice()) {
        Ok(_) => {
            script.mark_written();
            Ok(())
        }
        Err(count) => Err(script.write_error(count)),
    }
}

/// Writes the unwritten bytes, if they are enough. If the script ends, its end is the error.
fn send_on<W: Sink>(writer: &mut W, script: &mut Script) -> Result<(), Result<u64, ScriptFault>>
    ensures sends { (keyspace : Content) (read sent : List ℕ) → ScriptIsAfter read sent script.old keyspace →
        (more : List ℕ) × Appends (W.held writer.old) (W.held writer.new) more
        × MatchResult result (λ _. ScriptIsAfter read (sent ++ more) script.new keyspace)
        (λ end. RunsBy writer_failed end read (sent ++ more)) }
    ensures few { OnOk result ((length script.new.owed.items < 65536) × ((writer.new ≡ writer.old)
        ⊎ ((more : List ℕ) × Appends (W.held writer.old) (W.held writer.new) more × (65536 ≤ length more)))) }
    ensures held { OnOk result (script.new.held ≡ script.old.held) }
    ensures cause { OnErr result (W.broken writer.new ≡ true) }
{
    if script.owed.len() < WRITE_BYTES {
        return Ok(());
    }
    match send(writer, script) {
        Ok(()) => Ok(()),
        Err(end) => Err(end),
    }
}

/// Writes all unwritten bytes of a script that has ended so.
fn send_last<W: Sink>(
    writer: &mut W,
    script: &mut Script,
    end: Result<u64, ScriptFault>,
) -> Result<u64, ScriptFault>
    ensures { (cause : Cause) (read sent : List ℕ) → EndsOnceWritten cause end read sent script.old →
        (more : List ℕ) × Appends (W.held writer.old) (W.held writer.new) more
        × ((RunsBy cause result read (sent ++ more))
        ⊎ (RunsBy writer_failed result read (sent ++ more) × (W.broken writer.new ≡ true))) }
{
    match send(writer, script) {
        Ok(()) => end,
        Err(broken) => broken,
    }
}

/// Drives a script to its end: its steps are taken one after the other, bytes are read into it if it waits, and its
/// unwritten bytes are written once they are enough, and all of them at its end.
fn drive<R: Source, W: Sink>(
    reader: &mut R,
    writer: &mut W,
    script: &mut Script,
    keyspace: &mut Keyspace,
) -> Result<u64, ScriptFault>
    requires { ScriptIsAfter [] [] script.old keyspace.old }
    ensures ends { (read sent : List ℕ) × (cause : Cause)
        × Consumes (R.rest reader.old) (R.rest reader.new) read × Appends (W.held writer.old) (W.held writer.new) sent
        × RunsBy cause result read sent
        × HasCause cause (input_of R.Source reader.old) (input_of R.Source reader.new) (output_of W.Sink writer.new) }
    ensures reads { counter_at (R.calls reader.new) ≤ R.calls reader.old + reads_limit }
{
    let mut left = READS;
    'steps: loop {
        match step(reader, &mut left, script, keyspace) {
            Ok(()) => {}
            Err(end) => return send_last(writer, script, end),
        }
        match send_on(writer, script) {
            Ok(()) => {}
            Err(end) => return end,
        }
    }
}

/// Runs a script: each line is a request at its moment, and its reply is written. The keyspace is empty at the start.
/// Returns the number of bytes that were written.
pub fn run_script<R: Source, W: Sink>(
    alloc: Global,
    reader: &mut R,
    writer: &mut W,
) -> Result<u64, ScriptFault>
    ensures runs { (read sent : List ℕ) × Consumes (R.rest reader.old) (R.rest reader.new) read
        × Appends (W.held writer.old) (W.held writer.new) sent
        × Runs result read sent (R.rest reader.new) (R.ended reader.new) }
    ensures reads { counter_at (R.calls reader.new) ≤ R.calls reader.old + reads_limit }
    ensures cause { HasCause (cause_of_script result)
        (input_of R.Source reader.old) (input_of R.Source reader.new) (output_of W.Sink writer.new) }
{
    let mut script = Script::new(alloc);
    let mut keyspace = Keyspace::new(alloc);
    drive(reader, writer, &mut script, &mut keyspace)
}
