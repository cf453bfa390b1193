//! The program's command `script`.
ghost use Rattle.std.specs.Prelude.{◌≡◌, ℕ, List, Result};
ghost use Rattle.xs_io.specs.Passing.{Appends, Consumes};
ghost use Rattle.xs_script.specs.declared.fault.ScriptFault.{ScriptFault as Fault};
ghost use Rattle.xs_server.specs.Report.{status_of_run, text_of_run};
ghost use Rattle.xs_work.specs.Texts.{Says};
ghost use Rattle.xs_script.specs.ScriptRun.{Runs};

use crate::report::report_script;
use std::alloc::Global;
use xs_io::{Sink, Source};
use xs_script::run_script;

/// Runs a script, and reports on `errors` if it ended before its end. Returns the status of the program.
pub fn run_and_report<R: Source, W: Sink, E: Sink>(
    alloc: Global,
    reader: &mut R,
    writer: &mut W,
    errors: &mut E,
) -> u8
    ensures { (run : Result ℕ Fault) × (read sent : List ℕ)
        × Consumes (R.rest reader.old) (R.rest reader.new) read × Appends (W.held writer.old) (W.held writer.new) sent
        × Runs run read sent (R.rest reader.new) (R.ended reader.new) × (result ≡ status_of_run run)
        × Says (text_of_run run) (E.held errors.old) (E.held errors.new) (E.broken errors.new) }
{
    match run_script(alloc, reader, writer) {
        Ok(_) => 0,
        Err(fault) => report_script(errors, &fault),
    }
}
