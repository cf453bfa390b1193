//! The program's command `compact`.
ghost use Rattle.std.specs.Prelude.{◌≡◌, ◌≤◌};

use crate::compacting::{compact_each_second, compaction_line};
use crate::logged_command::report_folder;
use crate::report::report_memory;
use std::alloc::{AllocError, Global};
use std::sync::{Arc, Wait};
use std::thread::Threads;
use std::time::Clock;
use xs_files::listing::list;
use xs_files::{Compaction, Compactor, Progress, compact_folder};
use xs_io::{Sink, write_all};

/// The line that reports the result of a compaction.
fn done_line(alloc: Global, folder: &str, done: Option<Compaction>) -> Result<String, AllocError> {
    match done {
        Some(compaction) => compaction_line(alloc, folder, compaction),
        None => format!(in alloc; "xs_server: log {folder}: no log is closed\n"),
    }
}

/// Compacts a folder of logs, and reports on `errors` what was done, or why not. Returns the status of the program.
pub fn compact_and_report<E: Sink>(files: &HostRuntime, folder: &str, errors: &mut E) -> u8
    ensures { result ≤ 1 }
{
    let alloc = files.alloc();
    let Ok(progress) = Arc::new(alloc, Progress::new()) else {
        return report_memory(errors);
    };
    let done = match compact_folder(files, folder, &progress) {
        Ok(done) => done,
        Err(fault) => return report_folder(alloc, folder, fault, errors),
    };
    match done_line(alloc, folder, done) {
        Ok(line) => {
            let _ = write_all(errors, line.as_bytes());
            0
        }
        Err(AllocError) => report_memory(errors),
    }
}

/// The compactor of a folder of logs.
fn compactor_of(alloc: Global, folder: &str) -> Result<Compactor, AllocError> {
    let progress = Arc::new(alloc, Progress::new())?;
    Compactor::new(alloc, folder, &progress)
}

/// Compacts a folder of logs each time that a compaction is due, up to a signal, and reports on `errors` what was done,
/// or why not. Returns the status of the program: 1 if there is no such folder, or no memory at the start.
pub fn watch_and_report<E: Sink, R: Threads + Wait + Clock>(
    rt: &R,
    files: &HostRuntime,
    folder: &str,
    errors: &mut E,
) -> u8
    ensures { result ≡ 1 }
{
    let alloc = files.alloc();
    if let Err(fault) = list(files, folder) {
        return report_folder(alloc, folder, fault, errors);
    }
    match compactor_of(alloc, folder) {
        Ok(compactor) => {
            let mut compactor = compactor;
            compact_each_second(rt, files, &mut compactor, errors);
            1
        }
        Err(AllocError) => report_memory(errors),
    }
}
