//! Compacts a folder of logs when a compaction is due, and reports the result.
use crate::report::report_memory;
use std::alloc::{AllocError, Global};
use std::sync::Wait;
use std::thread;
use std::thread::Threads;
use std::time::{Clock, Duration};
use xs_files::{Compaction, Compactor, FolderFault};
use xs_io::{Sink, write_all};

/// How often a folder is checked, in seconds.
const SECONDS: u64 = 1;

/// The line that reports what a compaction has done.
pub fn compaction_line(
    alloc: Global,
    folder: &str,
    compaction: Compaction,
) -> Result<String, AllocError> {
    let Compaction { number, logs } = compaction;
    format!(in alloc; "xs_server: log {folder}: snapshot-{number} in the place of {logs} logs\n")
}

/// The line that reports why a folder that is in use isn't compacted.
fn refusal_line(alloc: Global, folder: &str, fault: FolderFault) -> Result<String, AllocError> {
    format!(in alloc; "xs_server: log {folder}: not compacted: {fault}\n")
}

/// Compacts a folder in a thread of its own: when that ends, the C library gives the memory that it has taken back to
/// the system.
fn compact_aside<R: Threads>(
    rt: &R,
    files: &HostRuntime,
    compactor: &Compactor,
) -> Result<Option<Compaction>, FolderFault> {
    let (done, ()) = thread::join(rt, || compactor.compact(files), || ());
    done
}

/// Compacts a folder if a compaction is due. Returns None if there was nothing to do.
fn compact_once_due<R: Threads>(
    rt: &R,
    files: &HostRuntime,
    compactor: &mut Compactor,
) -> Result<Option<Compaction>, FolderFault> {
    if compactor.is_due(files)? {
        return compact_aside(rt, files, compactor);
    }
    Ok(None)
}

/// Compacts a folder if a compaction is due, and reports the result. A fault of the writer is ignored.
pub fn compact_and_say<W: Sink, R: Threads>(
    rt: &R,
    files: &HostRuntime,
    compactor: &mut Compactor,
    out: &mut W,
) {
    let alloc = files.alloc();
    let line = match compact_once_due(rt, files, compactor) {
        Ok(None) => return,
        Ok(Some(compaction)) => compaction_line(alloc, compactor.folder(), compaction),
        Err(fault) => refusal_line(alloc, compactor.folder(), fault),
    };
    match line {
        Ok(line) => {
            let _ = write_all(out, line.as_bytes());
        }
        Err(_) => {
            report_memory(out);
        }
    }
}

/// Checks each second whether a compaction of a folder is due, and does it.
pub fn compact_each_second<W: Sink, R: Threads + Wait + Clock>(
    rt: &R,
    files: &HostRuntime,
    compactor: &mut Compactor,
    out: &mut W,
) {
    for _ in rt.forever() {
        thread::sleep(rt, Duration::from_secs(SECONDS));
        compact_and_say(rt, files, compactor, out);
    }
}
