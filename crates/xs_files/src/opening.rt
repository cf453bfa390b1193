//! Opens a folder of logs, and recovers the content after their events.
ghost use Rattle.std.specs.Prelude.{◌≡◌, ℕ, List, Option, false, length, IfOk};
ghost use Rattle.xs_keys.specs.Event.{Event};
ghost use Rattle.xs_replay.specs.After.{contents_after};
ghost use Rattle.xs_files.specs.Start.{IsStart};

use crate::fault::FolderFault;
use crate::file_tape::{FileTape, make_log};
use crate::folder::{FolderLock, wait_for_compaction};
use crate::last_log::open_last;
use crate::listing::{Listing, list_whole};
use crate::progress::Progress;
use crate::recovery::{log_source, log_sources, read_start};
use crate::removal::remove_unfinished;
use crate::syncing::SyncPolicy;
use std::alloc::Global;
use std::fs::File;
use std::rt::Files;
use std::snapshot::Snapshot;
use std::sync::Arc;
use xs_keys::Keyspace;
use xs_log::{Extent, Recovered, TapeLog, recover};
use xs_replay::EventLog;
use xs_stream::Moment;

/// A log with at least this many bytes, 16 MiB, is closed, and the next one begun.
const FULL: u64 = 16_777_216;

/// A folder of logs that was opened.
#[derive(Drop)]
pub struct OpenedFolder<R: Files<File = File> + Copy + Drop> {
    /// The number of the snapshot that was read, or 0.
    pub snapshot: u64,
    /// The content before the first event of the logs that were read.
    pub first: Snapshot<Keyspace>,
    /// The content after the events of all logs.
    pub keyspace: Keyspace,
    /// The moment of the last event, if there is one.
    pub last: Option<Moment>,
    /// The number of events in the logs that were read.
    pub records: u64,
    /// The number of bytes of an unfinished record that were cut.
    pub dropped: u64,
    /// The log in which further events are noted.
    pub log: TapeLog<FileTape<R>>,
}

/// The content of a start after the events of the logs of a folder.
fn recover_logs<R: Files<File = File> + Copy + Drop>(
    rt: &R,
    alloc: Global,
    folder: &str,
    listing: Listing,
    start: Recovered,
    progress: &Arc<Progress>,
) -> Result<(Recovered, Extent), FolderFault>
    ensures { IfOk result (λ found. (events : List Event)
        × (found.0.keyspace ≡ contents_after start.keyspace events)) }
{
    let first = listing.first();
    let Ok(closed) = log_sources(rt, alloc, folder, first, listing.last, progress) else {
        return Err(FolderFault::Memory);
    };
    let Ok(last) = log_source(rt, alloc, folder, listing.last, progress) else {
        return Err(FolderFault::Memory);
    };
    recover(alloc, first, start, closed, last).map_err(FolderFault::Log)
}

/// Opens the last log to continue it.
fn go_on<R: Files<File = File> + Copy + Drop>(
    rt: &R,
    alloc: Global,
    folder: &str,
    lock: FolderLock,
    file: File,
    number: u64,
    whole: u64,
    policy: SyncPolicy,
) -> Result<TapeLog<FileTape<R>>, FolderFault>
    ensures sound { IfOk result (λ log. ⟦<TapeLog<FileTape<R>> as EventLog>⟧.broken log ≡ false) }
    ensures has { IfOk result (λ log. (events : List Event) →
        ⟦<TapeLog<FileTape<R>> as EventLog>⟧.has log events (length events)) }
{
    let Ok(tape) = FileTape::new(rt, alloc, folder, lock, file, number, whole, policy) else {
        return Err(FolderFault::Memory);
    };
    match TapeLog::new(alloc, tape, number, FULL) {
        Ok(log) => Ok(log),
        Err(_) => Err(FolderFault::Broken(number)),
    }
}

/// Begins the first log of a folder.
fn begin_first<R: Files<File = File> + Copy + Drop>(
    rt: &R,
    alloc: Global,
    folder: &str,
    lock: FolderLock,
    policy: SyncPolicy,
) -> Result<OpenedFolder<R>, FolderFault>
    ensures start { IfOk result (λ opened. (moment : Option ℕ) × IsStart opened.first.value moment) }
    ensures content { IfOk result (λ opened. (events : List Event)
        × (opened.keyspace ≡ contents_after opened.first.value events)) }
    ensures sound { IfOk result (λ opened. ⟦<TapeLog<FileTape<R>> as EventLog>⟧.broken opened.log ≡ false) }
    ensures has { IfOk result (λ opened. (events : List Event) →
        ⟦<TapeLog<FileTape<R>> as EventLog>⟧.has opened.log events (length events)) }
{
    let Ok(file) = make_log(rt, alloc, folder, 1) else {
        return Err(FolderFault::Broken(1));
    };
    let log = go_on(rt, alloc, folder, lock, file, 1, 0, policy)?;
    let keyspace = Keyspace::new(alloc);
    Ok(OpenedFolder {
        snapshot: 0,
        first: Snapshot::of(&keyspace),
        keyspace,
        last: None,
        records: 0,
        dropped: 0,
        log,
    })
}

/// Opens a folder of logs, whose lock this is. Its greatest snapshot is read, and the logs from its number on;
/// `progress` counts the bytes meanwhile. What a crash has torn of the last log is cut. If the folder is being
/// compacted, this waits for the end of that.
///
/// # Errors
/// A `FolderFault`, and no byte of a log was changed but after the complete records of the last one.
pub fn open_folder<R: Files<File = File> + AllocGlobal + Copy + Drop>(
    rt: &R,
    folder: &str,
    lock: FolderLock,
    policy: SyncPolicy,
    progress: &Arc<Progress>,
) -> Result<OpenedFolder<R>, FolderFault>
    ensures start { IfOk result (λ opened. (moment : Option ℕ) × IsStart opened.first.value moment) }
    ensures content { IfOk result (λ opened. (events : List Event)
        × (opened.keyspace ≡ contents_after opened.first.value events)) }
    ensures sound { IfOk result (λ opened. ⟦<TapeLog<FileTape<R>> as EventLog>⟧.broken opened.log ≡ false) }
    ensures has { IfOk result (λ opened. (events : List Event) →
        ⟦<TapeLog<FileTape<R>> as EventLog>⟧.has opened.log events (length events)) }
{
    let alloc = rt.alloc();
    let _compaction = wait_for_compaction(rt, alloc, folder)?;
    let listing = list_whole(rt, folder)?;
    remove_unfinished(rt, alloc, folder, &listing);
    if listing.last == 0 {
        return begin_first(rt, alloc, folder, lock, policy);
    }
    let start = read_start(rt, alloc, folder, listing.snapshot, progress)?;
    let first = Snapshot::of(&start.keyspace);
    let (recovered, extent) = recover_logs(rt, alloc, folder, listing, start, progress)?;
    let number = listing.last;
    let file = open_last(rt, alloc, folder, number, extent.whole)?;
    let log = go_on(rt, alloc, folder, lock, file, number, extent.whole, policy)?;
    let Recovered {
        keyspace,
        last,
        records,
    } = recovered;
    Ok(OpenedFolder {
        snapshot: listing.snapshot,
        first,
        keyspace,
        last,
        records,
        dropped: extent.part,
        log,
    })
}
