//! The program's command `run` with a log.
ghost use Rattle.std.specs.Prelude.{◌≡◌, List, false, length, IfOk, IfErr};
ghost use Rattle.xs_keys.specs.Event.{Event};
ghost use Rattle.xs_replay.specs.After.{contents_after};

use crate::command_line::{LogOptions, RunOptions};
use crate::compacting::compact_and_say;
use crate::log_threads::{start_compacting, start_syncing, start_telling};
use crate::report::{report_memory, report_text, report_work};
use crate::run_command::{Ready, make_ready};
use crate::serve_command::DEPTH;
use std::alloc::{AllocError, Global};
use std::marker::Model;
use std::net::{Net, TcpListener, TcpStream};
use std::snapshot::Snapshot;
use std::sync::{Arc, Wait};
use std::thread::Threads;
use std::time::Clock;
use xs_clock::WallClock;
use xs_connection::Password;
use xs_files::{
    CompactPolicy, CompactionState, Compactor, FileTape, FolderFault, OpenedFolder, Progress,
    SyncPolicy, lock_folder, open_folder,
};
use xs_io::{Sink, write_all};
use xs_keys::Keyspace;
use xs_log::TapeLog;
use xs_replay::EventLog;
use xs_tcp::information::LogSettings;
use xs_work::{Gate, LoggedEnd, Mode, work_logged};

/// How many calls share a write to the log, if they don't wait for a sync: the workers of the first ones go on
/// meanwhile.
const ROUND: u64 = 32;

/// Reports why a folder isn't opened. Returns the status of the program.
pub fn report_folder<E: Sink>(alloc: Global, folder: &str, fault: FolderFault, errors: &mut E) -> u8
    ensures { result ≡ 1 }
{
    match format!(in alloc; "xs_server: {folder}: {fault}\n") {
        Ok(text) => report_text(errors, text.as_bytes()),
        Err(_) => report_memory(errors),
    }
}

/// The words for the snapshot that was read, if its number isn't 0.
fn snapshot_words(alloc: Global, snapshot: u64) -> Result<String, AllocError> {
    if snapshot == 0 {
        return Ok(String::new(alloc));
    }
    format!(in alloc; "snapshot-{snapshot}, ")
}

/// The line that reports what was read of a log.
fn log_line(
    alloc: Global,
    folder: &str,
    snapshot: u64,
    records: u64,
    dropped: u64,
) -> Result<String, AllocError> {
    let first = snapshot_words(alloc, snapshot)?;
    format!(in alloc;
        "xs_server: log {folder}: {first}{records} records, {dropped} bytes of an unfinished record dropped\n"
    )
}

/// Reports why work with a log has ended. Returns the status of the program.
fn report_end<E: Sink>(
    alloc: Global,
    log: &LogOptions,
    records: u64,
    end: &LoggedEnd,
    errors: &mut E,
) -> u8
    ensures { result ≡ 1 }
{
    let kept = match end {
        LoggedEnd::Work(fault) => return report_work(errors, fault),
        LoggedEnd::Log { kept } => *kept,
    };
    let folder = log.folder.as_str();
    let number = records.saturating_add(kept).saturating_add(1);
    match format!(in alloc; "xs_server: log {folder}: record {number} can't be kept\n") {
        Ok(text) => report_text(errors, text.as_bytes()),
        Err(_) => report_memory(errors),
    }
}

/// A log that was opened.
#[derive(Drop)]
pub struct OpenedLog {
    /// The result of opening its folder.
    pub folder: OpenedFolder<HostRuntime>,
    /// The state of its compactions.
    pub compactions: Arc<CompactionState>,
}

/// Locks the folder of a log, compacts it if a compaction is due at a start, and opens it.
fn open_locked<E: Sink, R: Threads>(
    rt: &R,
    files: &HostRuntime,
    log: &LogOptions,
    progress: &Arc<Progress>,
    compactor: &mut Compactor,
    errors: &mut E,
) -> Result<OpenedFolder<HostRuntime>, FolderFault>
    ensures content { IfOk result (λ opened. (events : List Event)
        × (opened.keyspace ≡ contents_after opened.first.value events)) }
    ensures sound { IfOk result (λ opened.
        ⟦<TapeLog<FileTape<HostRuntime>> as EventLog>⟧.broken opened.log ≡ false) }
    ensures has { IfOk result (λ opened. (events : List Event) →
        ⟦<TapeLog<FileTape<HostRuntime>> as EventLog>⟧.has opened.log events (length events)) }
{
    let folder = log.folder.as_str();
    let lock = lock_folder(files, folder)?;
    if log.compact == CompactPolicy::Start {
        compact_and_say(rt, files, compactor, errors);
    }
    open_folder(files, folder, lock, log.policy, progress)
}

/// Starts the threads beside a log for which its options ask. Returns the state of compactions.
fn start_beside<R: Threads + Wait + Clock + Copy + Send + Drop + 'static>(
    rt: &R,
    files: HostRuntime,
    log: &LogOptions,
    opened: &OpenedFolder<HostRuntime>,
    compactor: Compactor,
) -> Result<Arc<CompactionState>, AllocError> {
    let compactions = compactor.state()?;
    compactions.reads(opened.snapshot);
    sync_beside(rt, files, &opened.log)?;
    if log.compact == CompactPolicy::Serving {
        start_compacting(rt, files, compactor)?;
    }
    Ok(compactions)
}

/// Opens the folder of a log, and reports what was read. A thread of its own reports the progress each second.
///
/// # Errors
/// The status of the program, 1. The cause was reported on `errors`.
pub fn open_logs<
    W: Sink + Send + Drop + 'static,
    E: Sink,
    R: Threads + Wait + Clock + Copy + Send + Drop + 'static,
>(rt: &R, files: &HostRuntime, log: &LogOptions, out: W, errors: &mut E) -> Result<OpenedLog, u8>
    ensures content { IfOk result (λ opened. (events : List Event)
        × (opened.folder.keyspace ≡ contents_after opened.folder.first.value events)) }
    ensures sound { IfOk result (λ opened.
        ⟦<TapeLog<FileTape<HostRuntime>> as EventLog>⟧.broken opened.folder.log ≡ false) }
    ensures has { IfOk result (λ opened. (events : List Event) →
        ⟦<TapeLog<FileTape<HostRuntime>> as EventLog>⟧.has opened.folder.log events (length events)) }
    ensures status { IfErr result (λ status. status ≡ 1) }
{
    let alloc = files.alloc();
    let folder = log.folder.as_str();
    let Ok(telling) = start_telling(rt, alloc, folder, out) else {
        return Err(report_memory(errors));
    };
    let Ok(compactor) = Compactor::new(alloc, folder, &telling.progress) else {
        return Err(report_memory(errors));
    };
    let mut compactor = compactor;
    let opened = match open_locked(rt, files, log, &telling.progress, &mut compactor, errors) {
        Ok(opened) => opened,
        Err(fault) => return Err(report_folder(alloc, folder, fault, errors)),
    };
    telling.end();
    let Ok(line) = log_line(
        alloc,
        folder,
        opened.snapshot,
        opened.records,
        opened.dropped,
    ) else {
        return Err(report_memory(errors));
    };
    let _ = write_all(errors, line.as_bytes());
    match start_beside(rt, *files, log, &opened, compactor) {
        Ok(compactions) => Ok(OpenedLog {
            folder: opened,
            compactions,
        }),
        Err(_) => Err(report_memory(errors)),
    }
}

/// After how many calls the answers that wait for the log are handed out. If that means a sync each time, all calls
/// that there are share it.
fn most_held_back(policy: SyncPolicy) -> u64 {
    match policy {
        SyncPolicy::Always => u64::MAX,
        SyncPolicy::EachSecond | SyncPolicy::Never => ROUND,
    }
}

/// Starts the thread that syncs a log, if its policy asks for one.
fn sync_beside<R: Threads + Wait + Clock + Copy + Send + Drop + 'static>(
    rt: &R,
    files: HostRuntime,
    log: &TapeLog<FileTape<HostRuntime>>,
) -> Result<(), AllocError> {
    match log.tape().syncer()? {
        Some(syncer) => start_syncing(rt, files, syncer),
        None => Ok(()),
    }
}

/// A keyspace, and the log in which its events are noted. Before the events of the log the content was `first`; they
/// have left that of the keyspace. Contracts see the content.
#[derive(Drop)]
struct Store {
    first: Snapshot<Keyspace>,
    keyspace: Keyspace,
    log: TapeLog<FileTape<HostRuntime>>,
}

impl Model for Store {
    ghost use Rattle.std.specs.Prelude.{◌≡◌, false};
    ghost use Rattle.xs_keys.specs.Content.{Content};
    ghost use Rattle.xs_desk.specs.LogJournals.{ContinuesLog};

    ghost Value = { Content };

    ghost view = { λ s. s.keyspace };

    ghost invariant = { λ s.
        ContinuesLog (⟦<TapeLog<FileTape<HostRuntime>> as EventLog>⟧.has) s.first.value s.log s.keyspace
        × (⟦<TapeLog<FileTape<HostRuntime>> as EventLog>⟧.broken s.log ≡ false) };
}

/// Work over gates at a desk over a store.
fn work_over<
    G: Gate + Send + Drop + 'static,
    C: xs_keys::Clock + Send + Drop + 'static,
    M: Mode<G> + Send + Drop + 'static,
    R: Threads + Wait + Copy + Send + 'static,
>(rt: &R, alloc: Global, gates: Vec<G>, clock: C, mode: M, store: Store) -> LoggedEnd {
    let Store {
        first,
        keyspace,
        log,
    } = store;
    work_logged(rt, alloc, gates, DEPTH, clock, mode, keyspace, first, log)
}

/// Serves the connections of the gates, over a store. Returns why it has ended.
fn serve_store<R: Threads + Wait + Clock + Copy + Send + Drop + 'static>(
    rt: &R,
    alloc: Global,
    ready: Ready<R>,
    clock: WallClock<R>,
    store: Store,
) -> LoggedEnd {
    let Ready { gates, patience } = ready;
    work_over(rt, alloc, gates, clock, patience, store)
}

/// Listens, and serves the connections that come, over the content of a folder of logs, up to a signal or a failure of
/// the log. Returns the status of the program. The cause is reported on `errors`.
pub fn run_logged<
    W: Sink + Send + Drop + 'static,
    E: Sink,
    R: Net<Listener = TcpListener, Stream = TcpStream>
        + Threads
        + Wait
        + Clock
        + Copy
        + Send
        + Drop
        + 'static,
>(
    rt: &R,
    files: &HostRuntime,
    options: &RunOptions,
    log: &LogOptions,
    password: &Option<Password>,
    opened: OpenedLog,
    out: W,
    errors: &mut E,
) -> u8
    requires content { (events : List Event)
        × (opened.folder.keyspace ≡ contents_after opened.folder.first.value events) }
    requires sound { ⟦<TapeLog<FileTape<HostRuntime>> as EventLog>⟧.broken opened.folder.log ≡ false }
    requires has { (events : List Event) →
        ⟦<TapeLog<FileTape<HostRuntime>> as EventLog>⟧.has opened.folder.log events (length events) }
    ensures { result ≡ 1 }
{
    let alloc = files.alloc();
    let OpenedLog {
        folder,
        compactions,
    } = opened;
    let told = LogSettings {
        sync: log.policy,
        compact: log.compact,
        compactions,
    };
    let Ready { gates, patience } = match make_ready(
        rt,
        files,
        options,
        Some(told),
        password,
        out,
        errors,
    ) {
        Ok(ready) => ready,
        Err(status) => return status,
    };
    let patience = patience.with_most_held_back(most_held_back(log.policy));
    let ready = Ready { gates, patience };
    let OpenedFolder {
        snapshot: _,
        first,
        keyspace,
        last,
        records,
        dropped: _,
        log: tape_log,
    } = folder;
    let store = Store {
        first,
        keyspace,
        log: tape_log,
    };
    let clock = WallClock::not_before(*rt, last);
    let end = serve_store(rt, alloc, ready, clock, store);
    report_end(alloc, log, records, &end, errors)
}
