//! The threads beside a log: one reports the progress of reading it, one syncs it, and one compacts its folder.
use crate::compacting::compact_each_second;
use std::alloc::{AllocError, Global};
use std::sync::atomic::{AtomicBool, Ordering};
use std::sync::{Arc, Wait};
use std::thread;
use std::thread::Threads;
use std::time::{Clock, Duration};
use xs_files::{Compactor, Progress, Syncer};
use xs_io::{Sink, ToWrite, write_all};

/// The period of the first two, in seconds.
const SECONDS: u64 = 1;

/// A thread that reports the progress of reading a log.
#[derive(Drop)]
pub struct Telling {
    /// The progress of the reader.
    pub progress: Arc<Progress>,
    ended: Arc<AtomicBool>,
}

impl Telling {
    /// Notes that the log is read.
    pub fn end(&self) {
        self.ended.store(true, Ordering::SeqCst);
    }
}

/// Writes each second how many bytes of a log were read, until it is read or the writer fails.
fn tell_each_second<W: Sink, R: Wait + Clock>(
    rt: &R,
    alloc: Global,
    folder: &str,
    progress: &Progress,
    ended: &AtomicBool,
    out: &mut W,
) {
    for _ in rt.forever() {
        thread::sleep(rt, Duration::from_secs(SECONDS));
        if ended.load(Ordering::SeqCst) {
            return;
        }
        let bytes = progress.bytes();
        let Ok(line) = format!(in alloc; "xs_server: log {folder}: {bytes} bytes read\n") else {
            continue;
        };
        if write_all(out, line.as_bytes()).is_err() {
            return;
        }
    }
}

/// Starts the thread that reports the progress of reading the log of a folder. The end of the program doesn't wait for
/// it.
pub fn start_telling<
    W: Sink + Send + Drop + 'static,
    R: Threads + Wait + Clock + Copy + Send + Drop + 'static,
>(rt: &R, alloc: Global, folder: &str, out: W) -> Result<Telling, AllocError> {
    let telling = Telling {
        progress: Arc::new(alloc, Progress::new())?,
        ended: Arc::new(alloc, AtomicBool::new(false))?,
    };
    let folder = String::from_str(alloc, folder)?;
    let progress = Arc::try_clone(&telling.progress)?;
    let ended = Arc::try_clone(&telling.ended)?;
    let handle = *rt;
    let mut out = out;
    match thread::spawn(
        rt,
        move || tell_each_second(&handle, alloc, folder.as_str(), &progress, &ended, &mut out),
    ) {
        Ok(_) => Ok(telling),
        Err(_) => Err(AllocError),
    }
}

/// Syncs a log each second.
fn sync_each_second<R: Wait + Clock>(rt: &R, files: &HostRuntime, syncer: &mut Syncer) {
    for _ in rt.forever() {
        thread::sleep(rt, Duration::from_secs(SECONDS));
        syncer.sync(files);
    }
}

/// Starts the thread that syncs a log. The end of the program doesn't wait for it.
pub fn start_syncing<R: Threads + Wait + Clock + Copy + Send + Drop + 'static>(
    rt: &R,
    files: HostRuntime,
    syncer: Syncer,
) -> Result<(), AllocError> {
    let handle = *rt;
    let mut syncer = syncer;
    match thread::spawn(rt, move || sync_each_second(&handle, &files, &mut syncer)) {
        Ok(_) => Ok(()),
        Err(_) => Err(AllocError),
    }
}

/// Starts the thread that compacts the folder of a log, and reports the results on standard error. The end of the
/// program doesn't wait for it.
pub fn start_compacting<R: Threads + Wait + Clock + Copy + Send + Drop + 'static>(
    rt: &R,
    files: HostRuntime,
    compactor: Compactor,
) -> Result<(), AllocError> {
    let handle = *rt;
    let mut compactor = compactor;
    let mut out = ToWrite::new(files.stderr());
    match thread::spawn(
        rt,
        move || compact_each_second(&handle, &files, &mut compactor, &mut out),
    ) {
        Ok(_) => Ok(()),
        Err(_) => Err(AllocError),
    }
}
