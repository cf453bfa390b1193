//! Events that are noted in a folder of logs.
ghost use Rattle.std.specs.Prelude.{◌≡◌, false, decimal, IfOk};
ghost use Rattle.xs_tape.specs.Records.{CanBeSpelled, record_words};

use std::alloc::Global;
use std::fs;
use std::fs::File;
use std::rt::Files;
use std::sync::Arc;
use std::test::Fail;
use xs_bytes::Bytes;
use xs_files::{
    FileTape, FolderFault, OpenedFolder, Progress, SyncPolicy, lock_folder, open_folder,
};
use xs_log::TapeLog;
use xs_replay::EventLog;
use xs_stream::Moment;
use xs_tape::can_be_record;

/// Words, separated by spaces.
fn words_of(alloc: Global, line: &str) -> Result<Vec<Bytes>, Fail> {
    let mut words = Vec::new(alloc);
    for word in line.split(' ') {
        words.push(Bytes::from_slice(alloc, word.as_bytes())?)?;
    }
    Ok(words)
}

/// Notes an event and keeps it.
fn note_and_keep<R: Files<File = File> + Copy + Drop>(
    log: &mut TapeLog<FileTape<R>>,
    now: Moment,
    words: &[Bytes],
) -> Result<(), Fail>
    requires sound { ⟦<TapeLog<FileTape<R>> as EventLog>⟧.broken log.old ≡ false }
    requires short { CanBeSpelled (record_words (decimal now) words.now) }
{
    match log.note(now, words) {
        Ok(()) => {}
        Err(_) => return Err("not noted".into()),
    }
    match log.keep() {
        Ok(()) => Ok(()),
        Err(_) => Err("not kept".into()),
    }
}

/// Locks a folder and opens it.
pub fn lock_and_open<R: Files<File = File> + AllocGlobal + Copy + Drop>(
    rt: &R,
    folder: &str,
    policy: SyncPolicy,
) -> Result<OpenedFolder<R>, FolderFault>
    ensures { IfOk result (λ opened. ⟦<TapeLog<FileTape<R>> as EventLog>⟧.broken opened.log ≡ false) }
{
    let Ok(progress) = Arc::new(rt.alloc(), Progress::new()) else {
        return Err(FolderFault::Memory);
    };
    let lock = lock_folder(rt, folder)?;
    open_folder(rt, folder, lock, policy, &progress)
}

/// Opens a folder and notes the event of a line in it. Returns the number of events before, and the number of bytes
/// that were dropped.
pub fn note<R: Files<File = File> + AllocGlobal + Copy + Drop>(
    rt: &R,
    folder: &str,
    line: &str,
) -> Result<(u64, u64), Fail> {
    let alloc = rt.alloc();
    let now = Moment::new(1_000).ok_or("a moment")?;
    let owned = words_of(alloc, line)?;
    let words = owned.as_slice();
    // A moment has 63 bits, so its record is short.
    let _millis = now.get();
    if !can_be_record(words) {
        return Err("too long".into());
    }
    let Ok(opened) = lock_and_open(rt, folder, SyncPolicy::Always) else {
        return Err("not opened".into());
    };
    let mut log = opened.log;
    note_and_keep(&mut log, now, words)?;
    Ok((opened.records, opened.dropped))
}

/// What is wrong with a folder.
pub fn fault_of<R: Files<File = File> + AllocGlobal + Copy + Drop>(
    rt: &R,
    folder: &str,
) -> Option<FolderFault> {
    lock_and_open(rt, folder, SyncPolicy::Always).err()
}

/// Removes the folder of a test.
pub fn remove_folder<R: Files<File = File> + AllocGlobal>(rt: &R, folder: &str) {
    let _ = rt.remove_dir_all(rt.alloc(), folder);
}

/// A new empty folder with this name.
pub fn empty_folder<R: Files<File = File> + AllocGlobal>(rt: &R, folder: &str) -> Result<(), Fail> {
    remove_folder(rt, folder);
    match fs::create_dir(rt, folder) {
        Ok(()) => Ok(()),
        Err(_) => Err("no folder".into()),
    }
}
