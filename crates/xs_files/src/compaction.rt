//! Compacts a folder: a snapshot replaces its closed logs, which are removed.
ghost use Rattle.std.specs.Prelude.{◌≡◌, ℕ, List, Option, IfOk};
ghost use Rattle.xs_keys.specs.Content.{Content};
ghost use Rattle.xs_keys.specs.Event.{Event};
ghost use Rattle.xs_replay.specs.After.{contents_after, moment_after};
ghost use Rattle.xs_files.specs.Start.{IsStart};

use crate::due::sizes_of;
use crate::fault::FolderFault;
use crate::folder::{sync_folder, take_compaction_lock};
use crate::listing::{Listing, list_whole};
use crate::names::{new_snapshot_path, snapshot_path};
use crate::progress::Progress;
use crate::recovery::{log_sources, read_start};
use crate::removal::{remove_below, remove_new_snapshot, remove_unfinished};
use crate::snapshot_file::SnapshotFile;
use std::alloc::Global;
use std::fs::{self, File};
use std::rt::Files;
use std::sync::Arc;
use xs_log::{Recovered, read_closed_logs};
use xs_snapshot::write_snapshot;

/// The result of a compaction.
#[derive(Clone, Copy, Debug, PartialEq, Eq)]
pub struct Compaction {
    /// The number of the snapshot.
    pub number: u64,
    /// The number of logs that it replaces.
    pub logs: u64,
}

/// The content after the greatest snapshot and the closed logs from its number on.
fn read_closed<R: Files<File = File> + Copy + Drop>(
    rt: &R,
    alloc: Global,
    folder: &str,
    listing: Listing,
    progress: &Arc<Progress>,
) -> Result<Recovered, FolderFault>
    ensures { IfOk result (λ found. (first : Content) × (moment : Option ℕ) × (events : List Event)
        × IsStart first moment × (found.keyspace ≡ contents_after first events)
        × (found.last ≡ moment_after moment events)) }
{
    let mut recovered = read_start(rt, alloc, folder, listing.snapshot, progress)?;
    let first = listing.first();
    let Ok(logs) = log_sources(rt, alloc, folder, first, listing.last, progress) else {
        return Err(FolderFault::Memory);
    };
    match read_closed_logs(alloc, first, &mut recovered, logs) {
        Ok(_) => Ok(recovered),
        Err(fault) => Err(FolderFault::Log(fault)),
    }
}

/// Writes a snapshot of what was recovered, under the name of an unfinished one.
fn write_new<R: Files<File = File>>(
    rt: &R,
    alloc: Global,
    folder: &str,
    number: u64,
    recovered: &Recovered,
) -> Result<(), FolderFault> {
    let Ok(path) = new_snapshot_path(alloc, folder, number) else {
        return Err(FolderFault::Memory);
    };
    let file = match SnapshotFile::create(rt, path.as_str()) {
        Ok(file) => file,
        Err(kind) => return Err(FolderFault::UnmadeSnapshot { number, kind }),
    };
    match write_snapshot(alloc, file, number, recovered.last, &recovered.keyspace) {
        Ok(_) => Ok(()),
        Err(fault) => Err(FolderFault::NewSnapshot { number, fault }),
    }
}

/// Gives a complete snapshot its name, which is kept.
fn publish<R: Files<File = File>>(
    rt: &R,
    alloc: Global,
    folder: &str,
    number: u64,
) -> Result<(), FolderFault> {
    let Ok(from) = new_snapshot_path(alloc, folder, number) else {
        return Err(FolderFault::Memory);
    };
    let Ok(to) = snapshot_path(alloc, folder, number) else {
        return Err(FolderFault::Memory);
    };
    if let Err(error) = fs::rename(rt, from.as_str(), to.as_str()) {
        return Err(FolderFault::UnmadeSnapshot {
            number,
            kind: error.kind(),
        });
    }
    match sync_folder(rt, folder) {
        Ok(()) => Ok(()),
        Err(kind) => Err(FolderFault::UnmadeSnapshot { number, kind }),
    }
}

/// Makes the snapshot that replaces the closed logs of a folder. If that fails, nothing unfinished is left.
fn make_snapshot<R: Files<File = File> + Copy + Drop>(
    rt: &R,
    alloc: Global,
    folder: &str,
    listing: Listing,
    progress: &Arc<Progress>,
) -> Result<(), FolderFault> {
    let recovered = read_closed(rt, alloc, folder, listing, progress)?;
    let number = listing.last;
    let made = match write_new(rt, alloc, folder, number, &recovered) {
        Ok(()) => publish(rt, alloc, folder, number),
        Err(fault) => Err(fault),
    };
    if made.is_err() {
        remove_new_snapshot(rt, alloc, folder, number);
    }
    made
}

/// Compacts a folder with this listing. Nobody else may be compacting it.
fn compact_listed<R: Files<File = File> + Copy + Drop>(
    rt: &R,
    alloc: Global,
    folder: &str,
    listing: Listing,
    progress: &Arc<Progress>,
) -> Result<Option<Compaction>, FolderFault> {
    remove_unfinished(rt, alloc, folder, &listing);
    let first = listing.first();
    if listing.last <= first {
        // What an earlier compaction couldn't remove. It may have been killed before the name of its snapshot was kept.
        if sync_folder(rt, folder).is_ok() {
            remove_below(rt, alloc, folder, listing.least.max(1), listing.snapshot);
        }
        return Ok(None);
    }
    make_snapshot(rt, alloc, folder, listing, progress)?;
    remove_below(rt, alloc, folder, listing.least, listing.last);
    Ok(Some(Compaction {
        number: listing.last,
        logs: listing.last - first,
    }))
}

/// Locks a folder for a compaction, and lists it then.
fn lock_and_list<R: Files<File = File> + AllocGlobal + Copy + Drop>(
    rt: &R,
    folder: &str,
) -> Result<(File, Listing), FolderFault> {
    let lock = take_compaction_lock(rt, rt.alloc(), folder)?;
    let listing = list_whole(rt, folder)?;
    Ok((lock, listing))
}

/// Compacts a folder of logs, which a server may be using: a snapshot of the content after the greatest snapshot and
/// the closed logs from its number on is written, and once it is kept they are removed. The last log is neither read
/// nor changed. Returns None if no log is closed. `progress` counts the bytes that were read.
///
/// # Errors
/// A `FolderFault`: `Compacting` if another process compacts the folder. No log was removed then.
pub fn compact_folder<R: Files<File = File> + AllocGlobal + Copy + Drop>(
    rt: &R,
    folder: &str,
    progress: &Arc<Progress>,
) -> Result<Option<Compaction>, FolderFault> {
    let (_lock, listing) = lock_and_list(rt, folder)?;
    compact_listed(rt, rt.alloc(), folder, listing, progress)
}

/// Like `compact_folder`, but only if a compaction is due. Returns None if it isn't.
///
/// # Errors
/// Those of `compact_folder`.
pub fn compact_if_due<R: Files<File = File> + AllocGlobal + Copy + Drop>(
    rt: &R,
    folder: &str,
    progress: &Arc<Progress>,
) -> Result<Option<Compaction>, FolderFault> {
    let (_lock, listing) = lock_and_list(rt, folder)?;
    if !sizes_of(rt, rt.alloc(), folder, &listing)?.is_due() {
        return Ok(None);
    }
    compact_listed(rt, rt.alloc(), folder, listing, progress)
}
