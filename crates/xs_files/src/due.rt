//! Whether a compaction of a folder is due.
ghost use Rattle.std.specs.Prelude.{◌<◌, ◌↔◌, IsTrue};

use crate::fault::FolderFault;
use crate::listing::Listing;
use crate::names::{log_path, snapshot_path};
use std::alloc::{AllocError, Global};
use std::fs;
use std::io::ErrorKind;
use std::rt::Files;

/// Closed logs of this many bytes, 64 MiB, don't cause a compaction.
const LEAST_CLOSED: u64 = 67_108_864;

/// The number of bytes that a compaction would read.
#[derive(Clone, Copy, Debug, PartialEq, Eq)]
pub struct Sizes {
    /// Of the greatest snapshot; 0 if there is none.
    pub snapshot: u64,
    /// Of the closed logs from its number on.
    pub closed: u64,
}

impl Sizes {
    /// Whether a compaction is due: the closed logs have more bytes than the snapshot, and more than 64 MiB. So it reads
    /// at most twice what was logged since the one before.
    pub fn is_due(&self) -> bool
        ensures { IsTrue result ↔ ((self.now.snapshot < self.now.closed) × (67108864 < self.now.closed)) }
    {
        self.closed > self.snapshot && self.closed > LEAST_CLOSED
    }
}

/// The size of the file of a path. None if there is no file.
fn file_size<R: Files>(
    rt: &R,
    path: Result<String, AllocError>,
) -> Result<Option<u64>, FolderFault> {
    let Ok(path) = path else {
        return Err(FolderFault::Memory);
    };
    match fs::metadata(rt, path.as_str()) {
        Ok(found) => Ok(Some(found.len())),
        Err(error) if error.kind() == ErrorKind::NotFound => Ok(None),
        Err(error) => Err(FolderFault::Unreadable(error.kind())),
    }
}

/// The number of bytes that a compaction would read. Files that another process's compaction removes meanwhile aren't
/// counted.
///
/// # Errors
/// A `FolderFault`: out of memory, or the system doesn't give a file's size.
pub fn sizes_of<R: Files>(
    rt: &R,
    alloc: Global,
    folder: &str,
    listing: &Listing,
) -> Result<Sizes, FolderFault> {
    let snapshot = match listing.snapshot {
        0 => None,
        number => file_size(rt, snapshot_path(alloc, folder, number))?,
    };
    let mut closed = 0u64;
    for number in listing.first()..listing.last {
        match file_size(rt, log_path(alloc, folder, number))? {
            Some(size) => closed = closed.saturating_add(size),
            None => break,
        }
    }
    Ok(Sizes {
        snapshot: snapshot.unwrap_or(0),
        closed,
    })
}
