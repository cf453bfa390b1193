//! The logs and snapshots in a folder.
ghost use Rattle.std.specs.Prelude.{◌<◌};

use crate::fault::FolderFault;
use crate::folder::is_no_file;
use crate::names::{log_number, log_path, new_snapshot_number, snapshot_number, snapshot_path};
use std::alloc::Global;
use std::fs::{self, File};
use std::io::ErrorKind;
use std::rt::Files;

/// The contents of a folder. Each number is 0 if there is none.
#[derive(Clone, Copy, Debug, PartialEq, Eq)]
pub struct Listing {
    /// The number of the greatest snapshot: it replaces the logs below it.
    pub snapshot: u64,
    /// The number of the last log.
    pub last: u64,
    /// The least number of a log or of a snapshot.
    pub least: u64,
    /// The greatest number of a snapshot that isn't complete.
    pub unfinished: u64,
}

impl Listing {
    /// The listing of an empty folder.
    fn new() -> Listing {
        Listing {
            snapshot: 0,
            last: 0,
            least: 0,
            unfinished: 0,
        }
    }

    /// The number of the first log that is read.
    pub fn first(&self) -> u64
        ensures { 0 < result }
    {
        self.snapshot.max(1)
    }

    /// With the file of this name, if it is a log or a snapshot.
    fn with_name(self, name: &str) -> Listing {
        if let Some(number) = log_number(name) {
            return Listing {
                last: self.last.max(number),
                least: least_of(self.least, number),
                ..self
            };
        }
        if let Some(number) = snapshot_number(name) {
            return Listing {
                snapshot: self.snapshot.max(number),
                least: least_of(self.least, number),
                ..self
            };
        }
        match new_snapshot_number(name) {
            Some(number) => Listing {
                unfinished: self.unfinished.max(number),
                ..self
            },
            None => self,
        }
    }
}

/// The lesser of two numbers; `number` if the first is 0, which is none.
fn least_of(least: u64, number: u64) -> u64 {
    if least == 0 {
        number
    } else {
        least.min(number)
    }
}

/// Lists a folder. Names that aren't text aren't those of logs.
pub fn list<R: Files + AllocGlobal + Copy + Drop>(
    rt: &R,
    folder: &str,
) -> Result<Listing, FolderFault> {
    let mut listing = Listing::new();
    let entries = match fs::read_dir(rt, folder) {
        Ok(entries) => entries,
        Err(error) => return Err(FolderFault::Unreadable(error.kind())),
    };
    for entry in entries {
        match entry {
            Ok(entry) => listing = listing.with_name(entry.file_name()),
            Err(error) if error.kind() == ErrorKind::InvalidFilename => {}
            Err(error) => return Err(FolderFault::Unreadable(error.kind())),
        }
    }
    Ok(listing)
}

/// Checks that the log with a number is a file.
fn check_log<R: Files>(
    rt: &R,
    alloc: Global,
    folder: &str,
    number: u64,
) -> Result<(), FolderFault> {
    let Ok(path) = log_path(alloc, folder, number) else {
        return Err(FolderFault::Memory);
    };
    match fs::metadata(rt, path.as_str()) {
        Ok(found) if found.is_file() => Ok(()),
        Ok(_) => Err(FolderFault::NoFile(number)),
        Err(error) if error.kind() == ErrorKind::NotFound => Err(FolderFault::Missing(number)),
        Err(error) => Err(FolderFault::UnreadableLog {
            number,
            kind: error.kind(),
        }),
    }
}

/// Checks that the snapshot with a number, if there is one, is a file.
fn check_snapshot<R: Files>(
    rt: &R,
    alloc: Global,
    folder: &str,
    number: u64,
) -> Result<(), FolderFault> {
    if number == 0 {
        return Ok(());
    }
    let Ok(path) = snapshot_path(alloc, folder, number) else {
        return Err(FolderFault::Memory);
    };
    if is_no_file(rt, path.as_str()) {
        return Err(FolderFault::NoSnapshotFile(number));
    }
    Ok(())
}

/// Lists a folder. Its greatest snapshot has to be a file, and so do its logs from there on, whose numbers have to
/// count up.
pub fn list_whole<R: Files<File = File> + AllocGlobal + Copy + Drop>(
    rt: &R,
    folder: &str,
) -> Result<Listing, FolderFault> {
    let listing = list(rt, folder)?;
    check_snapshot(rt, rt.alloc(), folder, listing.snapshot)?;
    for before in listing.first() - 1..listing.last.max(listing.snapshot) {
        check_log(rt, rt.alloc(), folder, before + 1)?;
    }
    Ok(listing)
}
