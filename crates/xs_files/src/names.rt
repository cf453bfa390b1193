//! The names of files in a folder.
use itoa::Buffer;
use std::alloc::{AllocError, Global};
use xs_bytes::natural;

/// The name of the file that a server locks.
pub const LOCK: &str = "lock";

/// The name of the file that is locked by a process that makes a snapshot, or reads the folder at a start.
pub const COMPACTING: &str = "compacting";

/// The beginning of a log's name.
const LOG: &str = "log-";

/// The beginning of a snapshot's name.
const SNAPSHOT: &str = "snapshot-";

/// The end of the name of a snapshot that isn't complete yet.
const NEW: &str = ".new";

/// The path of a file in a folder.
pub fn path_in(alloc: Global, folder: &str, name: &str) -> Result<String, AllocError> {
    let mut path = String::from_str(alloc, folder)?;
    path.push('/')?;
    path.push_str(name)?;
    Ok(path)
}

/// The path of a file whose name ends with a number.
fn numbered_path(
    alloc: Global,
    folder: &str,
    kind: &str,
    number: u64,
) -> Result<String, AllocError> {
    let mut buffer = Buffer::new();
    let mut path = path_in(alloc, folder, kind)?;
    path.push_str(buffer.format(number))?;
    Ok(path)
}

/// The path of the log with a number.
pub fn log_path(alloc: Global, folder: &str, number: u64) -> Result<String, AllocError> {
    numbered_path(alloc, folder, LOG, number)
}

/// The path of the snapshot with a number.
pub fn snapshot_path(alloc: Global, folder: &str, number: u64) -> Result<String, AllocError> {
    numbered_path(alloc, folder, SNAPSHOT, number)
}

/// The path of the snapshot with a number while it isn't complete.
pub fn new_snapshot_path(alloc: Global, folder: &str, number: u64) -> Result<String, AllocError> {
    let mut path = snapshot_path(alloc, folder, number)?;
    path.push_str(NEW)?;
    Ok(path)
}

/// The number after the beginning of a name. It is never 0.
fn number_behind(name: &str, kind: &str) -> Option<u64> {
    let digits = name.strip_prefix(kind)?;
    match natural(digits.as_bytes()) {
        Some(0) => None,
        found => found,
    }
}

/// The number of the log with a name.
pub fn log_number(name: &str) -> Option<u64> {
    number_behind(name, LOG)
}

/// The number of the snapshot with a name.
pub fn snapshot_number(name: &str) -> Option<u64> {
    number_behind(name, SNAPSHOT)
}

/// The number of the snapshot with a name that isn't complete yet.
pub fn new_snapshot_number(name: &str) -> Option<u64> {
    snapshot_number(name.strip_suffix(NEW)?)
}
