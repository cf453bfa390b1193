//! Removes files that no start reads.
use crate::listing::Listing;
use crate::names::{log_path, new_snapshot_path, snapshot_path};
use std::alloc::{AllocError, Global};
use std::fs;
use std::rt::Files;

/// Removes a file. If that fails, the file stays: no start reads it.
fn remove<R: Files>(rt: &R, path: Result<String, AllocError>) {
    if let Ok(path) = path {
        let _ = fs::remove_file(rt, path.as_str());
    }
}

/// Removes what an unfinished compaction has left of a snapshot.
pub fn remove_unfinished<R: Files>(rt: &R, alloc: Global, folder: &str, listing: &Listing) {
    if listing.unfinished > 0 {
        remove(rt, new_snapshot_path(alloc, folder, listing.unfinished));
    }
}

/// Removes the snapshot with a number that isn't complete.
pub fn remove_new_snapshot<R: Files>(rt: &R, alloc: Global, folder: &str, number: u64) {
    remove(rt, new_snapshot_path(alloc, folder, number));
}

/// Removes the logs and the snapshots below a number, from the least one on.
pub fn remove_below<R: Files>(rt: &R, alloc: Global, folder: &str, least: u64, number: u64) {
    for below in least..number {
        remove(rt, log_path(alloc, folder, below));
        remove(rt, snapshot_path(alloc, folder, below));
    }
}
