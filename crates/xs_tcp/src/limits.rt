//! The limits and the memory of the process, as the system shows them.
use std::alloc::{Alloc, Global};
use std::fs;
use std::fs::Files;

/// The file in which Linux shows the limits of a process.
const LIMITS: &str = "/proc/self/limits";

/// The file in which Linux shows how much memory a process has, in pages.
const MEMORY: &str = "/proc/self/statm";

/// The number of bytes of a page.
const PAGE: u64 = 4096;

/// The beginning of the line that shows how many files may be open.
const OPEN_FILES: &str = "Max open files";

/// The number of files that are open besides the connections of workers: standard streams, listener and its double, one
/// to read limits from, and some for connections that come or leave.
pub const OTHER_FILES: u64 = 32;

/// The most connections that may wait for a worker at once.
const MOST_WAITING: u64 = 1024;

/// The number that this text of limits shows for open files, if it shows one.
pub fn open_files_in(text: &str) -> Option<u64> {
    let line = text.lines().find(|line| line.starts_with(OPEN_FILES))?;
    let words = line.get(OPEN_FILES.len()..)?;
    words.split_whitespace().next()?.parse::<u64>().ok()
}

/// The number of files that this process may have open. None if there is no limit, or the system doesn't show it.
pub fn open_files<R: Files + Alloc<A = Global>>(rt: &R) -> Option<u64> {
    let text = fs::read_to_string(rt, LIMITS).ok()?;
    open_files_in(text.as_str())
}

/// The number of bytes that this text of memory shows as resident, if it shows any: its second number, in pages.
pub fn resident_in(text: &str) -> Option<u64> {
    let pages = text.split_whitespace().nth(1)?.parse::<u64>().ok()?;
    pages.checked_mul(PAGE)
}

/// The number of bytes of memory that this process has resident. None if the system doesn't show it.
pub fn resident_bytes<R: Files + Alloc<A = Global>>(rt: &R) -> Option<u64> {
    let text = fs::read_to_string(rt, MEMORY).ok()?;
    resident_in(text.as_str())
}

/// How many connections may wait for a worker if `files` files may be open. None if these are too few for the workers.
pub fn waiting_room(workers: u64, files: Option<u64>) -> Option<u64> {
    match files {
        Some(files) => {
            let left = files.checked_sub(workers)?.checked_sub(OTHER_FILES)?;
            Some((left + OTHER_FILES / 2).min(MOST_WAITING))
        }
        None => Some(MOST_WAITING),
    }
}
