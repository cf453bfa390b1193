//! The last log of a folder, whose torn end is cut.
use crate::fault::FolderFault;
use crate::names::log_path;
use std::alloc::Global;
use std::fs::{File, OpenOptions};
use std::io::{ErrorKind, Read};
use std::rt::Files;
use xs_log::{LogFault, LogsFault};

/// The most bytes that a crash can leave of a log without a complete header.
const SHORT: u64 = 4_096;

/// The beginning of each header: `#` is a digit of its size.
const BEGINNING: &[u8] = b"*6\r\n$2\r\n##\r\n$6\r\nxs-log\r\n";

/// Whether the byte at a place of a file can be one of a header, or zero.
fn may_stand(at: usize, byte: u8) -> bool {
    if byte == 0 {
        return true;
    }
    match BEGINNING.get(at) {
        Some(b'#') => byte.is_ascii_digit(),
        Some(wanted) => byte == *wanted,
        None => matches!(byte, b'0'..=b'9' | b'$' | b'\r' | b'\n'),
    }
}

/// Whether bytes may be what a crash left of a header.
fn may_be_header(bytes: &[u8]) -> bool {
    for (at, byte) in bytes.iter().enumerate() {
        if !may_stand(at, *byte) {
            return false;
        }
    }
    true
}

/// The first bytes of a file.
fn first_bytes<R: Files<File = File>>(
    rt: &R,
    alloc: Global,
    path: &str,
) -> Result<Vec<u8>, ErrorKind> {
    let file = match File::open(rt, path) {
        Ok(file) => file,
        Err(error) => return Err(error.kind()),
    };
    let mut bytes = Vec::new(alloc);
    match file.take(SHORT).read_to_end(&mut bytes) {
        Ok(_) => Ok(bytes),
        Err(error) => Err(error.kind()),
    }
}

/// Checks that a crash can have left a log without a complete header. If not, it would be another program's, and isn't
/// cut.
fn check_headless<R: Files<File = File>>(
    rt: &R,
    alloc: Global,
    path: &str,
    number: u64,
    size: u64,
) -> Result<(), FolderFault> {
    match first_bytes(rt, alloc, path) {
        Ok(bytes) if size <= SHORT && may_be_header(bytes.as_slice()) => Ok(()),
        Ok(_) => Err(FolderFault::Log(LogsFault {
            number,
            fault: LogFault::Foreign,
        })),
        Err(kind) => Err(FolderFault::UnreadableLog { number, kind }),
    }
}

/// Cuts a file after `whole` bytes, and has the system keep that.
fn cut(file: &File, size: u64, whole: u64) -> Result<(), ErrorKind> {
    if size == whole {
        return Ok(());
    }
    if let Err(error) = file.set_len(whole) {
        return Err(error.kind());
    }
    match file.sync_all() {
        Ok(()) => Ok(()),
        Err(error) => Err(error.kind()),
    }
}

/// Opens a log to be appended to.
fn open_log<R: Files<File = File>>(rt: &R, path: &str) -> Result<(File, u64), ErrorKind> {
    let file = match OpenOptions::new().append(true).open(rt, path) {
        Ok(file) => file,
        Err(error) => return Err(error.kind()),
    };
    match file.metadata() {
        Ok(found) => Ok((file, found.len())),
        Err(error) => Err(error.kind()),
    }
}

/// Opens the log with a number to be appended to, and cuts it after its complete records.
pub fn open_last<R: Files<File = File>>(
    rt: &R,
    alloc: Global,
    folder: &str,
    number: u64,
    whole: u64,
) -> Result<File, FolderFault> {
    let Ok(path) = log_path(alloc, folder, number) else {
        return Err(FolderFault::Memory);
    };
    let (file, size) = match open_log(rt, path.as_str()) {
        Ok(opened) => opened,
        Err(kind) => return Err(FolderFault::UnwritableLog { number, kind }),
    };
    if whole == 0 {
        check_headless(rt, alloc, path.as_str(), number, size)?;
    }
    match cut(&file, size, whole) {
        Ok(()) => Ok(file),
        Err(kind) => Err(FolderFault::UnwritableLog { number, kind }),
    }
}
