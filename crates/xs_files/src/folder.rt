//! The folder itself: it is made if it is missing, and locked.
use crate::fault::FolderFault;
use crate::names::{COMPACTING, LOCK, path_in};
use std::alloc::Global;
use std::fs::{self, File, OpenOptions, TryLockError};
use std::io::ErrorKind;
use std::path::Path;
use std::rt::Files;

/// Has the system keep the names in a folder.
pub fn sync_folder<R: Files<File = File>>(rt: &R, folder: &str) -> Result<(), ErrorKind> {
    let opened = match File::open(rt, folder) {
        Ok(opened) => opened,
        Err(error) => return Err(error.kind()),
    };
    match opened.sync_all() {
        Ok(()) => Ok(()),
        Err(error) => Err(error.kind()),
    }
}

/// The parent folder.
fn above(folder: &str) -> &str {
    match Path::new(folder).parent() {
        Some(parent) if !parent.as_str().is_empty() => parent.as_str(),
        _ => ".",
    }
}

/// Makes a folder, whose name is kept.
fn make<R: Files<File = File>>(rt: &R, folder: &str) -> Result<(), FolderFault> {
    if fs::symlink_metadata(rt, folder).is_ok() {
        return Err(FolderFault::LinkToNothing);
    }
    match fs::create_dir(rt, folder) {
        Ok(()) => {}
        Err(error) if error.kind() == ErrorKind::NotFound => return Err(FolderFault::NoParent),
        Err(error) => return Err(FolderFault::Unwritable(error.kind())),
    }
    match sync_folder(rt, above(folder)) {
        Ok(()) => Ok(()),
        Err(kind) => Err(FolderFault::Unwritable(kind)),
    }
}

/// Makes a folder if only it is missing.
fn make_if_missing<R: Files<File = File>>(rt: &R, folder: &str) -> Result<(), FolderFault> {
    match fs::metadata(rt, folder) {
        Ok(found) if found.is_dir() => Ok(()),
        Ok(_) => Err(FolderFault::NoFolder),
        Err(error) if error.kind() == ErrorKind::NotFound => make(rt, folder),
        Err(error) if error.kind() == ErrorKind::NotADirectory => Err(FolderFault::NoParent),
        Err(error) => Err(FolderFault::Unreadable(error.kind())),
    }
}

/// Whether a path leads to something other than a file. Opening that might wait.
pub fn is_no_file<R: Files>(rt: &R, path: &str) -> bool {
    match fs::metadata(rt, path) {
        Ok(found) => !found.is_file(),
        Err(_) => false,
    }
}

/// Opens the file of a lock in a folder that exists. It is made if it is missing.
fn open_lock<R: Files<File = File>>(
    rt: &R,
    alloc: Global,
    folder: &str,
    name: &'static str,
) -> Result<File, FolderFault> {
    let Ok(path) = path_in(alloc, folder, name) else {
        return Err(FolderFault::Memory);
    };
    if is_no_file(rt, path.as_str()) {
        return Err(FolderFault::NoLockFile(name));
    }
    match OpenOptions::new()
        .append(true)
        .create(true)
        .open(rt, path.as_str())
    {
        Ok(file) => Ok(file),
        Err(error) => Err(FolderFault::Unwritable(error.kind())),
    }
}

/// Takes a lock. The fault is `taken` if another process has it.
fn try_lock(file: File, taken: FolderFault) -> Result<File, FolderFault> {
    match file.try_lock() {
        Ok(()) => Ok(file),
        Err(TryLockError::WouldBlock) => Err(taken),
        Err(TryLockError::Error(error)) => Err(FolderFault::Unwritable(error.kind())),
    }
}

/// The lock of a folder. The system releases it when this is dropped.
#[derive(Drop)]
pub struct FolderLock {
    file: File,
}

/// Makes a folder if only it is missing, and locks it: no other server can open it until the lock is dropped.
///
/// # Errors
/// A `FolderFault`: `InUse` if another server has the lock. Nothing in the folder was changed then.
pub fn lock_folder<R: Files<File = File> + AllocGlobal>(
    rt: &R,
    folder: &str,
) -> Result<FolderLock, FolderFault> {
    make_if_missing(rt, folder)?;
    let file = open_lock(rt, rt.alloc(), folder, LOCK)?;
    Ok(FolderLock {
        file: try_lock(file, FolderFault::InUse)?,
    })
}

/// Takes the lock of compaction, which removes files. The system releases it when the file is closed.
pub fn take_compaction_lock<R: Files<File = File>>(
    rt: &R,
    alloc: Global,
    folder: &str,
) -> Result<File, FolderFault> {
    try_lock(
        open_lock(rt, alloc, folder, COMPACTING)?,
        FolderFault::Compacting,
    )
}

/// Waits until no process compacts a folder, and keeps others from it until the file is closed.
pub fn wait_for_compaction<R: Files<File = File>>(
    rt: &R,
    alloc: Global,
    folder: &str,
) -> Result<File, FolderFault> {
    let file = open_lock(rt, alloc, folder, COMPACTING)?;
    match file.lock() {
        Ok(()) => Ok(file),
        Err(error) => Err(FolderFault::Unwritable(error.kind())),
    }
}
