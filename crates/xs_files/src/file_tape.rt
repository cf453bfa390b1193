//! The files of a folder as a tape. This is trusted: no contract can refer to the content of a file.
ghost use Rattle.std.specs.Prelude.{◌≡◌, None, false, is_err, IfOk};

use crate::folder::{FolderLock, sync_folder};
use crate::names::log_path;
use crate::syncing::{Beside, SyncPolicy, Syncer};
use std::alloc::{AllocError, Global};
use std::fs::{File, OpenOptions};
use std::io::Write;
use std::rt::Files;
use std::sync::Arc;
use xs_tape::{Tape, TapeFailed};

/// The logs of a folder. The last one is open, and the folder is locked.
#[derive(Drop)]
pub struct FileTape<R: Files<File = File> + Copy + Drop> {
    rt: R,
    alloc: Global,
    folder: String,
    // Held as long as the tape.
    lock: FolderLock,
    file: File,
    number: u64,
    size: u64,
    policy: SyncPolicy,
    // Whether the last file was synced since it was made or opened.
    was_synced: bool,
    beside: Arc<Beside>,
    broken: bool,
}

/// Makes the file of a log, whose name is kept.
pub fn make_log<R: Files<File = File>>(
    rt: &R,
    alloc: Global,
    folder: &str,
    number: u64,
) -> Result<File, TapeFailed> {
    let Ok(path) = log_path(alloc, folder, number) else {
        return Err(TapeFailed);
    };
    let Ok(file) = OpenOptions::new()
        .append(true)
        .create_new(true)
        .open(rt, path.as_str())
    else {
        return Err(TapeFailed);
    };
    match sync_folder(rt, folder) {
        Ok(()) => Ok(file),
        Err(_) => Err(TapeFailed),
    }
}

impl<R: Files<File = File> + Copy + Drop> FileTape<R> {
    /// The tape whose last file has this number and this size, and is open to be appended to.
    pub fn new(
        rt: &R,
        alloc: Global,
        folder: &str,
        lock: FolderLock,
        file: File,
        number: u64,
        size: u64,
        policy: SyncPolicy,
    ) -> Result<Self, AllocError>
        ensures broken { IfOk result (λ tape. ⟦<FileTape<R> as Tape>⟧.broken tape ≡ false) }
        ensures holds { IfOk result (λ tape. ⟦<FileTape<R> as Tape>⟧.holds tape ≡ None) }
    {
        Ok(Self {
            rt: *rt,
            alloc,
            folder: String::from_str(alloc, folder)?,
            lock,
            file,
            number,
            size,
            policy,
            was_synced: false,
            beside: Arc::new(alloc, Beside::new(number))?,
            broken: false,
        })
    }

    /// A syncer for this tape, if its policy needs one.
    pub fn syncer(&self) -> Result<Option<Syncer>, AllocError> {
        match self.policy {
            SyncPolicy::EachSecond => {
                Ok(Some(Syncer::new(self.alloc, self.folder.as_str(), &self.beside)?))
            }
            SyncPolicy::Always | SyncPolicy::Never => Ok(None),
        }
    }
}

impl<R: Files<File = File> + Copy + Drop> Tape for FileTape<R> {
    ghost holds = { λ tape. None };

    ghost broken = { λ tape. tape.broken };

    fn append(&mut self, bytes: &[u8]) -> Result<(), TapeFailed> {
        if self.beside.has_failed() || self.file.write_all(bytes).is_err() {
            self.broken = true;
            return Err(TapeFailed);
        }
        self.beside.wrote();
        self.size = self.size.saturating_add(bytes.len() as u64);
        Ok(())
    }

    fn sync(&mut self) -> Result<(), TapeFailed> {
        // The first time whatever the policy: a log from which a crash takes the header but not what follows can't be
        // read.
        let syncs = self.policy == SyncPolicy::Always || !self.was_synced;
        if syncs && self.file.sync_data().is_err() {
            self.broken = true;
            return Err(TapeFailed);
        }
        self.was_synced = true;
        Ok(())
    }

    fn begin_next(&mut self) -> Result<(), TapeFailed> {
        // Whatever the policy: only the last log may lose its end.
        if self.file.sync_data().is_err() {
            self.broken = true;
            return Err(TapeFailed);
        }
        let number = self.number.saturating_add(1);
        match make_log(&self.rt, self.alloc, self.folder.as_str(), number) {
            Ok(file) => {
                self.file = file;
                self.number = number;
                self.size = 0;
                self.was_synced = false;
                self.beside.begins(number);
                Ok(())
            }
            Err(fault) => {
                self.broken = true;
                Err(fault)
            }
        }
    }

    fn size(&self) -> u64 {
        self.size
    }
}
