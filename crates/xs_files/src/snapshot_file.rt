//! The file of a new snapshot as a tape. This is trusted: no contract can refer to the content of a file.
ghost use Rattle.std.specs.Prelude.{◌≡◌, None, false, IfOk};

use std::fs::{File, OpenOptions};
use std::io::{ErrorKind, Write};
use std::rt::Files;
use xs_tape::{Tape, TapeFailed};

/// A snapshot that is being written.
#[derive(Drop)]
pub struct SnapshotFile {
    file: File,
    size: u64,
    broken: bool,
}

impl SnapshotFile {
    /// Makes an empty file with this path. It replaces one that was left there.
    pub fn create<R: Files<File = File>>(rt: &R, path: &str) -> Result<Self, ErrorKind>
        ensures { IfOk result (λ made. ⟦<SnapshotFile as Tape>⟧.broken made ≡ false) }
    {
        let made = OpenOptions::new()
            .write(true)
            .create(true)
            .truncate(true)
            .open(rt, path);
        match made {
            Ok(file) => Ok(Self::over(file)),
            Err(error) => Err(error.kind()),
        }
    }

    /// A tape over an empty file.
    fn over(file: File) -> Self
        ensures sound { ⟦<SnapshotFile as Tape>⟧.broken result ≡ false }
        ensures unknown { ⟦<SnapshotFile as Tape>⟧.holds result ≡ None }
    {
        Self {
            file,
            size: 0,
            broken: false,
        }
    }
}

impl Tape for SnapshotFile {
    ghost holds = { λ tape. None };

    ghost broken = { λ tape. tape.broken };

    fn append(&mut self, bytes: &[u8]) -> Result<(), TapeFailed> {
        if self.file.write_all(bytes).is_err() {
            self.broken = true;
            return Err(TapeFailed);
        }
        self.size = self.size.saturating_add(bytes.len() as u64);
        Ok(())
    }

    fn sync(&mut self) -> Result<(), TapeFailed> {
        if self.file.sync_data().is_err() {
            self.broken = true;
            return Err(TapeFailed);
        }
        Ok(())
    }

    fn begin_next(&mut self) -> Result<(), TapeFailed> {
        // A snapshot is one file.
        self.broken = true;
        Err(TapeFailed)
    }

    fn size(&self) -> u64 {
        self.size
    }
}
