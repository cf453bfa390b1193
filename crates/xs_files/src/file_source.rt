//! Reads a log or a snapshot. Its file is opened at the first read, so not all files of a folder are open at once.
ghost use Rattle.std.specs.Prelude.{◌≡◌, ◌≤◌, None, length, IfOk};

use crate::progress::Progress;
use std::fs::File;
use std::io::Read;
use std::rt::Files;
use std::sync::Arc;
use xs_io::{Failed, Source};
use xs_trace::Trace;

/// The file of a log, or of a snapshot.
#[derive(Drop)]
pub struct FileSource<R: Files<File = File> + Copy + Drop> {
    rt: R,
    path: String,
    progress: Arc<Progress>,
    file: Option<File>,
    calls: u64,
    broken: bool,
    ended: bool,
    passed: Trace<u8>,
}

/// Reads from a file.
fn read_from(file: &mut File, into: &mut [u8]) -> Result<usize, Failed>
    ensures { IfOk result (λ n. n ≤ length into.new) }
{
    match file.read(into) {
        Ok(count) => Ok(count),
        Err(_) => Err(Failed),
    }
}

impl<R: Files<File = File> + Copy + Drop> FileSource<R> {
    /// The source of a file with this path, which isn't opened yet.
    pub fn new(rt: &R, path: String, progress: Arc<Progress>) -> Self {
        Self {
            rt: *rt,
            path,
            progress,
            file: None,
            calls: 0,
            broken: false,
            ended: false,
            passed: Trace::new(),
        }
    }

    /// Opens the file, unless it is open.
    fn open(&mut self) -> Result<(), Failed>
        ensures calls { self.new.calls ≡ self.old.calls }
        ensures broken { self.new.broken ≡ self.old.broken }
        ensures ended { self.new.ended ≡ self.old.ended }
        ensures passed { self.new.passed ≡ self.old.passed }
    {
        if self.file.is_some() {
            return Ok(());
        }
        match File::open(&self.rt, self.path.as_str()) {
            Ok(file) => {
                self.file = Some(file);
                Ok(())
            }
            Err(_) => Err(Failed),
        }
    }

    /// Reads from the file.
    fn read_open(&mut self, into: &mut [u8]) -> Result<usize, Failed>
        ensures bound { IfOk result (λ n. n ≤ length into.new) }
        ensures calls { self.new.calls ≡ self.old.calls }
        ensures broken { self.new.broken ≡ self.old.broken }
        ensures ended { self.new.ended ≡ self.old.ended }
        ensures passed { self.new.passed ≡ self.old.passed }
    {
        self.open()?;
        match &mut self.file {
            Some(file) => read_from(file, into),
            None => Err(Failed),
        }
    }
}

impl<R: Files<File = File> + Copy + Drop> Source for FileSource<R> {
    ghost rest = { λ s. record { known = None; passed = s.passed } };

    ghost calls = { λ s. s.calls };

    ghost broken = { λ s. s.broken };

    ghost ended = { λ s. s.ended };

    fn read(&mut self, into: &mut [u8]) -> Result<usize, Failed> {
        self.calls = self.calls.saturating_add(1);
        let room = !into.is_empty();
        match self.read_open(into) {
            Ok(count) => {
                self.progress.add(count);
                if count == 0 && room {
                    self.ended = true;
                }
                self.passed.add_all(&into[..count]);
                Ok(count)
            }
            Err(_) => {
                self.broken = true;
                Err(Failed)
            }
        }
    }
}
