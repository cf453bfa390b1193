//! The content of the greatest snapshot of a folder, and the sources of the logs from its number on.
ghost use Rattle.std.specs.Prelude.{IfOk};
ghost use Rattle.xs_files.specs.Start.{IsStart};

use crate::fault::FolderFault;
use crate::file_source::FileSource;
use crate::names::{log_path, snapshot_path};
use crate::progress::Progress;
use std::alloc::{AllocError, Global};
use std::fs::File;
use std::rt::Files;
use std::sync::Arc;
use xs_log::Recovered;
use xs_snapshot::read_snapshot;

/// The content of the snapshot with a number; an empty one if the number is 0.
pub fn read_start<R: Files<File = File> + Copy + Drop>(
    rt: &R,
    alloc: Global,
    folder: &str,
    number: u64,
    progress: &Arc<Progress>,
) -> Result<Recovered, FolderFault>
    ensures { IfOk result (λ start. IsStart start.keyspace start.last) }
{
    if number == 0 {
        return Ok(Recovered::new(alloc));
    }
    let Ok(source) = source(rt, snapshot_path(alloc, folder, number), progress) else {
        return Err(FolderFault::Memory);
    };
    match read_snapshot(alloc, number, source) {
        Ok((keyspace, last)) => Ok(Recovered::of_snapshot(keyspace, last)),
        Err(fault) => Err(FolderFault::Snapshot { number, fault }),
    }
}

/// The source of the file with this path.
fn source<R: Files<File = File> + Copy + Drop>(
    rt: &R,
    path: Result<String, AllocError>,
    progress: &Arc<Progress>,
) -> Result<FileSource<R>, AllocError> {
    Ok(FileSource::new(rt, path?, Arc::try_clone(progress)?))
}

/// The source of the log with a number.
pub fn log_source<R: Files<File = File> + Copy + Drop>(
    rt: &R,
    alloc: Global,
    folder: &str,
    number: u64,
    progress: &Arc<Progress>,
) -> Result<FileSource<R>, AllocError> {
    source(rt, log_path(alloc, folder, number), progress)
}

/// The sources of the logs from a number on, below another one.
pub fn log_sources<R: Files<File = File> + Copy + Drop>(
    rt: &R,
    alloc: Global,
    folder: &str,
    first: u64,
    end: u64,
    progress: &Arc<Progress>,
) -> Result<Vec<FileSource<R>>, AllocError> {
    let mut sources = Vec::new(alloc);
    for number in first..end {
        sources.push(log_source(rt, alloc, folder, number, progress)?)?;
    }
    Ok(sources)
}
