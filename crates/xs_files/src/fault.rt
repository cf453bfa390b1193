//! Why a folder of logs isn't opened.
use std::io::ErrorKind;
use thiserror::Error;
use xs_log::{LogsFault, SnapshotFault, WriteFault};

/// Why a folder of logs isn't opened. The text is to follow the folder's name and a colon.
#[derive(Clone, Copy, Debug, PartialEq, Eq, Error)]
pub enum FolderFault {
    /// Out of memory.
    #[error("out of memory")]
    Memory,
    /// The folder in which it would be made is missing.
    #[error("the folder above it isn't there")]
    NoParent,
    /// Its name is that of something else.
    #[error("it is no folder")]
    NoFolder,
    /// Its name is that of a symbolic link to nothing.
    #[error("it is a link to nothing")]
    LinkToNothing,
    /// The system refuses to read it.
    #[error("it can't be read: {0}")]
    Unreadable(ErrorKind),
    /// The system refuses to write into it.
    #[error("it can't be written: {0}")]
    Unwritable(ErrorKind),
    /// Another server has its lock.
    #[error("another server uses it")]
    InUse,
    /// Another process makes a snapshot.
    #[error("it is being compacted")]
    Compacting,
    /// The name of a lock is that of something else.
    #[error("{0} is no file")]
    NoLockFile(&'static str),
    /// This log is missing, though there is one with a greater number.
    #[error("log-{0} is missing")]
    Missing(u64),
    /// The name of the log is that of something else.
    #[error("log-{0} is no file")]
    NoFile(u64),
    /// The system refuses to read a log.
    #[error("log-{number} can't be read: {kind}")]
    UnreadableLog { number: u64, kind: ErrorKind },
    /// The system refuses to write a log.
    #[error("log-{number} can't be written: {kind}")]
    UnwritableLog { number: u64, kind: ErrorKind },
    /// The content of a log isn't as it was written.
    #[error("{0}")]
    Log(LogsFault),
    /// The name of the greatest snapshot is that of something else.
    #[error("snapshot-{0} is no file")]
    NoSnapshotFile(u64),
    /// A snapshot isn't read.
    #[error("snapshot-{number} {fault}")]
    Snapshot { number: u64, fault: SnapshotFault },
    /// A snapshot isn't written.
    #[error("snapshot-{number} {fault}")]
    NewSnapshot { number: u64, fault: WriteFault },
    /// The system refuses to make the file of a snapshot, or to name it.
    #[error("snapshot-{number} can't be made: {kind}")]
    UnmadeSnapshot { number: u64, kind: ErrorKind },
    /// The log that would be continued failed.
    #[error("log-{0} can't be written")]
    Broken(u64),
}
