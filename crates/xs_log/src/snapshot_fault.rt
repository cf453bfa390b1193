//! Why a snapshot isn't read.
use thiserror::Error;

/// Why a snapshot isn't read.
#[derive(Clone, Copy, Debug, PartialEq, Eq, Error)]
pub enum SnapshotFault {
    /// Out of memory.
    #[error("out of memory")]
    Memory,
    /// The reader failed.
    #[error("can't be read")]
    Device,
    /// It has more pieces than a number of 64 bits can count.
    #[error("has too many pieces")]
    TooLong,
    /// It doesn't begin as a snapshot of this format.
    #[error("is no snapshot of this program")]
    Foreign,
    /// It is of another format.
    #[error("is of another format, and this program has format 1")]
    OtherFormat,
    /// It has another number than its name.
    #[error("is the snapshot of another number")]
    OtherNumber,
    /// It is of another model, with this number.
    #[error("is of model {0}, and this program has model 1")]
    OtherModel(u64),
    /// At this byte there is something other than what was written, or nothing before the end of the snapshot.
    #[error("is damaged at byte {0}")]
    Damaged(u64),
    /// What follows this many pieces, another one or the end, can't be there in a snapshot of a keyspace.
    #[error("is inconsistent behind {0} pieces")]
    Inconsistent(u64),
}
