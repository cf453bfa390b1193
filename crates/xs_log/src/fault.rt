//! Why a log isn't read.
use thiserror::Error;

/// Why a log isn't read.
#[derive(Clone, Copy, Debug, PartialEq, Eq, Error)]
pub enum LogFault {
    /// Out of memory. If an event were skipped, the content would be another one.
    #[error("out of memory")]
    Memory,
    /// The reader failed.
    #[error("can't be read")]
    Device,
    /// It has more bytes than a number of 64 bits can count.
    #[error("has too many bytes")]
    TooLong,
    /// It doesn't begin as a log of this format.
    #[error("is no log of this program")]
    Foreign,
    /// It is of another format.
    #[error("is of another format, and this program has format 2")]
    OtherFormat,
    /// It has another number than its name.
    #[error("is the log of another number")]
    OtherNumber,
    /// It is of another model, with this number.
    #[error("is of model {0}, and this program has model 1")]
    OtherModel(u64),
    /// At this byte there is something other than what was written.
    #[error("is damaged at byte {0}")]
    Damaged(u64),
}
