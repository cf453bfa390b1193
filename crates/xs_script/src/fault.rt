//! Why a script ends before its end.
use thiserror::Error;

/// Why a script ended before its end. `written` is the number of bytes of replies that were written.
#[derive(Clone, Copy, Debug, PartialEq, Eq, Error)]
pub enum ScriptFault {
    /// A line is not a script line. The replies to the lines before it are written.
    #[error("line {number} is not a script line")]
    Line { number: u64, written: u64 },
    /// The reader failed. The replies to the complete lines that were read are written.
    #[error("reading failed")]
    Read { written: u64 },
    /// The writer failed. A prefix of the replies is written.
    #[error("writing failed")]
    Write { written: u64 },
    /// Out of memory. The replies to the lines before the one in hand are written.
    #[error("out of memory")]
    Memory { written: u64 },
}
