//! Why work over gates failed.
use thiserror::Error;
use xs_desk::DeskError;

/// Why work over gates failed. If several causes apply, the first is reported. But if no memory is left to close the
/// desk, that is reported, and not the faults of its workers.
#[derive(Clone, Copy, Debug, PartialEq, Eq, Error)]
pub enum WorkFault {
    /// No desk was made.
    #[error("no desk was made")]
    Desk(DeskError),
    /// A thread wasn't started. It isn't known then what was served.
    #[error("a thread wasn't started")]
    Start,
    /// A gate refused a connection. The other gates were served to their ends.
    #[error("a connection can't be taken")]
    Gate,
    /// The lane of a gate was gone before the end of the gate.
    #[error("nobody answers")]
    Lane,
    /// The end of a lane is missing.
    #[error("the end of a lane is missing")]
    Close,
    /// Out of memory.
    #[error("out of memory")]
    Memory,
}
