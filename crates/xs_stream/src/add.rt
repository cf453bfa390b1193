//! How an added entry gets its id (Redis, XADD).
use crate::id::Id;
use thiserror::Error;

/// The id that an addition requests.
#[derive(Clone, Copy, Debug, PartialEq, Eq)]
pub enum AddId {
    /// `*`: the moment, or the successor of the top.
    Auto,
    /// `ms-*`: the next sequence of that millisecond.
    AutoSeq(u64),
    /// A written id, which has to be above the top.
    Exact(Id),
}

/// Why an entry isn't added. The stream is unchanged.
#[derive(Clone, Copy, Debug, PartialEq, Eq, Error)]
pub enum AddError {
    #[error("the id is not above the top of the stream")]
    Small,
    #[error("the stream has given its last id")]
    Exhausted,
    #[error("out of memory")]
    Memory,
}
