//! The summary of a desk that was closed.
use xs_keys::Keyspace;

/// The number of calls of a lane that were served, of those that were submitted and not served, and of the answers that
/// were sent and not taken.
#[derive(Clone, Copy, Debug, PartialEq, Eq)]
pub struct LaneSummary {
    /// The number of calls that were served.
    pub served: u64,
    /// The number of calls that were submitted and not served.
    pub left: u64,
    /// The number of answers that were sent and not taken.
    pub untaken: u64,
}

/// A desk that was closed.
#[derive(Drop)]
pub struct Summary {
    /// Each lane, in the order of their numbers.
    pub lanes: Vec<LaneSummary>,
    /// The keyspace.
    pub keyspace: Keyspace,
}
