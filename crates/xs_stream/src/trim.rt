//! Which entries a trim keeps (Redis, XTRIM).
use crate::id::Id;

/// A bound to trim a stream to. Trimming is exact.
#[derive(Clone, Copy, Debug, PartialEq, Eq)]
pub enum Trim {
    /// Keeps this many entries, those with the greatest ids.
    MaxLen(u64),
    /// Removes the entries with ids below this one.
    MinId(Id),
}
