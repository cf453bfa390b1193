//! The last step of a trace.
use std::snapshot::Snapshot;

/// Nothing, or a trace `S` before the last item `T`.
#[derive(Drop)]
pub enum Link<T, S> {
    First,
    Next(Snapshot<S>, Snapshot<T>),
}
