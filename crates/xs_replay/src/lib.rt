//! The meaning of logs and snapshots: events, and the content after them; what a log may leave out; the words of a
//! snapshot; and the trait of a log of events.
#![tactic(auto)]

pub mod event_log;
pub mod examples;
pub mod in_range;
pub mod laws;

pub use event_log::{EventLog, LogFailed};
