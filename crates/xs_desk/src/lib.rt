//! What serves commands: a keyspace with a clock, or a desk, whose keeper serves the calls of many clients, each over a
//! lane of its own. What a desk has done is its calls (`specs/ServedCalls.antt`): those that its keeper served, each with
//! its answer, in the order of their places.
#![tactic(auto)]

pub mod alone;
pub mod answer;
mod blocked;
mod call_rate;
pub mod client;
pub mod closing;
pub mod journal;
pub mod keeper;
pub mod lane;
mod lane_end;
mod lane_set;
pub mod laws;
pub mod log_journal;
mod no_journal;
pub mod opening;
mod outbox;
mod poll_set;
pub mod port;
mod schedule;
pub mod summary;
mod wait_marks;
mod waiting;

pub use alone::Alone;
pub use answer::{Answer, Call, next_place};
pub use client::{Client, Ended, Full};
pub use closing::{CloseError, close};
pub use journal::Journal;
pub use keeper::{Keeper, KeeperError, SameRings};
pub use lane::{Idle, Lane, Pause};
pub use log_journal::LogJournal;
pub use no_journal::NoJournal;
pub use opening::{DeskError, desk, logged_desk, wide_desk};
pub use port::{Port, PortFault};
pub use summary::{LaneSummary, Summary};
pub use waiting::Waker;
