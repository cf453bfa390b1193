//! Consumer groups of Redis Streams. The rules are those of the Redis 7.0 documentation, "Redis
//! Streams", and of the pages of the XGROUP commands, XREADGROUP, XACK, XPENDING, XCLAIM and XAUTOCLAIM.
#![tactic(auto)]

pub mod claims;
mod consumer_index;
pub mod delivery;
pub mod examples;
pub mod group;
mod id_index;
pub mod lent;
mod moving;
mod name;
mod pending;
mod pending_entry;
mod reading;
pub mod reports;

pub use claims::{Claim, ClaimRule, ClaimTime, Scan};
pub use delivery::{Delivery, DeliveryKind, DeliveryRow, GroupRead, Touch};
pub use group::Group;
pub use lent::{LentConsumers, LentRow, LentRows};
pub use reports::{ConsumerReport, GroupSummary, OwnerCount, PendingRow};
