//! Snapshots of keyspaces.
#![tactic(auto)]

mod group_builder;
mod key_builder;
pub mod keyspace_builder;
pub mod laws;
pub mod reading;
pub mod writing;

pub use keyspace_builder::KeyspaceBuilder;
pub use reading::read_snapshot;
pub use writing::write_snapshot;
