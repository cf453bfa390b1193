//! The keyspace: one event at a time, and whole runs of events, each as the model of whole histories defines it.
#![tactic(auto)]

mod account;
pub mod clock;
mod del;
pub mod examples;
mod group_change;
mod in_vain;
mod inspect;
pub mod keys;
pub mod keyspace;
pub mod laws;
mod let_group;
pub mod name_map;
mod ping;
mod reserve;
mod showing;
mod xack;
mod xadd;
mod xautoclaim;
mod xclaim;
mod xdel;
mod xgroup;
mod xinfo;
mod xinfo_full;
mod xlen;
mod xpending;
mod xrange;
mod xreadgroup;
mod xtrim;

pub use clock::Clock;
pub use keys::{Groups, Slot};
pub use keyspace::Keyspace;
pub use name_map::NameMap;
