//! The clock of a server, which never goes back.
#![tactic(auto)]

pub mod wall_clock;

pub use wall_clock::WallClock;
