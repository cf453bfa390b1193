//! Lists that only contracts read.
#![tactic(auto)]

pub mod link;
pub mod trace;

pub use trace::Trace;
