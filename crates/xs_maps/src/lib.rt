//! Maps and sets in the order of their keys that take little memory while they are small.
#![tactic(auto)]

pub mod entries;
mod few;
mod form;
pub mod small_map;
pub mod small_set;

pub use entries::{Entries, Keys};
pub use small_map::SmallMap;
pub use small_set::SmallSet;
