//! For tests and benchmarks: a desk with all its clients, used call by call, or with a thread for each client and one
//! for the keeper; commands and replies as text; a clock that doesn't advance.
#![tactic(auto)]

pub mod commands;
mod still;
pub mod together;
pub mod trial;

pub use commands::{read, read_call, read_words, text_of};
pub use still::Still;
pub use together::{Job, MOST_TURNS};
pub use trial::Trial;
