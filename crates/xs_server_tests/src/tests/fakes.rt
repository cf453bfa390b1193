//! Readers and writers of std that give and take a few bytes at a time, wait, count or fail, and a clock that doesn't
//! advance.
mod in_two;
mod one_thread;
mod pieces;
mod sips;
mod still;
mod tally;

pub use in_two::InTwo;
pub use one_thread::OneThread;
pub use pieces::Pieces;
pub use sips::Sips;
pub use still::Still;
pub use tally::Tally;
