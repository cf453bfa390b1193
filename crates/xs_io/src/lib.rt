//! Readers and writers of bytes as contracts see them, and the buffer that bytes are read into.
#![tactic(auto)]

pub mod device;
pub mod fill;
pub mod input;
pub mod sending;

pub use device::{Failed, FromRead, Sink, Source, ToWrite};
pub use fill::{Fill, FillFault};
pub use input::Input;
pub use sending::write_all;
