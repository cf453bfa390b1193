//! The bytes of a log: records, the tape that they are written to, and what a crash leaves of them.
#![tactic(auto)]

pub mod before_zero;
pub mod checksum;
pub mod escape;
pub mod examples;
pub mod head;
pub mod laws;
pub mod log_writer;
pub mod memory_tape;
pub mod pushing;
pub mod record;
pub mod size;
pub mod tape;

pub use before_zero::BeforeZero;
pub use checksum::checksum_of;
pub use escape::unescaped;
pub use head::may_be_cut;
pub use log_writer::LogWriter;
pub use memory_tape::MemoryTape;
pub use record::can_be_record;
pub use size::sized_words;
pub use tape::{Tape, TapeFailed};
