//! Logs and snapshots: how they are read and written.
#![tactic(auto)]

pub mod after_crash;
pub mod closed;
pub mod fault;
pub mod header;
pub mod last;
pub mod logs;
pub mod piece;
mod piece_values;
mod piece_words;
pub mod reading;
mod record;
pub mod snapshot_fault;
mod snapshot_header;
mod snapshot_input;
pub mod snapshot_laws;
pub mod snapshot_output;
pub mod snapshot_reader;
mod snapshot_record;
pub mod snapshot_writer;
pub mod tape_log;

pub use after_crash::restart;
pub use closed::read_closed_log;
pub use fault::LogFault;
pub use header::MODEL_NUMBER;
pub use last::read_last_log;
pub use logs::{LogsFault, read_closed_logs, recover};
pub use piece::Piece;
pub use reading::{Extent, Recovered, read_log};
pub use snapshot_fault::SnapshotFault;
pub use snapshot_output::WriteFault;
pub use snapshot_reader::SnapshotReader;
pub use snapshot_writer::SnapshotWriter;
pub use tape_log::TapeLog;
