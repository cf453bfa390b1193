//! The commands of a connection itself: how their words are read, and their replies. They don't use the keyspace.
#![tactic(auto)]

pub mod command;
pub mod examples;
pub mod inform;
pub mod password;
pub mod queue;
mod read;
mod read_client;
pub mod standing;
pub mod transaction;
pub mod unknown;
pub mod waiting;

pub use command::{ConnectionCommand, HelloCommand, Login};
pub use inform::Inform;
pub use password::Password;
pub use read::read_connection_command;
pub use standing::Standing;
pub use transaction::Transaction;
pub use unknown::unknown_text;
