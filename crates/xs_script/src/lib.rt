//! Scripts: lines in, replies out. A script is a text whose lines are commands, each with its moment and the name of
//! its client. They are applied to a keyspace of its own.
#![tactic(auto)]

pub mod fault;
pub mod lines;
pub mod run;
pub mod serving;
pub mod state;

pub use fault::ScriptFault;
pub use run::run_script;
