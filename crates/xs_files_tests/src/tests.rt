//! Tests of folders of logs.
mod bad_folders;
mod noting;
mod restarts;
