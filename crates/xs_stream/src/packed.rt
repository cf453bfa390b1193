//! Entries as they are stored in bytes.

pub(crate) mod entry;
pub mod fields;
pub(crate) mod gap;
pub(crate) mod number;
pub(crate) mod text;
pub(crate) mod walk;
pub(crate) mod walks;
