//! The fields of an entry, in the order in which they were added.
use xs_bytes::Bytes;

/// A field of an entry. Names may repeat within an entry, and may be empty, as values may.
#[derive(Debug, Drop)]
pub struct Field {
    /// Its name.
    pub name: Bytes,
    /// Its value.
    pub value: Bytes,
}
