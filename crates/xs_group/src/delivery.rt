//! What a read of a group delivers (Redis, XREADGROUP).
use xs_bytes::{Bytes, List, U63};
use xs_stream::{Entry, Id, Moment};

/// When an entry was last delivered to its consumer, and how often it was delivered.
#[derive(Clone, Copy, Debug, PartialEq, Eq)]
pub struct Touch {
    /// The moment from which its idle time is counted.
    pub time: Moment,
    /// The number of deliveries.
    pub count: U63,
}

/// An entry that a read delivered or showed.
#[derive(Clone, Copy, Debug, PartialEq, Eq)]
pub struct DeliveryRow {
    /// The id of the entry.
    pub id: Id,
    /// Whether the entry is in the stream.
    pub present: bool,
    /// Its time and count before a read of the consumer's own entries; None for a delivery.
    pub before: Option<Touch>,
}

/// The kind of a read.
#[derive(Clone, Copy, Debug, PartialEq, Eq)]
pub enum DeliveryKind {
    /// New entries, which become pending.
    New,
    /// New entries, which don't become pending (NOACK).
    NoAck,
    /// The consumer's own pending entries.
    History,
}

/// A read of a group, with what `Group::undo` needs.
#[derive(Debug, Drop)]
pub struct Delivery {
    /// The consumer that read.
    pub consumer: Bytes,
    /// Whether the consumer was new.
    pub created: bool,
    /// The moment of the consumer before the read, if it was in the group.
    pub seen_before: Option<Moment>,
    /// The group's cursor before the read.
    pub cursor_before: Id,
    /// The kind of the read.
    pub kind: DeliveryKind,
    /// The entries delivered or shown.
    pub rows: List<DeliveryRow>,
}

/// A read of a group, and entries of its stream to look at side by side with the rows.
#[derive(Drop)]
pub struct GroupRead<'a> {
    /// The read.
    pub delivery: Delivery,
    /// The entries. They are lent, and each is the one that a search for its id finds.
    pub entries: List<Entry<'a>>,
}
