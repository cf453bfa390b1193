//! A piece of a snapshot.
use xs_bytes::{Bytes, List, U63};
use xs_stream::{Field, Id, Moment};

/// A piece of a snapshot. A key comes first, then its entries and its groups; after a group come its consumers and its
/// pending rows.
#[derive(Debug, Drop)]
pub enum Piece {
    /// A key.
    Key {
        /// Its name.
        name: Bytes,
        /// Its top id.
        top: Id,
        /// The number of entries that were ever added to it.
        added: u128,
        /// The greatest id that was ever deleted from it.
        deleted: Id,
    },
    /// An entry of the last key.
    Entry {
        /// Its id.
        id: Id,
        /// Its fields, in order.
        fields: List<Field>,
    },
    /// A group of the last key.
    Group {
        /// Its name.
        name: Bytes,
        /// Its cursor.
        cursor: Id,
    },
    /// A consumer of the last group.
    Consumer {
        /// Its name.
        name: Bytes,
        /// Its moment: when it was created, or was last given or claimed something.
        moment: Moment,
    },
    /// A pending row of the last group.
    Row {
        /// The id of the entry.
        id: Id,
        /// The consumer that has it.
        consumer: Bytes,
        /// When it was last delivered.
        time: Moment,
        /// The number of deliveries.
        count: U63,
    },
}
