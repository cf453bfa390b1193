//! Streams of Redis: entry ids, moments, ranges, fields, and the stream itself with exact trimming.
//! The rules are those of the Redis 7.0 documentation, "Redis Streams", and of the pages of XADD,
//! XDEL, XTRIM, XRANGE and XREVRANGE.
#![tactic(auto)]

pub mod add;
mod block;
mod block_count;
mod entries;
pub mod entry;
pub mod examples;
pub mod field;
pub mod id;
pub mod lent;
pub mod moment;
pub mod packed;
pub mod range;
pub mod stream;
pub mod trim;

pub use add::{AddError, AddId};
pub use entry::{Entry, ids_of};
pub use field::Field;
pub use id::Id;
pub use lent::LentEntries;
pub use moment::Moment;
pub use packed::fields::{FieldView, PackedFields};
pub use range::Range;
pub use stream::Stream;
pub use trim::Trim;
