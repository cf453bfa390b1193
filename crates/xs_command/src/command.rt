//! The commands of the server. Each is described on its page of the Redis documentation.

use crate::operands::Operands;
use xs_bytes::{Bytes, List};
use xs_group::ClaimRule;
use xs_stream::{AddId, Field, Id, Range, Trim};

/// A command. Keys, names and values are byte strings, and may be empty.
#[derive(Debug, Drop)]
pub enum Command {
    /// PING, with the message that is sent back.
    Ping(Option<Bytes>),
    /// QUIT.
    Quit,
    /// XADD.
    Add(AddCommand),
    /// XDEL.
    Delete {
        key: Bytes,
        ids: Operands<Id>,
    },
    /// XTRIM.
    TrimTo {
        key: Bytes,
        trim: Trim,
    },
    /// XLEN.
    Len {
        key: Bytes,
    },
    /// XRANGE and XREVRANGE.
    Scan(RangeCommand),
    /// XGROUP CREATE.
    GroupCreate(GroupCreateCommand),
    /// XGROUP DESTROY.
    GroupDestroy {
        key: Bytes,
        group: Bytes,
    },
    /// XGROUP CREATECONSUMER.
    ConsumerCreate {
        key: Bytes,
        group: Bytes,
        consumer: Bytes,
    },
    /// XGROUP DELCONSUMER.
    ConsumerDelete {
        key: Bytes,
        group: Bytes,
        consumer: Bytes,
    },
    /// XREADGROUP.
    ReadGroup(ReadGroupCommand),
    /// XACK.
    Ack {
        key: Bytes,
        group: Bytes,
        ids: Operands<Id>,
    },
    /// XPENDING, the short form.
    Pending {
        key: Bytes,
        group: Bytes,
    },
    /// XPENDING, the long form.
    PendingRows(PendingRowsCommand),
    /// XCLAIM.
    Claim(ClaimCommand),
    /// XAUTOCLAIM.
    AutoClaim(AutoClaimCommand),
    /// DEL.
    DropKeys {
        keys: List<Bytes>,
    },
    /// XINFO, EXISTS, TYPE and DBSIZE.
    Inspect(Inspection),
}

/// A question about the content, which doesn't change it.
#[derive(Debug, Drop)]
pub enum Inspection {
    /// XINFO STREAM.
    Stream { key: Bytes },
    /// XINFO STREAM with FULL: at most `limit` of each list.
    StreamInFull { key: Bytes, limit: Option<u64> },
    /// XINFO GROUPS.
    Groups { key: Bytes },
    /// XINFO CONSUMERS.
    Consumers { key: Bytes, group: Bytes },
    /// EXISTS.
    Existence { keys: List<Bytes> },
    /// TYPE.
    KeyType { key: Bytes },
    /// DBSIZE.
    KeyCount,
}

/// The arguments of XADD.
#[derive(Debug, Drop)]
pub struct AddCommand {
    /// The key of the stream.
    pub key: Bytes,
    /// Whether a missing key is created. It is false with NOMKSTREAM.
    pub make: bool,
    /// If given, the stream is trimmed to it after the entry is added.
    pub trim: Option<Trim>,
    /// The id of the entry, never `0-0`.
    pub id: AddId,
    /// One field or more.
    pub fields: List<Field>,
}

/// The arguments of XRANGE and XREVRANGE.
#[derive(Debug, Drop)]
pub struct RangeCommand {
    /// The key of the stream.
    pub key: Bytes,
    /// The ids of the entries.
    pub range: Range,
    /// The most entries.
    pub limit: Option<u64>,
    /// Whether the greatest id comes first.
    pub reversed: bool,
}

/// The id after which a new group starts to read.
#[derive(Clone, Copy, Debug, PartialEq, Eq)]
pub enum GroupStart {
    /// `$`: the top of the stream.
    Top,
    /// A written id.
    At(Id),
}

/// The arguments of XGROUP CREATE.
#[derive(Debug, Drop)]
pub struct GroupCreateCommand {
    /// The key of the stream.
    pub key: Bytes,
    /// The name of the group.
    pub group: Bytes,
    /// Where the group starts to read.
    pub start: GroupStart,
    /// Whether a missing key is created, as with MKSTREAM.
    pub make: bool,
}

/// The start of the read of a stream.
#[derive(Clone, Copy, Debug, PartialEq, Eq)]
pub enum ReadFrom {
    /// `>`: the entries that the group hasn't delivered yet.
    New,
    /// The pending entries of the consumer above this id.
    After(Id),
}

/// One stream of a read.
#[derive(Debug, Drop)]
pub struct ReadOne {
    /// The key of the stream.
    pub key: Bytes,
    /// The start of the read.
    pub from: ReadFrom,
}

/// The arguments of XREADGROUP.
#[derive(Debug, Drop)]
pub struct ReadGroupCommand {
    /// The name of the group.
    pub group: Bytes,
    /// The name of the consumer.
    pub consumer: Bytes,
    /// The most entries of each stream.
    pub limit: Option<u64>,
    /// How many milliseconds it may wait for new entries; 0 is without limit. The model ignores it.
    pub block: Option<u64>,
    /// Whether what is delivered doesn't become pending.
    pub noack: bool,
    /// One stream or more, each once.
    pub reads: Operands<ReadOne>,
}

/// The arguments of the long form of XPENDING.
#[derive(Debug, Drop)]
pub struct PendingRowsCommand {
    /// The key of the stream.
    pub key: Bytes,
    /// The name of the group.
    pub group: Bytes,
    /// The least idle time in milliseconds.
    pub min_idle: u64,
    /// The ids of the rows.
    pub range: Range,
    /// The most rows.
    pub limit: u64,
    /// If given, only the rows of this consumer.
    pub consumer: Option<Bytes>,
}

/// The arguments of XCLAIM.
#[derive(Debug, Drop)]
pub struct ClaimCommand {
    /// The key of the stream.
    pub key: Bytes,
    /// The name of the group.
    pub group: Bytes,
    /// The name of the consumer.
    pub consumer: Bytes,
    /// Which entries are claimed, and how their rows change.
    pub rule: ClaimRule,
    /// One id or more, as they were written, repeated ones included.
    pub ids: Operands<Id>,
}

/// The arguments of XAUTOCLAIM.
#[derive(Debug, Drop)]
pub struct AutoClaimCommand {
    /// The key of the stream.
    pub key: Bytes,
    /// The name of the group.
    pub group: Bytes,
    /// The name of the consumer.
    pub consumer: Bytes,
    /// Which entries are claimed, and how their rows change.
    pub rule: ClaimRule,
    /// The least id that is scanned.
    pub start: Id,
    /// The most entries that are claimed or found deleted.
    pub limit: u64,
}
