//! Entry ids (Redis Streams, "Entry IDs"): milliseconds and a sequence, in this order.
ghost use Rattle.std.specs.Prelude.{◌≡◌, ◌<◌, ◌==◌, ◌++◌, IfOk, IfSome, OnOk, OnErr, length, take, vec_len, position};
ghost use Rattle.xs_stream.specs.Id.{id_text};
ghost use Rattle.xs_stream.specs.ConsistentStream.{rank_of};
ghost use Rattle.xs_stream.specs.IdText.{next_id, previous_id, id_number, parse_id};

use itoa::Buffer;
use std::alloc::{AllocError, Global};
use xs_bytes::{Bytes, number, push_decimal};

/// The id of an entry. Ids are ordered by milliseconds, then by sequence.
#[derive(Clone, Copy, Debug, PartialEq, Eq, PartialOrd, Ord)]
pub struct Id {
    /// Milliseconds, like those of a moment.
    pub ms: u64,
    /// The place among the ids of one millisecond.
    pub seq: u64,
}

impl Id {
    /// The least id, `0-0`: the top of a new stream, and never an entry's.
    pub const ZERO: Id = Id { ms: 0, seq: 0 };

    /// The greatest id. It has no successor.
    pub const GREATEST: Id = Id {
        ms: u64::MAX,
        seq: u64::MAX,
    };

    /// The least id above this one, or None at the greatest.
    pub fn next(self) -> Option<Id>
        ensures { result ≡ next_id self }
    {
        if self.seq < u64::MAX {
            return Some(Id {
                ms: self.ms,
                seq: self.seq + 1,
            });
        }
        if self.ms < u64::MAX {
            return Some(Id {
                ms: self.ms + 1,
                seq: 0,
            });
        }
        None
    }

    /// The greatest id below this one, or None at `0-0`.
    pub fn previous(self) -> Option<Id>
        ensures { result ≡ previous_id self }
    {
        if self.seq > 0 {
            return Some(Id {
                ms: self.ms,
                seq: self.seq - 1,
            });
        }
        if self.ms > 0 {
            return Some(Id {
                ms: self.ms - 1,
                seq: u64::MAX,
            });
        }
        None
    }

    /// The number of ids below this one.
    pub(crate) fn rank(self) -> u128
        ensures { result ≡ rank_of self }
    {
        u128::from(self.ms) * (1 << 64) + u128::from(self.seq)
    }

    /// Reads `ms-seq`, or only `ms`, whose sequence is then `missing_seq`. Each number has one to twenty digits, and
    /// leading zeros are accepted. None for any other text.
    pub fn parse(text: &[u8], missing_seq: u64) -> Option<Id>
        ensures { result ≡ parse_id text.now missing_seq }
    {
        match dash_in(text) {
            None => parse_number(text).map(|ms| Id {
                ms,
                seq: missing_seq,
            }),
            Some(dash) => {
                let ms = parse_number(&text[..dash])?;
                let seq = parse_number(&text[dash + 1..])?;
                Some(Id { ms, seq })
            }
        }
    }

    /// Appends the printed id, `ms-seq`. If memory runs out, `out` is unchanged.
    pub fn write(&self, out: &mut Vec<u8>) -> Result<(), AllocError>
        ensures ok { OnOk result (out.new.items ≡ out.old.items ++ id_text self.now) }
        ensures err { OnErr result (out.new.items ≡ out.old.items) }
    {
        let before = out.len();
        match self.write_parts(out) {
            Ok(()) => Ok(()),
            Err(error) => {
                out.truncate(before);
                Err(error)
            }
        }
    }

    /// The printed id.
    pub fn text(&self, alloc: Global) -> Result<Bytes, AllocError>
        ensures { IfOk result (λ text. text ≡ id_text self.now) }
    {
        let mut ms = Buffer::new();
        let mut seq = Buffer::new();
        let ms = ms.format(self.ms).as_bytes();
        let seq = seq.format(self.seq).as_bytes();
        Bytes::join(alloc, ms, b'-', seq)
    }

    /// Like `write`, but if memory runs out a part may be appended.
    fn write_parts(&self, out: &mut Vec<u8>) -> Result<(), AllocError>
        ensures ok { OnOk result (out.new.items ≡ out.old.items ++ id_text self.now) }
        ensures err { OnErr result (take (vec_len out.old) out.new.items ≡ out.old.items) }
    {
        push_decimal(out, self.ms)?;
        out.push(b'-')?;
        push_decimal(out, self.seq)
    }
}

/// The place of the first dash.
fn dash_in(text: &[u8]) -> Option<usize>
    ensures place { result ≡ position (λ byte. byte == 45) text.now }
    ensures inside { IfSome result (λ dash. dash < length text.now) }
{
    text.iter().position(|byte| *byte == b'-')
}

/// One number of an id: one to twenty digits, below 2^64.
fn parse_number(text: &[u8]) -> Option<u64>
    ensures { result ≡ id_number text.now }
{
    if text.len() > 20 {
        return None;
    }
    number(text)
}
