//! Ranges of ids (Redis, XRANGE).
ghost use Rattle.std.specs.Prelude.{◌≡◌};
ghost use Rattle.xs_stream.specs.RangeText.{low_end, high_end, range_between};
ghost use Rattle.xs_stream.specs.StreamContent.{is_within};

use crate::id::Id;

/// A range of ids. Both ends belong to it. It is empty if the low end is above the high one.
#[derive(Clone, Copy, Debug, PartialEq, Eq)]
pub struct Range {
    /// The least id that may belong to it.
    pub low: Id,
    /// The greatest one.
    pub high: Id,
}

impl Range {
    /// Reads the two ends. `-` and `+` are the least and the greatest id, `(` before an id excludes the id itself. A
    /// missing sequence is 0 at the low end and the last one at the high end. None if an end can't be read, or no id is
    /// left after `(`.
    pub fn parse(low: &[u8], high: &[u8]) -> Option<Range>
        ensures { result ≡ range_between (low_end low.now) (high_end high.now) }
    {
        let low = parse_low(low)?;
        let high = parse_high(high)?;
        Some(Range { low, high })
    }

    /// Whether an id belongs to it.
    pub fn contains(self, id: Id) -> bool
        ensures { result ≡ is_within self id }
    {
        self.low <= id && id <= self.high
    }
}

/// Reads the low end of a range.
pub fn parse_low(text: &[u8]) -> Option<Id>
    ensures { result ≡ low_end text.now }
{
    match text {
        [b'-'] => Some(Id::ZERO),
        [b'+'] => Some(Id::GREATEST),
        [b'(', rest @ ..] => Id::parse(rest, 0)?.next(),
        _ => Id::parse(text, 0),
    }
}

/// Reads the high end of a range.
pub fn parse_high(text: &[u8]) -> Option<Id>
    ensures { result ≡ high_end text.now }
{
    match text {
        [b'-'] => Some(Id::ZERO),
        [b'+'] => Some(Id::GREATEST),
        [b'(', rest @ ..] => Id::parse(rest, u64::MAX)?.previous(),
        _ => Id::parse(text, u64::MAX),
    }
}
