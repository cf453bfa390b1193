//! Why bytes aren't a request.
use thiserror::Error;

/// How the bytes of a request break the protocol.
#[derive(Clone, Copy, Debug, PartialEq, Eq)]
pub enum ProtocolFault {
    /// The text in the place of a number isn't one.
    Length,
    /// A marker or a line end is missing.
    Shape,
    /// A number or a header's line is above its limit.
    Limit,
}

/// Why a reader returned no request.
#[derive(Clone, Copy, Debug, PartialEq, Eq, Error)]
pub enum ReadFault {
    /// The text in the place of a number isn't one. The reader has failed.
    #[error("a number of words or a size of a word is no number")]
    Length,
    /// A marker or a line end is missing. The reader has failed.
    #[error("a marker or a line end is missing")]
    Shape,
    /// A number or a header's line is above its limit. The reader has failed.
    #[error("a number of words, a size of a word or a header is above its limit")]
    Limit,
    /// Out of memory. The reader is unchanged; the call can be repeated.
    #[error("out of memory")]
    Memory,
}

impl From<ProtocolFault> for ReadFault {
    ghost use Rattle.std.specs.Prelude.{◌≡◌};
    ghost use Rattle.xs_resp.specs.ReadFaults.{read_fault_of};

    ghost from_gives = { λ wrong fault. fault ≡ read_fault_of wrong };

    fn from(wrong: ProtocolFault) -> Self {
        match wrong {
            ProtocolFault::Length => Self::Length,
            ProtocolFault::Shape => Self::Shape,
            ProtocolFault::Limit => Self::Limit,
        }
    }
}
