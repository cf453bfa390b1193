//! The errors that a reply can report.
ghost use Rattle.std.specs.Prelude.{◌≡◌};

use thiserror::Error;

/// Why a command was refused. After their first word the texts are this project's own.
#[derive(Clone, Copy, Debug, PartialEq, Eq, Error)]
#[error("{}", self.text())]
pub enum Fault {
    /// There is no command of this name.
    UnknownCommand,
    /// The command takes another number of words.
    Arity,
    /// An option is missing, unknown or in the wrong place.
    Syntax,
    /// A word in the place of an id isn't one.
    BadId,
    /// A word in the place of an integer isn't one, or is out of range.
    NotInteger,
    /// XADD with the id 0-0.
    ZeroId,
    /// XADD with an id that isn't above the top of the stream.
    SmallId,
    /// XADD on a stream whose top is the greatest id.
    Exhausted,
    /// XGROUP on a key that doesn't exist.
    NoKey,
    /// XINFO of a key that doesn't exist.
    MissingKey,
    /// XGROUP CREATE with a name that is taken.
    Busy,
    /// There is no such key or no such group.
    NoGroup,
    /// A form of the command that this server doesn't support.
    Unsupported,
    /// Out of memory; nothing was changed.
    Memory,
    /// The bytes aren't a request.
    Protocol,
}

impl Fault {
    ghost use Rattle.std.specs.Prelude.{◌≡◌};
    ghost use Rattle.xs_resp.specs.FaultText.{fault_text};

    #[tactic(auto, unfolding(crate::specs::FaultText::fault_text))]
    /// The text of the error reply, without its marker and its line end.
    pub fn text(self) -> &'static str
        ensures { result.now ≡ fault_text self }
    {
        match self {
            Self::UnknownCommand => "ERR unknown command",
            Self::Arity => "ERR wrong number of arguments",
            Self::Syntax => "ERR syntax error",
            Self::BadId => "ERR Invalid stream ID specified as stream command argument",
            Self::NotInteger => "ERR value is not an integer or out of range",
            Self::ZeroId => "ERR The ID specified in XADD must be greater than 0-0",
            Self::SmallId =>
                "ERR The ID specified in XADD is equal or smaller than the target stream top item",
            Self::Exhausted =>
                "ERR The stream has exhausted the last possible ID, unable to add more items",
            Self::NoKey => "ERR The XGROUP subcommand requires the key to exist",
            Self::MissingKey => "ERR no such key",
            Self::Busy => "BUSYGROUP Consumer Group name already exists",
            Self::NoGroup => "NOGROUP No such key or consumer group",
            Self::Unsupported => "ERR not supported by this server",
            Self::Memory => "OOM out of memory",
            Self::Protocol => "ERR Protocol error",
        }
    }
}
