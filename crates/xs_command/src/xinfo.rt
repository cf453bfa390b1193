//! XINFO.
ghost use Rattle.std.specs.Prelude.{◌≡◌};
ghost use Rattle.xs_command.specs.Words.{Gives};
ghost use Rattle.xs_command.specs.declared.command.Inspection.TheVariants.{StreamInFull};
ghost use Rattle.xs_command.specs.Xinfo.{groups, stream, stream_form, stream_in_full, stream_counted, full_limit};
ghost use Rattle.xs_command.specs.Xinfo.{consumers, subcommand_of, info_syntax, xinfo};

use crate::command::{Command, Inspection};
use crate::command_name::allows;
use crate::integer::Integer;
use crate::refusal::Refusal;
use crate::word::Word;
use crate::words::Words;
use std::alloc::Global;
use xs_bytes::Bytes;
use xs_resp::Fault;

/// The subcommands of XINFO.
#[derive(Clone, Copy, Debug, PartialEq, Eq)]
pub(crate) enum Subcommand {
    Groups,
    Stream,
    Consumers,
}

impl Subcommand {
    ghost use Rattle.xs_command.specs.Xinfo.{subcommand_word_counts};

    /// The subcommand that a word names, in upper or lower case.
    #[tactic(auto, unfolding(crate::specs::Xinfo::subcommand_of))]
    fn of(word: &Word<'_>) -> Option<Self>
        ensures { result ≡ subcommand_of word.now }
    {
        if word.is(b"groups") {
            Some(Self::Groups)
        } else if word.is(b"stream") {
            Some(Self::Stream)
        } else {
            word.is(b"consumers").then_some(Self::Consumers)
        }
    }

    /// The number of words, XINFO and the subcommand included: the least, and the greatest, if there is a limit.
    fn counts(self) -> (usize, Option<usize>)
        ensures { result ≡ subcommand_word_counts self }
    {
        match self {
            Self::Groups => (3, Some(3)),
            Self::Stream => (3, None),
            Self::Consumers => (4, Some(4)),
        }
    }
}

/// `XINFO subcommand ..`
#[tactic(auto, unfolding(crate::specs::Xinfo::xinfo))]
pub(crate) fn read(alloc: Global, words: &Words<'_>) -> Result<Command, Refusal>
    ensures { Gives result (xinfo words.now) }
{
    let (sub, words) = words.word()?;
    let Some(sub) = Subcommand::of(&sub) else {
        return Err(Refusal::Said(Fault::UnknownCommand));
    };
    if !allows(sub.counts(), words.len() + 2) {
        return Err(Refusal::Said(Fault::Arity));
    }
    read_named(alloc, sub, &words)
}

/// The command of this subcommand, with these further words.
fn read_named(alloc: Global, sub: Subcommand, words: &Words<'_>) -> Result<Command, Refusal>
    ensures { Gives result (info_syntax sub words.now) }
{
    match sub {
        Subcommand::Groups => read_groups(alloc, words),
        Subcommand::Stream => read_stream(alloc, words),
        Subcommand::Consumers => read_consumers(alloc, words),
    }
}

/// `XINFO GROUPS key`
#[tactic(auto, unfolding(crate::specs::Xinfo::groups))]
fn read_groups(alloc: Global, words: &Words<'_>) -> Result<Command, Refusal>
    ensures { Gives result (groups words.now) }
{
    let (key, words) = words.name(alloc)?;
    words.only(Command::Inspect(Inspection::Groups { key }), Fault::Syntax)
}

/// `XINFO CONSUMERS key group`
#[tactic(auto, unfolding(crate::specs::Xinfo::consumers))]
fn read_consumers(alloc: Global, words: &Words<'_>) -> Result<Command, Refusal>
    ensures { Gives result (consumers words.now) }
{
    let (key, words) = words.name(alloc)?;
    let (group, words) = words.name(alloc)?;
    let consumers = Inspection::Consumers { key, group };
    words.only(Command::Inspect(consumers), Fault::Syntax)
}

/// `XINFO STREAM key [FULL [COUNT n]]`
#[tactic(auto, unfolding(crate::specs::Xinfo::stream))]
fn read_stream(alloc: Global, words: &Words<'_>) -> Result<Command, Refusal>
    ensures { Gives result (stream words.now) }
{
    let (key, words) = words.name(alloc)?;
    read_form(key, &words)
}

/// Nothing, or FULL.
#[tactic(auto, unfolding(crate::specs::Xinfo::stream_form, crate::specs::Words::word))]
fn read_form(key: Bytes, words: &Words<'_>) -> Result<Command, Refusal>
    ensures { Gives result (stream_form key words.now) }
{
    let Ok((word, words)) = words.word() else {
        return Ok(Command::Inspect(Inspection::Stream { key }));
    };
    if word.is(b"full") {
        return read_full(key, &words);
    }
    Err(Refusal::Said(Fault::Syntax))
}

/// The most of each list without COUNT, or with a negative number.
const FULL_LIMIT: u64 = 10;

/// Nothing, or COUNT and a number.
#[tactic(auto, unfolding(crate::specs::Xinfo::stream_in_full, crate::specs::Words::word))]
fn read_full(key: Bytes, words: &Words<'_>) -> Result<Command, Refusal>
    ensures { Gives result (stream_in_full key words.now) }
{
    let Ok((word, words)) = words.word() else {
        return Ok(in_full(key, Some(FULL_LIMIT)));
    };
    if word.is(b"count") {
        return read_counted(key, &words);
    }
    Err(Refusal::Said(Fault::Syntax))
}

/// The number after COUNT.
#[tactic(auto, unfolding(crate::specs::Xinfo::stream_counted))]
fn read_counted(key: Bytes, words: &Words<'_>) -> Result<Command, Refusal>
    ensures { Gives result (stream_counted key words.now) }
{
    let (count, words) = words.integer()?;
    words.only(in_full(key, limit_of(count)), Fault::Syntax)
}

/// The stream with its entries and groups.
fn in_full(key: Bytes, limit: Option<u64>) -> Command
    ensures { result ≡ Command.Inspect (StreamInFull key limit) }
{
    Command::Inspect(Inspection::StreamInFull { key, limit })
}

/// All if it is 0, and ten if it is negative.
fn limit_of(count: Integer) -> Option<u64>
    ensures { result ≡ full_limit count }
{
    match count {
        Integer::Negative => Some(FULL_LIMIT),
        Integer::Natural(count) => (count.get() != 0).then_some(count.get()),
    }
}
