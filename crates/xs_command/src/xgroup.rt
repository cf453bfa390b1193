//! XGROUP.
ghost use Rattle.std.specs.Prelude.{◌≡◌};
ghost use Rattle.xs_command.specs.Words.{Gives};
ghost use Rattle.xs_command.specs.Xgroup.{start_in_word, group_start, create, destroy, create_consumer};
ghost use Rattle.xs_command.specs.Xgroup.{delete_consumer, subcommand_of, group_syntax, xgroup};

use crate::command::{Command, GroupCreateCommand, GroupStart};
use crate::command_name::allows;
use crate::options::{Options, read_options};
use crate::refusal::Refusal;
use crate::word::Word;
use crate::words::Words;
use std::alloc::Global;
use xs_resp::Fault;
use xs_stream::Id;

/// The subcommands of XGROUP.
#[derive(Clone, Copy, Debug, PartialEq, Eq)]
pub(crate) enum Subcommand {
    Create,
    Destroy,
    CreateConsumer,
    DelConsumer,
    SetId,
}

impl Subcommand {
    ghost use Rattle.xs_command.specs.Xgroup.{subcommand_word_counts};

    /// The subcommand that a word names, in upper or lower case.
    #[tactic(auto, unfolding(crate::specs::Xgroup::subcommand_of))]
    fn of(word: &Word<'_>) -> Option<Self>
        ensures { result ≡ subcommand_of word.now }
    {
        if word.is(b"create") {
            Some(Self::Create)
        } else if word.is(b"destroy") {
            Some(Self::Destroy)
        } else if word.is(b"createconsumer") {
            Some(Self::CreateConsumer)
        } else if word.is(b"delconsumer") {
            Some(Self::DelConsumer)
        } else {
            word.is(b"setid").then_some(Self::SetId)
        }
    }

    /// The number of words, XGROUP and the subcommand included: the least, and the greatest, if there is a limit.
    fn counts(self) -> (usize, Option<usize>)
        ensures { result ≡ subcommand_word_counts self }
    {
        match self {
            Self::Create => (5, None),
            Self::Destroy => (4, Some(4)),
            Self::CreateConsumer => (5, Some(5)),
            Self::DelConsumer => (5, Some(5)),
            Self::SetId => (2, None),
        }
    }
}

/// The options of XGROUP CREATE that were read.
#[derive(Clone, Copy, Debug, PartialEq, Eq)]
pub(crate) struct CreateOptions {
    /// Whether a missing key is created.
    make: bool,
}

impl Options for CreateOptions {
    ghost use Rattle.xs_command.specs.Xgroup.{create_option};

    ghost option = { create_option };

    /// `MKSTREAM`. ENTRIESREAD isn't supported.
    #[tactic(auto, unfolding(crate::specs::Xgroup::create_option))]
    fn option<'a>(
        self,
        _alloc: Global,
        name: Word<'a>,
        words: Words<'a>,
    ) -> Result<(Self, Option<Words<'a>>), Refusal> {
        if name.is(b"mkstream") {
            return Ok((Self { make: true }, Some(words)));
        }
        if name.is(b"entriesread") {
            return Err(Refusal::Said(Fault::Unsupported));
        }
        Ok((self, None))
    }
}

/// `XGROUP subcommand ..`
#[tactic(auto, unfolding(crate::specs::Xgroup::xgroup))]
pub(crate) fn read(alloc: Global, words: &Words<'_>) -> Result<Command, Refusal>
    ensures { Gives result (xgroup words.now) }
{
    let (sub, words) = words.word()?;
    let Some(sub) = Subcommand::of(&sub) else {
        return Err(Refusal::Said(Fault::UnknownCommand));
    };
    if !allows(sub.counts(), words.len() + 2) {
        return Err(Refusal::Said(Fault::Arity));
    }
    read_named(alloc, sub, &words)
}

/// The command of this subcommand, with these further words.
fn read_named(alloc: Global, sub: Subcommand, words: &Words<'_>) -> Result<Command, Refusal>
    ensures { Gives result (group_syntax sub words.now) }
{
    match sub {
        Subcommand::Create => read_create(alloc, words),
        Subcommand::Destroy => read_destroy(alloc, words),
        Subcommand::CreateConsumer => read_create_consumer(alloc, words),
        Subcommand::DelConsumer => read_delete_consumer(alloc, words),
        Subcommand::SetId => Err(Refusal::Said(Fault::Unsupported)),
    }
}

/// `XGROUP CREATE key group start [MKSTREAM]`
#[tactic(auto, unfolding(crate::specs::Xgroup::create))]
fn read_create(alloc: Global, words: &Words<'_>) -> Result<Command, Refusal>
    ensures { Gives result (create words.now) }
{
    let (key, words) = words.name(alloc)?;
    let (group, words) = words.name(alloc)?;
    let (start, words) = read_start(&words)?;
    let (options, words) = read_options(alloc, CreateOptions { make: false }, words)?;
    let create = GroupCreateCommand {
        key,
        group,
        start,
        make: options.make,
    };
    words.only(Command::GroupCreate(create), Fault::Syntax)
}

/// The next word, the start of a group.
#[tactic(auto, unfolding(crate::specs::Xgroup::group_start))]
fn read_start<'a>(words: &Words<'a>) -> Result<(GroupStart, Words<'a>), Fault>
    ensures { result ≡ group_start words.now }
{
    let (word, words) = words.word()?;
    let start = parse_start(word.as_slice()).ok_or(Fault::BadId)?;
    Ok((start, words))
}

/// `$`, or an id. A missing sequence is 0.
fn parse_start(text: &[u8]) -> Option<GroupStart>
    ensures { result ≡ start_in_word text.now }
{
    if text == b"$".as_slice() {
        return Some(GroupStart::Top);
    }
    let id = Id::parse(text, 0)?;
    Some(GroupStart::At(id))
}

/// `XGROUP DESTROY key group`
#[tactic(auto, unfolding(crate::specs::Xgroup::destroy))]
fn read_destroy(alloc: Global, words: &Words<'_>) -> Result<Command, Refusal>
    ensures { Gives result (destroy words.now) }
{
    let (key, words) = words.name(alloc)?;
    let (group, words) = words.name(alloc)?;
    words.only(Command::GroupDestroy { key, group }, Fault::Syntax)
}

/// `XGROUP CREATECONSUMER key group consumer`
#[tactic(auto, unfolding(crate::specs::Xgroup::create_consumer))]
fn read_create_consumer(alloc: Global, words: &Words<'_>) -> Result<Command, Refusal>
    ensures { Gives result (create_consumer words.now) }
{
    let (key, words) = words.name(alloc)?;
    let (group, words) = words.name(alloc)?;
    let (consumer, words) = words.name(alloc)?;
    let command = Command::ConsumerCreate {
        key,
        group,
        consumer,
    };
    words.only(command, Fault::Syntax)
}

/// `XGROUP DELCONSUMER key group consumer`
#[tactic(auto, unfolding(crate::specs::Xgroup::delete_consumer))]
fn read_delete_consumer(alloc: Global, words: &Words<'_>) -> Result<Command, Refusal>
    ensures { Gives result (delete_consumer words.now) }
{
    let (key, words) = words.name(alloc)?;
    let (group, words) = words.name(alloc)?;
    let (consumer, words) = words.name(alloc)?;
    let command = Command::ConsumerDelete {
        key,
        group,
        consumer,
    };
    words.only(command, Fault::Syntax)
}
