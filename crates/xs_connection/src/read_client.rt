//! The words after CLIENT.
ghost use Rattle.std.specs.Prelude.{◌≡◌};
ghost use Rattle.xs_command.specs.Words.{Gives};
ghost use Rattle.xs_connection.specs.Client.{is_name, is_library_word, set_name, set_info, subcommand_of, client_named};
ghost use Rattle.xs_connection.specs.Client.{client};

use crate::command::ConnectionCommand;
use crate::read::{end, operand};
use std::alloc::Global;
use xs_command::{Refusal, Word, Words};
use xs_resp::Fault;

/// The subcommands of CLIENT.
#[derive(Clone, Copy, Debug, PartialEq, Eq)]
pub(crate) enum Subcommand {
    SetName,
    GetName,
    Id,
    List,
    SetInfo,
}

impl Subcommand {
    /// The subcommand that a word names, in upper or lower case.
    #[tactic(auto, unfolding(crate::specs::Client::subcommand_of))]
    fn of(word: &Word<'_>) -> Option<Self>
        ensures { result ≡ subcommand_of word.now }
    {
        if word.is(b"setname") {
            Some(Self::SetName)
        } else if word.is(b"getname") {
            Some(Self::GetName)
        } else if word.is(b"id") {
            Some(Self::Id)
        } else if word.is(b"list") {
            Some(Self::List)
        } else {
            word.is(b"setinfo").then_some(Self::SetInfo)
        }
    }
}

/// Whether a connection may have this name: it must have no space and no control character.
pub(crate) fn is_name(text: &[u8]) -> bool
    ensures { result ≡ is_name text.now }
{
    text.iter().all(|byte| byte.is_ascii_graphic())
}

/// `CLIENT subcommand ..`
#[tactic(auto, unfolding(crate::specs::Client::client))]
pub(crate) fn read_client(alloc: Global, words: &Words<'_>) -> Result<ConnectionCommand, Refusal>
    ensures { Gives result (client words.now) }
{
    let (sub, words) = operand(words)?;
    let Some(sub) = Subcommand::of(&sub) else {
        return Err(Refusal::Said(Fault::UnknownCommand));
    };
    match sub {
        Subcommand::SetName => read_set_name(alloc, &words),
        Subcommand::GetName => end(&words, Fault::Arity, ConnectionCommand::GetName),
        Subcommand::Id => end(&words, Fault::Arity, ConnectionCommand::GetId),
        Subcommand::List => end(&words, Fault::Syntax, ConnectionCommand::List),
        Subcommand::SetInfo => read_set_info(&words),
    }
}

/// `CLIENT SETNAME name`
#[tactic(auto, unfolding(crate::specs::Client::set_name))]
fn read_set_name(alloc: Global, words: &Words<'_>) -> Result<ConnectionCommand, Refusal>
    ensures { Gives result (set_name words.now) }
{
    let (name, words) = operand(words)?;
    if !is_name(name.as_slice()) {
        return end(&words, Fault::Arity, ConnectionCommand::BadName);
    }
    let name = name.copy(alloc)?;
    end(&words, Fault::Arity, ConnectionCommand::SetName(name))
}

/// Whether the word names a property that a library reports about itself.
fn is_library_word(word: &Word<'_>) -> bool
    ensures { result ≡ is_library_word word.now }
{
    word.is(b"lib-name") || word.is(b"lib-ver")
}

/// `CLIENT SETINFO lib-name|lib-ver text`
#[tactic(auto, unfolding(crate::specs::Client::set_info))]
fn read_set_info(words: &Words<'_>) -> Result<ConnectionCommand, Refusal>
    ensures { Gives result (set_info words.now) }
{
    let (what, words) = operand(words)?;
    let (_text, words) = operand(&words)?;
    if is_library_word(&what) {
        return end(&words, Fault::Arity, ConnectionCommand::Accept);
    }
    Err(Refusal::Said(Fault::Syntax))
}
