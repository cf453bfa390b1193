//! The reading of a command from words.
ghost use Rattle.std.specs.Prelude.{◌<◌, IfOk, length};
ghost use Rattle.xs_command.specs.Words.{Gives};
ghost use Rattle.xs_command.specs.WellFormed.{IsWellFormed};
ghost use Rattle.xs_command.specs.Read.{command_of_words, syntax};

use crate::command::Command;
use crate::command_name::{CommandName, allows};
use crate::refusal::Refusal;
use crate::words::Words;
use crate::{
    dbsize, del, exists, key_type, ping, xack, xadd, xautoclaim, xclaim, xdel, xgroup, xinfo, xlen,
    xpending, xrange, xreadgroup, xtrim,
};
use std::alloc::Global;
use xs_bytes::Bytes;
use xs_resp::{Fault, Request};

/// The command that the words of a request spell, or their first fault from left to right. Each word that the command
/// stores is copied. If it is refused for memory, the words may be right or wrong.
pub fn read_command(alloc: Global, words: &[Bytes]) -> Result<Command, Refusal>
    requires { 0 < length words.now }
    ensures exact { Gives result (command_of_words words.now) }
    ensures formed { IfOk result IsWellFormed }
{
    read_words(alloc, &Words::of_list(words))
}

/// Like `read_command`, for the words of a request, which are lent from its bytes.
pub fn read_request(alloc: Global, request: Request<'_>) -> Result<Command, Refusal>
    requires { 0 < length request }
    ensures exact { Gives result (command_of_words request.entry) }
    ensures formed { IfOk result IsWellFormed }
{
    read_words(alloc, &Words::of_request(request))
}

/// Like `read_command`; no words are a fault too.
#[tactic(auto, unfolding(crate::specs::Read::command_of_words))]
fn read_words(alloc: Global, words: &Words<'_>) -> Result<Command, Refusal>
    ensures { Gives result (command_of_words words.now) }
{
    let (first, words) = words.word()?;
    let Some(name) = CommandName::of(&first) else {
        return Err(Refusal::Said(Fault::UnknownCommand));
    };
    if !allows(name.counts(), words.len() + 1) {
        return Err(Refusal::Said(Fault::Arity));
    }
    read_named(alloc, name, &words)
}

/// The command of this name, with these further words.
#[tactic(auto, unfolding(crate::specs::Ping::quit))]
fn read_named(alloc: Global, name: CommandName, words: &Words<'_>) -> Result<Command, Refusal>
    ensures { Gives result (syntax name words.now) }
{
    match name {
        CommandName::Ping => ping::read(alloc, words),
        CommandName::Quit => Ok(Command::Quit),
        CommandName::Xadd => xadd::read(alloc, words),
        CommandName::Xdel => xdel::read(alloc, words),
        CommandName::Xtrim => xtrim::read(alloc, words),
        CommandName::Xlen => xlen::read(alloc, words),
        CommandName::Xrange => xrange::read(alloc, words),
        CommandName::Xrevrange => xrange::read_reversed(alloc, words),
        CommandName::Xgroup => xgroup::read(alloc, words),
        CommandName::Xreadgroup => xreadgroup::read(alloc, words),
        CommandName::Xack => xack::read(alloc, words),
        CommandName::Xpending => xpending::read(alloc, words),
        CommandName::Xclaim => xclaim::read(alloc, words),
        CommandName::Xautoclaim => xautoclaim::read(alloc, words),
        CommandName::Del => del::read(alloc, words),
        CommandName::Xinfo => xinfo::read(alloc, words),
        CommandName::Exists => exists::read(alloc, words),
        CommandName::KeyType => key_type::read(alloc, words),
        CommandName::Dbsize => dbsize::read(words),
    }
}
