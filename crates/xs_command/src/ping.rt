//! PING.
ghost use Rattle.xs_command.specs.Words.{Gives};
ghost use Rattle.xs_command.specs.Ping.{ping};

use crate::command::Command;
use crate::refusal::Refusal;
use crate::words::Words;
use std::alloc::Global;
use xs_resp::Fault;

/// `PING [message]`
#[tactic(auto, unfolding(crate::specs::Ping::ping, crate::specs::Words::word))]
pub(crate) fn read(alloc: Global, words: &Words<'_>) -> Result<Command, Refusal>
    ensures { Gives result (ping words.now) }
{
    let Ok((message, words)) = words.word() else {
        return Ok(Command::Ping(None));
    };
    let message = message.copy(alloc)?;
    words.only(Command::Ping(Some(message)), Fault::Syntax)
}
