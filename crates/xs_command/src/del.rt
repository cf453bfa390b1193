//! DEL.
ghost use Rattle.xs_command.specs.Words.{Gives};
ghost use Rattle.xs_command.specs.Del.{del};

use crate::command::Command;
use crate::refusal::Refusal;
use crate::words::Words;
use std::alloc::Global;
use xs_resp::Fault;

/// `DEL key [key ..]`
#[tactic(auto, unfolding(crate::specs::Del::del))]
pub(crate) fn read(alloc: Global, words: &Words<'_>) -> Result<Command, Refusal>
    ensures { Gives result (del words.now) }
{
    if words.len() == 0 {
        return Err(Refusal::Said(Fault::Syntax));
    }
    let (keys, _) = words.names(alloc, words.len())?;
    Ok(Command::DropKeys { keys })
}
