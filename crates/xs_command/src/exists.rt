//! EXISTS.
ghost use Rattle.xs_command.specs.Words.{Gives};
ghost use Rattle.xs_command.specs.Exists.{exists};

use crate::command::{Command, Inspection};
use crate::refusal::Refusal;
use crate::words::Words;
use std::alloc::Global;
use xs_resp::Fault;

/// `EXISTS key [key ..]`
#[tactic(auto, unfolding(crate::specs::Exists::exists))]
pub(crate) fn read(alloc: Global, words: &Words<'_>) -> Result<Command, Refusal>
    ensures { Gives result (exists words.now) }
{
    if words.len() == 0 {
        return Err(Refusal::Said(Fault::Syntax));
    }
    let (keys, _) = words.names(alloc, words.len())?;
    Ok(Command::Inspect(Inspection::Existence { keys }))
}
