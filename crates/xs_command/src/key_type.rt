//! TYPE.
ghost use Rattle.xs_command.specs.Words.{Gives};
ghost use Rattle.xs_command.specs.KeyType.{key_type};

use crate::command::{Command, Inspection};
use crate::refusal::Refusal;
use crate::words::Words;
use std::alloc::Global;
use xs_resp::Fault;

/// `TYPE key`
#[tactic(auto, unfolding(crate::specs::KeyType::key_type))]
pub(crate) fn read(alloc: Global, words: &Words<'_>) -> Result<Command, Refusal>
    ensures { Gives result (key_type words.now) }
{
    let (key, words) = words.name(alloc)?;
    words.only(Command::Inspect(Inspection::KeyType { key }), Fault::Syntax)
}
