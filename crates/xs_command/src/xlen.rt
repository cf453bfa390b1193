//! XLEN.
ghost use Rattle.xs_command.specs.Words.{Gives};
ghost use Rattle.xs_command.specs.Xlen.{xlen};

use crate::command::Command;
use crate::refusal::Refusal;
use crate::words::Words;
use std::alloc::Global;
use xs_resp::Fault;

/// `XLEN key`
#[tactic(auto, unfolding(crate::specs::Xlen::xlen))]
pub(crate) fn read(alloc: Global, words: &Words<'_>) -> Result<Command, Refusal>
    ensures { Gives result (xlen words.now) }
{
    let (key, words) = words.name(alloc)?;
    words.only(Command::Len { key }, Fault::Syntax)
}
