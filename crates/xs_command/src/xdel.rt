//! XDEL.
ghost use Rattle.xs_command.specs.Words.{Gives};
ghost use Rattle.xs_command.specs.Xdel.{xdel};

use crate::command::Command;
use crate::refusal::Refusal;
use crate::words::Words;
use std::alloc::Global;
use xs_resp::Fault;

/// `XDEL key id [id ..]`
#[tactic(auto, unfolding(crate::specs::Xdel::xdel))]
pub(crate) fn read(alloc: Global, words: &Words<'_>) -> Result<Command, Refusal>
    ensures { Gives result (xdel words.now) }
{
    let (key, words) = words.name(alloc)?;
    let (ids, words) = words.ids(alloc)?;
    words.only(Command::Delete { key, ids }, Fault::BadId)
}
