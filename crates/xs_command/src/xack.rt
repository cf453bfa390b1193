//! XACK.
ghost use Rattle.xs_command.specs.Words.{Gives};
ghost use Rattle.xs_command.specs.Xack.{xack};

use crate::command::Command;
use crate::refusal::Refusal;
use crate::words::Words;
use std::alloc::Global;
use xs_resp::Fault;

/// `XACK key group id [id ..]`
#[tactic(auto, unfolding(crate::specs::Xack::xack))]
pub(crate) fn read(alloc: Global, words: &Words<'_>) -> Result<Command, Refusal>
    ensures { Gives result (xack words.now) }
{
    let (key, words) = words.name(alloc)?;
    let (group, words) = words.name(alloc)?;
    let (ids, words) = words.ids(alloc)?;
    words.only(Command::Ack { key, group, ids }, Fault::BadId)
}
