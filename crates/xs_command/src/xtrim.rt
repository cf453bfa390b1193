//! XTRIM.
ghost use Rattle.xs_command.specs.Words.{Gives};
ghost use Rattle.xs_command.specs.Xtrim.{xtrim};

use crate::command::Command;
use crate::options::read_options;
use crate::refusal::Refusal;
use crate::words::Words;
use std::alloc::Global;
use xs_resp::Fault;

/// `XTRIM key MAXLEN [=|~] count` or `XTRIM key MINID [=|~] id`
#[tactic(auto, unfolding(crate::specs::Xtrim::xtrim))]
pub(crate) fn read(alloc: Global, words: &Words<'_>) -> Result<Command, Refusal>
    ensures { Gives result (xtrim words.now) }
{
    let (key, words) = words.name(alloc)?;
    let (trim, words) = read_options(alloc, None, words)?;
    let Some(trim) = trim else {
        return Err(Refusal::Said(Fault::Syntax));
    };
    words.only(Command::TrimTo { key, trim }, Fault::Syntax)
}
