//! DBSIZE.
ghost use Rattle.xs_command.specs.Words.{Gives};
ghost use Rattle.xs_command.specs.Dbsize.{dbsize};

use crate::command::{Command, Inspection};
use crate::refusal::Refusal;
use crate::words::Words;
use xs_resp::Fault;

/// `DBSIZE`
#[tactic(auto, unfolding(crate::specs::Dbsize::dbsize))]
pub(crate) fn read(words: &Words<'_>) -> Result<Command, Refusal>
    ensures { Gives result (dbsize words.now) }
{
    words.only(Command::Inspect(Inspection::KeyCount), Fault::Syntax)
}
