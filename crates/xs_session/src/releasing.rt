//! How requests that EXEC has released are taken.
ghost use Rattle.std.specs.Prelude.{◌≡◌, ◌<◌, length, true, Ok, IfOk, MatchResult};
ghost use Rattle.xs_command.specs.Read.{command_of_words};
ghost use Rattle.xs_command.specs.WellFormed.{IsWellFormed};
ghost use Rattle.xs_command.specs.Words.{Gives};
ghost use Rattle.xs_desk.specs.Calls.{AreWordsOf};
ghost use Rattle.xs_session.specs.Answers.{Says, IsRun};

use crate::reserve::Reserve;
use std::alloc::Global;
use xs_bytes::Bytes;
use xs_command::{Command, Refusal, read_command};
use xs_resp::{Fault, Reply};
use xs_tape::can_be_record;

/// The command that words spell, as `read_command` reads it. While memory is refused, the reserve is given back piece
/// by piece for further tries.
fn command_of(alloc: Global, reserve: &mut Reserve, words: &[Bytes]) -> Result<Command, Refusal>
    requires { 0 < length words.now }
    ensures exact { Gives result (command_of_words words.now) }
    ensures formed { IfOk result IsWellFormed }
{
    let mut said = read_command(alloc, words);
    while matches!(said, Err(Refusal::Memory)) && reserve.give_back() {
        said = read_command(alloc, words);
    }
    said
}

/// The command of words that EXEC has released, or the reply to them. If words are needed for a log that can't have a
/// record of them, they are refused as if memory ran out.
#[tactic(auto, unfolding(xs_command::specs::Read::command_of_words, xs_command::specs::Words::word))]
pub fn command_of_released(
    alloc: Global,
    reserve: &mut Reserve,
    wants_words: bool,
    words: &[Bytes],
) -> Result<Command, Reply>
    ensures said { MatchResult result
        (λ command. command_of_words words.now ≡ Ok command) (λ reply. IsRun words.now (Says reply)) }
    ensures formed { IfOk result IsWellFormed }
    ensures words { wants_words ≡ true → IfOk result (AreWordsOf words.now) }
{
    if words.is_empty() {
        return Err(Reply::Error(Fault::Syntax));
    }
    let command = match command_of(alloc, reserve, words) {
        Ok(command) => command,
        Err(Refusal::Said(fault)) => return Err(Reply::Error(fault)),
        Err(Refusal::Memory) => return Err(Reply::Error(Fault::Memory)),
    };
    if wants_words && !can_be_record(words) {
        return Err(Reply::Error(Fault::Memory));
    }
    Ok(command)
}
