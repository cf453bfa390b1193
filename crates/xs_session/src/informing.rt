//! How INFO is taken.
ghost use Rattle.std.specs.Prelude.{◌≡◌, ◌∷◌, [], codes, true, is_some, IfOk, MatchResult};
ghost use Rattle.xs_command.specs.declared.command.Command.{Command};
ghost use Rattle.xs_command.specs.declared.command.Inspection.{Inspection};
ghost use Rattle.xs_desk.specs.Calls.{AreWordsOf, IsFormed};
ghost use Rattle.xs_session.specs.Answers.{Informs, Says, IsTaken};
ghost use Rattle.xs_session.specs.Taking.{IsUnknown};

use crate::information::{Information, asks_keys};
use crate::manner::Manner;
use std::alloc::{AllocError, Global};
use xs_bytes::{Bytes, List};
use xs_command::{Command, Inspection, Words};
use xs_connection::{Inform, Standing};
use xs_desk::Call;
use xs_resp::{Fault, Reply, Request};
use xs_tape::can_be_record;

/// The word that asks the number of keys.
fn dbsize(alloc: Global) -> Result<List<Bytes>, AllocError>
    ensures { IfOk result (λ words. words ≡ codes "DBSIZE" ∷ []) }
{
    let mut words = Vec::with_capacity(alloc, 1)?;
    words.push(Bytes::from_slice(alloc, b"DBSIZE")?)?;
    Ok(List::new(words))
}

/// The words that ask the number of keys, for a log. If a log can't have a record of them, they are refused as if
/// memory ran out.
fn words_of_keys(alloc: Global) -> Result<List<Bytes>, AllocError>
    ensures { IfOk result (λ words. AreWordsOf words (Command.Inspect Inspection.KeyCount)) }
{
    let words = dbsize(alloc)?;
    if !can_be_record(words.as_slice()) {
        return Err(AllocError);
    }
    Ok(words)
}

/// The call that asks the number of keys, with its words if they are needed.
fn call_of_keys(alloc: Global, wants_words: bool) -> Result<Call, AllocError>
    ensures command { IfOk result (λ call. call.command ≡ Command.Inspect Inspection.KeyCount) }
    ensures formed { IfOk result IsFormed }
    ensures words { wants_words ≡ true → IfOk result (λ call. is_some call.words ≡ true) }
{
    let command = Command::Inspect(Inspection::KeyCount);
    if !wants_words {
        return Ok(Call {
            command,
            words: None,
        });
    }
    let words = words_of_keys(alloc)?;
    Ok(Call {
        command,
        words: Some(words),
    })
}

/// The text of INFO without the section of the keyspace.
fn information_of<I: Inform>(
    alloc: Global,
    inform: &I,
    words: &Words<'_>,
) -> Result<Information, AllocError> {
    let sections = match words.word() {
        Ok((_, sections)) => sections,
        Err(_) => words.again(),
    };
    let told = inform.inform(alloc, &sections)?;
    Information::new(alloc, told.as_slice())
}

/// The call that INFO asks, and the text before the section of the keyspace; or the answer, if there is one at once.
pub fn take_info<I: Inform>(
    alloc: Global,
    wants_words: bool,
    manner: &Manner,
    inform: &I,
    standing: &mut Standing,
    words: Request<'_>,
) -> Result<(Call, Information), Reply>
    requires { IsUnknown manner.now standing.old words }
    ensures taken { MatchResult result
        (λ asked. IsTaken manner.now standing.old words.entry (Informs asked.1) standing.new)
        (λ reply. IsTaken manner.now standing.old words.entry (Says reply) standing.new) }
    ensures command { IfOk result (λ asked. asked.0.command ≡ Command.Inspect Inspection.KeyCount) }
    ensures formed { IfOk result (λ asked. IsFormed asked.0) }
    ensures words { wants_words ≡ true → IfOk result (λ asked. is_some asked.0.words ≡ true) }
{
    let all = Words::of_request(words);
    if !asks_keys(standing, &all) {
        return match manner {
            Manner::Full(wanted) => Err(standing.answer(alloc, wanted, inform, &all)),
            Manner::Plain => unreachable!(),
        };
    }
    match (
        call_of_keys(alloc, wants_words),
        information_of(alloc, inform, &all),
    ) {
        (Ok(call), Ok(information)) => Ok((call, information)),
        _ => Err(standing.refuse(Reply::Error(Fault::Memory))),
    }
}
