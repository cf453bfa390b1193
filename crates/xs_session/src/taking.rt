//! How a request is taken: its call is asked, or it is answered at once, or it is INFO.
ghost use Rattle.std.specs.Prelude.{◌≡◌, ◌<◌, length, Bool, true, is_some, IfOk, Ok, Err};
ghost use Rattle.xs_command.specs.declared.command.Command.{Command};
ghost use Rattle.xs_command.specs.Read.{command_of_words};
ghost use Rattle.xs_command.specs.WellFormed.{IsWellFormed};
ghost use Rattle.xs_command.specs.Words.{Gives};
ghost use Rattle.xs_desk.specs.Calls.{AreWordsOf, HasWords};
ghost use Rattle.xs_connection.specs.Standing.{IsQueued};
ghost use Rattle.xs_session.specs.Answers.{may_ask, names_quit, goes_at_once};
ghost use Rattle.xs_session.specs.Taking.{IsTakingOf, IsFormedTaking, HasWantedWords};

use crate::information::is_info;
use crate::manner::Manner;
use crate::reserve::Reserve;
use std::alloc::{AllocError, Global};
use std::thread;
use xs_bytes::{Bytes, List};
use xs_command::{Command, Refusal, Words, read_request};
use xs_connection::{Inform, Standing};
use xs_desk::Call;
use xs_resp::{Fault, Reply, Request};
use xs_tape::can_be_record;

/// Whether the first word is XADD: additions are the first to be refused if memory runs out.
pub(crate) fn names_addition(words: Request<'_>) -> bool {
    match Words::of_request(words).word() {
        Ok((first, _)) => first.is(b"xadd"),
        Err(_) => false,
    }
}

/// How a request is taken.
#[derive(Drop)]
pub enum Taking {
    /// This call is asked.
    Asks(Call),
    /// This is the answer at once.
    Says(Reply),
    /// It is INFO, and isn't taken yet: it reports what was answered before it.
    Info,
}

/// The most tries to get memory before a request is answered with out of memory.
const MOST_TRIES: u32 = 1000;

/// Makes room for a further try to get memory, and returns whether there is to be one: a piece of the reserve is given
/// back, or other threads go on, which may give some back. Additions only use the reserve.
fn makes_room(reserve: &mut Reserve, words: Request<'_>) -> bool {
    if reserve.give_back() {
        return true;
    }
    if names_addition(words) {
        return false;
    }
    thread::yield_now();
    true
}

/// The command of a request, as `read_request` reads it. While memory is refused there are further tries.
fn command_of(alloc: Global, reserve: &mut Reserve, words: Request<'_>) -> Result<Command, Refusal>
    requires { 0 < length words }
    ensures exact { Gives result (command_of_words words.entry) }
    ensures formed { IfOk result IsWellFormed }
{
    let mut said = read_request(alloc, words.again());
    for _ in 0..MOST_TRIES {
        if !matches!(said, Err(Refusal::Memory)) || !makes_room(reserve, words.again()) {
            break;
        }
        said = read_request(alloc, words.again());
    }
    said
}

/// A copy of the words of a request, for a log. While memory is refused there are further tries. If a log can't have a
/// record of the words, they are refused as if memory ran out.
fn words_of(
    alloc: Global,
    reserve: &mut Reserve,
    words: Request<'_>,
) -> Result<List<Bytes>, AllocError>
    ensures same { IfOk result (λ found. found ≡ words.entry) }
    ensures said { IfOk result (λ found. (command : Command) → command_of_words words.entry ≡ Ok command →
        AreWordsOf found command) }
{
    let mut copied = words.again().copy(alloc);
    for _ in 0..MOST_TRIES {
        if copied.is_ok() || !makes_room(reserve, words.again()) {
            break;
        }
        copied = words.again().copy(alloc);
    }
    let copies = copied?;
    if !can_be_record(copies.as_slice()) {
        return Err(AllocError);
    }
    Ok(copies)
}

/// How words with this fault are taken: an unknown command may be one of the connection.
fn take_fault<I: Inform>(
    alloc: Global,
    manner: &Manner,
    inform: &I,
    standing: &mut Standing,
    words: Request<'_>,
    fault: Fault,
) -> Taking
    requires said { command_of_words words ≡ Err fault }
    requires may { may_ask manner.now standing.old words ≡ true }
    ensures taken { IsTakingOf manner.now standing.old words.entry result standing.new }
    ensures nothing { IsFormedTaking result × ((wanted : Bool) → HasWantedWords wanted result) }
{
    match (manner, fault) {
        (Manner::Full(wanted), Fault::UnknownCommand) => {
            let all = Words::of_request(words);
            if is_info(&all) {
                return Taking::Info;
            }
            Taking::Says(standing.answer(alloc, wanted, inform, &all))
        }
        _ => Taking::Says(standing.refuse(Reply::Error(fault))),
    }
}

/// Whether a command is asked at once. QUIT is, and others unless they wait for EXEC.
fn goes_at_once(standing: &Standing, command: &Command) -> bool
    ensures { result ≡ goes_at_once standing.now command.now }
{
    matches!(command, Command::Quit) || !standing.transaction.is_queueing()
}

/// Puts the words of a command into the queue for EXEC.
fn enqueue(
    alloc: Global,
    reserve: &mut Reserve,
    standing: &mut Standing,
    words: Request<'_>,
) -> Reply
    ensures { IsQueued standing.old words.entry result standing.new }
{
    match words_of(alloc, reserve, words) {
        Ok(copies) => standing.enqueue(alloc, copies),
        Err(AllocError) => standing.refuse(Reply::Error(Fault::Memory)),
    }
}

/// The words of a request, if they are needed for a log.
fn wanted_words_of(
    alloc: Global,
    reserve: &mut Reserve,
    wants_words: bool,
    words: Request<'_>,
) -> Result<Option<List<Bytes>>, AllocError>
    ensures said { IfOk result (λ found. (command : Command) → command_of_words words.entry ≡ Ok command →
        HasWords found command) }
    ensures wanted { wants_words ≡ true → IfOk result (λ found. is_some found ≡ true) }
{
    if !wants_words {
        return Ok(None);
    }
    let copies = words_of(alloc, reserve, words)?;
    Ok(Some(copies))
}

/// Whether the first word is QUIT, which may always be asked.
#[tactic(auto, unfolding(xs_command::specs::Words::word))]
fn names_quit(words: &Words<'_>) -> bool
    ensures { result ≡ names_quit words.now }
{
    match words.word() {
        Ok((first, _)) => first.is(b"quit"),
        Err(_) => false,
    }
}

/// Takes a request. A call has its words if `wants_words` is true.
pub fn take_request<I: Inform>(
    alloc: Global,
    reserve: &mut Reserve,
    wants_words: bool,
    manner: &Manner,
    inform: &I,
    standing: &mut Standing,
    words: Request<'_>,
) -> Taking
    requires { 0 < length words }
    ensures taken { IsTakingOf manner.now standing.old words.entry result standing.new }
    ensures formed { IsFormedTaking result }
    ensures words { HasWantedWords wants_words result }
{
    if let Manner::Full(wanted) = manner {
        let all = Words::of_request(words.again());
        if !standing.is_allowed && !names_quit(&all) {
            return Taking::Says(standing.answer_stranger(alloc, wanted, inform, &all));
        }
    }
    let command = match command_of(alloc, reserve, words.again()) {
        Ok(command) => command,
        Err(Refusal::Said(fault)) => {
            return take_fault(alloc, manner, inform, standing, words, fault);
        }
        Err(Refusal::Memory) => {
            return Taking::Says(standing.refuse(Reply::Error(Fault::Memory)));
        }
    };
    if !goes_at_once(standing, &command) {
        return Taking::Says(enqueue(alloc, reserve, standing, words));
    }
    match wanted_words_of(alloc, reserve, wants_words, words) {
        Ok(words) => Taking::Asks(Call { command, words }),
        Err(AllocError) => Taking::Says(standing.refuse(Reply::Error(Fault::Memory))),
    }
}
