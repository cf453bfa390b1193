//! Commands and replies as text.
ghost use Rattle.std.specs.Prelude.{◌≡◌, IfOk, Ok};
ghost use Rattle.xs_command.specs.Read.{command_of_words};
ghost use Rattle.xs_command.specs.WellFormed.{IsWellFormed};
ghost use Rattle.xs_desk.specs.Calls.{IsFormed};

use std::alloc::{AllocError, Global};
use xs_bytes::{Bytes, List};
use xs_command::{Command, Refusal, read_command};
use xs_desk::Call;
use xs_resp::{Reply, encode};
use xs_tape::can_be_record;

/// The command of some words.
pub fn read_words(alloc: Global, words: &[Bytes]) -> Result<Command, Refusal>
    ensures formed { IfOk result (λ command. IsWellFormed command) }
    ensures said { IfOk result (λ command. command_of_words words.now ≡ Ok command) }
{
    if words.is_empty() {
        return Err(Refusal::Memory);
    }
    read_command(alloc, words)
}

/// The command of a line of words.
pub fn read(alloc: Global, line: &str) -> Result<Command, Refusal>
    ensures { IfOk result (λ command. IsWellFormed command) }
{
    let mut words = Vec::new(alloc);
    for word in line.split(' ') {
        words.push(Bytes::from_slice(alloc, word.as_bytes())?)?;
    }
    read_words(alloc, words.as_slice())
}

/// The call of a line of words, which it contains for a log.
pub fn read_call(alloc: Global, line: &str) -> Result<Call, Refusal>
    ensures { IfOk result (λ call. IsFormed call) }
{
    let mut words = Vec::new(alloc);
    for word in line.split(' ') {
        words.push(Bytes::from_slice(alloc, word.as_bytes())?)?;
    }
    let command = read_words(alloc, words.as_slice())?;
    if !can_be_record(words.as_slice()) {
        return Err(Refusal::Memory);
    }
    Ok(Call {
        command,
        words: Some(List::new(words)),
    })
}

pub fn text_of(alloc: Global, reply: &Reply) -> Result<Vec<u8>, AllocError> {
    let mut out = Vec::new(alloc);
    encode(reply, &mut out)?;
    Ok(out)
}
