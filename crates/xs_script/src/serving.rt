//! One request: its words are read, its command is applied, and its reply is written.
ghost use Rattle.std.specs.Prelude.{◌≡◌, ◌<◌, ◌≤◌, ◌++◌, None, length, OnErr, IfOk, Err, IsSomeAnd};
ghost use Rattle.xs_resp.specs.declared.reply.Reply.{Reply};
ghost use Rattle.xs_resp.specs.ReplyText.{text};
ghost use Rattle.xs_script.specs.Line.{line_of, line_limit};
ghost use Rattle.xs_script.specs.Answering.{IsAnswer};
ghost use Rattle.xs_keys.specs.Step.{StepAt};

use crate::lines::parts::read_line;
use std::alloc::Global;
use xs_bytes::Bytes;
use xs_command::{Refusal, read_command};
use xs_keys::Keyspace;
use xs_resp::{Fault, Reply, encode};
use xs_stream::Moment;

/// Why a line has no reply.
#[derive(Clone, Copy, Debug, PartialEq, Eq)]
pub enum LineFault {
    /// It is not a script line.
    NoLine,
    /// Out of memory.
    Memory,
}

/// Answers the words of a request at a moment.
fn answer(alloc: Global, keyspace: &mut Keyspace, now: Moment, words: &[Bytes]) -> Reply
    requires { 0 < length words.now }
    ensures { IsAnswer (StepAt now) keyspace.old words.now result keyspace.new }
{
    match read_command(alloc, words) {
        Ok(command) => keyspace.apply(now, &command),
        Err(Refusal::Said(fault)) => Reply::Error(fault),
        Err(Refusal::Memory) => Reply::Error(Fault::Memory),
    }
}

/// Answers a script line, and appends the text of the reply. If a line isn't answered, `out` is unchanged.
pub fn serve_line(
    alloc: Global,
    keyspace: &mut Keyspace,
    line: &[u8],
    out: &mut Vec<u8>,
) -> Result<(), LineFault>
    requires { length line.now ≤ line_limit }
    ensures ok { IfOk result (λ _. (reply : Reply)
        × IsSomeAnd (line_of line.now)
        (λ request. IsAnswer (StepAt request.0) keyspace.old request.1 reply keyspace.new)
        × (out.new.items ≡ out.old.items ++ text reply)) }
    ensures none { result ≡ Err LineFault.NoLine → line_of line.now ≡ None }
    ensures err { OnErr result (out.new.items ≡ out.old.items) }
{
    let Ok(read) = read_line(alloc, line) else {
        return Err(LineFault::Memory);
    };
    let Some((now, words)) = read else {
        return Err(LineFault::NoLine);
    };
    let reply = answer(alloc, keyspace, now, words.as_slice());
    match encode(&reply, out) {
        Ok(()) => Ok(()),
        Err(_) => Err(LineFault::Memory),
    }
}
