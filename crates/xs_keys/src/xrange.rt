//! XRANGE and XREVRANGE.
ghost use Rattle.std.specs.Prelude.{◌≡◌, IfOk};
ghost use Rattle.xs_stream.specs.StreamContent.{up_to_limit, ids_within};
ghost use Rattle.xs_keys.specs.ReplyParts.{entries_reply};
ghost use Rattle.xs_keys.specs.Step.{AttemptAtAnyTime};

use crate::keys::Keys;
use crate::showing::lent_entries;
use std::alloc::{AllocError, Global};
use xs_command::{Command, RangeCommand};
use xs_resp::{Replies, Reply, Tokens};
use xs_stream::Stream;

/// The entries of a range of a stream.
fn range_shown(alloc: Global, stream: &Stream, command: &RangeCommand) -> Result<Reply, AllocError>
    ensures { let entries = stream.now.entries in
        let ids = up_to_limit command.now.limit (ids_within command.now.range command.now.reversed entries) in
        IfOk result (λ reply. reply ≡ entries_reply entries ids) }
{
    let entries = stream.entries(alloc, command.range, command.limit, command.reversed)?;
    lent_entries(alloc, entries.as_slice())
}

/// The entries of a range of a key.
pub fn range(keys: &Keys, alloc: Global, command: &RangeCommand) -> Result<Reply, AllocError>
    ensures { AttemptAtAnyTime keys.now (Command.Scan command.now) result keys.now }
{
    let Some(slot) = keys.get(&command.key) else {
        return Ok(Reply::Array(Replies::new(0, Tokens::new(alloc))));
    };
    range_shown(alloc, &slot.stream, command)
}
