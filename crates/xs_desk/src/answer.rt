//! The contents of the rings of a lane.
ghost use Rattle.std.specs.Prelude.{◌≡◌, ◌+◌, ◌^◌, Some, None, nat_lt, if◌then◌else◌};

use rtrb::Protocol;
use xs_bytes::{Bytes, List};
use xs_command::Command;
use xs_resp::Reply;
use xs_stream::Moment;

/// A command that is sent to the keeper.
#[derive(Debug, Drop)]
pub struct Call {
    /// The command.
    pub command: Command,
    /// The words that spell it, if a log may have to note them.
    pub words: Option<List<Bytes>>,
}

/// The answer to a call.
#[derive(Debug, Drop)]
pub struct Answer {
    /// The number of the call in its lane, from 0 on.
    pub ticket: u64,
    /// The number of the call over the whole desk, from 0 on.
    pub place: u64,
    /// The moment at which the call was applied.
    pub moment: Moment,
    /// The reply of the keyspace.
    pub reply: Reply,
}

/// The place after a place. There is none after the greatest number, and a keeper for which it is the next place serves
/// no call.
pub fn next_place(place: u64) -> Option<u64>
    ensures { result ≡ (if nat_lt (place + 1) (2 ^ 64) then Some (place + 1) else None) }
{
    place.checked_add(1)
}

/// The rule of a ring for calls: each command is well formed, and its words spell it and can be a record.
#[derive(Clone, Copy)]
pub struct Formed;

impl Protocol<Call> for Formed {
    ghost use Rattle.xs_desk.specs.Calls.{IsFormed};

    ghost allows = { λ _ call. IsFormed call };
}
