//! Calls of desks and keyspaces without their contracts: a test only has to be safe, and unneeded contracts make its
//! proof long.
ghost use Rattle.xs_command.specs.WellFormed.{IsWellFormed};

use std::alloc::Global;
use std::sync::Wait;
use xs_command::{Command, Refusal};
use xs_desk::{Client, DeskError, Keeper, desk};
use xs_keys::Keyspace;
use xs_resp::Reply;
use xs_stream::Moment;
use xs_testing::{MOST_TURNS, Still, read, text_of};

pub fn new_desk(
    alloc: Global,
    lanes: usize,
    depth: usize,
) -> Result<(Keeper, Vec<Client>), DeskError> {
    desk(alloc, lanes, depth)
}

/// The number of calls that a turn serves. All of them are at the same moment.
pub fn turn(keeper: &mut Keeper) -> Option<u64> {
    keeper.turn(&mut Still::at(1000)?).ok()
}

/// Turns until at least `wanted` calls are served, and returns their number. It is idle after a turn that served no
/// call.
pub fn serve<R: Wait>(rt: &R, keeper: &mut Keeper, wanted: u64) -> u64 {
    let mut served = 0u64;
    for _ in 0..MOST_TURNS {
        match turn(keeper) {
            Some(0) => keeper.idle(rt),
            Some(count) => served = served.saturating_add(count),
            None => break,
        }
        if served >= wanted {
            break;
        }
    }
    served
}

fn apply(keyspace: Keyspace, now: Moment, command: Command) -> Reply
    requires { IsWellFormed command }
{
    let mut keyspace = keyspace;
    keyspace.apply(now, &command)
}

/// The text of a keyspace's reply to a line.
pub fn reply_of(
    alloc: Global,
    keyspace: Keyspace,
    now: Moment,
    line: &str,
) -> Result<Vec<u8>, Refusal> {
    let reply = apply(keyspace, now, read(alloc, line)?);
    Ok(text_of(alloc, &reply)?)
}
