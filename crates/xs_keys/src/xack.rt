//! XACK.
ghost use Rattle.xs_keys.specs.Step.{AppliedAtAnyTime};

use crate::group_change::change_group;
use crate::keys::Keys;
use xs_bytes::{Bytes, U63};
use xs_command::{Command, Operands};
use xs_resp::Reply;
use xs_stream::Id;

/// Removes these ids from the pending entries of a group. The reply is the number of those that were pending.
pub fn acknowledge(keys: &mut Keys, key: &Bytes, group: &Bytes, ids: &Operands<Id>) -> Reply
    ensures { AppliedAtAnyTime keys.old (Command.Ack key.now group.now ids.now) result keys.new }
{
    let removed = change_group(keys, key, group, |group, _| group.ack(ids.as_slice()));
    match removed {
        Ok(count) => Reply::Int(U63::new(count)),
        Err(_) => Reply::Int(U63::new(0)),
    }
}
