//! XDEL.
ghost use Rattle.xs_keys.specs.Step.{AppliedAtAnyTime};

use crate::keys::Keys;
use xs_bytes::{Bytes, U63};
use xs_command::{Command, Operands};
use xs_resp::Reply;
use xs_stream::Id;

/// Removes entries of a key. The reply is the number of those that existed.
pub fn delete(keys: &mut Keys, key: &Bytes, ids: &Operands<Id>) -> Reply
    ensures { AppliedAtAnyTime keys.old (Command.Delete key.now ids.now) result keys.new }
{
    match keys.slots.get_mut(key) {
        Some(slot) => {
            let before = slot.stream.room();
            let count = slot.stream.delete(ids.as_slice());
            keys.account.change(before, slot.stream.room());
            Reply::Int(U63::new(count))
        }
        None => Reply::Int(U63::new(0)),
    }
}
