//! XTRIM.
ghost use Rattle.xs_keys.specs.Step.{AppliedAtAnyTime};

use crate::keys::Keys;
use xs_bytes::{Bytes, U63};
use xs_command::Command;
use xs_resp::Reply;
use xs_stream::Trim;

/// Trims the stream of a key. The reply is the number of entries that were removed.
pub fn trim(keys: &mut Keys, key: &Bytes, trim: Trim) -> Reply
    ensures { AppliedAtAnyTime keys.old (Command.TrimTo key.now trim) result keys.new }
{
    match keys.slots.get_mut(key) {
        Some(slot) => {
            let before = slot.stream.room();
            let count = slot.stream.trim(trim);
            keys.account.change(before, slot.stream.room());
            Reply::Int(U63::new(count))
        }
        None => Reply::Int(U63::new(0)),
    }
}
