//! XLEN.
ghost use Rattle.xs_keys.specs.Step.{AppliedAtAnyTime};

use crate::keys::Keys;
use xs_bytes::{Bytes, U63};
use xs_command::Command;
use xs_resp::Reply;

/// The number of entries of a key.
pub fn len(keys: &Keys, key: &Bytes) -> Reply
    ensures { AppliedAtAnyTime keys.now (Command.Len key.now) result keys.now }
{
    match keys.get(key) {
        Some(slot) => Reply::Int(U63::new(slot.stream.len() as u64)),
        None => Reply::Int(U63::new(0)),
    }
}
