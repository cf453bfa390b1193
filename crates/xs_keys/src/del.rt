//! DEL.
ghost use Rattle.std.specs.Prelude.{◌≡◌, ◌<◌, ◌^◌};
ghost use Rattle.xs_keys.specs.ContentAfter.{without_keys};
ghost use Rattle.xs_keys.specs.Reply.{existing_count};
ghost use Rattle.xs_keys.specs.Step.{AppliedAtAnyTime};

use crate::keys::Keys;
use xs_bytes::{Bytes, List, U63};
use xs_command::Command;
use xs_resp::Reply;

/// Removes keys, and counts those that existed, each once.
fn remove_all(keys: &mut Keys, names: &[Bytes]) -> u64
    ensures content { keys.new ≡ without_keys names.now keys.old }
    ensures count { result ≡ existing_count names.now keys.old }
    ensures small { result < 2 ^ 63 }
{
    let before = keys.len();
    for name in names {
        keys.remove(name);
    }
    (before - keys.len()) as u64
}

/// Removes keys with their groups. The reply is the number of those that existed, each counted once.
pub fn delete(keys: &mut Keys, names: &List<Bytes>) -> Reply
    ensures { AppliedAtAnyTime keys.old (Command.DropKeys names.now) result keys.new }
{
    Reply::Int(U63::new(remove_all(keys, names.as_slice())))
}
