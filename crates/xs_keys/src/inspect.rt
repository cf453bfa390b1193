//! EXISTS, TYPE and DBSIZE, and XINFO.
ghost use Rattle.std.specs.Prelude.{◌≡◌, ◌<◌, ◌^◌};
ghost use Rattle.xs_keys.specs.InspectionReply.{existing};
ghost use Rattle.xs_keys.specs.Step.{Attempt};

use crate::keys::Keys;
use crate::{xinfo, xinfo_full};
use std::alloc::{AllocError, Global};
use xs_bytes::{Bytes, U63};
use xs_command::{Command, Inspection};
use xs_resp::{Reply, Simple};
use xs_stream::Moment;

/// The number of these keys that exist. One that is named twice counts twice.
fn count_existing(keys: &Keys, names: &[Bytes]) -> usize
    ensures { result ≡ existing names.now keys.now }
{
    let mut count = 0;
    for name in names {
        if keys.get(name).is_some() {
            count += 1;
        }
    }
    count
}

/// The reply to a question about the content, which doesn't change it.
pub fn inspect(
    keys: &Keys,
    alloc: Global,
    now: Moment,
    inspection: &Inspection,
) -> Result<Reply, AllocError>
    ensures { Attempt keys.now now (Command.Inspect inspection.now) result keys.now }
{
    match inspection {
        Inspection::Stream { key } => xinfo::stream(keys, alloc, key),
        Inspection::StreamInFull { key, limit } => {
            xinfo_full::stream(keys, alloc, now, key, *limit)
        }
        Inspection::Groups { key } => xinfo::groups(keys, alloc, key),
        Inspection::Consumers { key, group } => xinfo::consumers(keys, alloc, now, key, group),
        Inspection::Existence { keys: names } => {
            let count = count_existing(keys, names.as_slice()) as u64;
            Ok(Reply::Int(U63::new(count.min(U63::MAX))))
        }
        Inspection::KeyType { key } => match keys.get(key) {
            Some(_) => Ok(Reply::Simple(Simple::Stream)),
            None => Ok(Reply::Simple(Simple::Nothing)),
        },
        Inspection::KeyCount => Ok(Reply::Int(U63::new(keys.len() as u64))),
    }
}
