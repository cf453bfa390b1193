//! Reads that find nothing, and change nothing.
ghost use Rattle.std.specs.Prelude.{◌≡◌, IfOk};
ghost use Rattle.xs_bytes.specs.SortedMap.{get};
ghost use Rattle.xs_keys.specs.Terms.{list_all};
ghost use Rattle.xs_keys.specs.Waiting.{knows_reader_in, reads_in_vain};

use crate::keys::{Keys, group_at};
use crate::xreadgroup::finds_nothing;
use std::alloc::{AllocError, Global};
use xs_command::{ReadGroupCommand, ReadOne};

/// Whether the group of one key knows the consumer that reads.
fn knows_reader(keys: &Keys, read: &ReadGroupCommand, one: &ReadOne) -> bool
    ensures { result ≡ knows_reader_in read.now (get keys.now one.now.key) }
{
    match group_at(keys, &one.key, &read.group) {
        Some(group) => group.has_consumer(&read.consumer),
        None => false,
    }
}

/// Whether the group of each key knows the consumer that reads.
fn all_know_reader(keys: &Keys, read: &ReadGroupCommand) -> bool
    ensures { result ≡ list_all (λ one. knows_reader_in read.now (get keys.now one.key)) read.now.reads }
{
    for one in read.reads.as_slice() {
        if !knows_reader(keys, read, one) {
            return false;
        }
    }
    true
}

/// Whether a read finds nothing new, for a consumer that each group knows.
pub fn reads_in_vain(
    keys: &Keys,
    alloc: Global,
    read: &ReadGroupCommand,
) -> Result<bool, AllocError>
    ensures { IfOk result (λ vain. vain ≡ reads_in_vain keys.now read.now) }
{
    let nothing = finds_nothing(keys, alloc, read)?;
    Ok(nothing && all_know_reader(keys, read))
}
