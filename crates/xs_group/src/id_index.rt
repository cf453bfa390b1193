//! The index by id: the pending entries.
ghost use Rattle.std.specs.Prelude.{◌≡◌, Some, None, OnOk, OnErr, if◌then◌else◌};
ghost use Rattle.xs_stream.specs.declared.id.Id.{Id};
ghost use Rattle.xs_stream.specs.Id.{is_same_id, has_id};
ghost use Rattle.xs_group.specs.GroupState.{first_row};
ghost use Rattle.xs_group.specs.Indexes.{rows_of, indexed_row, AreFree};

use crate::name::Name;
use crate::pending_entry::PendingEntry;
use std::alloc::AllocError;
use xs_bytes::U63;
use xs_maps::SmallMap;
use xs_stream::{Id, Moment};

/// The pending entries by id.
pub(crate) type IdIndex = SmallMap<Id, PendingEntry>;

/// Inserts a row that is delivered for the first time.
fn put_row(rows: &mut IdIndex, name: &Name, now: Moment, id: Id) -> Result<(), AllocError>
    ensures ok { OnOk result ((x : Id) → indexed_row rows.new.entries x
        ≡ (if is_same_id x id then Some (first_row name.now now) else indexed_row rows.old.entries x)) }
    ensures err { OnErr result (rows.new.entries ≡ rows.old.entries) }
{
    let consumer = name.share()?;
    rows.insert(id, PendingEntry::new(consumer, now, U63::new(1)))
}

/// Removes the rows of these ids. It takes no memory.
fn remove_rows(rows: &mut IdIndex, ids: &[Id])
    ensures { (x : Id) → indexed_row rows.new.entries x
        ≡ (if has_id ids.now x then None else indexed_row rows.old.entries x) }
{
    for id in ids {
        let _ = rows.remove(id);
    }
}

/// Inserts a row for each of these ids, which have none, as delivered for the first time. If memory runs out, none is
/// inserted.
pub(crate) fn put_rows(
    rows: &mut IdIndex,
    name: &Name,
    now: Moment,
    ids: &[Id],
) -> Result<(), AllocError>
    requires { AreFree (rows_of rows.old.entries) ids.now }
    ensures ok { OnOk result ((x : Id) → indexed_row rows.new.entries x
        ≡ (if has_id ids.now x then Some (first_row name.now now) else indexed_row rows.old.entries x)) }
    ensures err { OnErr result ((x : Id) → indexed_row rows.new.entries x ≡ indexed_row rows.old.entries x) }
{
    for (i, id) in ids.iter().enumerate() {
        let Ok(()) = put_row(rows, name, now, *id) else {
            remove_rows(rows, &ids[..i]);
            return Err(AllocError);
        };
    }
    Ok(())
}
