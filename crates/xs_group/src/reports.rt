//! Reports of what is pending with which consumer (Redis, XPENDING, XINFO CONSUMERS).
ghost use Rattle.std.specs.Prelude.{IfOk, List, ℕ, None, Some, false, ◌≡◌};
ghost use Rattle.std.specs.BTreeSet.{contains};
ghost use Rattle.xs_group.specs.GroupState.{RowState};
ghost use Rattle.xs_group.specs.Indexes.{IsAgreed, indexed_row, is_owner, consumers_of, rows_of};
ghost use Rattle.xs_group.specs.Listing.{reported_owners, selected_rows};
ghost use Rattle.xs_group.specs.Report.{first_id, last_id, pending_row, consumer_reports};
ghost use Rattle.xs_stream.specs.declared.id.Id.{Id};
ghost use Rattle.xs_stream.specs.Id.{id_cmp, is_below, zero_id};

use crate::consumer_index::ConsumerIndex;
use crate::id_index::IdIndex;
use crate::pending_entry::PendingEntry;
use std::alloc::{AllocError, Global};
use std::ops::Bound;
use xs_bytes::{Bytes, List, U63};
use xs_maps::SmallSet;
use xs_stream::{Id, Moment, Range};

/// A consumer with the number of its pending entries.
#[derive(Debug, Drop)]
pub struct OwnerCount {
    /// The name of the consumer.
    pub consumer: Bytes,
    /// The number of its pending entries.
    pub count: u64,
}

/// A consumer of a group.
#[derive(Debug, Drop)]
pub struct ConsumerReport {
    /// Its name.
    pub consumer: Bytes,
    /// The number of its pending entries.
    pub pending: U63,
    /// The moment when it was created, or was last given or claimed something.
    pub seen: Moment,
    /// The milliseconds since that moment.
    pub idle: U63,
}

/// The short form: the number of pending entries, the least and the greatest of their ids, and their consumers.
#[derive(Debug, Drop)]
pub struct GroupSummary {
    /// The number of pending entries.
    pub total: U63,
    /// The least of their ids.
    pub least: Option<Id>,
    /// The greatest of them.
    pub greatest: Option<Id>,
    /// The consumers with pending entries, in the order of their names.
    pub owners: List<OwnerCount>,
}

/// A pending entry in the long form.
#[derive(Debug, Drop)]
pub struct PendingRow {
    /// The id of the entry.
    pub id: Id,
    /// Its consumer.
    pub consumer: Bytes,
    /// The moment of its last delivery, or the one that a claim gave it.
    pub time: Moment,
    /// Its idle time in milliseconds: since that moment.
    pub idle: U63,
    /// The number of its deliveries.
    pub count: U63,
}

/// Which pending entries the long form reports.
#[derive(Drop)]
pub(crate) struct Selection {
    /// The range of their ids.
    pub(crate) range: Range,
    /// The least idle time in milliseconds of an entry that is reported.
    pub(crate) min_idle: u64,
    /// The moment for which idle times are counted.
    pub(crate) moment: Moment,
    /// The most entries.
    pub(crate) limit: u64,
}

/// The least id.
pub(crate) fn least(rows: &IdIndex) -> Option<Id>
    ensures { result ≡ first_id rows.now.entries }
{
    match rows.first() {
        Some((id, _)) => Some(*id),
        None => None,
    }
}

/// The greatest id.
pub(crate) fn greatest(rows: &IdIndex) -> Option<Id>
    ensures { result ≡ last_id rows.now.entries }
{
    match rows.last() {
        Some((id, _)) => Some(*id),
        None => None,
    }
}

/// The consumers that have rows, with the number of their rows. The rows are those that this index agrees with.
pub(crate) fn owner_counts(
    alloc: Global,
    owners: &ConsumerIndex,
) -> Result<Vec<OwnerCount>, AllocError>
    ensures { (rows : List (Id × RowState)) → IsAgreed rows owners.now.entries → IfOk result (λ counts. counts.items
        ≡ reported_owners (consumers_of owners.now.entries) (rows_of rows)) }
{
    let mut counts = Vec::with_capacity(alloc, owners.len())?;
    for (name, owner) in owners.iter() {
        let count = owner.ids.len() as u64;
        if count == 0 {
            continue;
        }
        let consumer = Bytes::from_slice(alloc, name.as_slice())?;
        counts.push(OwnerCount { consumer, count })?;
    }
    Ok(counts)
}

/// The consumers, each with its moment and the number of its rows, which are those that this index agrees with.
pub(crate) fn consumers_of(
    alloc: Global,
    owners: &ConsumerIndex,
    now: Moment,
) -> Result<Vec<ConsumerReport>, AllocError>
    ensures { (rows : List (Id × RowState)) → IsAgreed rows owners.now.entries → IfOk result (λ found. found.items
        ≡ consumer_reports now (record {
          cursor = zero_id;
          consumers = consumers_of owners.now.entries;
          rows = rows_of rows;
        })) }
{
    let mut found = Vec::with_capacity(alloc, owners.len())?;
    for (name, owner) in owners.iter() {
        let count = owner.ids.len() as u64;
        let consumer = Bytes::from_slice(alloc, name.as_slice())?;
        found.push(ConsumerReport {
            consumer,
            pending: U63::new(count),
            seen: owner.seen,
            idle: U63::new(now.get().saturating_sub(owner.seen.get())),
        })?;
    }
    Ok(found)
}

/// The report of a row.
fn report_row(
    alloc: Global,
    now: Moment,
    id: Id,
    entry: &PendingEntry,
) -> Result<PendingRow, AllocError>
    ensures { IfOk result (λ row. row ≡ pending_row now (id, entry.now)) }
{
    let touch = entry.touch();
    let consumer = Bytes::from_slice(alloc, entry.consumer().as_slice())?;
    Ok(PendingRow {
        id,
        consumer,
        time: touch.time,
        idle: U63::new(entry.idle(now)),
        count: touch.count,
    })
}

/// The most rows for which memory is taken at the start.
const FIRST_ROOM: u64 = 16;

/// The selected rows, in a range that isn't empty.
pub(crate) fn rows_within(
    alloc: Global,
    rows: &IdIndex,
    selection: &Selection,
) -> Result<Vec<PendingRow>, AllocError>
    requires { is_below selection.now.range.high selection.now.range.low ≡ false }
    ensures { IfOk result (λ found. found.items ≡ selected_rows selection.now None (rows_of rows.now.entries)) }
{
    let mut found = Vec::with_capacity(alloc, FIRST_ROOM.min(selection.limit) as usize)?;
    let Range { low, high } = selection.range;
    let within = rows.range((Bound::Included(low), Bound::Included(high)));
    for (id, entry) in within {
        if found.len() as u64 >= selection.limit {
            break;
        }
        if entry.idle(selection.moment) < selection.min_idle {
            continue;
        }
        found.push(report_row(alloc, selection.moment, *id, entry)?)?;
    }
    Ok(found)
}

/// The selected rows of the consumer that has these ids, in a range that isn't empty.
pub(crate) fn rows_of_ids(
    alloc: Global,
    rows: &IdIndex,
    ids: &SmallSet<Id>,
    selection: &Selection,
) -> Result<Vec<PendingRow>, AllocError>
    requires { is_below selection.now.range.high selection.now.range.low ≡ false }
    ensures { (name : List ℕ)
        → ((x : Id) → contains id_cmp ids.now x ≡ is_owner (indexed_row rows.now.entries x) name)
        → IfOk result (λ found. found.items ≡ selected_rows selection.now (Some name) (rows_of rows.now.entries)) }
{
    let mut found = Vec::with_capacity(alloc, FIRST_ROOM.min(selection.limit) as usize)?;
    let Range { low, high } = selection.range;
    let within = ids.range((Bound::Included(low), Bound::Included(high)));
    for id in within {
        if found.len() as u64 >= selection.limit {
            break;
        }
        let Some(entry) = rows.get(id) else {
            continue;
        };
        if entry.idle(selection.moment) < selection.min_idle {
            continue;
        }
        found.push(report_row(alloc, selection.moment, *id, entry)?)?;
    }
    Ok(found)
}
