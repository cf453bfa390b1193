//! The parts of a read of a group.
ghost use Rattle.std.specs.Prelude.{◌≡◌, IfOk, take, filter};
ghost use Rattle.std.specs.BTreeSet.{IsOrdered};
ghost use Rattle.std.specs.List.{list_any};
ghost use Rattle.xs_stream.specs.Id.{has_id, id_cmp, is_below};
ghost use Rattle.xs_stream.specs.StreamContent.{ids_of, up_to_limit, AreEntriesOf};
ghost use Rattle.xs_group.specs.GroupState.{last_of};
ghost use Rattle.xs_group.specs.Deliveries.{new_rows, touch_set};

use crate::delivery::{DeliveryRow, Touch};
use crate::pending_entry::next_count;
use std::alloc::{AllocError, Global};
use std::ops::Bound;
use xs_bytes::List;
use xs_maps::SmallSet;
use xs_stream::{Entry, Id, Moment, Stream};

/// The last of these ids, or `before` if there are none.
pub(crate) fn last_id(before: Id, ids: &[Id]) -> Id
    ensures { result ≡ last_of before ids.now }
{
    let mut last = before;
    for id in ids {
        last = *id;
    }
    last
}

/// The rows of entries that are delivered for the first time.
pub(crate) fn new_rows(alloc: Global, ids: &[Id]) -> Result<Vec<DeliveryRow>, AllocError>
    ensures { IfOk result (λ rows. rows.items ≡ new_rows ids.now) }
{
    let mut rows = Vec::with_capacity(alloc, ids.len())?;
    for id in ids {
        let row = DeliveryRow {
            id: *id,
            present: true,
            before: None,
        };
        rows.push(row)?;
    }
    Ok(rows)
}

/// Whether the entry is in the stream.
pub(crate) fn is_present(stream: &Stream, id: Id) -> bool
    ensures { result ≡ has_id (ids_of stream.now.entries) id }
{
    stream.get(id).is_some()
}

/// Whether the entry is in the stream. If it is at this place among entries that the stream lends, it isn't looked up.
pub(crate) fn is_present_along(stream: &Stream, lent: &[Entry<'_>], place: usize, id: Id) -> bool
    requires { AreEntriesOf stream.now.entries lent.now }
    ensures { result ≡ has_id (ids_of stream.now.entries) id }
{
    if let Some(entry) = lent.get(place) {
        if entry.id() == id {
            return true;
        }
    }
    is_present(stream, id)
}

/// The ids of a set above this one, in their order, at most `limit` of them.
pub(crate) fn limited_above(
    alloc: Global,
    ids: &SmallSet<Id>,
    from: Id,
    limit: Option<u64>,
) -> Result<List<Id>, AllocError>
    ensures ordered { IsOrdered id_cmp ids.now }
    ensures above { IfOk result (λ above. above ≡ up_to_limit limit (filter (λ x. is_below from x) ids.now.keys)) }
{
    let above = ids_above(alloc, ids, from, limit.unwrap_or(u64::MAX))?;
    Ok(List::new(above))
}

/// The ids of a set above this one, in their order, at most `most` of them.
fn ids_above(alloc: Global, ids: &SmallSet<Id>, from: Id, most: u64) -> Result<Vec<Id>, AllocError>
    ensures ordered { IsOrdered id_cmp ids.now }
    ensures above { IfOk result (λ above. above.items ≡ take most (filter (λ x. is_below from x) ids.now.keys)) }
{
    let mut above = Vec::new(alloc);
    let past = ids.range((Bound::Excluded(from), Bound::Unbounded));
    for id in past {
        if above.len() as u64 >= most {
            break;
        }
        above.push(*id)?;
    }
    Ok(above)
}

/// Whether the entry of one of these rows is in the stream.
pub(crate) fn is_any_present(rows: &[DeliveryRow]) -> bool
    ensures { result ≡ list_any (λ r. r.present) rows.now }
{
    rows.iter().any(|row| row.present)
}

/// The time and the count that a row gets by a delivery at a moment, or gets back if that is None.
pub(crate) fn touch_set(now: &Option<Moment>, row: &DeliveryRow) -> Option<Touch>
    ensures { result ≡ touch_set now.now row.now }
{
    let Some(now) = now else {
        return row.before;
    };
    if !row.present {
        return None;
    }
    match row.before {
        Some(touch) => Some(Touch {
            time: *now,
            count: next_count(touch.count),
        }),
        None => None,
    }
}
