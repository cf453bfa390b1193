//! The index by consumer: the moment of each, and the ids of its pending entries.
ghost use Rattle.std.specs.Prelude.{◌≡◌, ◌&&◌, ◌||◌, ℕ, List, not, OnOk, OnErr, IsSome, None, if◌then◌else◌};
ghost use Rattle.std.specs.BTreeSet.{contains};
ghost use Rattle.xs_stream.specs.declared.id.Id.{Id};
ghost use Rattle.xs_stream.specs.Id.{id_cmp, is_same_id, has_id};
ghost use Rattle.xs_group.specs.GroupState.{is_same_name};
ghost use Rattle.xs_group.specs.Indexes.{has_pending_id, seen_at, indexed_row};
ghost use Rattle.xs_group.specs.Verdict.{AreSomeOf};

use crate::id_index::IdIndex;
use std::alloc::AllocError;
use xs_bytes::Bytes;
use xs_maps::{SmallMap, SmallSet};
use xs_stream::{Id, Moment};

/// A consumer in the index.
#[derive(Drop)]
pub(crate) struct Owner {
    /// The moment when it was created, or was last given or claimed something.
    pub(crate) seen: Moment,
    /// The ids of its pending entries.
    pub(crate) ids: SmallSet<Id>,
}

/// The consumers, by name.
pub(crate) type ConsumerIndex = SmallMap<Bytes, Owner>;

/// Inserts these ids into a set; or only some of them, if memory runs out.
fn insert_ids(own: &mut SmallSet<Id>, ids: &[Id]) -> Result<(), AllocError>
    ensures ok { OnOk result ((x : Id) → contains id_cmp own.new x ≡ (contains id_cmp own.old x || has_id ids.now x)) }
    ensures err { OnErr result ((done : List Id) × AreSomeOf done ids.now
        × ((x : Id) → contains id_cmp own.new x ≡ (contains id_cmp own.old x || has_id done x))) }
{
    for id in ids {
        let Ok(()) = own.insert(*id) else {
            return Err(AllocError);
        };
    }
    Ok(())
}

/// Gives a consumer these ids; or only some of them, if memory runs out. Their rows aren't changed.
pub(crate) fn put_ids(
    owners: &mut ConsumerIndex,
    name: &Bytes,
    ids: &[Id],
) -> Result<(), AllocError>
    requires { IsSome (seen_at owners.old.entries name.now) }
    ensures seen { (n : List ℕ) → seen_at owners.new.entries n ≡ seen_at owners.old.entries n }
    ensures ok { OnOk result ((n : List ℕ) → (x : Id) → has_pending_id owners.new.entries n x
        ≡ (has_pending_id owners.old.entries n x || (is_same_name n name.now && has_id ids.now x))) }
    ensures err { OnErr result ((done : List Id) × AreSomeOf done ids.now
        × ((n : List ℕ) → (x : Id) → has_pending_id owners.new.entries n x
        ≡ (has_pending_id owners.old.entries n x || (is_same_name n name.now && has_id done x)))) }
{
    let Some(owner) = owners.get_mut(name) else {
        return Ok(());
    };
    insert_ids(&mut owner.ids, ids)
}

/// Removes an id from a consumer.
pub(crate) fn remove_id(owners: &mut ConsumerIndex, name: &Bytes, id: Id)
    ensures seen { (n : List ℕ) → seen_at owners.new.entries n ≡ seen_at owners.old.entries n }
    ensures ids { (n : List ℕ) → (x : Id) → has_pending_id owners.new.entries n x
        ≡ (has_pending_id owners.old.entries n x && not (is_same_name n name.now && is_same_id x id)) }
{
    if let Some(owner) = owners.get_mut(name) {
        owner.ids.remove(&id);
    }
}

/// Removes the rows of these ids.
pub(crate) fn remove_rows(rows: &mut IdIndex, ids: &SmallSet<Id>)
    ensures { (x : Id) → indexed_row rows.new.entries x
        ≡ (if contains id_cmp ids.now x then None else indexed_row rows.old.entries x) }
{
    for id in ids.iter() {
        let _ = rows.remove(id);
    }
}
