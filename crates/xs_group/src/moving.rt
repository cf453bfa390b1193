//! Changes of both indexes: entries that are given to a consumer, given back, or move to another one.
ghost use Rattle.std.specs.Prelude.{◌≡◌, ◌∷◌, [], ◌&&◌, ℕ, List, Option, true, false, not, map, is_some};
ghost use Rattle.std.specs.Prelude.{option_and_then, IfOk, IfSome, if◌then◌else◌, OnOk, OnErr, IsSome};
ghost use Rattle.xs_stream.specs.declared.id.Id.{Id};
ghost use Rattle.xs_stream.specs.Id.{is_same_id, has_id};
ghost use Rattle.xs_group.specs.GroupState.{is_same_name};
ghost use Rattle.xs_group.specs.Indexes.{has_pending_id, seen_at, is_owner, indexed_row, IsAgreed};
ghost use Rattle.xs_group.specs.Verdict.{row_after_move, AreDistinct, AreAgreedBut, AreSomeOf};

use crate::claims::ClaimTerms;
use crate::consumer_index::{self, ConsumerIndex};
use crate::id_index::IdIndex;
use crate::name::Name;
use crate::pending_entry::PendingEntry;
use std::alloc::{AllocError, Global};
use xs_bytes::Bytes;
use xs_stream::Id;

/// Whether the names are the same.
fn are_equal_names(a: &Bytes, b: &Bytes) -> bool
    ensures { result ≡ is_same_name a.now b.now }
{
    a.cmp(b).is_eq()
}

/// The row of an id, if this consumer has it.
pub(crate) fn row_of<'a>(
    rows: &'a IdIndex,
    owners: &ConsumerIndex,
    name: &Bytes,
) -> Option<&'a PendingEntry>
    ensures whose { IfSome result (λ entry. entry.now.consumer ≡ name.now) }
    ensures found { IsAgreed rows.now.entries owners.now.entries → (x : Id)
        → is_owner (indexed_row rows.now.entries x) name.now ≡ true → IsSome result }
{
    let owner = owners.get(name)?;
    let id = owner.ids.first()?;
    let entry = rows.get(id)?;
    if !are_equal_names(entry.consumer(), name) {
        return None;
    }
    Some(entry)
}

/// The name, shared once for each of these ids.
pub(crate) fn shares(alloc: Global, name: &Name, ids: &[Id]) -> Result<Vec<Name>, AllocError>
    ensures { IfOk result (λ names. names.items ≡ map (λ x. name.now) ids.now) }
{
    let mut names = Vec::with_capacity(alloc, ids.len())?;
    for _id in ids {
        names.push(name.share()?)?;
    }
    Ok(names)
}

/// Whether the row of an id is this consumer's.
fn is_row_of(rows: &IdIndex, name: &Bytes, id: Id) -> bool
    ensures { result ≡ is_owner (indexed_row rows.now.entries id) name.now }
{
    match rows.get(&id) {
        Some(entry) => are_equal_names(entry.consumer(), name),
        None => false,
    }
}

/// Removes an id from a consumer, unless its row is that consumer's.
fn take_back_one(rows: &IdIndex, owners: &mut ConsumerIndex, name: &Bytes, id: Id)
    ensures seen { (n : List ℕ) → seen_at owners.new.entries n ≡ seen_at owners.old.entries n }
    ensures ids { (n : List ℕ) → (x : Id) → has_pending_id owners.new.entries n x
        ≡ (has_pending_id owners.old.entries n x
        && not (is_same_name n name.now
        && (is_same_id x id && not (is_owner (indexed_row rows.now.entries x) name.now)))) }
{
    if is_row_of(rows, name, id) {
        return;
    }
    consumer_index::remove_id(owners, name, id);
}

/// Removes ids from a consumer if their rows aren't that consumer's. It takes no memory.
pub(crate) fn take_back(rows: &IdIndex, owners: &mut ConsumerIndex, name: &Bytes, ids: &[Id])
    requires { (done : List Id) × AreSomeOf done ids.now
        × AreAgreedBut rows.now.entries owners.old.entries name.now done }
    ensures seen { (n : List ℕ) → seen_at owners.new.entries n ≡ seen_at owners.old.entries n }
    ensures agreed { IsAgreed rows.now.entries owners.new.entries }
{
    for id in ids {
        take_back_one(rows, owners, name, *id);
    }
}

/// Gives a consumer these ids, without changing their rows. If memory runs out, it gets none.
pub(crate) fn add_ids(
    rows: &IdIndex,
    owners: &mut ConsumerIndex,
    name: &Bytes,
    ids: &[Id],
) -> Result<(), AllocError>
    requires there { IsSome (seen_at owners.old.entries name.now) }
    requires agreed { IsAgreed rows.now.entries owners.old.entries }
    ensures seen { (n : List ℕ) → seen_at owners.new.entries n ≡ seen_at owners.old.entries n }
    ensures ok { OnOk result (AreAgreedBut rows.now.entries owners.new.entries name.now ids.now) }
    ensures err { OnErr result (IsAgreed rows.now.entries owners.new.entries) }
{
    let Ok(()) = consumer_index::put_ids(owners, name, ids) else {
        take_back(rows, owners, name, ids);
        return Err(AllocError);
    };
    Ok(())
}

/// Removes an id from the consumer that had it, unless that is the one that gets it.
fn leave_owner(owners: &mut ConsumerIndex, old: &Bytes, name: &Bytes, id: Id)
    ensures seen { (n : List ℕ) → seen_at owners.new.entries n ≡ seen_at owners.old.entries n }
    ensures ids { (n : List ℕ) → (x : Id) → has_pending_id owners.new.entries n x
        ≡ (if is_same_name old.now name.now then has_pending_id owners.old.entries n x
        else (has_pending_id owners.old.entries n x && not (is_same_name n old.now && is_same_id x id))) }
{
    if are_equal_names(old, name) {
        return;
    }
    consumer_index::remove_id(owners, old, id);
}

/// Gives one row to a consumer that already has its id.
fn move_row(
    rows: &mut IdIndex,
    owners: &mut ConsumerIndex,
    name: &Bytes,
    share: Name,
    terms: &ClaimTerms,
    id: Id,
)
    requires { share ≡ name.now }
    ensures rows { (x : Id) → indexed_row rows.new.entries x
        ≡ (if is_same_id x id then option_and_then (row_after_move name.now terms.now.moment terms.now.rule (id
        ∷ []) x) (indexed_row rows.old.entries x) else indexed_row rows.old.entries x) }
    ensures agreed { (rest : List Id) → has_id rest id ≡ false
        → AreAgreedBut rows.old.entries owners.old.entries name.now (id ∷ rest)
        → AreAgreedBut rows.new.entries owners.new.entries name.now rest }
    ensures seen { (n : List ℕ) → seen_at owners.new.entries n ≡ seen_at owners.old.entries n }
{
    let Some(entry) = rows.get_mut(&id) else {
        consumer_index::remove_id(owners, name, id);
        return;
    };
    leave_owner(owners, entry.consumer(), name, id);
    entry.claim(share, terms);
}

/// Gives rows to a consumer that already has their ids. It takes no memory.
pub(crate) fn move_rows(
    rows: &mut IdIndex,
    owners: &mut ConsumerIndex,
    name: &Bytes,
    names: Vec<Name>,
    terms: &ClaimTerms,
    ids: &[Id],
)
    requires names { names.items ≡ map (λ x. name.now) ids.now }
    requires apart { AreDistinct ids.now }
    requires agreed { AreAgreedBut rows.old.entries owners.old.entries name.now ids.now }
    ensures rows { (x : Id) → indexed_row rows.new.entries x
        ≡ option_and_then (row_after_move name.now terms.now.moment terms.now.rule ids.now x)
        (indexed_row rows.old.entries x) }
    ensures agreed { IsAgreed rows.new.entries owners.new.entries }
    ensures seen { (n : List ℕ) → seen_at owners.new.entries n ≡ seen_at owners.old.entries n }
{
    let mut todo = ids;
    for share in names {
        let Some((id, rest)) = todo.split_first() else {
            return;
        };
        todo = rest;
        move_row(rows, owners, name, share, terms, *id);
    }
}
