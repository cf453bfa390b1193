//! A few entries in a vector, in the order of their keys.
ghost use Rattle.std.specs.Prelude.{◌≡◌, ◌≤◌, ◌+◌, ◌++◌, IfNone, IfOk, OnOk, OnErr, length, vec_capacity, vec_len};
ghost use Rattle.std.specs.Option.{option_copied, option_copied_mut};
ghost use Rattle.std.specs.Borrow.{sem};
ghost use Rattle.std.specs.BTreeMap.{get, insert_entry, is_at, IsOrdered};
ghost use Rattle.std.specs.List.Sorted.{IsStrictlySortedBy};
ghost use Rattle.std.specs.Map.{keys_of, lookup, remove_entry};
ghost use Rattle.xs_maps.specs.Seen.{seen_few};
ghost use Rattle.std.specs.Range.Bound.{bound_map};
ghost use Rattle.std_collections.specs.Btree.Order.{past, until};
ghost use Rattle.std_collections.specs.Layout.BTreeMap.{seek};
ghost use Rattle.std_collections.specs.Layout.BTreeMapQueries.{after_equal, end_test, span, start_test};

use std::alloc::AllocError;
use std::cmp::Ordering;
use std::collections::BTreeMap;
use std::ops::Bound;

/// A few entries.
#[derive(Drop)]
pub(crate) struct Few<K, V> {
    pub(crate) entries: Vec<(K, V)>,
}

/// The place of a key among entries; or, as the error, the place at which it would be inserted.
fn place<K: Ord, V>(entries: &[(K, V)], key: &K) -> Result<usize, usize>
    ensures { result ≡ seek (K.cmp key.now) entries.now }
{
    for (at, entry) in entries.iter().enumerate() {
        match key.cmp(&entry.0) {
            Ordering::Less => return Err(at),
            Ordering::Equal => return Ok(at),
            Ordering::Greater => {}
        }
    }
    Err(entries.len())
}

/// Doubles the room of a full vector; an empty one gets room for one entry.
fn double<T>(full: &mut Vec<T>) -> Result<(), AllocError>
    ensures { full.new.items ≡ full.old.items }
{
    if full.len() < full.capacity() {
        return Ok(());
    }
    full.reserve_exact(full.len().max(1))
}

/// Inserts a value at a key.
pub(crate) fn insert_few<K: Ord + Drop, V: Drop>(
    few: &mut Vec<(K, V)>,
    key: K,
    value: V,
) -> Result<(), AllocError>
    ensures ok { OnOk result (few.new.items ≡ insert_entry K.cmp few.old.items key value) }
    ensures err { OnErr result (few.new.items ≡ few.old.items) }
{
    match place(few.as_slice(), &key) {
        Ok(at) => few[at].1 = value,
        Err(at) => {
            double(few)?;
            few.insert(at, (key, value))?;
        }
    }
    Ok(())
}

/// Moves the entries of a tree to a vector, after its own. The vector has room for them.
fn give_back<K: Ord + Drop, V: Drop>(few: &mut Vec<(K, V)>, tree: BTreeMap<K, V>)
    requires { vec_len few.old + length tree.entries ≤ vec_capacity few.old }
    ensures { few.new.items ≡ few.old.items ++ tree.entries }
{
    for entry in tree {
        few.push_reserved(entry);
    }
}

/// Moves all entries to a tree. If memory runs out, they stay.
pub(crate) fn tree_of<K: Ord + Drop, V: Drop>(
    few: &mut Vec<(K, V)>,
) -> Result<BTreeMap<K, V>, AllocError>
    requires { IsStrictlySortedBy K.cmp (keys_of few.old.items) }
    ensures ok { IfOk result (λ tree. tree.entries ≡ few.old.items) }
    ensures err { OnErr result (few.new.items ≡ few.old.items) }
{
    let mut tree = BTreeMap::new(*few.allocator());
    for _ in 0..few.len() {
        let Some((key, value)) = few.pop() else {
            return Ok(tree);
        };
        match tree.insert(key, value) {
            Ok(_) => {}
            Err(refused) => {
                few.push_reserved(refused.value);
                give_back(few, tree);
                return Err(AllocError);
            }
        }
    }
    Ok(tree)
}

/// The value at a key.
pub(crate) fn value_in<'a, K: Ord, V>(few: &'a Vec<(K, V)>, key: &K) -> Option<&'a V>
    requires { IsStrictlySortedBy K.cmp (keys_of few.now.items) }
    ensures { option_copied result ≡ lookup (is_at (K.cmp key.now)) few.now.items }
{
    match place(few.as_slice(), key) {
        Ok(at) => Some(&few[at].1),
        Err(_) => None,
    }
}

/// Gives back room that the entries don't need any more: as much is left as if they had been inserted one by one.
fn halve<T>(few: &mut Vec<T>)
    ensures { few.new.items ≡ few.old.items }
{
    if matches!(few.len(), 0 | 1 | 2 | 4) {
        few.shrink_to_fit();
    }
}

/// Removes the value at a key and returns it. Room that the others don't need is given back.
pub(crate) fn remove_few<K: Ord + Drop, V: Drop>(few: &mut Vec<(K, V)>, key: &K) -> Option<V>
    requires { IsStrictlySortedBy K.cmp (keys_of few.old.items) }
    ensures value { result ≡ lookup (is_at (K.cmp key.now)) few.old.items }
    ensures entries { few.new.items ≡ remove_entry (is_at (K.cmp key.now)) few.old.items }
    ensures unchanged { IfNone result (few.new.items ≡ few.old.items) }
{
    match place(few.as_slice(), key) {
        Ok(at) => {
            let (_, value) = few.remove(at);
            halve(few);
            Some(value)
        }
        Err(_) => None,
    }
}

/// Compares the start of a range with a key.
fn start_order<K: Ord>(start: Bound<&K>, key: &K) -> Ordering
    ensures { result ≡ start_test K.cmp (bound_map (λ x. x.now) start.entry) key.now }
{
    match start {
        Bound::Included(start) => start.cmp(key),
        Bound::Excluded(start) => after_equal(start.cmp(key)),
        Bound::Unbounded => Ordering::Less,
    }
}

/// Compares the end of a range with a key.
fn end_order<K: Ord>(end: Bound<&K>, key: &K) -> Ordering
    ensures { result ≡ end_test K.cmp (bound_map (λ x. x.now) end.entry) key.now }
{
    match end {
        Bound::Included(end) => after_equal(end.cmp(key)),
        Bound::Excluded(end) => end.cmp(key),
        Bound::Unbounded => Ordering::Greater,
    }
}

/// Counts an equal key like a lesser one.
fn after_equal(order: Ordering) -> Ordering
    ensures { result ≡ after_equal order }
{
    match order {
        Ordering::Less => Ordering::Less,
        Ordering::Equal | Ordering::Greater => Ordering::Greater,
    }
}

/// The entries from the start of a range on.
fn from_start<'a, K: Ord, V>(entries: &'a [(K, V)], start: Bound<&K>) -> &'a [(K, V)]
    ensures { result.now ≡ past (start_test K.cmp (bound_map (λ x. x.now) start.entry)) entries.now }
{
    for (at, entry) in entries.iter().enumerate() {
        if start_order(start, &entry.0).is_le() {
            return &entries[at..];
        }
    }
    &[]
}

/// The entries up to the end of a range.
fn up_to_end<'a, K: Ord, V>(entries: &'a [(K, V)], end: Bound<&K>) -> &'a [(K, V)]
    ensures { result.now ≡ until (end_test K.cmp (bound_map (λ x. x.now) end.entry)) entries.now }
{
    for (at, entry) in entries.iter().enumerate() {
        if end_order(end, &entry.0).is_le() {
            return &entries[..at];
        }
    }
    entries
}

/// The entries of a range.
pub(crate) fn part<'a, K: Ord, V>(
    entries: &'a [(K, V)],
    start: Bound<&K>,
    end: Bound<&K>,
) -> &'a [(K, V)]
    ensures { result.now
        ≡ span K.cmp (bound_map (λ x. x.now) start.entry) (bound_map (λ x. x.now) end.entry) entries.now }
{
    from_start(up_to_end(entries, end), start)
}

impl<K: Ord, V> Few<K, V> {
    ghost use Rattle.xs_maps.specs.Lends.{lends_in_few};

    /// The value at a key, to be changed.
    pub(crate) fn get_mut(&mut self, key: &K) -> Option<&mut V>
        requires { IsOrdered K.cmp (seen_few self.old) }
        ensures* writes_back { sem 𝓛 (lends_in_few K.row V.row K.Ord self.entry key.now result) }
        ensures value { option_copied_mut result ≡ get K.cmp (seen_few self.old) key.now }
    {
        match place(self.entries.as_slice(), key) {
            Ok(at) => Some(&mut self.entries[at].1),
            Err(_) => None,
        }
    }
}
