//! A set in the order of its keys.
ghost use Rattle.std.specs.Prelude.{◌≡◌, ◌<◌, ◌^◌, ◌↔◌, true, false, slice_get, Some, IsSome, IfSome, IsTrue, OnOk};
ghost use Rattle.std.specs.Prelude.{OnErr};
ghost use Rattle.std.specs.BTreeMap.Range.{IsLeBy, IsLtBy};
ghost use Rattle.std.specs.BTreeSet.{btree_set_len, contains, keys_between, IsEmpty, IsOrdered, IsUnchanged, Updates};
ghost use Rattle.std.specs.BTreeSet.{UpdatesBy};

use crate::entries::Keys;
use crate::small_map::SmallMap;
use std::alloc::{AllocError, Global};
use std::marker::Model;
use std::ops::RangeBounds;

/// A set in the order of its keys. A contract sees it as a `BTreeSet`.
#[derive(Drop)]
pub struct SmallSet<K: Ord> {
    map: SmallMap<K, ()>,
}

impl<K: Ord> Model for SmallSet<K> {
    ghost use Rattle.std.specs.Map.{keys_of};
    ghost use Rattle.std_collections.specs.Layout.BTreeSet.{BTreeSet as Seen, btree_set, btree_set_code};

    ghost Value = { Seen K };

    ghost coded = { btree_set_code K.code };

    ghost view = { λ s. btree_set (keys_of s.map.entries) };
}

impl<K: Ord> SmallSet<K> {
    /// An empty set. It takes no memory.
    pub fn new(alloc: Global) -> Self
        ensures { IsEmpty result }
    {
        Self {
            map: SmallMap::new(alloc),
        }
    }

    /// The number of keys.
    pub fn len(&self) -> usize
        ensures len { result ≡ btree_set_len self.now }
        ensures small { result < 2 ^ 63 }
        ensures ordered { IsOrdered K.cmp self.now }
    {
        self.map.len()
    }

    /// The least key.
    pub fn first(&self) -> Option<&K>
        ensures variant { IsSome result ↔ (0 < btree_set_len self.now) }
        ensures first { IfSome result (λ k. slice_get self.now.keys 0 ≡ Some k.now) }
        ensures member { IfSome result (λ k. IsTrue (contains K.cmp self.now k.now)) }
    {
        match self.map.first() {
            Some((key, _)) => Some(key),
            None => None,
        }
    }

    /// The keys in a range, in their order.
    pub fn range<R: RangeBounds<K> + Drop>(&self, range: R) -> Keys<'_, K>
        requires { R.is_forward range (IsLeBy K.cmp) (IsLtBy K.cmp) }
        ensures between { R.has_bounds range → result
            ≡ keys_between K.cmp (R.start_bound range) (R.end_bound range) self.now }
        ensures ordered { IsOrdered K.cmp self.now }
    {
        Keys::new(self.map.range(range))
    }

    /// All keys, in their order.
    pub fn iter(&self) -> Keys<'_, K>
        ensures rest { result ≡ self.now.keys }
        ensures ordered { IsOrdered K.cmp self.now }
    {
        Keys::new(self.map.iter())
    }
}

impl<K: Ord + Drop> SmallSet<K> {
    /// Inserts a key.
    pub fn insert(&mut self, key: K) -> Result<(), AllocError>
        ensures updates { OnOk result (Updates K.cmp self.old self.new key true) }
        ensures err { OnErr result (IsUnchanged self.old self.new) }
    {
        self.map.insert(key, ())
    }

    /// Removes a key. It takes no memory.
    pub fn remove(&mut self, key: &K)
        ensures updates { UpdatesBy K.cmp (K.cmp key.now) self.old self.new false }
    {
        let _ = self.map.remove(key);
    }
}
