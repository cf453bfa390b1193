//! A map in the order of its keys.
ghost use Rattle.std.specs.Prelude.{◌≡◌, ◌<◌, ◌-◌, ◌^◌, ◌↔◌, length, is_some, slice_get, Some, None, IsSome, IfSome};
ghost use Rattle.std.specs.Prelude.{IfNone, OnOk, OnErr};
ghost use Rattle.std.specs.BTreeMap.Range.{entries_between, IsLeBy, IsLtBy};
ghost use Rattle.std.specs.Option.{option_copied, option_copied_mut};
ghost use Rattle.std.specs.Borrow.{sem};
ghost use Rattle.std.specs.BTreeMap.{get, IsOrdered, IsEmpty, IsUnchanged, Updates, UpdatesBy, btree_map_len};

use crate::entries::{Entries, Left};
use crate::few::Few;
use crate::form::Form;
use std::alloc::{AllocError, Global};
use std::marker::Model;
use std::ops::RangeBounds;

/// A map in the order of its keys. A contract sees it as a `BTreeMap`.
#[derive(Drop)]
pub struct SmallMap<K: Ord, V> {
    form: Form<K, V>,
}

impl<K: Ord, V> Model for SmallMap<K, V> {
    ghost use Rattle.std_collections.specs.Layout.BTreeMap.{BTreeMap as Seen, btree_map_code};
    ghost use Rattle.std.specs.BTreeMap.{IsOrdered};
    ghost use Rattle.xs_maps.specs.Seen.{seen};

    ghost Value = { Seen K V };

    ghost coded = { btree_map_code K.code V.code };

    ghost view = { λ m. seen m.form };

    ghost invariant = { λ m. IsOrdered K.cmp (seen m.form) };
}

impl<K: Ord, V> SmallMap<K, V> {
    ghost use Rattle.xs_maps.specs.Lends.{lends_value};

    /// An empty map. It takes no memory.
    pub fn new(alloc: Global) -> Self
        ensures { IsEmpty result }
    {
        Self {
            form: Form::Few(Few {
                entries: Vec::new(alloc),
            }),
        }
    }

    /// The number of entries.
    pub fn len(&self) -> usize
        ensures len { result ≡ btree_map_len self.now }
        ensures small { result < 2 ^ 63 }
        ensures ordered { IsOrdered K.cmp self.now }
    {
        match &self.form {
            Form::Few(few) => few.entries.len(),
            Form::Many(many) => many.len(),
        }
    }

    /// The value at a key.
    pub fn get(&self, key: &K) -> Option<&V>
        ensures value { option_copied result ≡ get K.cmp self.now key.now }
    {
        self.form.get(key)
    }

    /// The value at a key, to be changed.
    pub fn get_mut(&mut self, key: &K) -> Option<&mut V>
        ensures* writes_back { sem 𝓛 (lends_value K.row V.row K.Ord self.entry key.now result) }
        ensures value { option_copied_mut result ≡ get K.cmp self.old key.now }
    {
        self.form.get_mut(key)
    }

    /// Whether the key has a value.
    pub fn contains_key(&self, key: &K) -> bool
        ensures { result ≡ is_some (get K.cmp self.now key.now) }
    {
        self.get(key).is_some()
    }

    /// The entry with the least key.
    pub fn first(&self) -> Option<(&K, &V)>
        ensures variant { IsSome result ↔ (0 < btree_map_len self.now) }
        ensures first { IfSome result (λ p. slice_get self.now.entries 0 ≡ Some (p.0.now, p.1.now)) }
    {
        match &self.form {
            Form::Few(few) => match few.entries.first() {
                Some((key, value)) => Some((key, value)),
                None => None,
            },
            Form::Many(many) => many.first_key_value(),
        }
    }

    /// The entry with the greatest key.
    pub fn last(&self) -> Option<(&K, &V)>
        ensures variant { IsSome result ↔ (0 < btree_map_len self.now) }
        ensures last { IfSome result (λ p. slice_get self.now.entries (btree_map_len self.now - 1)
            ≡ Some (p.0.now, p.1.now)) }
    {
        match &self.form {
            Form::Few(few) => match few.entries.last() {
                Some((key, value)) => Some((key, value)),
                None => None,
            },
            Form::Many(many) => many.last_key_value(),
        }
    }
}

impl<K: Ord, V> SmallMap<K, V> {
    /// The entries of a range, in the order of their keys.
    pub fn range<R: RangeBounds<K> + Drop>(&self, range: R) -> Entries<'_, K, V>
        requires { R.is_forward range (IsLeBy K.cmp) (IsLtBy K.cmp) }
        ensures fits { length result < 2 ^ 64 }
        ensures between { R.has_bounds range → result
            ≡ entries_between K.cmp (R.start_bound range) (R.end_bound range) self.now.entries }
        ensures ordered { IsOrdered K.cmp self.now }
    {
        Entries::new(self.form.range(range))
    }

    /// All entries, in the order of their keys.
    pub fn iter(&self) -> Entries<'_, K, V>
        ensures rest { result ≡ self.now.entries }
        ensures ordered { IsOrdered K.cmp self.now }
    {
        match &self.form {
            Form::Few(few) => Entries::new(Left::Few(few.entries.as_slice())),
            Form::Many(many) => Entries::new(Left::Many(many.range(..))),
        }
    }
}

impl<K: Ord + Drop, V: Drop> SmallMap<K, V> {
    /// Inserts a value at a key.
    pub fn insert(&mut self, key: K, value: V) -> Result<(), AllocError>
        ensures updates { OnOk result (Updates K.cmp self.old self.new key (Some value)) }
        ensures err { OnErr result (IsUnchanged self.old self.new) }
    {
        self.form.insert(key, value)
    }

    /// Removes the value at a key and returns it. It takes no memory.
    pub fn remove(&mut self, key: &K) -> Option<V>
        ensures value { result ≡ get K.cmp self.old key.now }
        ensures updates { UpdatesBy K.cmp (K.cmp key.now) self.old self.new None }
        ensures unchanged { IfNone result (IsUnchanged self.old self.new) }
    {
        self.form.remove(key)
    }
}
