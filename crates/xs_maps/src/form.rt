//! The two forms in which a map stores its entries.
ghost use Rattle.std.specs.Prelude.{◌≡◌, ◌<◌, ◌^◌, length, Some, None, IfNone, OnOk, OnErr};
ghost use Rattle.std.specs.Option.{option_copied, option_copied_mut};
ghost use Rattle.std.specs.Borrow.{sem};
ghost use Rattle.std.specs.BTreeMap.{get, IsOrdered, IsUnchanged, Updates, UpdatesBy};
ghost use Rattle.std.specs.BTreeMap.Range.{entries_between, IsLeBy, IsLtBy};
ghost use Rattle.xs_maps.specs.Left.{items_left};
ghost use Rattle.xs_maps.specs.Seen.{seen};

use crate::entries::Left;
use crate::few::{self, Few};
use std::alloc::AllocError;
use std::collections::BTreeMap;
use std::ops::RangeBounds;

/// The most entries in a vector.
const FEW: usize = 8;

/// The entries, in the order of their keys in both forms.
#[derive(Drop)]
pub(crate) enum Form<K: Ord, V> {
    /// A few, in a vector.
    Few(Few<K, V>),
    /// Any number.
    Many(BTreeMap<K, V>),
}

impl<K: Ord, V> Form<K, V> {
    ghost use Rattle.xs_maps.specs.Lends.{lends_in_form};

    /// The value at a key, to be changed.
    pub(crate) fn get_mut(&mut self, key: &K) -> Option<&mut V>
        requires { IsOrdered K.cmp (seen self.old) }
        ensures* writes_back { sem 𝓛 (lends_in_form K.row V.row K.Ord self.entry key.now result) }
        ensures value { option_copied_mut result ≡ get K.cmp (seen self.old) key.now }
    {
        match self {
            Form::Few(few) => few.get_mut(key),
            Form::Many(many) => many.get_mut(key),
        }
    }

    /// The value at a key.
    pub(crate) fn get(&self, key: &K) -> Option<&V>
        requires { IsOrdered K.cmp (seen self.now) }
        ensures { option_copied result ≡ get K.cmp (seen self.now) key.now }
    {
        match self {
            Form::Few(few) => few::value_in(&few.entries, key),
            Form::Many(many) => many.get(key),
        }
    }
}

impl<K: Ord, V> Form<K, V> {
    /// The entries of a range.
    pub(crate) fn range<R: RangeBounds<K> + Drop>(&self, range: R) -> Left<'_, K, V>
        requires forward { R.is_forward range (IsLeBy K.cmp) (IsLtBy K.cmp) }
        requires ordered { IsOrdered K.cmp (seen self.now) }
        ensures fits { length (items_left result) < 2 ^ 64 }
        ensures between { R.has_bounds range → items_left result
            ≡ entries_between K.cmp (R.start_bound range) (R.end_bound range) (seen self.now).entries }
    {
        match self {
            Form::Few(few) => Left::Few(few::part(
                few.entries.as_slice(),
                range.start_bound(),
                range.end_bound(),
            )),
            Form::Many(many) => Left::Many(many.range(range)),
        }
    }
}

/// Removes the value at a key from a tree and returns it. An empty tree then takes no memory.
fn remove_many<K: Ord + Drop, V: Drop>(many: &mut BTreeMap<K, V>, key: &K) -> Option<V>
    requires { IsOrdered K.cmp many.old }
    ensures value { result ≡ get K.cmp many.old key.now }
    ensures updates { UpdatesBy K.cmp (K.cmp key.now) many.old many.new None }
    ensures unchanged { IfNone result (IsUnchanged many.old many.new) }
    ensures ordered { IsOrdered K.cmp many.new }
{
    let value = many.remove(key);
    if many.is_empty() {
        many.clear();
    }
    value
}

impl<K: Ord + Drop, V: Drop> Form<K, V> {
    /// Moves the entries to a tree if the vector is full.
    fn make_room(&mut self) -> Result<(), AllocError>
        requires { IsOrdered K.cmp (seen self.old) }
        ensures { (seen self.new).entries ≡ (seen self.old).entries }
    {
        let Form::Few(few) = self else {
            return Ok(());
        };
        if few.entries.len() < FEW {
            return Ok(());
        }
        let tree = few::tree_of(&mut few.entries)?;
        *self = Form::Many(tree);
        Ok(())
    }

    /// Inserts a value at a key, if there is room.
    fn put(&mut self, key: K, value: V) -> Result<(), AllocError>
        requires { IsOrdered K.cmp (seen self.old) }
        ensures updates { OnOk result (Updates K.cmp (seen self.old) (seen self.new) key (Some value)) }
        ensures err { OnErr result (IsUnchanged (seen self.old) (seen self.new)) }
        ensures ordered { IsOrdered K.cmp (seen self.new) }
    {
        match self {
            Form::Few(few) => few::insert_few(&mut few.entries, key, value),
            Form::Many(many) => match many.insert(key, value) {
                Ok(_) => Ok(()),
                Err(_) => Err(AllocError),
            },
        }
    }

    /// Inserts a value at a key.
    pub(crate) fn insert(&mut self, key: K, value: V) -> Result<(), AllocError>
        requires { IsOrdered K.cmp (seen self.old) }
        ensures updates { OnOk result (Updates K.cmp (seen self.old) (seen self.new) key (Some value)) }
        ensures err { OnErr result (IsUnchanged (seen self.old) (seen self.new)) }
        ensures ordered { IsOrdered K.cmp (seen self.new) }
    {
        self.make_room()?;
        self.put(key, value)
    }

    /// Removes the value at a key and returns it. Room that the others don't need is given back.
    pub(crate) fn remove(&mut self, key: &K) -> Option<V>
        requires { IsOrdered K.cmp (seen self.old) }
        ensures value { result ≡ get K.cmp (seen self.old) key.now }
        ensures updates { UpdatesBy K.cmp (K.cmp key.now) (seen self.old) (seen self.new) None }
        ensures unchanged { IfNone result (IsUnchanged (seen self.old) (seen self.new)) }
        ensures ordered { IsOrdered K.cmp (seen self.new) }
    {
        match self {
            Form::Few(few) => few::remove_few(&mut few.entries, key),
            Form::Many(many) => remove_many(many, key),
        }
    }
}
