//! Maps by names.
ghost use Rattle.std.specs.Prelude.{◌≡◌, ◌<◌, ◌^◌, ◌++◌, ◌∷◌, [], length, true, false, IfOk, OnOk, OnErr};
ghost use Rattle.std.specs.Borrow.{sem};
ghost use Rattle.std.specs.Option.{option_copied, option_copied_mut};
ghost use Rattle.xs_bytes.specs.SortedMap.{empty, get, has_key, insert, remove};
ghost use Rattle.xs_keys.specs.NextName.{is_past_names};

use std::alloc::{AllocError, Global};
use std::marker::Model;
use xs_bytes::Bytes;
use xs_maps::{Entries, SmallMap};

/// Values by names, in the order of the names' bytes. A contract sees a sorted map.
#[derive(Drop)]
pub struct NameMap<V> {
    entries: SmallMap<Bytes, V>,
}

impl<V> Model for NameMap<V> {
    ghost use Rattle.std.specs.Coded.{coded_list, coded_ℕ};
    ghost use Rattle.xs_bytes.specs.MapCode.{coded_map};
    ghost use Rattle.xs_bytes.specs.MapOf.{from_entries};
    ghost use Rattle.xs_bytes.specs.SortedMap.{NameMap as Seen};

    ghost Value = { Seen V };

    ghost coded = { coded_map (coded_list coded_ℕ) V.code };

    ghost view = { λ m. from_entries m.entries.entries };
}

impl<V> NameMap<V> {
    ghost use Rattle.xs_keys.specs.LentValue.{lends_named_value};

    /// The empty map. It takes no memory.
    pub fn new(alloc: Global) -> Self
        ensures { result ≡ empty }
    {
        Self {
            entries: SmallMap::new(alloc),
        }
    }

    /// The value at a name.
    pub fn get(&self, name: &Bytes) -> Option<&V>
        ensures { option_copied result ≡ get self.now name.now }
    {
        self.entries.get(name)
    }

    /// The value at a name, to be changed.
    pub fn get_mut(&mut self, name: &Bytes) -> Option<&mut V>
        ensures* writes_back { sem 𝓛 (lends_named_value V.row self.entry name.now result) }
        ensures value { option_copied_mut result ≡ get self.old name.now }
    {
        self.entries.get_mut(name)
    }

    /// The number of names.
    pub fn len(&self) -> usize
        ensures value { result ≡ length self.now.entries }
        ensures small { result < 2 ^ 63 }
    {
        self.entries.len()
    }

    /// The names with their values, in the order of the names' bytes.
    pub fn iter(&self) -> Entries<'_, Bytes, V>
        ensures { result ≡ self.now.entries }
    {
        self.entries.iter()
    }

    /// Whether the name has a value.
    pub fn contains_key(&self, name: &Bytes) -> bool
        ensures { result ≡ has_key self.now name.now }
    {
        self.entries.contains_key(name)
    }

    /// Whether a name is above those of all entries.
    pub fn is_past(&self, name: &Bytes) -> bool
        ensures { result ≡ is_past_names name.now self.now }
    {
        if self.entries.len() == 0 {
            return true;
        }
        match self.entries.last() {
            Some((last, _)) => last < name,
            None => true,
        }
    }
}

impl<V: Drop> NameMap<V> {
    /// Inserts a value at a name.
    pub fn insert(&mut self, name: Bytes, value: V) -> Result<(), AllocError>
        ensures ok { OnOk result (self.new ≡ insert self.old name value) }
        ensures err { OnErr result (self.new ≡ self.old) }
    {
        self.entries.insert(name, value)
    }

    /// Appends a value after the others. Returns whether it did. It refuses, and changes nothing, if the name isn't
    /// above those of all entries.
    pub fn push(&mut self, name: Bytes, value: V) -> Result<bool, AllocError>
        ensures next { IfOk result (λ put. put ≡ is_past_names name self.old) }
        ensures ok { IfOk result (λ put. put ≡ true → self.new ≡ insert self.old name value) }
        ensures behind { IfOk result (λ put. put ≡ true →
            self.new.entries ≡ self.old.entries ++ (name, value) ∷ []) }
        ensures refused { IfOk result (λ put. put ≡ false → self.new ≡ self.old) }
        ensures err { OnErr result (self.new ≡ self.old) }
    {
        if !self.is_past(&name) {
            return Ok(false);
        }
        self.insert(name, value)?;
        Ok(true)
    }

    /// Removes the value at a name and returns it.
    pub fn remove(&mut self, name: &Bytes) -> Option<V>
        ensures value { result ≡ get self.old name.now }
        ensures map { self.new ≡ remove self.old name.now }
    {
        self.entries.remove(name)
    }
}
