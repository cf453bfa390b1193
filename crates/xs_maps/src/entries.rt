//! The entries of a map, lent one by one.
ghost use Rattle.std.specs.Prelude.{◌≡◌, length};
ghost use Rattle.std.specs.Iterator.{at_most};
ghost use Rattle.std.specs.Map.{keys_of};
ghost use Rattle.std.specs.Map.Iter.{TakesFirst, deref, deref_pair};
ghost use Rattle.xs_maps.specs.Left.{items_left};

use std::collections::btree_map::Range;
use std::marker::Model;

/// The entries that are left, in a vector or a tree.
#[derive(Drop)]
pub(crate) enum Left<'a, K, V> {
    Few(&'a [(K, V)]),
    Many(Range<'a, K, V>),
}

/// Entries in the order of their keys. A contract sees the list of those that are left.
#[derive(Drop)]
pub struct Entries<'a, K, V> {
    rest: Left<'a, K, V>,
}

impl<'a, K, V> Model for Entries<'a, K, V> {
    ghost use Rattle.std.specs.Prelude.{List};
    ghost use Rattle.xs_maps.specs.Left.{items_left};

    ghost Value = { List (K × V) };

    ghost view = { λ e. items_left e.rest };
}

impl<'a, K, V> Entries<'a, K, V> {
    pub(crate) fn new(entries: Left<'a, K, V>) -> Self
        ensures { result ≡ items_left entries.entry }
    {
        Self { rest: entries }
    }
}

impl<'a, K, V> Left<'a, K, V> {
    fn next(&mut self) -> Option<(&'a K, &'a V)>
        ensures { TakesFirst deref_pair (items_left self.old) result (items_left self.new) }
    {
        match self {
            Left::Few(few) => {
                let Some((first, rest)) = few.split_first() else {
                    return None;
                };
                *few = rest;
                Some((&first.0, &first.1))
            }
            Left::Many(many) => many.next(),
        }
    }
}

impl<'a, K, V> Iterator for Entries<'a, K, V> {
    type Item = (&'a K, &'a V);

    ghost next_gives = { TakesFirst deref_pair };

    ghost remaining = { λ s. at_most (length s) };

    fn next(&mut self) -> Option<(&'a K, &'a V)> {
        self.rest.next()
    }
}

/// The keys of entries, in their order. A contract sees the list of those that are left.
#[derive(Drop)]
pub struct Keys<'a, K> {
    entries: Entries<'a, K, ()>,
}

impl<'a, K> Model for Keys<'a, K> {
    ghost use Rattle.std.specs.Prelude.{List};
    ghost use Rattle.std.specs.Map.{keys_of};

    ghost Value = { List K };

    ghost view = { λ k. keys_of k.entries };
}

impl<'a, K> Keys<'a, K> {
    pub(crate) fn new(entries: Entries<'a, K, ()>) -> Self
        ensures { result ≡ keys_of entries.entry }
    {
        Self { entries }
    }
}

impl<'a, K> Iterator for Keys<'a, K> {
    type Item = &'a K;

    ghost next_gives = { TakesFirst deref };

    ghost remaining = { λ s. at_most (length s) };

    fn next(&mut self) -> Option<&'a K> {
        match self.entries.next() {
            Some((key, _)) => Some(key),
            None => None,
        }
    }
}
