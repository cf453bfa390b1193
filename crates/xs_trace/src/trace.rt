//! A list that only contracts read.
ghost use Rattle.std.specs.Prelude.{◌≡◌, [], ◌∷◌, ◌++◌};

use crate::link::Link;
use std::marker::Model;
use std::snapshot::Snapshot;

/// A list of values as contracts see it: it stores none of them, and takes one byte of memory. So a contract can refer
/// to what a value was given, after that is dropped.
#[derive(Drop)]
#[cycle(trace)]
pub struct Trace<T> {
    last: Link<T, Trace<T>>,
}

impl<T> Model for Trace<T> {
    ghost use Rattle.std.specs.Prelude.{List, length};

    ghost Value = { List T };

    ghost use Rattle.xs_trace.specs.Items.{items_of};

    ghost view = { λ t. items_of t.last };

    ghost size = { length };

    ghost use Rattle.std.proofs.Common.{arith, length-append};

    ghost size_decreases = { λ a h. Prim.grind (arith, length-append) };
}

impl<T> Trace<T> {
    /// An empty trace.
    pub fn new() -> Self
        ensures { result ≡ [] }
    {
        Self { last: Link::First }
    }

    /// Appends an item.
    pub fn add(&mut self, item: &T)
        ensures { self.new ≡ self.old ++ item.now ∷ [] }
    {
        let before = Snapshot::of(self);
        self.last = Link::Next(before, Snapshot::of(item));
    }

    /// Appends items, in their order.
    pub fn add_all(&mut self, items: &[T])
        ensures { self.new ≡ self.old ++ items.now }
    {
        for item in items {
            self.add(item);
        }
    }
}
