//! The consumers and the pending rows of a group, lent one by one.
ghost use Rattle.std.specs.Prelude.{◌≡◌, length, map};
ghost use Rattle.std.specs.Iterator.{YieldsFirst, item_count, at_most};
ghost use Rattle.std.specs.Map.Iter.{TakesFirst};

use crate::consumer_index::Owner;
use crate::delivery::Touch;
use crate::pending_entry::PendingEntry;
use std::marker::Model;
use xs_bytes::Bytes;
use xs_maps::Entries;
use xs_stream::{Id, Moment};

/// The consumers of a group in the order of their names, each with its moment. They are lent one by one. A contract
/// sees the list of those that are left.
#[derive(Drop)]
pub struct LentConsumers<'a> {
    owners: Entries<'a, Bytes, Owner>,
}

impl<'a> Model for LentConsumers<'a> {
    ghost use Rattle.std.specs.Prelude.{List, ℕ, map};

    ghost Value = { List (List ℕ × ℕ) };

    ghost view = { λ c. map (λ e. (e.0, e.1.seen)) c.owners };
}

impl<'a> LentConsumers<'a> {
    pub(crate) fn new(owners: Entries<'a, Bytes, Owner>) -> Self
        ensures { result ≡ map (λ e. (e.0, e.1.seen)) owners.entry }
    {
        Self { owners }
    }
}

impl<'a> Iterator for LentConsumers<'a> {
    type Item = (&'a Bytes, Moment);

    ghost next_gives = { TakesFirst (λ c. (c.0.now, c.1)) };

    ghost remaining = { λ s. at_most (length s) };

    fn next(&mut self) -> Option<(&'a Bytes, Moment)> {
        match self.owners.next() {
            Some((name, owner)) => Some((name, owner.seen)),
            None => None,
        }
    }
}

/// A pending row, lent by its group: the entry's id, and its row. A contract sees the pair.
#[derive(Drop)]
pub struct LentRow<'a> {
    id: Id,
    entry: &'a PendingEntry,
}

impl<'a> Model for LentRow<'a> {
    ghost use Rattle.xs_stream.specs.declared.id.Id.{Id};
    ghost use Rattle.xs_group.specs.GroupState.{RowState};

    ghost Value = { Id × RowState };

    ghost view = { λ r. (r.id, r.entry.now) };
}

impl<'a> LentRow<'a> {
    /// The id of the entry.
    pub fn id(&self) -> Id
        ensures { result ≡ self.now.0 }
    {
        self.id
    }

    /// The consumer that has it.
    pub fn consumer(&self) -> &'a Bytes
        ensures { result.now ≡ self.now.1.consumer }
    {
        self.entry.consumer()
    }

    /// When it was last delivered, and how often.
    pub fn touch(&self) -> Touch
        ensures { result ≡ record { time = self.now.1.time; count = self.now.1.count } }
    {
        self.entry.touch()
    }
}

/// The pending rows of a group in the order of their ids. They are lent one by one. A contract sees the list of those
/// that are left.
#[derive(Drop)]
pub struct LentRows<'a> {
    rows: Entries<'a, Id, PendingEntry>,
}

impl<'a> Model for LentRows<'a> {
    ghost use Rattle.std.specs.Prelude.{List};
    ghost use Rattle.xs_stream.specs.declared.id.Id.{Id};
    ghost use Rattle.xs_group.specs.GroupState.{RowState};

    ghost Value = { List (Id × RowState) };

    ghost view = { λ r. r.rows };
}

impl<'a> LentRows<'a> {
    pub(crate) fn new(rows: Entries<'a, Id, PendingEntry>) -> Self
        ensures { result ≡ rows.entry }
    {
        Self { rows }
    }
}

impl<'a> Iterator for LentRows<'a> {
    type Item = LentRow<'a>;

    ghost next_gives = { YieldsFirst (λ s. s) };

    ghost remaining = { item_count (λ s. s) };

    fn next(&mut self) -> Option<LentRow<'a>> {
        match self.rows.next() {
            Some((id, entry)) => Some(LentRow { id: *id, entry }),
            None => None,
        }
    }
}
