//! The entries of a stream, lent one by one.
ghost use Rattle.std.specs.Iterator.{YieldsFirst, item_count};

use crate::block::Block;
use crate::entry::Entry;
use crate::id::Id;
use crate::packed::walk::BlockWalk;
use std::collections::btree_map;
use std::marker::Model;

/// The entries of a stream, in the order of their ids. They are lent one by one, and none is copied. A contract sees
/// the list of those that are left.
#[derive(Drop)]
pub struct LentEntries<'a> {
    /// What is left of the block where the walk is.
    pub(crate) block: BlockWalk<'a>,
    /// The filed blocks after it.
    pub(crate) older: btree_map::Iter<'a, Id, Block>,
    /// The newest entries, after all of them.
    pub(crate) newest: BlockWalk<'a>,
}

impl<'a> Model for LentEntries<'a> {
    ghost use Rattle.std.specs.Prelude.{List};
    ghost use Rattle.xs_stream.specs.declared.id.Id.{Id};
    ghost use Rattle.xs_stream.specs.declared.field.Field.{Field};
    ghost use Rattle.xs_stream.specs.Walk.{entries_ahead, AreFilled};

    ghost Value = { List (Id × List Field) };

    ghost view = { λ w. entries_ahead w.block w.older w.newest };

    ghost invariant = { λ w. AreFilled w.older };
}

impl<'a> Iterator for LentEntries<'a> {
    type Item = Entry<'a>;

    ghost next_gives = { YieldsFirst (λ s. s) };

    ghost remaining = { item_count (λ s. s) };

    fn next(&mut self) -> Option<Entry<'a>> {
        if let Some(entry) = self.block.next() {
            return Some(entry);
        }
        let Some((_, block)) = self.older.next() else {
            return self.newest.next();
        };
        self.block = block.walk();
        self.block.next()
    }
}
