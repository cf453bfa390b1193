//! A walk over the entries of a block, one by one.
ghost use Rattle.std.specs.Prelude.{◌≡◌, []};
ghost use Rattle.std.specs.Iterator.{YieldsFirst, item_count};

use crate::entry::Entry;
use crate::packed::entry::read_entry;
use crate::packed::fields::PackedFields;
use std::marker::Model;

/// The entries of a block that are ahead of a walk, one after the other. A contract sees the list of them.
#[derive(Drop)]
pub(crate) struct BlockWalk<'a> {
    /// The milliseconds over which they are packed.
    pub(crate) base: u64,
    /// The number of entries.
    pub(crate) left: usize,
    /// The names that the block has once.
    pub(crate) names: &'a [u8],
    /// The entries.
    pub(crate) rest: &'a [u8],
}

impl<'a> Model for BlockWalk<'a> {
    ghost use Rattle.std.specs.Prelude.{List};
    ghost use Rattle.xs_stream.specs.declared.id.Id.{Id};
    ghost use Rattle.xs_stream.specs.declared.field.Field.{Field};
    ghost use Rattle.xs_stream.specs.Packed.{packed_entries};

    ghost Value = { List (Id × List Field) };

    ghost view = { λ w. packed_entries w.base w.names.now w.left w.rest.now };
}

impl<'a> BlockWalk<'a> {
    /// A walk with no entries ahead.
    pub(crate) fn over_nothing() -> Self
        ensures { result ≡ [] }
    {
        BlockWalk {
            base: 0,
            left: 0,
            names: &[],
            rest: &[],
        }
    }
}

impl<'a> Iterator for BlockWalk<'a> {
    type Item = Entry<'a>;

    ghost next_gives = { YieldsFirst (λ s. s) };

    ghost remaining = { item_count (λ s. s) };

    fn next(&mut self) -> Option<Entry<'a>> {
        if self.left == 0 {
            return None;
        }
        let entry = read_entry(self.base, self.rest);
        self.left -= 1;
        self.rest = entry.rest;
        Some(Entry::new(entry.id, PackedFields::new(self.names, entry.body)))
    }
}
