//! Counts the entries of filed blocks, some blocks at a time.
ghost use Rattle.std.specs.Prelude.{◌≡◌, ◌+◌, ◌<◌, ◌^◌, true, false, [], length};
ghost use Rattle.xs_stream.specs.CountState.{total_of};

use crate::block::Block;
use crate::id::Id;
use std::collections::btree_map;
use std::marker::Model;

/// A count of the entries of adjacent filed blocks.
#[derive(Drop)]
pub(crate) struct BlockCount<'a> {
    /// The blocks whose entries aren't counted yet.
    left: btree_map::Range<'a, Id, Block>,
    /// The number of entries of the others.
    count: usize,
}

impl<'a> Model for BlockCount<'a> {
    ghost use Rattle.xs_stream.specs.CountState.{CountState};

    ghost Value = { CountState };

    ghost view = { λ c. record { count = c.count; left = c.left } };
}

impl<'a> BlockCount<'a> {
    /// A count that hasn't begun: none of these blocks is counted yet.
    pub(crate) fn new(blocks: btree_map::Range<'a, Id, Block>) -> Self
        ensures none { result.count ≡ 0 }
        ensures left { result.left ≡ blocks.entry }
    {
        Self {
            left: blocks,
            count: 0,
        }
    }

    /// The number of entries that were counted.
    pub(crate) fn count(&self) -> usize
        ensures { result ≡ self.now.count }
    {
        self.count
    }

    /// Counts the entries of the next blocks, at most `most` blocks. Returns whether no block is left.
    pub(crate) fn count_next(&mut self, most: usize) -> bool
        requires fits { total_of self.old < 2 ^ 63 }
        ensures counted { total_of self.new ≡ total_of self.old }
        ensures all { result ≡ true → self.new.left ≡ [] }
        ensures most { result ≡ false → length self.new.left + most ≡ length self.old.left }
    {
        for _block in 0..most {
            match self.left.next() {
                Some((_under, block)) => self.count += block.len(),
                None => return true,
            }
        }
        false
    }
}
