//! The entries of a stream, in the order of their ids. Ids only grow, so an addition goes to the end without a search.
ghost use Rattle.std.specs.Prelude.{◌≡◌, ◌+◌, ◌-◌, ◌^◌, ◌<◌, ◌≤◌, ◌++◌, ◌∷◌, [], false};
ghost use Rattle.std.specs.Prelude.{true, not, if◌then◌else◌, IfOk, OnOk, OnErr};
ghost use Rattle.std.specs.Prelude.{length, take, drop, filter, reverse};
ghost use Rattle.std.specs.Map.{lookup_key, remove_entry};
ghost use Rattle.xs_stream.specs.declared.id.Id.{Id};
ghost use Rattle.xs_stream.specs.declared.trim.Trim.TheVariants.{MinId};
ghost use Rattle.xs_stream.specs.Id.{is_below, is_same_id, has_id};
ghost use Rattle.xs_stream.specs.StreamContent.{is_within, ids_of, fields_at, without, entries_after_trim, Ascends};
ghost use Rattle.xs_stream.specs.StreamContent.{AllUpTo, count_above, greatest};
ghost use Rattle.xs_stream.specs.ConsistentStream.{AllIds};
ghost use Rattle.xs_stream.specs.Blocks.{contents, all_of, AreFiled, IsLaidDown, IsMeasured, block_ids};
ghost use Rattle.xs_stream.specs.Blocks.{end_at, HasJoined, place_room, room_of, entries_from};

use crate::block::Block;
use crate::block_count::BlockCount;
use crate::entry::Entry;
use crate::field::Field;
use crate::id::Id;
use crate::lent::LentEntries;
use crate::packed::entry::values_size;
use crate::packed::fields::PackedFields;
use crate::packed::walk::BlockWalk;
use crate::range::Range;
use crate::trim::Trim;
use std::alloc::{AllocError, Global};
use std::collections::BTreeMap;
use std::mem;
use std::ops::Bound;
use xs_bytes::U63;

/// The most entries of a stream, since replies give their number as `U63`.
const MOST_IN_STREAM: usize = U63::MAX as usize;

/// How many blocks are counted at a time on the side of a cursor that has fewer, if ids are spread evenly.
const NEAR_BLOCKS: usize = 8;

/// How many are counted meanwhile on the other side, which has fewer if they aren't.
const FAR_BLOCKS: usize = 1;

/// The bytes that a filed block takes in addition to its own: its place in the tree.
const PLACE_ROOM: u128 = 128;

/// The entries of a stream. An addition goes to the newest ones. Once these fill a block, it is filed under the top
/// that the stream has then: none of its entries is above that id, and all later ones are.
#[derive(Drop)]
pub(crate) struct Entries {
    /// The filed blocks. None of them is empty.
    older: BTreeMap<Id, Block>,
    newest: Block,
    /// The number of entries.
    len: usize,
    /// The number of bytes of the filed blocks. Their sum is below 2^128.
    room: u128,
    alloc: Global,
}

impl Entries {
    /// No entries. It takes no memory.
    pub(crate) fn new(alloc: Global) -> Self
        ensures none { all_of result ≡ [] }
        ensures laid_down { IsLaidDown result }
        ensures filed_under { block_ids result ≡ [] }
    {
        Self {
            older: BTreeMap::new(alloc),
            newest: Block::new(alloc),
            len: 0,
            room: 0,
            alloc,
        }
    }

    /// The number of entries.
    pub(crate) fn len(&self) -> usize
        ensures { result ≡ self.now.len }
    {
        self.len
    }

    /// The number of bytes of the blocks.
    pub(crate) fn room(&self) -> u128
        requires { IsMeasured self.now }
        ensures value { result ≡ room_of self.now }
        ensures small { result < 2 ^ 127 }
    {
        self.room + self.newest.room() as u128
    }

    /// The id under which the only block is filed that may have the entry with this id. None if only the newest may.
    #[inline(always)]
    fn block_of(&self, id: Id) -> Option<Id>
        ensures { result ≡ lookup_key (λ under. not (is_below under id)) (contents self.now.older.entries) }
    {
        let mut from = self.older.range(id..);
        match from.next() {
            Some((under, _)) => Some(*under),
            None => None,
        }
    }

    /// The id under which the first block after this id is filed.
    fn block_after(&self, under: Id) -> Option<Id>
        ensures { result ≡ lookup_key (λ other. is_below under other) (contents self.now.older.entries) }
    {
        let mut from = self.older.range((Bound::Excluded(under), Bound::Unbounded));
        match from.next() {
            Some((other, _)) => Some(*other),
            None => None,
        }
    }

    /// The id under which the last block before this id is filed.
    fn block_before(&self, under: Id) -> Option<Id> {
        let mut to = self.older.range((Bound::Unbounded, Bound::Excluded(under)));
        match to.next_back() {
            Some((other, _)) => Some(*other),
            None => None,
        }
    }

    /// The fields of an entry.
    pub(crate) fn get(&self, id: Id) -> Option<PackedFields<'_>>
        requires { IsLaidDown self.now }
        ensures { result ≡ fields_at (all_of self.now) id }
    {
        let mut from = self.older.range(id..);
        match from.next() {
            Some((_, block)) => block.get(id),
            None => self.newest.get(id),
        }
    }

    /// All entries, lent one by one.
    pub(crate) fn iter(&self) -> LentEntries<'_>
        requires { IsLaidDown self.now }
        ensures { result ≡ all_of self.now }
    {
        LentEntries {
            block: BlockWalk::over_nothing(),
            older: self.older.iter(),
            newest: self.newest.walk(),
        }
    }

    /// Files the newest entries as a block under the top, if another one, whose values take `values` bytes, doesn't
    /// belong to them.
    fn make_room(&mut self, top: Id, values: u64) -> Result<(), AllocError>
        requires laid_down { IsLaidDown self.old }
        requires up_to_top { AllUpTo top (ids_of (all_of self.old)) }
        requires filed_up_to_top { AllUpTo top (block_ids self.old) }
        ensures room { OnOk result (length self.new.newest.entries < 128) }
        ensures same { all_of self.new ≡ all_of self.old }
        ensures laid_down { IsLaidDown self.new }
        ensures filed_up_to_top { AllUpTo top (block_ids self.new) }
    {
        if self.newest.has_room(values) {
            return Ok(());
        }
        let mut full = mem::replace(&mut self.newest, Block::with_room(self.alloc));
        full.seal();
        let room = full.room();
        match self.older.insert(top, full) {
            Ok(_) => {
                self.room += room as u128 + PLACE_ROOM;
                Ok(())
            }
            Err(refused) => {
                let (_, full) = refused.value;
                self.newest = full;
                Err(AllocError)
            }
        }
    }

    /// Appends an entry above the top.
    pub(crate) fn push(&mut self, top: Id, id: Id, fields: &[Field]) -> Result<(), AllocError>
        requires laid_down { IsLaidDown self.old }
        requires up_to_top { AllUpTo top (ids_of (all_of self.old)) }
        requires filed_up_to_top { AllUpTo top (block_ids self.old) }
        requires above { is_below top id ≡ true }
        ensures ok { OnOk result (all_of self.new ≡ all_of self.old ++ (id, fields.now) ∷ []) }
        ensures err { OnErr result (all_of self.new ≡ all_of self.old) }
        ensures laid_down { IsLaidDown self.new }
        ensures filed_up_to_top { AllUpTo top (block_ids self.new) }
    {
        if self.len >= MOST_IN_STREAM {
            return Err(AllocError);
        }
        let Some(values) = values_size(fields) else {
            return Err(AllocError);
        };
        self.make_room(top, values)?;
        self.newest.push(id, values, fields)?;
        self.len += 1;
        Ok(())
    }

    /// Removes the block under this id.
    fn remove_block(&mut self, under: Id)
        requires measured { IsMeasured self.old }
        ensures blocks { self.new.older.entries ≡ remove_entry (is_same_id under) self.old.older.entries }
        ensures measured { IsMeasured self.new }
        ensures newest { self.new.newest ≡ self.old.newest }
        ensures len { self.new.len ≡ self.old.len }
    {
        if let Some(block) = self.older.remove(&under) {
            self.room -= block.room() as u128 + PLACE_ROOM;
        }
    }

    /// Puts the entries of a block in front of those of the block under this id, if both fit into the memory of the
    /// first one. Returns whether it did.
    fn join_into(&mut self, next: Id, front: &mut Block) -> bool
        requires some { 0 < length front.old.entries }
        requires measured { IsMeasured self.old }
        ensures joined { result ≡ true → HasJoined next front.old.entries (contents self.old.older.entries)
            (contents self.new.older.entries) }
        ensures refused { result ≡ false → (contents self.new.older.entries ≡ contents self.old.older.entries)
            × (front.new.entries ≡ front.old.entries) }
        ensures measured { IsMeasured self.new }
        ensures newest { self.new.newest ≡ self.old.newest }
        ensures len { self.new.len ≡ self.old.len }
    {
        let Some(block) = self.older.get_mut(&next) else {
            return false;
        };
        if !front.take_in(block) {
            return false;
        }
        self.room = sum_after(self.room, block.room(), front.room());
        mem::swap(front, block);
        true
    }

    /// Joins the block under this id with the one after it, if both fit into the memory of the first one.
    fn join_next(&mut self, under: Id)
        requires filed { AreFiled (contents self.old.older.entries) self.old.newest.entries }
        requires measured { IsMeasured self.old }
        ensures same { all_of self.new ≡ all_of self.old }
        ensures filed { AreFiled (contents self.new.older.entries) self.new.newest.entries }
        ensures measured { IsMeasured self.new }
        ensures filed_up_to_top { (top : Id) → AllUpTo top (block_ids self.old) → AllUpTo top (block_ids self.new) }
        ensures len { self.new.len ≡ self.old.len }
    {
        let Some(next) = self.block_after(under) else {
            return;
        };
        let Some(block) = self.older.get_mut(&under) else {
            return;
        };
        let mut front = mem::replace(block, Block::new(self.alloc));
        self.room = sum_after(self.room, front.room(), block.room());
        if self.join_into(next, &mut front) {
            self.remove_block(under);
            return;
        }
        if let Some(block) = self.older.get_mut(&under) {
            self.room = sum_after(self.room, block.room(), front.room());
            *block = front;
        }
    }

    /// Joins the block under this id with the one after it, and the one before it with what follows that, if they fit.
    fn join_around(&mut self, under: Id)
        requires filed { AreFiled (contents self.old.older.entries) self.old.newest.entries }
        requires measured { IsMeasured self.old }
        ensures same { all_of self.new ≡ all_of self.old }
        ensures filed { AreFiled (contents self.new.older.entries) self.new.newest.entries }
        ensures measured { IsMeasured self.new }
        ensures filed_up_to_top { (top : Id) → AllUpTo top (block_ids self.old) → AllUpTo top (block_ids self.new) }
        ensures len { self.new.len ≡ self.old.len }
    {
        self.join_next(under);
        if let Some(before) = self.block_before(under) {
            self.join_next(before);
        }
    }

    /// Joins the block under this id with those around it, if they fit, and gives back the memory that isn't needed.
    fn tighten(&mut self, under: Id)
        requires filed { AreFiled (contents self.old.older.entries) self.old.newest.entries }
        requires measured { IsMeasured self.old }
        ensures same { all_of self.new ≡ all_of self.old }
        ensures filed { AreFiled (contents self.new.older.entries) self.new.newest.entries }
        ensures measured { IsMeasured self.new }
        ensures filed_up_to_top { (top : Id) → AllUpTo top (block_ids self.old) → AllUpTo top (block_ids self.new) }
        ensures len { self.new.len ≡ self.old.len }
    {
        self.join_around(under);
        self.seal(under);
    }

    /// Gives back the memory that no entry of the block under this id takes.
    fn seal(&mut self, under: Id)
        requires measured { IsMeasured self.old }
        ensures blocks { contents self.new.older.entries ≡ contents self.old.older.entries }
        ensures measured { IsMeasured self.new }
        ensures newest { self.new.newest ≡ self.old.newest }
        ensures len { self.new.len ≡ self.old.len }
    {
        if let Some(block) = self.older.get_mut(&under) {
            let before = block.room();
            block.seal();
            self.room = sum_after(self.room, before, block.room());
        }
    }

    /// Removes an entry from the block under this id. Returns whether it was there, and whether the block is sparse
    /// now. The number of entries isn't changed.
    fn take_from(&mut self, under: Id, id: Id) -> (bool, bool)
        requires filed { AreFiled (contents self.old.older.entries) self.old.newest.entries }
        requires measured { IsMeasured self.old }
        requires under { lookup_key (λ under. not (is_below under id)) (contents self.old.older.entries) ≡ Some under }
        ensures entries { all_of self.new ≡ remove_entry (is_same_id id) (all_of self.old) }
        ensures filed { AreFiled (contents self.new.older.entries) self.new.newest.entries }
        ensures measured { IsMeasured self.new }
        ensures filed_up_to_top { (top : Id) → AllUpTo top (block_ids self.old) → AllUpTo top (block_ids self.new) }
        ensures count { length (all_of self.new) + (if result.0 then 1 else 0) ≡ length (all_of self.old) }
        ensures len { self.new.len ≡ self.old.len }
    {
        let Some(block) = self.older.get_mut(&under) else {
            return (false, false);
        };
        let before = block.room();
        let removed = block.remove(id);
        let is_sparse = block.is_sparse();
        self.room = sum_after(self.room, before, block.room());
        if block.is_empty() {
            self.remove_block(under);
        }
        (removed, is_sparse)
    }

    /// Removes the entry with this id. Returns whether it was there. The number of entries isn't changed.
    fn take(&mut self, id: Id) -> bool
        requires filed { AreFiled (contents self.old.older.entries) self.old.newest.entries }
        requires measured { IsMeasured self.old }
        ensures entries { all_of self.new ≡ remove_entry (is_same_id id) (all_of self.old) }
        ensures filed { AreFiled (contents self.new.older.entries) self.new.newest.entries }
        ensures measured { IsMeasured self.new }
        ensures filed_up_to_top { (top : Id) → AllUpTo top (block_ids self.old) → AllUpTo top (block_ids self.new) }
        ensures count { length (all_of self.new) + (if result then 1 else 0) ≡ length (all_of self.old) }
        ensures len { self.new.len ≡ self.old.len }
    {
        match self.block_of(id) {
            Some(under) => {
                let (removed, is_sparse) = self.take_from(under, id);
                if is_sparse {
                    self.tighten(under);
                }
                removed
            }
            None => self.newest.remove_alone(id),
        }
    }

    /// Removes the entry with this id, and returns whether it was there.
    fn remove(&mut self, id: Id) -> bool
        requires { IsLaidDown self.old }
        ensures there { result ≡ has_id (ids_of (all_of self.old)) id }
        ensures entries { all_of self.new ≡ remove_entry (is_same_id id) (all_of self.old) }
        ensures laid_down { IsLaidDown self.new }
        ensures filed_up_to_top { (top : Id) → AllUpTo top (block_ids self.old) → AllUpTo top (block_ids self.new) }
    {
        let there = self.take(id);
        if there {
            self.len -= 1;
        }
        there
    }

    /// Removes the entries with these ids. Returns the greatest of them and of another id.
    pub(crate) fn remove_all(&mut self, ids: &[Id], other: Id) -> Id
        requires laid_down { IsLaidDown self.old }
        requires ascends { Ascends (ids_of (all_of self.old)) }
        ensures entries { all_of self.new ≡ without ids.now (all_of self.old) }
        ensures greatest { result ≡ greatest other (filter (has_id ids.now) (ids_of (all_of self.old))) }
        ensures laid_down { IsLaidDown self.new }
        ensures filed_up_to_top { (top : Id) → AllUpTo top (block_ids self.old) → AllUpTo top (block_ids self.new) }
    {
        let mut greatest = other;
        for id in ids {
            if self.remove(*id) && greatest < *id {
                greatest = *id;
            }
        }
        greatest
    }

    /// Removes the first entries, at most `count`, from the first block. Returns how many are left to remove.
    fn drop_step(&mut self, count: usize) -> usize
        requires some { 0 < count }
        requires laid_down { IsLaidDown self.old }
        ensures entries { drop result (all_of self.new) ≡ drop count (all_of self.old) }
        ensures laid_down { IsLaidDown self.new }
        ensures filed_up_to_top { (top : Id) → AllUpTo top (block_ids self.old) → AllUpTo top (block_ids self.new) }
        ensures fewer { result + length self.new.older.entries < count + length self.old.older.entries }
    {
        let Some((under, block)) = self.older.first_key_value() else {
            self.newest.drop_first(count);
            self.len = self.newest.len();
            return 0;
        };
        let under = *under;
        let len = block.len();
        let room = block.room();
        if len <= count {
            let _ = self.older.pop_first();
            self.len -= len;
            self.room -= room as u128 + PLACE_ROOM;
            return count - len;
        }
        let Some(block) = self.older.get_mut(&under) else {
            return 0;
        };
        block.drop_first(count);
        self.len -= count;
        self.room = sum_after(self.room, room, block.room());
        0
    }

    /// Removes the first entries.
    fn drop_first(&mut self, count: usize)
        requires { IsLaidDown self.old }
        ensures entries { all_of self.new ≡ drop count (all_of self.old) }
        ensures laid_down { IsLaidDown self.new }
        ensures filed_up_to_top { (top : Id) → AllUpTo top (block_ids self.old) → AllUpTo top (block_ids self.new) }
    {
        let mut left = count;
        while left > 0 {
            left = self.drop_step(left);
        }
    }

    /// Removes the first block if it is filed under an id below this one. Returns whether it did.
    fn drop_block_below(&mut self, low: Id) -> bool
        requires laid_down { IsLaidDown self.old }
        requires ascends { Ascends (ids_of (all_of self.old)) }
        ensures kept { entries_after_trim (MinId low) (all_of self.new)
            ≡ entries_after_trim (MinId low) (all_of self.old) }
        ensures ascends { Ascends (ids_of (all_of self.new)) }
        ensures laid_down { IsLaidDown self.new }
        ensures filed_up_to_top { (top : Id) → AllUpTo top (block_ids self.old) → AllUpTo top (block_ids self.new) }
        ensures fewer { result ≡ true → length self.new.older.entries < length self.old.older.entries }
    {
        let Some((under, block)) = self.older.first_key_value() else {
            return false;
        };
        if low <= *under {
            return false;
        }
        let len = block.len();
        let room = block.room();
        let _ = self.older.pop_first();
        self.len -= len;
        self.room -= room as u128 + PLACE_ROOM;
        true
    }

    /// The number of entries with ids below this one, without those in blocks filed below it: only the first of the
    /// other blocks may have any.
    fn count_beside(&self, low: Id) -> usize
        requires { IsLaidDown self.now }
        ensures { result ≡ length (filter (λ e. is_below e.0 low) (entries_from low self.now)) }
    {
        match self.older.range(low..).next() {
            Some((_, block)) => block.count_below(low),
            None => self.newest.count_below(low),
        }
    }

    /// The number of entries with ids below this one.
    fn count_below(&self, low: Id) -> usize
        requires { IsLaidDown self.now }
        ensures { result ≡ length (filter (λ e. is_below e.0 low) (all_of self.now)) }
    {
        let mut count = self.count_beside(low);
        let blocks = self.older.range((Bound::Unbounded, Bound::Excluded(low)));
        for (_under, block) in blocks {
            count += block.len();
        }
        count
    }

    /// Removes the entries with ids below this one.
    fn drop_below(&mut self, low: Id)
        requires laid_down { IsLaidDown self.old }
        requires ascends { Ascends (ids_of (all_of self.old)) }
        ensures entries { all_of self.new ≡ entries_after_trim (MinId low) (all_of self.old) }
        ensures laid_down { IsLaidDown self.new }
        ensures filed_up_to_top { (top : Id) → AllUpTo top (block_ids self.old) → AllUpTo top (block_ids self.new) }
    {
        while self.drop_block_below(low) {}
        let count = self.count_below(low);
        self.drop_first(count);
    }

    /// Removes what a trim doesn't keep.
    pub(crate) fn trim(&mut self, trim: Trim)
        requires laid_down { IsLaidDown self.old }
        requires ascends { Ascends (ids_of (all_of self.old)) }
        ensures entries { all_of self.new ≡ entries_after_trim trim (all_of self.old) }
        ensures laid_down { IsLaidDown self.new }
        ensures filed_up_to_top { (top : Id) → AllUpTo top (block_ids self.old) → AllUpTo top (block_ids self.new) }
    {
        match trim {
            Trim::MaxLen(most) => self.drop_first(surplus(self.len, most)),
            Trim::MinId(low) => self.drop_below(low),
        }
    }

    /// The end of the blocks that may have ids that aren't above this one. A walk down begins there.
    fn end_at(&self, high: Id) -> Bound<Id>
        ensures { result ≡ end_at high (contents self.now.older.entries) }
    {
        match self.block_of(high) {
            Some(under) => Bound::Included(under),
            None => Bound::Unbounded,
        }
    }

    /// The entries of a range, from its low end up, at most this many.
    pub(crate) fn entries_up(
        &self,
        alloc: Global,
        range: Range,
        most: u64,
    ) -> Result<Vec<Entry<'_>>, AllocError>
        requires { IsLaidDown self.now }
        ensures { IfOk result (λ shown. shown.items ≡ take most (filter (λ e. is_within range e.0) (all_of self.now))) }
    {
        let mut shown = Vec::new(alloc);
        let blocks = self.older.range(range.low..);
        for (under, block) in blocks {
            block.push_entries_up(&mut shown, range, most)?;
            if range.high <= *under || shown.len() as u64 >= most {
                return Ok(shown);
            }
        }
        self.newest.push_entries_up(&mut shown, range, most)?;
        Ok(shown)
    }

    /// Whether an id is nearer to those of the first blocks than to those of the last ones, so that fewer blocks are
    /// below it than above it if ids are spread evenly.
    fn is_nearer_first(&self, id: Id) -> bool {
        match (self.older.first_key_value(), self.older.last_key_value()) {
            (Some((first, _)), Some((last, _))) => {
                id.rank() < first.rank() / 2 + last.rank() / 2
            }
            _ => false,
        }
    }

    /// The number of entries with ids above a cursor. The blocks on both sides of it are counted alternately, until one
    /// side has no more: more of them at a time on the side that has fewer if ids are spread evenly.
    pub(crate) fn count_past(&self, cursor: Id) -> usize
        requires laid_down { IsLaidDown self.now }
        requires ids { AllIds (ids_of (all_of self.now)) }
        ensures { result ≡ count_above cursor (ids_of (all_of self.now)) }
    {
        let Some(low) = cursor.next() else {
            return 0;
        };
        let (up, down) = if self.is_nearer_first(low) {
            (FAR_BLOCKS, NEAR_BLOCKS)
        } else {
            (NEAR_BLOCKS, FAR_BLOCKS)
        };
        let beside = self.count_beside(low);
        let mut above = BlockCount::new(self.older.range(low..));
        let mut below = BlockCount::new(self.older.range((Bound::Unbounded, Bound::Excluded(low))));
        while !above.count_next(up) {
            if below.count_next(down) {
                return self.len - (below.count() + beside);
            }
        }
        above.count() + self.newest.len() - beside
    }

    /// The entries of a range that isn't empty, from its high end down, at most this many.
    pub(crate) fn entries_down(
        &self,
        alloc: Global,
        range: Range,
        most: u64,
    ) -> Result<Vec<Entry<'_>>, AllocError>
        requires laid_down { IsLaidDown self.now }
        requires range { is_below range.high range.low ≡ false }
        ensures { IfOk result (λ shown. shown.items
            ≡ take most (reverse (filter (λ e. is_within range e.0) (all_of self.now)))) }
    {
        let mut shown = Vec::new(alloc);
        self.newest.push_entries_down(&mut shown, range, most)?;
        let bounds = (Bound::Included(range.low), self.end_at(range.high));
        let blocks = self.older.range(bounds);
        for (_under, block) in blocks.rev() {
            if shown.len() as u64 >= most {
                break;
            }
            block.push_entries_down(&mut shown, range, most)?;
        }
        Ok(shown)
    }
}

/// The number of entries beyond the most that may stay.
fn surplus(len: usize, most: u64) -> usize
    ensures { result ≡ len - most }
{
    if (len as u64) < most {
        return 0;
    }
    len - most as usize
}

/// A sum in which one part is replaced.
fn sum_after(sum: u128, before: usize, after: usize) -> u128
    requires part { before ≤ sum }
    requires fits { sum + after < 2 ^ 128 }
    ensures { result + before ≡ sum + after }
{
    sum - before as u128 + after as u128
}
