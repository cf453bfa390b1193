//! A block: adjacent entries of a stream, packed into bytes.
ghost use Rattle.std.specs.Prelude.{◌≡◌, ◌+◌, ◌-◌, ◌^◌, ◌<◌, ◌≤◌, ◌==◌, ◌++◌, ◌∷◌, []};
ghost use Rattle.std.specs.Prelude.{true, false, if◌then◌else◌, OnOk, OnErr, IfOk};
ghost use Rattle.std.specs.Prelude.{length, filter, take, drop, reverse, vec_len};
ghost use Rattle.std.specs.List.{flat_map};
ghost use Rattle.std.specs.Map.{remove_entry};
ghost use Rattle.xs_stream.specs.Id.{is_same_id, is_below};
ghost use Rattle.xs_stream.specs.StreamContent.{is_within, ids_of, fields_at};
ghost use Rattle.xs_stream.specs.Packed.{names_code, has_names, field_code, entry_code};
ghost use Rattle.xs_stream.specs.PassedEntries.{unpacked_entries};
ghost use Rattle.xs_stream.specs.PackedText.{text_code, first_text, after_text};

use crate::entry::Entry;
use crate::field::Field;
use crate::id::Id;
use crate::packed::entry::{has_names, push_entry, push_names};
use crate::packed::fields::PackedFields;
use crate::packed::gap::{cut, take_out};
use crate::packed::number::after;
use crate::packed::text::read_text;
use crate::packed::walk::BlockWalk;
use crate::packed::walks::{PackedEntries, after_entries, push_rebased};
use crate::range::Range;
use std::alloc::{AllocError, Global};
use std::marker::Model;

/// The most entries of a block.
const MOST_ENTRIES: usize = 128;

/// The bytes of room in a block of many small entries.
const BLOCK_BYTES: usize = 2560;

/// The most bytes that aren't worth giving back. The C library keeps such small pieces apart, and joins each with its
/// neighbours when a stream is removed.
const SMALL_PIECE: usize = 128;

/// The most bytes that an entry may take more in another block.
const MOST_LONGER: usize = 8;

/// The bytes that an entry mostly takes in addition to its values.
const BESIDE_VALUES: u64 = 12;

/// Adjacent entries of a stream, in the order of their ids. A contract sees the list of them, and how much memory there
/// is for them.
#[derive(Drop)]
pub(crate) struct Block {
    /// The milliseconds of the entry that was the first, above which those of all are stored.
    base: u64,
    /// The number of entries.
    count: usize,
    /// The index of the entries. Bytes of removed entries may be before it, after the names.
    start: usize,
    /// The names of the entry that was the first, and then the entries.
    bytes: Vec<u8>,
}

impl Model for Block {
    ghost use Rattle.std.specs.Prelude.{vec_capacity};
    ghost use Rattle.xs_stream.specs.BlockState.{BlockState};
    ghost use Rattle.xs_stream.specs.Packed.{block_entries, IsPacked};

    ghost Value = { BlockState };

    ghost view = { λ block. record {
      entries = block_entries block.base block.count block.start block.bytes.items;
      room = vec_capacity block.bytes;
    } };

    ghost invariant = { λ block. IsPacked block.base block.count block.start block.bytes.items };
}

impl Block {
    /// A block without entries. It takes no memory.
    pub(crate) fn new(alloc: Global) -> Self
        ensures { result.entries ≡ [] }
    {
        Self {
            base: 0,
            count: 0,
            start: 0,
            bytes: Vec::new(alloc),
        }
    }

    /// A block without entries, with all the memory that many small ones take, if there is that much.
    pub(crate) fn with_room(alloc: Global) -> Self
        ensures { result.entries ≡ [] }
    {
        let mut bytes = Vec::new(alloc);
        let _ = bytes.reserve_exact(BLOCK_BYTES);
        Self {
            base: 0,
            count: 0,
            start: 0,
            bytes,
        }
    }

    /// The number of bytes of its memory.
    pub(crate) fn room(&self) -> usize
        ensures value { result ≡ self.now.room }
        ensures small { result < 2 ^ 63 }
    {
        self.bytes.capacity()
    }

    /// The number of entries.
    pub(crate) fn len(&self) -> usize
        ensures { result ≡ length self.now.entries }
    {
        self.count
    }

    /// Whether it has no entries.
    pub(crate) fn is_empty(&self) -> bool
        ensures { result ≡ (length self.now.entries == 0) }
    {
        self.count == 0
    }

    /// Whether another entry, whose values take `values` bytes, belongs here. An empty block has room for any.
    pub(crate) fn has_room(&self, values: u64) -> bool
        ensures room { result ≡ true → length self.now.entries < 128 }
        ensures some { result ≡ false → 0 < length self.now.entries }
    {
        if self.count == 0 {
            return true;
        }
        if self.count >= MOST_ENTRIES {
            return false;
        }
        let left = room_beside(self.count).saturating_sub(self.bytes.len());
        values.saturating_add(BESIDE_VALUES) <= left as u64
    }

    /// Gives back the memory that no entry takes, unless it is a small piece.
    pub(crate) fn seal(&mut self)
        ensures { self.new.entries ≡ self.old.entries }
    {
        if self.bytes.capacity().saturating_sub(self.bytes.len()) > SMALL_PIECE {
            self.bytes.shrink_to_fit();
        }
    }

    /// Appends an entry whose values take `values` bytes.
    pub(crate) fn push(&mut self, id: Id, values: u64, fields: &[Field]) -> Result<(), AllocError>
        requires room { length self.old.entries < 128 }
        requires values { values ≡ length (flat_map (field_code true) fields.now) }
        ensures ok { OnOk result (self.new.entries ≡ self.old.entries ++ (id, fields.now) ∷ []) }
        ensures err { OnErr result (self.new.entries ≡ self.old.entries) }
    {
        if self.count == 0 {
            self.begin(id, values, fields)
        } else {
            self.append(id, values, fields)
        }
    }

    /// Inserts the first entry, with its names before it.
    fn begin(&mut self, id: Id, values: u64, fields: &[Field]) -> Result<(), AllocError>
        requires none { self.old.entries ≡ [] }
        requires values { values ≡ length (flat_map (field_code true) fields.now) }
        ensures ok { OnOk result (self.new.entries ≡ (id, fields.now) ∷ []) }
        ensures err { OnErr result (self.new.entries ≡ []) }
    {
        self.base = id.ms;
        self.count = 0;
        self.start = 0;
        self.bytes.clear();
        match push_first(&mut self.bytes, id, values, fields) {
            Ok(start) => {
                self.start = start;
                self.count = 1;
                Ok(())
            }
            Err(error) => {
                self.bytes.clear();
                Err(error)
            }
        }
    }

    /// Appends an entry to others.
    fn append(&mut self, id: Id, values: u64, fields: &[Field]) -> Result<(), AllocError>
        requires room { length self.old.entries < 128 }
        requires some { 0 < length self.old.entries }
        requires values { values ≡ length (flat_map (field_code true) fields.now) }
        ensures ok { OnOk result (self.new.entries ≡ self.old.entries ++ (id, fields.now) ∷ []) }
        ensures err { OnErr result (self.new.entries ≡ self.old.entries) }
    {
        let before = self.bytes.len();
        let shared = shares(self.bytes.as_slice(), fields);
        match push_entry(&mut self.bytes, self.base, shared, id, values, fields) {
            Ok(()) => {
                self.count += 1;
                Ok(())
            }
            Err(error) => {
                self.bytes.truncate(before);
                Err(error)
            }
        }
    }

    /// Whether less than a quarter of a block of small entries is left, and less than half of its memory is used.
    pub(crate) fn is_sparse(&self) -> bool {
        let len = self.bytes.len();
        len < BLOCK_BYTES / 4 && len < self.bytes.capacity() / 2
    }

    /// Whether the entries of another block fit into the memory of this one, and belong here by their number.
    fn has_room_for(&self, other: &Block) -> bool
        ensures { result ≡ true → length self.now.entries + length other.now.entries ≤ 128 }
    {
        if self.count.saturating_add(other.count) > MOST_ENTRIES {
            return false;
        }
        let left = self.bytes.capacity().saturating_sub(self.bytes.len());
        let longer = other.count.saturating_mul(MOST_LONGER);
        let entries = other.bytes.len().saturating_sub(other.start);
        entries.saturating_add(longer) <= left
    }

    /// Appends the entries of another block, if they have the same names and fit into the memory of this one. Returns
    /// whether it did.
    pub(crate) fn take_in(&mut self, other: &Block) -> bool
        requires { 0 < length self.old.entries }
        ensures { self.new.entries ≡ (if result then self.old.entries ++ other.now.entries else self.old.entries) }
    {
        if !self.has_room_for(other) {
            return false;
        }
        if !has_same_names(self.bytes.as_slice(), other.bytes.as_slice()) {
            return false;
        }
        let before = self.bytes.len();
        let bytes = after(other.bytes.as_slice(), other.start);
        match push_rebased(&mut self.bytes, self.base, other.base, other.count, bytes) {
            Ok(()) => {
                self.count += other.count;
                true
            }
            Err(_) => {
                self.bytes.truncate(before);
                false
            }
        }
    }

    /// Its entries as they are packed.
    #[inline(always)]
    fn packed(&self) -> PackedEntries<'_>
        ensures { unpacked_entries result ≡ self.now.entries }
    {
        PackedEntries {
            base: self.base,
            count: self.count,
            start: self.start,
            bytes: self.bytes.as_slice(),
        }
    }

    /// A walk over its entries.
    pub(crate) fn walk(&self) -> BlockWalk<'_>
        ensures { result ≡ self.now.entries }
    {
        let bytes = self.bytes.as_slice();
        let (names, _) = read_text(bytes);
        BlockWalk {
            base: self.base,
            left: self.count,
            names,
            rest: after(bytes, self.start),
        }
    }

    /// The fields of an entry.
    pub(crate) fn get(&self, id: Id) -> Option<PackedFields<'_>>
        ensures { result ≡ fields_at self.now.entries id }
    {
        self.packed().fields_of(id)
    }

    /// Removes the entry with this id, and returns whether there was one.
    pub(crate) fn remove(&mut self, id: Id) -> bool
        ensures entries { self.new.entries ≡ remove_entry (is_same_id id) self.old.entries }
        ensures count { length self.new.entries + (if result then 1 else 0) ≡ length self.old.entries }
    {
        // The contract of `packed` gives the entries; this needs their places.
        let entries = PackedEntries {
            base: self.base,
            count: self.count,
            start: self.start,
            bytes: self.bytes.as_slice(),
        };
        let Some(place) = entries.place_of(id) else {
            return false;
        };
        if self.count == 1 {
            self.clear();
            return true;
        }
        self.start = take_out(&mut self.bytes, self.start, place.from, place.to);
        self.count -= 1;
        self.compact();
        true
    }

    /// Removes the entry with this id from a block that has no neighbours to join, and returns whether there was one.
    pub(crate) fn remove_alone(&mut self, id: Id) -> bool
        ensures entries { self.new.entries ≡ remove_entry (is_same_id id) self.old.entries }
        ensures count { length self.new.entries + (if result then 1 else 0) ≡ length self.old.entries }
    {
        let removed = self.remove(id);
        if self.is_sparse() {
            self.seal();
        }
        removed
    }

    /// Removes all entries.
    pub(crate) fn clear(&mut self)
        ensures { self.new.entries ≡ [] }
    {
        self.count = 0;
        self.start = 0;
        self.bytes.clear();
    }

    /// Removes the first entries. If none is left, the memory is given back.
    pub(crate) fn drop_first(&mut self, count: usize)
        ensures { self.new.entries ≡ drop count self.old.entries }
    {
        if count >= self.count {
            self.clear();
            self.seal();
        } else {
            self.drop_some(count);
        }
    }

    /// Removes the first entries, of which some are left.
    fn drop_some(&mut self, count: usize)
        requires { count < length self.old.entries }
        ensures { self.new.entries ≡ drop count self.old.entries }
    {
        let bytes = self.bytes.as_slice();
        let left = after_entries(self.base, after(bytes, self.start), count);
        self.start = bytes.len() - left.len();
        self.count -= count;
        self.tidy();
    }

    /// Tidies up, and gives memory back if the entries take less than half of it. A sparse block keeps it: another one
    /// may fit in.
    fn compact(&mut self)
        requires { 0 < length self.old.entries }
        ensures { self.new.entries ≡ self.old.entries }
    {
        self.tidy();
        if self.entries_size() < self.bytes.capacity() / 2 && !self.is_sparse() {
            self.cut_gap(0);
            self.seal();
        }
    }

    /// The number of bytes of its entries.
    fn entries_size(&self) -> usize {
        self.bytes.len() - self.start
    }

    /// Cuts out the bytes before the entries that aren't needed, once they may be more than a quarter: the names, if no
    /// entry has them, and the bytes between them and the entries. So each byte moves only a few times, whether entries
    /// are removed one by one or many at once.
    #[inline(always)]
    fn tidy(&mut self)
        requires { 0 < length self.old.entries }
        ensures { self.new.entries ≡ self.old.entries }
    {
        let bytes = self.bytes.as_slice();
        let quarter = bytes.len() / 4;
        if self.start <= quarter {
            return;
        }
        // Not by `packed`, as in `remove`.
        let entries = PackedEntries {
            base: self.base,
            count: self.count,
            start: self.start,
            bytes,
        };
        if entries.shares_names() {
            self.cut_gap(quarter);
        } else {
            drop_front(&mut self.bytes, self.start);
            self.start = 1;
        }
    }

    /// Cuts out the bytes between the names and the entries, if they are more than `most`.
    fn cut_gap(&mut self, most: usize)
        requires { 0 < length self.old.entries }
        ensures { self.new.entries ≡ self.old.entries }
    {
        let end = names_end(self.bytes.as_slice());
        if self.start - end > most {
            cut(&mut self.bytes, end, self.start);
            self.start = end;
        }
    }

    /// The number of its entries with ids below this one.
    pub(crate) fn count_below(&self, low: Id) -> usize
        ensures { result ≡ length (filter (λ e. is_below e.0 low) self.now.entries) }
    {
        self.packed().count_below(low)
    }

    /// Appends the entries within a range, in their order, as long as there are fewer than `most` in all.
    pub(crate) fn push_entries_up<'a>(
        &'a self,
        shown: &mut Vec<Entry<'a>>,
        range: Range,
        most: u64,
    ) -> Result<(), AllocError>
        requires { length shown.old.items ≤ most }
        ensures { OnOk result (shown.new.items
            ≡ take most (shown.old.items ++ filter (λ e. is_within range e.0) self.now.entries)) }
    {
        self.packed().push_entries(shown, range, most)
    }

    /// Appends the entries within a range, from the last one down, as long as there are fewer than `most` in all.
    pub(crate) fn push_entries_down<'a>(
        &'a self,
        shown: &mut Vec<Entry<'a>>,
        range: Range,
        most: u64,
    ) -> Result<(), AllocError>
        requires { length shown.old.items ≤ most }
        ensures { OnOk result (shown.new.items
            ≡ take most (shown.old.items ++ reverse (filter (λ e. is_within range e.0) self.now.entries))) }
    {
        shown.reserve(self.count)?;
        let from = shown.len();
        self.packed().push_entries(shown, range, u64::MAX)?;
        reverse_from(shown, from);
        shown.truncate(most as usize);
        Ok(())
    }
}

/// The bytes of room in a block with this many entries. A few large entries share the cost of each block, and among
/// many small ones a search has less to skip.
fn room_beside(count: usize) -> usize {
    if count < 8 {
        return 8192;
    }
    if count < 16 {
        return 4096;
    }
    BLOCK_BYTES
}

/// Whether fields have the names that bytes begin with.
fn shares(bytes: &[u8], fields: &[Field]) -> bool
    ensures { result ≡ has_names (first_text bytes.now) fields.now }
{
    let (names, _) = read_text(bytes);
    has_names(names, fields)
}

/// Whether two blocks have the same names.
fn has_same_names(bytes: &[u8], others: &[u8]) -> bool
    ensures { result ≡ true → first_text others.now ≡ first_text bytes.now }
{
    let (names, _) = read_text(bytes);
    let (other_names, _) = read_text(others);
    names == other_names
}

/// Appends the names of an entry, and then the entry, and returns where that begins. If memory runs out, a part may be
/// appended.
fn push_first(
    bytes: &mut Vec<u8>,
    id: Id,
    values: u64,
    fields: &[Field],
) -> Result<usize, AllocError>
    requires { values ≡ length (flat_map (field_code true) fields.now) }
    ensures bytes { OnOk result (bytes.new.items ≡ bytes.old.items
        ++ (text_code (names_code fields.now) ++ entry_code id.ms true (id, fields.now))) }
    ensures start { IfOk result (λ start. start ≡ length bytes.old.items + length (text_code (names_code fields.now))) }
{
    push_names(bytes, fields)?;
    let start = bytes.len();
    push_entry(bytes, id.ms, true, id, values, fields)?;
    Ok(start)
}

/// The end of the names at the front of bytes.
fn names_end(bytes: &[u8]) -> usize
    ensures { result ≡ length bytes.now - length (after_text bytes.now) }
{
    let (_, behind) = read_text(bytes);
    bytes.len() - behind.len()
}

/// Replaces the bytes before the entries by missing names.
fn drop_front(bytes: &mut Vec<u8>, start: usize)
    requires some { 0 < start }
    requires inside { start ≤ vec_len bytes.old }
    ensures { bytes.new.items ≡ text_code [] ++ drop start bytes.old.items }
{
    cut(bytes, 1, start);
    bytes[0] = 0;
}

/// Reverses the order of the items from a place on.
fn reverse_from<T>(items: &mut Vec<T>, from: usize)
    requires { from ≤ vec_len items.old }
    ensures { items.new.items ≡ take from items.old.items ++ reverse (drop from items.old.items) }
{
    let (_, last) = items.as_mut_slice().split_at_mut(from);
    last.reverse();
}
