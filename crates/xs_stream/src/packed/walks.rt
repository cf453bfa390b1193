//! Walks over the entries of a block, which are one after another from `start` on.
ghost use Rattle.std.specs.Prelude.{◌≡◌, ◌+◌, ◌-◌, ◌<◌, ◌≤◌, ◌++◌};
ghost use Rattle.std.specs.Prelude.{IfSome, OnOk, OnErr, length, vec_len, filter, take, drop};
ghost use Rattle.std.specs.List.{remove};
ghost use Rattle.std.specs.Map.{remove_entry};
ghost use Rattle.std.specs.Option.{is_some};
ghost use Rattle.xs_stream.specs.Id.{is_same_id, is_below};
ghost use Rattle.xs_stream.specs.StreamContent.{is_within, ids_of, fields_at};
ghost use Rattle.xs_stream.specs.Packed.{after_entries, shares_names, rebased_codes};
ghost use Rattle.xs_stream.specs.PassedEntries.{packed_ids, AllBelow, unpacked_entries};

use crate::entry::Entry;
use crate::id::Id;
use crate::packed::entry::{after_early_entry, push_packed, read_entry};
use crate::packed::fields::PackedFields;
use crate::packed::number::{after, read_number};
use crate::packed::text::read_text;
use crate::range::Range;
use std::alloc::AllocError;

/// The place of an entry.
#[derive(Drop)]
pub(crate) struct Place {
    /// The number of entries before it.
    pub(crate) index: usize,
    /// The index of its first byte.
    pub(crate) from: usize,
    /// The index of the bytes after it.
    pub(crate) to: usize,
}

/// The packed entries of a block. They are walked from the first one on.
#[derive(Drop)]
pub(crate) struct PackedEntries<'a> {
    /// The milliseconds over which they are packed.
    pub(crate) base: u64,
    /// The number of entries.
    pub(crate) count: usize,
    /// The index of the first entry.
    pub(crate) start: usize,
    /// Names, and then the entries.
    pub(crate) bytes: &'a [u8],
}

impl<'a> PackedEntries<'a> {
    /// Skips entries at the front that are below an id. Returns their number, and the bytes after them. It may stop
    /// early: it skips no entry whose numbers take more than a byte each.
    fn pass_below(&self, low: Id) -> (usize, &'a [u8])
        ensures few { result.0 ≤ self.now.count }
        ensures rest { result.1.now ≡ after_entries result.0 (drop self.now.start self.now.bytes.now) }
        ensures below { AllBelow low (packed_ids self.now.base result.0 (drop self.now.start self.now.bytes.now)) }
    {
        let mut rest = after(self.bytes, self.start);
        let Some(above) = low.ms.checked_sub(self.base) else {
            return (0, rest);
        };
        let ms = above.min(252) as u8;
        let seq = low.seq.min(253) as u8;
        for passed in 0..self.count {
            let Some(next) = after_early_entry(rest, ms, seq) else {
                return (passed, rest);
            };
            rest = next;
        }
        (self.count, rest)
    }

    /// The fields of an entry.
    pub(crate) fn fields_of(&self, id: Id) -> Option<PackedFields<'a>>
        ensures { result ≡ fields_at (unpacked_entries self.now) id }
    {
        let (passed, mut rest) = self.pass_below(id);
        for _ in passed..self.count {
            let entry = read_entry(self.base, rest);
            if entry.id == id {
                let (names, _) = read_text(self.bytes);
                return Some(PackedFields::new(names, entry.body));
            }
            rest = entry.rest;
        }
        None
    }

    /// The place of the first entry with this id.
    pub(crate) fn place_of(&self, id: Id) -> Option<Place>
        ensures index { IfSome result (λ p. p.index < self.now.count) }
        ensures from { IfSome result (λ p. p.from ≡ length self.now.bytes.now
            - length (after_entries p.index (drop self.now.start self.now.bytes.now))) }
        ensures to { IfSome result (λ p. p.to ≡ length self.now.bytes.now
            - length (after_entries (p.index + 1) (drop self.now.start self.now.bytes.now))) }
        ensures removed { IfSome result (λ p. remove_entry (is_same_id id) (unpacked_entries self.now)
            ≡ remove (unpacked_entries self.now) p.index) }
        ensures found { is_some result ≡ is_some (fields_at (unpacked_entries self.now) id) }
    {
        let (passed, mut rest) = self.pass_below(id);
        for index in passed..self.count {
            let entry = read_entry(self.base, rest);
            if entry.id == id {
                let from = self.bytes.len() - rest.len();
                let to = self.bytes.len() - entry.rest.len();
                return Some(Place { index, from, to });
            }
            rest = entry.rest;
        }
        None
    }

    /// The number of entries with ids below this one.
    pub(crate) fn count_below(&self, low: Id) -> usize
        ensures { result ≡ length (filter (λ e. is_below e.0 low) (unpacked_entries self.now)) }
    {
        let mut rest = after(self.bytes, self.start);
        let mut below = 0;
        for _ in 0..self.count {
            let entry = read_entry(self.base, rest);
            if entry.id < low {
                below += 1;
            }
            rest = entry.rest;
        }
        below
    }

    /// Appends the entries within a range, as long as there are fewer than `most` in all.
    pub(crate) fn push_entries(
        &self,
        shown: &mut Vec<Entry<'a>>,
        range: Range,
        most: u64,
    ) -> Result<(), AllocError>
        requires { length shown.old.items ≤ most }
        ensures { OnOk result (shown.new.items
            ≡ take most (shown.old.items ++ filter (λ e. is_within range e.0) (unpacked_entries self.now))) }
    {
        let (names, _) = read_text(self.bytes);
        let (passed, mut rest) = self.pass_below(range.low);
        for _ in passed..self.count {
            if shown.len() as u64 >= most {
                return Ok(());
            }
            let entry = read_entry(self.base, rest);
            if range.contains(entry.id) {
                shown.push(Entry::new(entry.id, PackedFields::new(names, entry.body)))?;
            }
            rest = entry.rest;
        }
        Ok(())
    }

    /// Whether an entry takes its names from the front of the block.
    pub(crate) fn shares_names(&self) -> bool
        ensures { result ≡ shares_names self.now.count (drop self.now.start self.now.bytes.now) }
    {
        let mut rest = after(self.bytes, self.start);
        for _ in 0..self.count {
            let entry = read_entry(self.base, rest);
            let (mark, _) = read_number(entry.body);
            if mark == 0 {
                return true;
            }
            rest = entry.rest;
        }
        false
    }
}

/// Appends entries that are packed over a base as they are packed over another one. If memory runs out, a part may be
/// appended.
pub(crate) fn push_rebased(
    out: &mut Vec<u8>,
    base: u64,
    from: u64,
    count: usize,
    bytes: &[u8],
) -> Result<(), AllocError>
    ensures ok { OnOk result (out.new.items ≡ out.old.items ++ rebased_codes base from count bytes.now) }
    ensures err { OnErr result (take (vec_len out.old) out.new.items ≡ out.old.items) }
{
    let mut rest = bytes;
    for _ in 0..count {
        let entry = read_entry(from, rest);
        push_packed(out, base, entry.id, entry.body)?;
        rest = entry.rest;
    }
    Ok(())
}

/// The bytes after this many entries.
pub(crate) fn after_entries(base: u64, bytes: &[u8], count: usize) -> &[u8]
    ensures { result.now ≡ after_entries count bytes.now }
{
    let mut rest = bytes;
    for _ in 0..count {
        rest = read_entry(base, rest).rest;
    }
    rest
}
