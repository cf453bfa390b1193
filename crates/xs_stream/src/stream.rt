//! A stream: its top id and its entries, in the order of their ids.
ghost use Rattle.std.specs.Prelude.{◌≡◌, ◌↔◌, ◌+◌, ◌-◌, ◌^◌, ◌<◌, ◌≤◌, ◌++◌, ◌∷◌, [], true, false, Ok};
ghost use Rattle.std.specs.Prelude.{Err, IfOk, OnOk, OnErr, IsErrOf, length};
ghost use Rattle.std.specs.Prelude.{filter};
ghost use Rattle.xs_stream.specs.Id.{zero_id, is_below, id_of_addition};
ghost use Rattle.xs_stream.specs.StreamContent.{ids_of, fields_at, entries_after_trim, count_above, new_stream};
ghost use Rattle.xs_stream.specs.StreamContent.{with_entry, with_deleted};
ghost use Rattle.xs_stream.specs.StreamContent.{ids_within, entries_within, up_to_limit, AreEntriesOf};
ghost use Rattle.xs_stream.specs.StreamContent.{Ascends, AllUpTo, state_of};
ghost use Rattle.xs_stream.specs.ConsistentStream.{is_history_after, AreValid, rank_of};

use crate::add::{AddError, AddId};
use crate::entries::Entries;
use crate::entry::{Entry, ids_of};
use crate::field::Field;
use crate::id::Id;
use crate::lent::LentEntries;
use crate::moment::Moment;
use crate::packed::fields::PackedFields;
use crate::range::Range;
use crate::trim::Trim;
use std::alloc::{AllocError, Global};
use std::marker::Model;
use xs_bytes::List;

/// A stream of entries. A contract sees its top id, the list of its entries, the number of entries ever added, the
/// greatest id ever deleted, and how much memory there is for the entries.
#[derive(Drop)]
pub struct Stream {
    top: Id,
    entries: Entries,
    added: u128,
    deleted: Id,
}

impl Model for Stream {
    ghost use Rattle.xs_stream.specs.StreamContent.{StreamInMemory};
    ghost use Rattle.xs_stream.specs.Blocks.{all_of, room_of, IsSound};

    ghost Value = { StreamInMemory };

    ghost view = { λ s. record {
      top = s.top;
      entries = all_of s.entries;
      added = s.added;
      deleted = s.deleted;
      room = room_of s.entries;
    } };

    ghost invariant = { λ s. IsSound s.top s.added s.entries };
}

impl Stream {
    /// An empty stream, whose top is `0-0`. It takes no memory.
    pub fn new(alloc: Global) -> Self
        ensures { state_of result ≡ new_stream }
    {
        Self {
            top: Id::ZERO,
            entries: Entries::new(alloc),
            added: 0,
            deleted: Id::ZERO,
        }
    }

    /// The greatest id ever added, or `0-0`. Deletions and trims don't change it.
    pub fn top(&self) -> Id
        ensures value { result ≡ self.now.top }
        ensures greatest { AllUpTo self.now.top (ids_of self.now.entries) }
    {
        self.top
    }

    /// The number of entries ever added.
    pub fn added(&self) -> u128
        ensures { result ≡ self.now.added }
    {
        self.added
    }

    /// The greatest id that was ever deleted, or `0-0`. Trims don't change it.
    pub fn deleted(&self) -> Id
        ensures { result ≡ self.now.deleted }
    {
        self.deleted
    }

    /// The number of entries.
    pub fn len(&self) -> usize
        ensures value { result ≡ length self.now.entries }
        ensures small { result < 2 ^ 63 }
    {
        self.entries.len()
    }

    /// The number of entries with ids above a cursor.
    pub fn count_past(&self, cursor: Id) -> u64
        ensures value { result ≡ count_above cursor (ids_of self.now.entries) }
        ensures small { result < 2 ^ 63 }
    {
        self.entries.count_past(cursor) as u64
    }

    /// The number of bytes that its entries take, with the memory for further ones.
    pub fn room(&self) -> u128
        ensures value { result ≡ self.now.room }
        ensures small { result < 2 ^ 127 }
    {
        self.entries.room()
    }

    /// The entries in the order of their ids, lent one by one. None is copied.
    pub fn iter(&self) -> LentEntries<'_>
        ensures rest { result ≡ self.now.entries }
        ensures valid { AreValid self.now.top self.now.entries }
        // Each addition had an id of its own.
        ensures few { self.now.added ≤ rank_of self.now.top }
    {
        self.entries.iter()
    }

    /// The fields of an entry.
    pub fn get(&self, id: Id) -> Option<PackedFields<'_>>
        ensures { result ≡ fields_at self.now.entries id }
    {
        self.entries.get(id)
    }

    /// The id that an addition would get now, which is above the top (XADD).
    pub fn assign(&self, now: Moment, id: AddId) -> Result<Id, AddError>
        ensures given { result ≡ id_of_addition now self.now.top id }
        ensures above { IfOk result (λ given. is_below self.now.top given ≡ true) }
    {
        assigned_id(now, self.top, id)
    }

    /// Appends an entry with an id above the top. If memory runs out, the content is unchanged.
    pub fn push(&mut self, id: Id, fields: &[Field]) -> Result<(), AllocError>
        requires { is_below self.old.top id ≡ true }
        ensures ok { OnOk result (state_of self.new ≡ with_entry id fields.now (state_of self.old)) }
        ensures err { OnErr result (state_of self.new ≡ state_of self.old) }
    {
        match self.entries.push(self.top, id, fields) {
            Ok(()) => {
                self.top = id;
                self.added += 1;
                Ok(())
            }
            Err(error) => Err(error),
        }
    }

    /// Sets what the entries of a stream that is read from a snapshot don't determine: its top id, the number of
    /// entries ever added, and the greatest id ever deleted. Returns whether it did. It refuses, and changes nothing,
    /// if the top is below the present one, or if there are more additions than ids up to the top.
    pub fn restore(&mut self, top: Id, added: u128, deleted: Id) -> bool
        ensures fits { result ≡ is_history_after self.old.top top added }
        ensures restored { result ≡ true → self.new ≡ record self.old { top = top; added = added; deleted = deleted } }
        ensures refused { result ≡ false → self.new ≡ self.old }
    {
        if top < self.top || top.rank() < added {
            return false;
        }
        self.top = top;
        self.added = added;
        self.deleted = deleted;
        true
    }

    /// Adds an entry above all that were ever added (XADD). On any error the content is unchanged.
    pub fn add(&mut self, now: Moment, id: AddId, fields: &[Field]) -> Result<Id, AddError>
        ensures ok { IfOk result (λ given. (id_of_addition now self.old.top id ≡ Ok given)
            × (state_of self.new ≡ with_entry given fields.now (state_of self.old))) }
        ensures small { IsErrOf result AddError.Small ↔ (id_of_addition now self.old.top id ≡ Err AddError.Small) }
        ensures exhausted { IsErrOf result AddError.Exhausted ↔ (id_of_addition now self.old.top id
            ≡ Err AddError.Exhausted) }
        ensures err { OnErr result (state_of self.new ≡ state_of self.old) }
    {
        let given = self.assign(now, id)?;
        match self.push(given, fields) {
            Ok(()) => Ok(given),
            Err(_) => Err(AddError::Memory),
        }
    }

    /// Removes the entries with these ids, and returns how many there were (XDEL).
    pub fn delete(&mut self, ids: &[Id]) -> u64
        ensures entries { state_of self.new ≡ with_deleted ids.now (state_of self.old) }
        ensures count { result + length self.new.entries ≡ length self.old.entries }
        ensures small { result < 2 ^ 63 }
    {
        let before = self.entries.len();
        self.deleted = self.entries.remove_all(ids, self.deleted);
        (before - self.entries.len()) as u64
    }

    /// Trims exactly, and returns how many entries were removed (XTRIM).
    pub fn trim(&mut self, trim: Trim) -> u64
        ensures entries { state_of self.new
            ≡ record (state_of self.old) { entries = entries_after_trim trim self.old.entries } }
        ensures count { result + length self.new.entries ≡ length self.old.entries }
        ensures small { result < 2 ^ 63 }
    {
        let before = self.entries.len();
        self.entries.trim(trim);
        (before - self.entries.len()) as u64
    }

    /// The ids of a range, from its low end up or from its high end down, at most `limit` of them.
    pub fn range(
        &self,
        alloc: Global,
        range: Range,
        limit: Option<u64>,
        reversed: bool,
    ) -> Result<List<Id>, AllocError>
        ensures { IfOk result (λ ids. ids ≡ up_to_limit limit (ids_within range reversed self.now.entries)) }
    {
        let entries = self.entries(alloc, range, limit, reversed)?;
        ids_of(alloc, entries.as_slice())
    }

    /// The entries of a range, from its low end up or from its high end down, at most `limit` of them. They are lent:
    /// none is copied, and each is what `get` finds at its id.
    pub fn entries(
        &self,
        alloc: Global,
        range: Range,
        limit: Option<u64>,
        reversed: bool,
    ) -> Result<List<Entry<'_>>, AllocError>
        ensures entries { IfOk result (λ entries. entries ≡ entries_within range reversed limit self.now.entries) }
        ensures found { IfOk result (λ entries. AreEntriesOf self.now.entries entries) }
    {
        if range.high < range.low {
            return Ok(List::new(Vec::new(alloc)));
        }
        let most = limit.unwrap_or(u64::MAX);
        let entries = if reversed {
            self.entries.entries_down(alloc, range, most)?
        } else {
            self.entries.entries_up(alloc, range, most)?
        };
        Ok(List::new(entries))
    }

    /// Entries to look at side by side with these ids: those from the first id on, as many as there are ids. None if
    /// the ids don't ascend, since few of the entries would be theirs. They are lent, and each is the one that a search
    /// for its id finds.
    pub fn entries_along(&self, alloc: Global, ids: &[Id]) -> Result<List<Entry<'_>>, AllocError>
        ensures { IfOk result (λ entries. AreEntriesOf self.now.entries entries) }
    {
        let Some(first) = ids.first() else {
            return Ok(List::new(Vec::new(alloc)));
        };
        if !ids.is_sorted() {
            return Ok(List::new(Vec::new(alloc)));
        }
        let range = Range {
            low: *first,
            high: Id::GREATEST,
        };
        self.entries(alloc, range, Some(ids.len() as u64), false)
    }

    /// The entries above a cursor, in the order of their ids, at most `limit` of them. They are lent, and each is what
    /// `get` finds at its id.
    pub fn past(
        &self,
        alloc: Global,
        cursor: Id,
        limit: Option<u64>,
    ) -> Result<List<Entry<'_>>, AllocError>
        ensures ids { IfOk result (λ entries. ids_of entries
            ≡ up_to_limit limit (filter (λ x. is_below cursor x) (ids_of self.now.entries))) }
        ensures ascends { IfOk result (λ entries. Ascends (ids_of entries)) }
        ensures found { IfOk result (λ entries. AreEntriesOf self.now.entries entries) }
    {
        // No entry has an id above the top, so nothing is walked for a cursor there.
        let high = self.top;
        let Some(low) = cursor.next() else {
            return Ok(List::new(Vec::new(alloc)));
        };
        self.entries(alloc, Range { low, high }, limit, false)
    }
}

/// The id that an addition gets in a stream with this top.
fn assigned_id(now: Moment, top: Id, id: AddId) -> Result<Id, AddError>
    ensures { result ≡ id_of_addition now top id }
{
    let Some(after) = top.next() else {
        return Err(AddError::Exhausted);
    };
    match id {
        AddId::Auto => {
            let ms = now.get();
            if top.ms < ms {
                return Ok(Id { ms, seq: 0 });
            }
            Ok(after)
        }
        AddId::AutoSeq(ms) => {
            if top.ms < ms {
                return Ok(Id { ms, seq: 0 });
            }
            if ms == top.ms && after.ms == ms {
                return Ok(after);
            }
            Err(AddError::Small)
        }
        AddId::Exact(id) => {
            if top < id {
                return Ok(id);
            }
            Err(AddError::Small)
        }
    }
}
