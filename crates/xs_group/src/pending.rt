//! The consumers and the pending entries, in two indexes: by id, and by consumer.
ghost use Rattle.std.specs.Prelude.{◌≡◌, ◌<◌, ◌^◌, not, length, true, false, None, Some, IfOk, OnOk, OnErr};
ghost use Rattle.std.specs.List.{list_any};
ghost use Rattle.xs_bytes.specs.SortedMap.{empty, get, has_key, insert_by, remove, change};
ghost use Rattle.xs_stream.specs.Id.{has_id, is_below, zero_id};
ghost use Rattle.xs_group.specs.Report.{summary_of, consumer_reports};
ghost use Rattle.xs_group.specs.Listing.{selected_rows};
ghost use Rattle.xs_group.specs.Claims.{claim_among, scan_of, row_after_claim};
ghost use Rattle.xs_group.specs.Verdict.{verdict_of, row_after_move, AreDistinct};
ghost use Rattle.xs_group.specs.GroupState.{has_name, with_name, is_any, first_row, ids_of_consumer, with_rows};
ghost use Rattle.xs_group.specs.GroupState.{reread_ids, ids_total};
ghost use Rattle.xs_group.specs.NextRow.{is_past_rows};
ghost use Rattle.xs_group.specs.GroupState.{unless_acked};
ghost use Rattle.xs_group.specs.GroupState.{unless_owned};
ghost use Rattle.xs_group.specs.Indexes.{IsNamed, AreFree};
ghost use Rattle.xs_stream.specs.StreamContent.{ids_of, AreEntriesOf};
ghost use Rattle.xs_group.specs.Deliveries.{touch_of, shown_rows, set_one, set_rows, touch_set, row_ids};
ghost use Rattle.xs_group.specs.Deliveries.{rows_taken_back};
ghost use Rattle.xs_group.specs.Deliveries.{list_without_delivery, with_seen};

use crate::claims::{Claim, ClaimTerms, Found, Scan, Verdict};
use crate::consumer_index::{self, ConsumerIndex, Owner};
use crate::delivery::{Delivery, DeliveryKind, DeliveryRow, Touch};
use crate::id_index::{self, IdIndex};
use crate::lent::{LentConsumers, LentRows};
use crate::name::Name;
use crate::pending_entry::PendingEntry;
use crate::reports::{ConsumerReport, GroupSummary, PendingRow, Selection};
use crate::{claims, moving, reading, reports};
use std::alloc::{AllocError, Global};
use std::marker::Model;
use xs_bytes::{Bytes, List, U63};
use xs_maps::{SmallMap, SmallSet};
use xs_stream::{Entry, Id, Moment, Stream};

/// The consumers and the pending entries. Both indexes have the same pairs of a consumer and an id.
#[derive(Drop)]
pub(crate) struct Pending {
    rows: IdIndex,
    owners: ConsumerIndex,
}

impl Model for Pending {
    ghost use Rattle.xs_group.specs.Indexes.{rows_of, PendingList, coded_pending_list, consumers_of, IsAgreed};

    ghost Value = { PendingList };

    ghost coded = { coded_pending_list };

    ghost view = { λ p. record { consumers = consumers_of p.owners.entries; rows = rows_of p.rows.entries } };

    ghost invariant = { λ p. IsAgreed p.rows.entries p.owners.entries };
}

impl Pending {
    /// No consumers, and nothing pending. It takes no memory.
    pub(crate) fn new(alloc: Global) -> Self
        ensures { result ≡ record { consumers = empty; rows = empty } }
    {
        Self {
            rows: SmallMap::new(alloc),
            owners: SmallMap::new(alloc),
        }
    }

    /// The consumers with their moments, in the order of their names.
    pub(crate) fn iter_consumers(&self) -> LentConsumers<'_>
        ensures { result ≡ self.now.consumers.entries }
    {
        LentConsumers::new(self.owners.iter())
    }

    /// The pending rows, in the order of their ids.
    pub(crate) fn iter_rows(&self) -> LentRows<'_>
        ensures rest { result ≡ self.now.rows.entries }
        ensures named { IsNamed self.now.consumers self.now.rows }
    {
        LentRows::new(self.rows.iter())
    }

    pub(crate) fn has_consumer(&self, name: &Bytes) -> bool
        ensures { result ≡ has_name self.now.consumers name.now }
    {
        self.owners.contains_key(name)
    }

    /// The moment of a consumer.
    pub(crate) fn seen_at(&self, name: &Bytes) -> Option<Moment>
        ensures { result ≡ get self.now.consumers name.now }
    {
        match self.owners.get(name) {
            Some(owner) => Some(owner.seen),
            None => None,
        }
    }

    /// Sets the moment of a consumer that is in the group.
    pub(crate) fn set_seen(&mut self, name: &Bytes, seen: Moment)
        ensures { self.new ≡ record self.old { consumers = with_seen self.old.consumers name.now seen } }
    {
        let Some(owner) = self.owners.get_mut(name) else {
            return;
        };
        owner.seen = seen;
    }

    /// Gives a consumer of the group this moment, if it is given something.
    pub(crate) fn give(&mut self, name: &Bytes, now: Moment, given: bool)
        requires { has_name self.old.consumers name.now ≡ true }
        ensures { self.new ≡ record self.old { consumers = with_name self.old.consumers name.now now given } }
    {
        if given {
            self.set_seen(name, now);
        }
    }

    /// Inserts a consumer, and returns whether it is new. A new one has no rows.
    pub(crate) fn add_consumer(
        &mut self,
        alloc: Global,
        name: &Bytes,
        now: Moment,
    ) -> Result<bool, AllocError>
        ensures named { OnOk result (IsNamed self.old.consumers self.old.rows) }
        ensures made { IfOk result (λ made. made ≡ not (has_name self.old.consumers name.now)) }
        ensures unowned { IfOk result (λ made. made ≡ true
            → change (unless_owned name.now) self.old.rows ≡ self.old.rows) }
        ensures ok { OnOk result (self.new
            ≡ record self.old { consumers = with_name self.old.consumers name.now now false }) }
        ensures err { OnErr result (self.new ≡ self.old) }
    {
        if self.owners.contains_key(name) {
            return Ok(false);
        }
        let text = Bytes::from_slice(alloc, name.as_slice())?;
        let owner = Owner {
            seen: now,
            ids: SmallSet::new(alloc),
        };
        self.owners.insert(text, owner)?;
        Ok(true)
    }

    /// Removes an id.
    fn take(&mut self, id: Id)
        ensures { self.new ≡ record self.old { rows = remove self.old.rows id } }
    {
        if let Some(entry) = self.rows.remove(&id) {
            consumer_index::remove_id(&mut self.owners, entry.consumer(), id);
        }
    }

    /// The name of a consumer, shared with a row of it if it has one.
    fn shared_name(&self, alloc: Global, name: &Bytes) -> Result<Name, AllocError>
        ensures { IfOk result (λ shared. shared ≡ name.now) }
    {
        match moving::row_of(&self.rows, &self.owners, name) {
            Some(entry) => entry.share_name(),
            None => Name::new(alloc, name),
        }
    }

    /// Makes ids pending with a consumer, as delivered for the first time.
    fn put_all(
        &mut self,
        alloc: Global,
        name: &Bytes,
        now: Moment,
        ids: &[Id],
    ) -> Result<(), AllocError>
        requires there { has_name self.old.consumers name.now ≡ true }
        requires free { AreFree self.old.rows ids.now }
        ensures ok { OnOk result (self.new
            ≡ record self.old { rows = with_rows ids.now (first_row name.now now) self.old.rows }) }
        ensures err { OnErr result (self.new ≡ self.old) }
    {
        let shared = self.shared_name(alloc, name)?;
        moving::add_ids(&self.rows, &mut self.owners, name, ids)?;
        let Ok(()) = id_index::put_rows(&mut self.rows, &shared, now, ids) else {
            moving::take_back(&self.rows, &mut self.owners, name, ids);
            return Err(AllocError);
        };
        Ok(())
    }

    /// Inserts a row of a consumer of the group, at an id that has none, with its time and its count.
    pub(crate) fn put(
        &mut self,
        alloc: Global,
        name: &Bytes,
        id: Id,
        touch: Touch,
    ) -> Result<(), AllocError>
        requires there { has_name self.old.consumers name.now ≡ true }
        requires free { has_key self.old.rows id ≡ false }
        ensures ok { OnOk result (self.new ≡ record self.old {
          rows = insert_by ids_total self.old.rows id (record {
            consumer = name.now;
            time = touch.time;
            count = touch.count;
          });
        }) }
        ensures err { OnErr result (self.new ≡ self.old) }
    {
        self.put_all(alloc, name, touch.time, &[id])?;
        self.set_touch(id, touch);
        Ok(())
    }

    /// Whether an id is above those of all rows.
    pub(crate) fn is_past_rows(&self, id: Id) -> bool
        ensures { result ≡ is_past_rows id self.now.rows }
    {
        if self.rows.len() == 0 {
            return true;
        }
        match reports::greatest(&self.rows) {
            Some(last) => last < id,
            None => true,
        }
    }

    /// Makes ids pending with a consumer, which is created if it is missing, and returns whether it is new.
    pub(crate) fn deliver(
        &mut self,
        alloc: Global,
        name: &Bytes,
        now: Moment,
        ids: &[Id],
    ) -> Result<bool, AllocError>
        requires { AreFree self.old.rows ids.now }
        ensures named { OnOk result (IsNamed self.old.consumers self.old.rows) }
        ensures made { IfOk result (λ made. made ≡ not (has_name self.old.consumers name.now)) }
        ensures ok { OnOk result (self.new ≡ record {
          consumers = with_name self.old.consumers name.now now (is_any ids.now);
          rows = with_rows ids.now (first_row name.now now) self.old.rows;
        }) }
        ensures err { OnErr result (self.new ≡ self.old) }
    {
        let made = self.add_consumer(alloc, name, now)?;
        let Ok(()) = self.put_all(alloc, name, now, ids) else {
            if made {
                self.remove_consumer(name);
            }
            return Err(AllocError);
        };
        self.give(name, now, !ids.is_empty());
        Ok(made)
    }

    /// The consumer's ids above this one, at most `limit` of them.
    pub(crate) fn own_ids(
        &self,
        alloc: Global,
        name: &Bytes,
        from: Id,
        limit: Option<u64>,
    ) -> Result<List<Id>, AllocError>
        ensures { IfOk result (λ ids. ids ≡ reread_ids name.now limit from self.now.rows.entries) }
    {
        let Some(owner) = self.owners.get(name) else {
            return Ok(List::new(Vec::new(alloc)));
        };
        reading::limited_above(alloc, &owner.ids, from, limit)
    }

    /// When an entry was last delivered, and how often.
    fn touch_at(&self, id: Id) -> Option<Touch>
        ensures { result ≡ touch_of (get self.now.rows id) }
    {
        match self.rows.get(&id) {
            Some(entry) => Some(entry.touch()),
            None => None,
        }
    }

    /// The rows of entries that are shown. An entry that is among those that are lent, at the place of its id, isn't
    /// looked up.
    pub(crate) fn shown_rows(
        &self,
        alloc: Global,
        stream: &Stream,
        lent: &[Entry<'_>],
        ids: &[Id],
    ) -> Result<Vec<DeliveryRow>, AllocError>
        requires { AreEntriesOf stream.now.entries lent.now }
        ensures { IfOk result (λ rows. rows.items ≡ shown_rows self.now.rows (ids_of stream.now.entries) ids.now) }
    {
        let mut rows = Vec::with_capacity(alloc, ids.len())?;
        for (place, id) in ids.iter().enumerate() {
            let row = DeliveryRow {
                id: *id,
                present: reading::is_present_along(stream, lent, place, *id),
                before: self.touch_at(*id),
            };
            rows.push(row)?;
        }
        Ok(rows)
    }

    /// Sets the time and the count of an entry.
    fn set_touch(&mut self, id: Id, touch: Touch)
        ensures { self.new ≡ record self.old { rows = set_one id (Some touch) self.old.rows } }
    {
        let Some(entry) = self.rows.get_mut(&id) else {
            return;
        };
        entry.set_touch(touch);
    }

    /// Sets the time and the count of one entry: those of a delivery at a moment, or else those before it.
    fn set_row(&mut self, now: &Option<Moment>, row: &DeliveryRow)
        ensures { self.new ≡ record self.old { rows = set_one row.now.id (touch_set now.now row.now) self.old.rows } }
    {
        let Some(touch) = reading::touch_set(now, row) else {
            return;
        };
        self.set_touch(row.id, touch);
    }

    /// Sets the times and the counts of entries: those of a delivery at a moment, or else those before it.
    pub(crate) fn set_touches(&mut self, now: &Option<Moment>, rows: &[DeliveryRow])
        ensures { self.new ≡ record self.old { rows = set_rows now.now rows.now self.old.rows } }
    {
        for row in rows {
            self.set_row(now, row);
        }
    }

    /// Delivers the rows whose entries are in the stream once more to their consumer.
    pub(crate) fn redeliver(&mut self, name: &Bytes, now: Moment, rows: &[DeliveryRow])
        requires { has_name self.old.consumers name.now ≡ true }
        ensures { self.new ≡ record {
          consumers = with_name self.old.consumers name.now now (list_any (λ r. r.present) rows.now);
          rows = set_rows (Some now) rows.now self.old.rows;
        } }
    {
        self.set_touches(&Some(now), rows);
        self.give(name, now, reading::is_any_present(rows));
    }

    /// Removes the ids of these rows.
    pub(crate) fn take_rows(&mut self, rows: &[DeliveryRow])
        ensures { self.new ≡ record self.old { rows = change (unless_acked (row_ids rows.now)) self.old.rows } }
    {
        for row in rows {
            self.take(row.id);
        }
    }

    /// Undoes the changes of a read to these rows.
    fn take_back(&mut self, kind: DeliveryKind, rows: &[DeliveryRow])
        ensures { self.new ≡ record self.old { rows = rows_taken_back kind rows.now self.old.rows } }
    {
        match kind {
            DeliveryKind::New => self.take_rows(rows),
            DeliveryKind::NoAck => {}
            DeliveryKind::History => self.set_touches(&None, rows),
        }
    }

    /// Undoes the changes of a read to the consumers and the rows.
    pub(crate) fn undo(&mut self, delivery: &Delivery)
        ensures { self.new ≡ list_without_delivery delivery.now self.old }
    {
        self.take_back(delivery.kind, delivery.rows.as_slice());
        match delivery.seen_before {
            Some(seen) => self.set_seen(&delivery.consumer, seen),
            None => {
                self.remove_consumer(&delivery.consumer);
            }
        }
    }

    /// What a claim does with an id.
    fn verdict(&self, stream: &Stream, terms: &ClaimTerms, id: Id) -> Verdict
        ensures { result ≡ verdict_of (get self.now.rows id) (has_id (ids_of stream.now.entries) id)
            terms.now.moment terms.now.rule }
    {
        match self.rows.get(&id) {
            Some(entry) => claims::judge(entry, stream, terms, id),
            None => Verdict::Passed,
        }
    }

    /// The result of a claim of these ids.
    pub(crate) fn claim_among(
        &self,
        alloc: Global,
        stream: &Stream,
        terms: &ClaimTerms,
        ids: &[Id],
    ) -> Result<Claim, AllocError>
        ensures { IfOk result (λ claim. claim ≡ claim_among self.now.rows.entries (ids_of stream.now.entries)
            terms.now.moment terms.now.rule ids.now) }
    {
        let mut found = Found::new(alloc);
        for id in ids {
            let verdict = self.verdict(stream, terms, *id);
            found.add(verdict, *id)?;
        }
        Ok(found.into_claim())
    }

    /// The result of a claim of the ids from a start upwards, until there are enough.
    pub(crate) fn scan(
        &self,
        alloc: Global,
        stream: &Stream,
        terms: &ClaimTerms,
        start: Id,
        limit: u64,
    ) -> Result<Scan, AllocError>
        ensures { IfOk result (λ scan. scan ≡ scan_of self.now.rows.entries (ids_of stream.now.entries)
            terms.now.moment terms.now.rule start limit) }
    {
        claims::scan_rows(alloc, &self.rows, stream, terms, start, limit)
    }

    /// Gives these entries to a consumer, as a claim does.
    fn reassign(
        &mut self,
        alloc: Global,
        name: &Bytes,
        terms: &ClaimTerms,
        ids: &[Id],
    ) -> Result<(), AllocError>
        requires there { has_name self.old.consumers name.now ≡ true }
        requires apart { AreDistinct ids.now }
        ensures ok { OnOk result (self.new ≡ record self.old {
          rows = change (row_after_move name.now terms.now.moment terms.now.rule ids.now) self.old.rows;
        }) }
        ensures err { OnErr result (self.new ≡ self.old) }
    {
        let shared = self.shared_name(alloc, name)?;
        let names = moving::shares(alloc, &shared, ids)?;
        moving::add_ids(&self.rows, &mut self.owners, name, ids)?;
        moving::move_rows(&mut self.rows, &mut self.owners, name, names, terms, ids);
        Ok(())
    }

    /// Carries out a claim for a consumer, which is created if it is missing.
    pub(crate) fn settle(
        &mut self,
        alloc: Global,
        name: &Bytes,
        terms: &ClaimTerms,
        claim: &Claim,
    ) -> Result<(), AllocError>
        requires { AreDistinct claim.now.take }
        ensures ok { OnOk result (self.new ≡ record {
          consumers = with_name self.old.consumers name.now terms.now.moment (is_any claim.now.take);
          rows = change (row_after_claim name.now terms.now.moment terms.now.rule claim.now) self.old.rows;
        }) }
        ensures err { OnErr result (self.new ≡ self.old) }
    {
        let made = self.add_consumer(alloc, name, terms.moment)?;
        let Ok(()) = self.reassign(alloc, name, terms, claim.take.as_slice()) else {
            if made {
                self.remove_consumer(name);
            }
            return Err(AllocError);
        };
        self.take_all(claim.removed.as_slice());
        self.give(name, terms.moment, !claim.take.as_slice().is_empty());
        Ok(())
    }

    /// The number of pending entries, the least and the greatest id, and the consumers that have them.
    pub(crate) fn summary(&self, alloc: Global) -> Result<GroupSummary, AllocError>
        ensures { IfOk result (λ summary. summary
            ≡ summary_of (record { cursor = zero_id; consumers = self.now.consumers; rows = self.now.rows })) }
    {
        let total = self.rows.len();
        let owners = reports::owner_counts(alloc, &self.owners)?;
        Ok(GroupSummary {
            total: U63::new(total as u64),
            least: reports::least(&self.rows),
            greatest: reports::greatest(&self.rows),
            owners: List::new(owners),
        })
    }

    /// The consumers, each with its moment and the number of its rows.
    pub(crate) fn consumers(
        &self,
        alloc: Global,
        now: Moment,
    ) -> Result<Vec<ConsumerReport>, AllocError>
        ensures { IfOk result (λ found. found.items ≡ consumer_reports now (record {
          cursor = zero_id;
          consumers = self.now.consumers;
          rows = self.now.rows;
        })) }
    {
        reports::consumers_of(alloc, &self.owners, now)
    }

    /// The selected rows, in a range that isn't empty.
    pub(crate) fn all_within(
        &self,
        alloc: Global,
        selection: &Selection,
    ) -> Result<Vec<PendingRow>, AllocError>
        requires { is_below selection.now.range.high selection.now.range.low ≡ false }
        ensures { IfOk result (λ found. found.items ≡ selected_rows selection.now None self.now.rows) }
    {
        reports::rows_within(alloc, &self.rows, selection)
    }

    /// The selected rows of one consumer, in a range that isn't empty.
    pub(crate) fn owned_within(
        &self,
        alloc: Global,
        selection: &Selection,
        name: &Bytes,
    ) -> Result<Vec<PendingRow>, AllocError>
        requires { is_below selection.now.range.high selection.now.range.low ≡ false }
        ensures { IfOk result (λ found. found.items ≡ selected_rows selection.now (Some name.now) self.now.rows) }
    {
        let Some(owner) = self.owners.get(name) else {
            return Ok(Vec::new(alloc));
        };
        reports::rows_of_ids(alloc, &self.rows, &owner.ids, selection)
    }

    /// Removes these ids.
    pub(crate) fn take_all(&mut self, ids: &[Id])
        ensures { self.new ≡ record self.old { rows = change (unless_acked ids.now) self.old.rows } }
    {
        for id in ids {
            self.take(*id);
        }
    }

    /// Removes a consumer with its entries, and returns their number.
    pub(crate) fn remove_consumer(&mut self, name: &Bytes) -> u64
        ensures rows { self.new ≡ record {
          consumers = remove self.old.consumers name.now;
          rows = change (unless_owned name.now) self.old.rows;
        } }
        ensures count { result ≡ length (ids_of_consumer name.now self.old.rows.entries) }
        ensures small { result < 2 ^ 63 }
    {
        let Some(owner) = self.owners.remove(name) else {
            return 0;
        };
        let count = owner.ids.len();
        consumer_index::remove_rows(&mut self.rows, &owner.ids);
        count as u64
    }

    /// The number of consumers.
    pub(crate) fn count_consumers(&self) -> usize
        ensures value { result ≡ length self.now.consumers.entries }
        ensures small { result < 2 ^ 63 }
    {
        self.owners.len()
    }

    /// The number of pending entries.
    pub(crate) fn len(&self) -> usize
        ensures value { result ≡ length self.now.rows.entries }
        ensures small { result < 2 ^ 63 }
    {
        self.rows.len()
    }
}
