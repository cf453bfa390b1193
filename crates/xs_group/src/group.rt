//! A consumer group: its cursor, its consumers, and what is pending.
ghost use Rattle.std.specs.Prelude.{◌≡◌, ◌<◌, ◌+◌, ◌^◌, not, length, if◌then◌else◌, IfOk, OnOk, OnErr};
ghost use Rattle.std.specs.Prelude.{◌++◌, ◌∷◌, [], true, false};
ghost use Rattle.xs_group.specs.GroupState.{GroupState, has_name, with_consumer, new_group, group_after_ack};
ghost use Rattle.xs_group.specs.GroupState.{without_consumer, group_after_delivery};
ghost use Rattle.xs_group.specs.GroupState.{group_after_reread};
ghost use Rattle.xs_group.specs.GroupRoom.{room_of_group, room_of_map, bytes_of_names};
ghost use Rattle.xs_group.specs.Report.{owned_count, summary_of, pending_of, consumer_reports};
ghost use Rattle.xs_group.specs.ConsistentGroup.{IsConsistentGroup, IsUpTo};
ghost use Rattle.xs_group.specs.Claims.{claim_by_ids, scan_of, group_after_claim};
ghost use Rattle.xs_group.specs.Verdict.{IsClaimOn};
ghost use Rattle.xs_group.specs.NextRow.{is_next_row, with_row};
ghost use Rattle.std.specs.Option.{option_map};
ghost use Rattle.xs_group.specs.Deliveries.{delivery_of, history_of, kind_of, group_after_read, IsMade};
ghost use Rattle.xs_stream.specs.StreamContent.{ids_of, AllAbove, Ascends, AreEntriesOf};

use crate::claims::{Claim, ClaimRule, ClaimTerms, Scan};
use crate::delivery::{Delivery, DeliveryKind, GroupRead, Touch};
use crate::lent::{LentConsumers, LentRows};
use crate::pending::Pending;
use crate::reports::{ConsumerReport, GroupSummary, PendingRow, Selection};
use crate::{claims, reading};
use std::alloc::{AllocError, Global};
use std::marker::Model;
use xs_bytes::{Bytes, List, U63};
use xs_stream::{Id, Moment, Range, Stream, ids_of};

/// The number of bytes that a group without consumers is counted with.
const GROUP_ROOM: u128 = 205;

/// The number of bytes that a place of a small map is counted with, for rows in both indexes.
const PLACE_ROOM: u128 = 61;

/// The number of bytes that a node of a large map is counted with.
const NODE_ROOM: u128 = 960;

/// The number of bytes that a map of `count` entries is counted with. Up to eight are in a vector, up to fifteen in a
/// node, more in a tree of nodes that have eight each.
fn room_of_map(count: usize) -> u128
    ensures { result ≡ room_of_map count }
{
    match count {
        0 => 0,
        1 => PLACE_ROOM * 2,
        2 => PLACE_ROOM * 3,
        3..=4 => PLACE_ROOM * 5,
        5..=8 => PLACE_ROOM * 9,
        9..=15 => NODE_ROOM,
        _ => NODE_ROOM * (count as u128 / 8 + 1),
    }
}

/// A consumer group. A contract sees its cursor, its consumers and its pending rows. If memory runs out in a call, the
/// group is unchanged.
#[derive(Drop)]
pub struct Group {
    cursor: Id,
    pending: Pending,
    /// The number of bytes of the consumers' names.
    name_bytes: u64,
}

impl Model for Group {
    ghost use Rattle.xs_group.specs.GroupState.{GroupState};
    ghost use Rattle.xs_group.specs.Indexes.{coded_state};
    ghost use Rattle.xs_group.specs.GroupRoom.{IsCounted};

    ghost Value = { GroupState };

    ghost coded = { coded_state };

    ghost view = { λ g. record { cursor = g.cursor; consumers = g.pending.consumers; rows = g.pending.rows } };

    ghost invariant = { λ g. IsCounted g.cursor g.pending g.name_bytes };
}

impl Group {
    /// A group that delivers the entries above this id. It takes no memory.
    pub fn new(alloc: Global, start: Id) -> Self
        ensures { result ≡ new_group start }
    {
        Self {
            cursor: start,
            pending: Pending::new(alloc),
            name_bytes: 0,
        }
    }

    /// The number of bytes of memory that it is counted with.
    pub fn room(&self) -> u128
        ensures { result ≡ room_of_group self.now }
    {
        let consumers = room_of_map(self.pending.count_consumers());
        let rows = room_of_map(self.pending.len());
        GROUP_ROOM + consumers + self.name_bytes as u128 + rows
    }

    /// The number of bytes of the names with this one more. More than 2^64 are refused, as if memory ran out.
    fn name_bytes_with(&self, consumer: &Bytes) -> Result<u64, AllocError>
        ensures { IfOk result (λ bytes. bytes ≡ bytes_of_names self.now.consumers + length consumer.now) }
    {
        match self.name_bytes.checked_add(consumer.len() as u64) {
            Some(bytes) => Ok(bytes),
            None => Err(AllocError),
        }
    }

    /// The last id delivered, or at first the id that the group began with.
    pub fn cursor(&self) -> Id
        ensures value { result ≡ self.now.cursor }
        ensures up_to_cursor { IsUpTo self.now.cursor self.now.rows }
    {
        self.cursor
    }

    /// The consumers, in the order of their names (XINFO CONSUMERS).
    pub fn consumers(&self, alloc: Global, now: Moment) -> Result<Vec<ConsumerReport>, AllocError>
        ensures { IfOk result (λ found. found.items ≡ consumer_reports now self.now) }
    {
        self.pending.consumers(alloc, now)
    }

    /// The consumers with their moments, in the order of their names, lent one by one.
    pub fn iter_consumers(&self) -> LentConsumers<'_>
        ensures { result ≡ self.now.consumers.entries }
    {
        self.pending.iter_consumers()
    }

    /// The pending rows, in the order of their ids, lent one by one.
    pub fn iter_rows(&self) -> LentRows<'_>
        ensures rest { result ≡ self.now.rows.entries }
        ensures consistent { IsConsistentGroup self.now }
    {
        self.pending.iter_rows()
    }

    /// Whether the consumer is in the group.
    pub fn has_consumer(&self, consumer: &Bytes) -> bool
        ensures { result ≡ has_name self.now.consumers consumer.now }
    {
        self.pending.has_consumer(consumer)
    }

    /// The number of consumers.
    pub fn count_consumers(&self) -> u64
        ensures value { result ≡ length self.now.consumers.entries }
        ensures small { result < 2 ^ 63 }
    {
        self.pending.count_consumers() as u64
    }

    /// The number of pending entries.
    pub fn count_pending(&self) -> u64
        ensures value { result ≡ length self.now.rows.entries }
        ensures small { result < 2 ^ 63 }
    {
        self.pending.len() as u64
    }

    /// Removes these ids from the pending entries, and returns how many were pending (XACK). It takes no memory.
    pub fn ack(&mut self, ids: &[Id]) -> u64
        ensures rows { self.new ≡ group_after_ack ids.now self.old }
        ensures count { result + length self.new.rows.entries ≡ length self.old.rows.entries }
        ensures small { result < 2 ^ 63 }
    {
        let before = self.pending.len();
        self.pending.take_all(ids);
        (before - self.pending.len()) as u64
    }

    /// Creates a consumer, and returns whether it is new (XGROUP CREATECONSUMER).
    pub fn add_consumer(
        &mut self,
        alloc: Global,
        consumer: &Bytes,
        now: Moment,
    ) -> Result<bool, AllocError>
        ensures made { IfOk result (λ made. made ≡ not (has_name self.old.consumers consumer.now)) }
        ensures ok { OnOk result (self.new ≡ with_consumer consumer.now now self.old) }
        ensures err { OnErr result (self.new ≡ self.old) }
    {
        let name_bytes = self.name_bytes_with(consumer)?;
        let made = self.pending.add_consumer(alloc, consumer, now)?;
        self.name_bytes = either(made, name_bytes, self.name_bytes);
        Ok(made)
    }

    /// Removes a consumer with its pending entries, and returns their number (XGROUP DELCONSUMER). It takes no memory.
    pub fn remove_consumer(&mut self, consumer: &Bytes) -> u64
        ensures rows { self.new ≡ without_consumer consumer.now self.old }
        ensures count { result ≡ owned_count consumer.now self.old }
        ensures small { result < 2 ^ 63 }
    {
        let there = self.pending.has_consumer(consumer);
        let count = self.pending.remove_consumer(consumer);
        self.name_bytes -= either(there, consumer.len() as u64, 0);
        count
    }

    /// Appends a pending row after the others, with its time and its count, to a group that is read from a snapshot.
    /// Returns whether it did. It refuses, and changes nothing, if the consumer isn't in the group, or the id is above
    /// the cursor or not above those of all rows.
    pub fn restore_row(
        &mut self,
        alloc: Global,
        id: Id,
        consumer: &Bytes,
        time: Moment,
        count: U63,
    ) -> Result<bool, AllocError>
        ensures next { IfOk result (λ put. put ≡ is_next_row consumer.now id self.old) }
        ensures ok { IfOk result (λ put. put ≡ true → self.new
            ≡ with_row id (record { consumer = consumer.now; time = time; count = count }) self.old) }
        ensures behind { IfOk result (λ put. put ≡ true → self.new.rows.entries ≡ self.old.rows.entries
            ++ (id, record { consumer = consumer.now; time = time; count = count }) ∷ []) }
        ensures refused { IfOk result (λ put. put ≡ false → self.new ≡ self.old) }
        ensures err { OnErr result (self.new ≡ self.old) }
    {
        if !self.can_be_next(consumer, id) {
            return Ok(false);
        }
        self.pending
            .put(alloc, consumer, id, Touch { time, count })?;
        Ok(true)
    }

    /// Whether the consumer may get the next row, at this id.
    fn can_be_next(&self, consumer: &Bytes, id: Id) -> bool
        ensures { result ≡ is_next_row consumer.now id self.now }
    {
        self.pending.has_consumer(consumer) && id <= self.cursor && self.pending.is_past_rows(id)
    }

    /// Delivers the entries above the cursor to a consumer, which is created if it is missing (XREADGROUP with `>`).
    /// With `noack` they don't become pending.
    pub fn deliver<'a>(
        &mut self,
        alloc: Global,
        stream: &'a Stream,
        consumer: &Bytes,
        now: Moment,
        limit: Option<u64>,
        noack: bool,
    ) -> Result<GroupRead<'a>, AllocError>
        ensures answer { IfOk result (λ read. read.delivery
            ≡ delivery_of consumer.now limit noack (ids_of stream.now.entries) self.old) }
        ensures found { IfOk result (λ read. AreEntriesOf stream.now.entries read.entries) }
        ensures undoable { IfOk result (λ read. IsMade self.old self.new read.delivery) }
        ensures ok { OnOk result (self.new
            ≡ group_after_delivery consumer.now now limit noack (ids_of stream.now.entries) self.old) }
        ensures err { OnErr result (self.new ≡ self.old) }
    {
        let cursor_before = self.cursor;
        let entries = stream.past(alloc, cursor_before, limit)?;
        let ids = ids_of(alloc, entries.as_slice())?;
        let rows = reading::new_rows(alloc, ids.as_slice())?;
        let text = Bytes::from_slice(alloc, consumer.as_slice())?;
        let seen_before = self.pending.seen_at(consumer);
        let created = self.receive(alloc, consumer, now, ids.as_slice(), noack)?;
        let delivery = Delivery {
            consumer: text,
            created,
            seen_before,
            cursor_before,
            kind: kind_of(noack),
            rows: List::new(rows),
        };
        Ok(GroupRead { delivery, entries })
    }

    /// Shows a consumer its own pending entries above an id, and delivers those that are in the stream once more
    /// (XREADGROUP with an id). The consumer is created if it is missing.
    pub fn history<'a>(
        &mut self,
        alloc: Global,
        stream: &'a Stream,
        consumer: &Bytes,
        now: Moment,
        from: Id,
        limit: Option<u64>,
    ) -> Result<GroupRead<'a>, AllocError>
        ensures answer { IfOk result (λ read. read.delivery
            ≡ history_of consumer.now limit from (ids_of stream.now.entries) self.old) }
        ensures found { IfOk result (λ read. AreEntriesOf stream.now.entries read.entries) }
        ensures undoable { IfOk result (λ read. IsMade self.old self.new read.delivery) }
        ensures ok { OnOk result (self.new
            ≡ group_after_reread consumer.now now limit from (ids_of stream.now.entries) self.old) }
        ensures err { OnErr result (self.new ≡ self.old) }
    {
        let cursor_before = self.cursor;
        let ids = self.pending.own_ids(alloc, consumer, from, limit)?;
        let entries = stream.entries_along(alloc, ids.as_slice())?;
        let rows = self
            .pending
            .shown_rows(alloc, stream, entries.as_slice(), ids.as_slice())?;
        let text = Bytes::from_slice(alloc, consumer.as_slice())?;
        let name_bytes = self.name_bytes_with(consumer)?;
        let seen_before = self.pending.seen_at(consumer);
        let created = self.pending.add_consumer(alloc, consumer, now)?;
        self.name_bytes = either(created, name_bytes, self.name_bytes);
        self.pending.redeliver(consumer, now, rows.as_slice());
        let delivery = Delivery {
            consumer: text,
            created,
            seen_before,
            cursor_before,
            kind: DeliveryKind::History,
            rows: List::new(rows),
        };
        Ok(GroupRead { delivery, entries })
    }

    /// Undoes the read that returned this delivery, if it was the last call that changed the group: cursor, consumers
    /// and rows are as before it. It takes no memory.
    pub fn undo(&mut self, delivery: Delivery)
        requires { (before : GroupState) × IsMade before self.old delivery }
        ensures { (before : GroupState) → IsMade before self.old delivery → self.new ≡ before }
    {
        let there = self.pending.has_consumer(&delivery.consumer);
        let name = either(there, delivery.consumer.len() as u64, 0);
        self.pending.undo(&delivery);
        self.cursor = delivery.cursor_before;
        self.name_bytes -= either(delivery.seen_before.is_none(), name, 0);
    }

    /// The entries that a claim of these ids takes and removes (XCLAIM). It changes nothing.
    pub fn find_claim(
        &self,
        alloc: Global,
        stream: &Stream,
        now: Moment,
        rule: &ClaimRule,
        ids: &[Id],
    ) -> Result<Claim, AllocError>
        ensures { IfOk result (λ claim. claim
            ≡ claim_by_ids self.now.rows.entries (ids_of stream.now.entries) now rule.now ids.now) }
    {
        let distinct = claims::without_repeats(alloc, ids)?;
        let terms = ClaimTerms {
            moment: now,
            rule: *rule,
        };
        self.pending
            .claim_among(alloc, stream, &terms, distinct.as_slice())
    }

    /// The entries that a claim of the pending entries from a start upwards takes and removes, and where the next one
    /// goes on (XAUTOCLAIM). It stops after `limit` entries to take or remove, or after 10 times `limit` in all. It
    /// changes nothing.
    pub fn scan(
        &self,
        alloc: Global,
        stream: &Stream,
        now: Moment,
        rule: &ClaimRule,
        start: Id,
        limit: u64,
    ) -> Result<Scan, AllocError>
        ensures { IfOk result (λ scan. scan
            ≡ scan_of self.now.rows.entries (ids_of stream.now.entries) now rule.now start limit) }
    {
        let terms = ClaimTerms {
            moment: now,
            rule: *rule,
        };
        self.pending.scan(alloc, stream, &terms, start, limit)
    }

    /// Carries out a claim that `find_claim` or `scan` found on this group in its present state, at the same moment and
    /// by the same rule. The consumer is created if it is missing.
    pub fn settle(
        &mut self,
        alloc: Global,
        consumer: &Bytes,
        now: Moment,
        rule: &ClaimRule,
        claim: &Claim,
    ) -> Result<(), AllocError>
        requires { IsClaimOn self.old now rule.now claim.now }
        ensures ok { OnOk result (self.new ≡ group_after_claim consumer.now now rule.now claim.now self.old) }
        ensures err { OnErr result (self.new ≡ self.old) }
    {
        let terms = ClaimTerms {
            moment: now,
            rule: *rule,
        };
        let there = self.pending.has_consumer(consumer);
        let name_bytes = self.name_bytes_with(consumer)?;
        self.pending.settle(alloc, consumer, &terms, claim)?;
        self.name_bytes = either(there, self.name_bytes, name_bytes);
        Ok(())
    }

    /// The number of pending entries, the least and the greatest of their ids, and their consumers (XPENDING, short
    /// form).
    pub fn summary(&self, alloc: Global) -> Result<GroupSummary, AllocError>
        ensures { IfOk result (λ summary. summary ≡ summary_of self.now) }
    {
        self.pending.summary(alloc)
    }

    /// The pending entries of a range that are idle for at least `min_idle` milliseconds, at most `limit` of them; if a
    /// consumer is given, only its own (XPENDING, long form).
    pub fn pending(
        &self,
        alloc: Global,
        range: Range,
        min_idle: u64,
        now: Moment,
        limit: u64,
        consumer: Option<&Bytes>,
    ) -> Result<Vec<PendingRow>, AllocError>
        ensures { IfOk result (λ rows. rows.items
            ≡ pending_of range min_idle now limit (option_map (λ c. c.now) consumer.entry) self.now) }
    {
        if range.high < range.low {
            return Ok(Vec::new(alloc));
        }
        let selection = Selection {
            range,
            min_idle,
            moment: now,
            limit,
        };
        match consumer {
            Some(name) => self.pending.owned_within(alloc, &selection, name),
            None => self.pending.all_within(alloc, &selection),
        }
    }

    /// Moves the cursor past these ids, and makes them pending unless `noack` is set.
    fn receive(
        &mut self,
        alloc: Global,
        consumer: &Bytes,
        now: Moment,
        ids: &[Id],
        noack: bool,
    ) -> Result<bool, AllocError>
        requires above { AllAbove self.old.cursor ids.now }
        requires ascends { Ascends ids.now }
        ensures consistent { OnOk result (IsConsistentGroup self.old) }
        ensures made { IfOk result (λ made. made ≡ not (has_name self.old.consumers consumer.now)) }
        ensures ok { OnOk result (self.new ≡ group_after_read consumer.now now noack ids.now self.old) }
        ensures err { OnErr result (self.new ≡ self.old) }
    {
        let last = reading::last_id(self.cursor, ids);
        let name_bytes = self.name_bytes_with(consumer)?;
        if noack {
            let made = self.pending.add_consumer(alloc, consumer, now)?;
            self.pending.give(consumer, now, !ids.is_empty());
            self.cursor = last;
            self.name_bytes = either(made, name_bytes, self.name_bytes);
            return Ok(made);
        }
        let made = self.pending.deliver(alloc, consumer, now, ids)?;
        self.cursor = last;
        self.name_bytes = either(made, name_bytes, self.name_bytes);
        Ok(made)
    }
}

fn kind_of(noack: bool) -> DeliveryKind
    ensures { result ≡ kind_of noack }
{
    if noack {
        return DeliveryKind::NoAck;
    }
    DeliveryKind::New
}

/// `one` if `first` is true, else `other`.
fn either(first: bool, one: u64, other: u64) -> u64
    ensures { result ≡ (if first then one else other) }
{
    if first {
        return one;
    }
    other
}
