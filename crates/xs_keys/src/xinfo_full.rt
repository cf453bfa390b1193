//! XINFO STREAM with FULL.
ghost use Rattle.std.specs.Prelude.{◌≡◌, ◌++◌, map, length, codes, Some, None, IfOk, OnOk};
ghost use Rattle.std.specs.List.{flat_map};
ghost use Rattle.xs_command.specs.declared.command.Inspection.TheVariants.{StreamInFull};
ghost use Rattle.xs_stream.specs.StreamContent.{state_of};
ghost use Rattle.xs_group.specs.Report.{consumer_reports};
ghost use Rattle.xs_resp.specs.ReplyItems.{tokens_of};
ghost use Rattle.xs_keys.specs.KeysRoom.{key_state_of};
ghost use Rattle.xs_keys.specs.ReplyParts.{present_reply};
ghost use Rattle.xs_keys.specs.InspectingInFull.{row_reply, own_row_reply, rows_part, consumer_part, listed_part};
ghost use Rattle.xs_keys.specs.InspectingInFull.{most_of, first_rows, whole_consumer_reply, whole_group_reply};
ghost use Rattle.xs_keys.specs.InspectingInFull.{whole_stream_reply};
ghost use Rattle.xs_keys.specs.Step.{Attempt};

use crate::keys::{Keys, Slot};
use crate::showing::{push_id, push_lent_entries};
use crate::xinfo::{WHOLE, first_id, push_number, push_past, push_progress, push_size};
use std::alloc::{AllocError, Global};
use xs_bytes::{Bytes, U63};
use xs_command::Command;
use xs_group::{ConsumerReport, Group, PendingRow};
use xs_resp::{Fault, Replies, Reply, Tokens};
use xs_stream::{Entry, Moment, Stream};

/// The number of tokens of a stream, without its entries and groups.
const STREAM_TOKENS: usize = 20;

/// The arguments: at most `limit` of each list, at a moment.
#[derive(Clone, Copy)]
struct Asked {
    alloc: Global,
    moment: Moment,
    limit: Option<u64>,
}

impl Asked {
    /// The most rows.
    fn most(&self) -> u64
        ensures { result ≡ most_of self.now.limit }
    {
        self.limit.unwrap_or(u64::MAX)
    }
}

/// Appends a row of a group.
fn push_row(tokens: &mut Tokens, alloc: Global, row: PendingRow) -> Result<(), AllocError>
    ensures { OnOk result (tokens.new ≡ tokens.old ++ tokens_of (row_reply row)) }
{
    tokens.push_array(4)?;
    push_id(tokens, alloc, row.id)?;
    tokens.push_bulk(row.consumer.as_slice())?;
    tokens.push_int(U63::new(row.time.get()))?;
    tokens.push_int(row.count)
}

/// Appends rows of a group.
fn push_rows(tokens: &mut Tokens, alloc: Global, rows: Vec<PendingRow>) -> Result<(), AllocError>
    ensures { OnOk result (tokens.new ≡ tokens.old ++ flat_map tokens_of (map row_reply rows.items)) }
{
    for row in rows {
        push_row(tokens, alloc, row)?;
    }
    Ok(())
}

/// Appends the number of rows of a group, and the first of them.
fn push_group_rows(tokens: &mut Tokens, asked: &Asked, group: &Group) -> Result<(), AllocError>
    ensures { let first = first_rows asked.now.moment asked.now.limit None group.now in
        OnOk result (tokens.new ≡ tokens.old ++ flat_map tokens_of (rows_part (length group.now.rows.entries) first)) }
{
    let rows = group.pending(asked.alloc, WHOLE, 0, asked.moment, asked.most(), None)?;
    push_number(tokens, b"pel-count", group.count_pending())?;
    tokens.push_bulk(b"pending")?;
    tokens.push_array(rows.len())?;
    push_rows(tokens, asked.alloc, rows)
}

/// Appends a row of a consumer.
fn push_own_row(tokens: &mut Tokens, alloc: Global, row: PendingRow) -> Result<(), AllocError>
    ensures { OnOk result (tokens.new ≡ tokens.old ++ tokens_of (own_row_reply row)) }
{
    tokens.push_array(3)?;
    push_id(tokens, alloc, row.id)?;
    tokens.push_int(U63::new(row.time.get()))?;
    tokens.push_int(row.count)
}

/// Appends rows of a consumer.
fn push_own_rows(
    tokens: &mut Tokens,
    alloc: Global,
    rows: Vec<PendingRow>,
) -> Result<(), AllocError>
    ensures { OnOk result (tokens.new ≡ tokens.old ++ flat_map tokens_of (map own_row_reply rows.items)) }
{
    for row in rows {
        push_own_row(tokens, alloc, row)?;
    }
    Ok(())
}

/// Appends a consumer with its rows.
fn push_consumer(
    tokens: &mut Tokens,
    alloc: Global,
    consumer: ConsumerReport,
    rows: Vec<PendingRow>,
) -> Result<(), AllocError>
    ensures { OnOk result (tokens.new ≡ tokens.old ++ flat_map tokens_of (consumer_part consumer rows.items)) }
{
    tokens.push_bulk(b"name")?;
    tokens.push_bulk(consumer.consumer.as_slice())?;
    push_number(tokens, b"seen-time", consumer.seen.get())?;
    tokens.push_bulk(b"pel-count")?;
    tokens.push_int(consumer.pending)?;
    tokens.push_bulk(b"pending")?;
    tokens.push_array(rows.len())?;
    push_own_rows(tokens, alloc, rows)
}

/// Appends a consumer of a group with the first of its rows.
fn push_consumer_of(
    tokens: &mut Tokens,
    asked: &Asked,
    group: &Group,
    consumer: ConsumerReport,
) -> Result<(), AllocError>
    ensures { OnOk result (tokens.new ≡ tokens.old
        ++ tokens_of (whole_consumer_reply asked.now.moment asked.now.limit group.now consumer)) }
{
    let rows = group.pending(
        asked.alloc,
        WHOLE,
        0,
        asked.moment,
        asked.most(),
        Some(&consumer.consumer),
    )?;
    tokens.push_array(8)?;
    push_consumer(tokens, asked.alloc, consumer, rows)
}

/// Appends consumers of a group.
fn push_consumers(
    tokens: &mut Tokens,
    asked: &Asked,
    group: &Group,
    consumers: Vec<ConsumerReport>,
) -> Result<(), AllocError>
    ensures { let shown = map (whole_consumer_reply asked.now.moment asked.now.limit group.now) consumers.items in
        OnOk result (tokens.new ≡ tokens.old ++ flat_map tokens_of shown) }
{
    for consumer in consumers {
        push_consumer_of(tokens, asked, group, consumer)?;
    }
    Ok(())
}

/// Appends the consumers of a group.
fn push_group_consumers(tokens: &mut Tokens, asked: &Asked, group: &Group) -> Result<(), AllocError>
    ensures { let consumers = consumer_reports asked.now.moment group.now in
        let shown = map (whole_consumer_reply asked.now.moment asked.now.limit group.now) consumers in
        OnOk result (tokens.new ≡ tokens.old ++ flat_map tokens_of (listed_part (codes "consumers") shown)) }
{
    let consumers = group.consumers(asked.alloc, asked.moment)?;
    tokens.push_bulk(b"consumers")?;
    tokens.push_array(consumers.len())?;
    push_consumers(tokens, asked, group, consumers)
}

/// Appends a group of a stream.
fn push_group(
    tokens: &mut Tokens,
    asked: &Asked,
    stream: &Stream,
    name: &Bytes,
    group: &Group,
) -> Result<(), AllocError>
    ensures { OnOk result (tokens.new ≡ tokens.old ++ tokens_of
        (whole_group_reply asked.now.moment asked.now.limit (state_of stream.now) (name.now, group.now))) }
{
    tokens.push_array(14)?;
    tokens.push_bulk(b"name")?;
    tokens.push_bulk(name.as_slice())?;
    push_progress(tokens, asked.alloc, stream, group.cursor())?;
    push_group_rows(tokens, asked, group)?;
    push_group_consumers(tokens, asked, group)
}

/// Appends the groups of a key, in the order of their names.
fn push_groups(tokens: &mut Tokens, asked: &Asked, slot: &Slot) -> Result<(), AllocError>
    ensures { let group = whole_group_reply asked.now.moment asked.now.limit (state_of slot.now.stream) in
        OnOk result (tokens.new ≡ tokens.old ++ flat_map tokens_of (map group slot.now.groups.entries)) }
{
    for (name, group) in slot.groups.iter() {
        push_group(tokens, asked, &slot.stream, name, group)?;
    }
    Ok(())
}

/// Appends the groups of a key under their name.
fn push_groups_part(tokens: &mut Tokens, asked: &Asked, slot: &Slot) -> Result<(), AllocError>
    ensures { let group = whole_group_reply asked.now.moment asked.now.limit (state_of slot.now.stream) in
        let shown = map group slot.now.groups.entries in
        OnOk result (tokens.new ≡ tokens.old ++ flat_map tokens_of (listed_part (codes "groups") shown)) }
{
    tokens.push_bulk(b"groups")?;
    tokens.push_array(slot.groups.len())?;
    push_groups(tokens, asked, slot)
}

/// Appends entries that a stream lends under their name.
fn push_entries_part(
    tokens: &mut Tokens,
    alloc: Global,
    entries: &[Entry<'_>],
) -> Result<(), AllocError>
    ensures { let shown = map present_reply entries.now in
        OnOk result (tokens.new ≡ tokens.old ++ flat_map tokens_of (listed_part (codes "entries") shown)) }
{
    tokens.push_bulk(b"entries")?;
    tokens.push_array(entries.len())?;
    push_lent_entries(tokens, alloc, entries)
}

/// The reply about a stream, with its first entries and its groups.
fn stream_shown(asked: &Asked, slot: &Slot) -> Result<Reply, AllocError>
    ensures { IfOk result (λ reply. reply
        ≡ whole_stream_reply asked.now.moment asked.now.limit (key_state_of slot.now)) }
{
    let stream = &slot.stream;
    let first = stream.entries(asked.alloc, WHOLE, Some(1), false)?;
    let entries = stream.entries(asked.alloc, WHOLE, asked.limit, false)?;
    let mut tokens = Tokens::with_capacity(asked.alloc, STREAM_TOKENS)?;
    push_size(&mut tokens, stream)?;
    push_past(&mut tokens, asked.alloc, stream, first_id(&first))?;
    push_entries_part(&mut tokens, asked.alloc, entries.as_slice())?;
    push_groups_part(&mut tokens, asked, slot)?;
    Ok(Reply::Array(Replies::new(18, tokens)))
}

/// XINFO STREAM with FULL.
pub fn stream(
    keys: &Keys,
    alloc: Global,
    now: Moment,
    key: &Bytes,
    limit: Option<u64>,
) -> Result<Reply, AllocError>
    ensures { Attempt keys.now now (Command.Inspect (StreamInFull key.now limit)) result keys.now }
{
    let Some(slot) = keys.get(key) else {
        return Ok(Reply::Error(Fault::MissingKey));
    };
    let asked = Asked {
        alloc,
        moment: now,
        limit,
    };
    stream_shown(&asked, slot)
}
