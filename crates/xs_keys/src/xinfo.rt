//! XINFO.
ghost use Rattle.std.specs.Prelude.{◌≡◌, ◌++◌, ◌∷◌, [], ◌<◌, ◌^◌, map, min, IfOk, OnOk};
ghost use Rattle.std.specs.List.{flat_map};
ghost use Rattle.xs_command.specs.declared.command.Inspection.TheVariants.{Stream as OfStream, Groups as OfGroups};
ghost use Rattle.xs_command.specs.declared.command.Inspection.TheVariants.{Consumers as OfConsumers};
ghost use Rattle.xs_stream.specs.StreamContent.{state_of};
ghost use Rattle.xs_resp.specs.ReplyItems.{tokens_of};
ghost use Rattle.xs_group.specs.GroupState.{greatest_count};
ghost use Rattle.xs_keys.specs.KeysRoom.{key_state_of};
ghost use Rattle.xs_keys.specs.ReplyParts.{array};
ghost use Rattle.xs_keys.specs.Inspecting.{size_part, past_part, ends_part, end_reply, end_id, stream_reply};
ghost use Rattle.xs_keys.specs.Inspecting.{members_part, lag_of, read_reply, progress_part, group_reply, groups_reply};
ghost use Rattle.xs_keys.specs.Inspecting.{consumer_reply, consumers_reply};
ghost use Rattle.xs_keys.specs.Step.{Attempt, AttemptAtAnyTime};

use crate::keys::{Keys, Slot};
use crate::showing::{push_id, push_present};
use std::alloc::{AllocError, Global};
use xs_bytes::{Bytes, List, U63};
use xs_command::Command;
use xs_group::{ConsumerReport, Group};
use xs_resp::{Fault, Replies, Reply, Tokens};
use xs_stream::{Entry, Id, Moment, Range, Stream};

/// The number of tokens of a stream, without the fields of its ends.
const STREAM_TOKENS: usize = 28;

/// All ids.
pub(crate) const WHOLE: Range = Range {
    low: Id::ZERO,
    high: Id::GREATEST,
};

/// The number of tokens of a group.
const GROUP_TOKENS: usize = 13;

/// A number as it is reported: one above 63 bits as the greatest of 63 bits.
fn reported_number(number: u128) -> u64
    ensures value { result ≡ min number greatest_count }
    ensures small { result < 2 ^ 63 }
{
    number.min(U63::MAX as u128) as u64
}

/// Appends the name of a number, and the number.
pub(crate) fn push_number(tokens: &mut Tokens, name: &[u8], number: u64) -> Result<(), AllocError>
    requires { number < 2 ^ 63 }
    ensures { OnOk result (tokens.new ≡ tokens.old ++ (tokens_of (Reply.Bulk name.now) ++ tokens_of (Reply.Int number))) }
{
    tokens.push_bulk(name)?;
    tokens.push_int(U63::new(number))
}

/// Appends a group's name, and the numbers of its consumers and of its pending entries.
fn push_members(tokens: &mut Tokens, name: &Bytes, group: &Group) -> Result<(), AllocError>
    ensures { OnOk result (tokens.new ≡ tokens.old ++ flat_map tokens_of (members_part (name.now, group.now))) }
{
    tokens.push_bulk(b"name")?;
    tokens.push_bulk(name.as_slice())?;
    push_number(tokens, b"consumers", group.count_consumers())?;
    push_number(tokens, b"pending", group.count_pending())
}

/// Appends the number of entries ever added up to the cursor of a group, or the null string if the cursor gives no
/// number. `lag` entries are above the cursor.
fn push_read(tokens: &mut Tokens, stream: &Stream, cursor: Id, lag: u64) -> Result<(), AllocError>
    requires { lag ≡ lag_of (state_of stream.now) cursor }
    ensures { OnOk result (tokens.new ≡ tokens.old ++ tokens_of (read_reply (state_of stream.now) cursor)) }
{
    if cursor == Id::ZERO || stream.top() < cursor || cursor < stream.deleted() {
        return tokens.push_null_bulk();
    }
    let read = stream.added().saturating_sub(u128::from(lag));
    tokens.push_int(U63::new(reported_number(read)))
}

/// Appends the progress of a group with this cursor in a stream.
pub(crate) fn push_progress(
    tokens: &mut Tokens,
    alloc: Global,
    stream: &Stream,
    cursor: Id,
) -> Result<(), AllocError>
    ensures { OnOk result (tokens.new ≡ tokens.old
        ++ flat_map tokens_of (progress_part (state_of stream.now) cursor)) }
{
    let lag = stream.count_past(cursor);
    tokens.push_bulk(b"last-delivered-id")?;
    push_id(tokens, alloc, cursor)?;
    tokens.push_bulk(b"entries-read")?;
    push_read(tokens, stream, cursor, lag)?;
    push_number(tokens, b"lag", lag)
}

/// Appends a group of a stream.
fn push_group(
    tokens: &mut Tokens,
    alloc: Global,
    stream: &Stream,
    name: &Bytes,
    group: &Group,
) -> Result<(), AllocError>
    ensures { OnOk result (tokens.new ≡ tokens.old
        ++ tokens_of (group_reply (state_of stream.now) (name.now, group.now))) }
{
    tokens.push_array(12)?;
    push_members(tokens, name, group)?;
    push_progress(tokens, alloc, stream, group.cursor())
}

/// Appends the groups of a key, in the order of their names.
fn push_groups(tokens: &mut Tokens, alloc: Global, slot: &Slot) -> Result<(), AllocError>
    ensures { OnOk result (tokens.new ≡ tokens.old
        ++ flat_map tokens_of (map (group_reply (state_of slot.now.stream)) slot.now.groups.entries)) }
{
    for (name, group) in slot.groups.iter() {
        push_group(tokens, alloc, &slot.stream, name, group)?;
    }
    Ok(())
}

/// The groups of a key.
fn groups_shown(alloc: Global, slot: &Slot) -> Result<Reply, AllocError>
    ensures { IfOk result (λ reply. reply ≡ groups_reply (key_state_of slot.now)) }
{
    let count = slot.groups.len();
    let mut tokens = Tokens::with_capacity(alloc, count.saturating_mul(GROUP_TOKENS))?;
    push_groups(&mut tokens, alloc, slot)?;
    Ok(Reply::Array(Replies::new(count, tokens)))
}

/// XINFO GROUPS.
pub fn groups(keys: &Keys, alloc: Global, key: &Bytes) -> Result<Reply, AllocError>
    ensures { AttemptAtAnyTime keys.now (Command.Inspect (OfGroups key.now)) result keys.now }
{
    let Some(slot) = keys.get(key) else {
        return Ok(Reply::Error(Fault::MissingKey));
    };
    groups_shown(alloc, slot)
}

/// The number of tokens of a consumer.
const CONSUMER_TOKENS: usize = 7;

/// Appends a consumer.
fn push_consumer(tokens: &mut Tokens, consumer: ConsumerReport) -> Result<(), AllocError>
    ensures { OnOk result (tokens.new ≡ tokens.old ++ tokens_of (consumer_reply consumer)) }
{
    tokens.push_array(6)?;
    tokens.push_bulk(b"name")?;
    tokens.push_bulk(consumer.consumer.as_slice())?;
    tokens.push_bulk(b"pending")?;
    tokens.push_int(consumer.pending)?;
    tokens.push_bulk(b"idle")?;
    tokens.push_int(consumer.idle)
}

/// Appends consumers.
fn push_consumers(tokens: &mut Tokens, consumers: Vec<ConsumerReport>) -> Result<(), AllocError>
    ensures { OnOk result (tokens.new ≡ tokens.old ++ flat_map tokens_of (map consumer_reply consumers.items)) }
{
    for consumer in consumers {
        push_consumer(tokens, consumer)?;
    }
    Ok(())
}

/// These consumers.
fn consumers_shown(alloc: Global, consumers: Vec<ConsumerReport>) -> Result<Reply, AllocError>
    ensures { IfOk result (λ reply. reply ≡ array (map consumer_reply consumers.items)) }
{
    let count = consumers.len();
    let mut tokens = Tokens::with_capacity(alloc, count.saturating_mul(CONSUMER_TOKENS))?;
    push_consumers(&mut tokens, consumers)?;
    Ok(Reply::Array(Replies::new(count, tokens)))
}

/// The consumers of a group, at a moment.
fn consumers_of(alloc: Global, now: Moment, group: &Group) -> Result<Reply, AllocError>
    ensures { IfOk result (λ reply. reply ≡ consumers_reply now group.now) }
{
    let consumers = group.consumers(alloc, now)?;
    consumers_shown(alloc, consumers)
}

/// XINFO CONSUMERS.
pub fn consumers(
    keys: &Keys,
    alloc: Global,
    now: Moment,
    key: &Bytes,
    name: &Bytes,
) -> Result<Reply, AllocError>
    ensures { Attempt keys.now now (Command.Inspect (OfConsumers key.now name.now)) result keys.now }
{
    let Some(slot) = keys.get(key) else {
        return Ok(Reply::Error(Fault::MissingKey));
    };
    let Some(group) = slot.groups.get(name) else {
        return Ok(Reply::Error(Fault::NoGroup));
    };
    consumers_of(alloc, now, group)
}

/// Appends the first entry or the last one, or the null string if there is none.
fn push_end(tokens: &mut Tokens, alloc: Global, end: &List<Entry<'_>>) -> Result<(), AllocError>
    ensures { OnOk result (tokens.new ≡ tokens.old ++ tokens_of (end_reply end.now)) }
{
    match end.as_slice().first() {
        Some(entry) => push_present(tokens, alloc, entry),
        None => tokens.push_null_bulk(),
    }
}

/// Appends the number of entries of a stream.
pub(crate) fn push_size(tokens: &mut Tokens, stream: &Stream) -> Result<(), AllocError>
    ensures { OnOk result (tokens.new ≡ tokens.old ++ flat_map tokens_of (size_part stream.now.entries)) }
{
    let length = stream.len() as u64;
    let nodes = length.min(1);
    push_number(tokens, b"length", length)?;
    push_number(tokens, b"radix-tree-keys", nodes)?;
    push_number(tokens, b"radix-tree-nodes", nodes + 1)
}

/// Appends the past of a stream, and the id of its first entry.
pub(crate) fn push_past(
    tokens: &mut Tokens,
    alloc: Global,
    stream: &Stream,
    first: Id,
) -> Result<(), AllocError>
    ensures { OnOk result (tokens.new ≡ tokens.old
        ++ flat_map tokens_of (past_part (state_of stream.now) first)) }
{
    let added = reported_number(stream.added());
    tokens.push_bulk(b"last-generated-id")?;
    push_id(tokens, alloc, stream.top())?;
    tokens.push_bulk(b"max-deleted-entry-id")?;
    push_id(tokens, alloc, stream.deleted())?;
    push_number(tokens, b"entries-added", added)?;
    tokens.push_bulk(b"recorded-first-entry-id")?;
    push_id(tokens, alloc, first)
}

/// Appends the number of groups of a stream, and its ends.
fn push_ends(
    tokens: &mut Tokens,
    alloc: Global,
    groups: u64,
    first: &List<Entry<'_>>,
    last: &List<Entry<'_>>,
) -> Result<(), AllocError>
    requires { groups < 2 ^ 63 }
    ensures { OnOk result (tokens.new ≡ tokens.old ++ flat_map tokens_of (ends_part groups first.now last.now)) }
{
    push_number(tokens, b"groups", groups)?;
    tokens.push_bulk(b"first-entry")?;
    push_end(tokens, alloc, first)?;
    tokens.push_bulk(b"last-entry")?;
    push_end(tokens, alloc, last)
}

/// The id of the first of these entries, or `0-0`.
pub(crate) fn first_id(entries: &List<Entry<'_>>) -> Id
    ensures { result ≡ end_id entries.now }
{
    match entries.as_slice().first() {
        Some(entry) => entry.id(),
        None => Id::ZERO,
    }
}

/// The reply about a stream.
fn stream_shown(alloc: Global, slot: &Slot) -> Result<Reply, AllocError>
    ensures { IfOk result (λ reply. reply ≡ stream_reply (key_state_of slot.now)) }
{
    let stream = &slot.stream;
    let first = stream.entries(alloc, WHOLE, Some(1), false)?;
    let last = stream.entries(alloc, WHOLE, Some(1), true)?;
    let mut tokens = Tokens::with_capacity(alloc, STREAM_TOKENS)?;
    push_size(&mut tokens, stream)?;
    push_past(&mut tokens, alloc, stream, first_id(&first))?;
    push_ends(&mut tokens, alloc, slot.groups.len() as u64, &first, &last)?;
    Ok(Reply::Array(Replies::new(20, tokens)))
}

/// XINFO STREAM.
pub fn stream(keys: &Keys, alloc: Global, key: &Bytes) -> Result<Reply, AllocError>
    ensures { AttemptAtAnyTime keys.now (Command.Inspect (OfStream key.now)) result keys.now }
{
    let Some(slot) = keys.get(key) else {
        return Ok(Reply::Error(Fault::MissingKey));
    };
    stream_shown(alloc, slot)
}
