//! XREADGROUP.
ghost use Rattle.std.specs.Prelude.{◌≡◌, ◌++◌, ◌==◌, true, is_some, map, length, IfOk, OnOk, OnErr};
ghost use Rattle.std.specs.List.{flat_map};
ghost use Rattle.xs_bytes.specs.SortedMap.{get};
ghost use Rattle.xs_stream.specs.StreamContent.{ids_of, AreEntriesOf};
ghost use Rattle.xs_group.specs.Deliveries.{IsMade, row_ids};
ghost use Rattle.xs_keys.specs.GroupLife.{ask_of_read};
ghost use Rattle.xs_keys.specs.Content.{Content};
ghost use Rattle.xs_keys.specs.ContentAfter.{group_after, group_in, has_all_groups_in, after_reads};
ghost use Rattle.xs_resp.specs.ReplyItems.{tokens_of};
ghost use Rattle.xs_keys.specs.ReplyParts.{array_or_null, entry_reply, stream_part};
ghost use Rattle.xs_keys.specs.Reply.{parts};
ghost use Rattle.xs_keys.specs.Reading.{ids_shown, part_of, IsShown, IsServedAt, IsMadeAt, AreMade, at_most_one};
ghost use Rattle.xs_keys.specs.Step.{Attempt};
ghost use Rattle.xs_keys.specs.Waiting.{finds_none_in, finds_nothing};
ghost use Rattle.xs_group.specs.GroupState.{new_ids};

use crate::keys::{Keys, group_at};
use crate::let_group::let_group;
use crate::showing::{ENTRY_TOKENS, push_along};
use std::alloc::{AllocError, Global};
use xs_bytes::Bytes;
use xs_command::{Command, ReadFrom, ReadGroupCommand, ReadOne};
use xs_group::{Delivery, Group, GroupRead};
use xs_resp::{Fault, Replies, Reply, Tokens};
use xs_stream::{Id, Moment, Stream};

/// A read of one group: what undoes it, and the number of its parts of the reply, none or one.
#[derive(Drop)]
pub struct Served {
    pub delivery: Delivery,
    pub parts: usize,
}

/// Reads a group.
fn read_group<'a>(
    group: &mut Group,
    alloc: Global,
    stream: &'a Stream,
    now: Moment,
    read: &ReadGroupCommand,
    from: ReadFrom,
) -> Result<GroupRead<'a>, AllocError>
    ensures ok { OnOk result (group.new
        ≡ group_after now (ids_of stream.now.entries) (ask_of_read read.now from) group.old) }
    ensures rows { IfOk result (λ group_read. row_ids group_read.delivery.rows
        ≡ ids_shown read.now from (ids_of stream.now.entries) group.old) }
    ensures found { IfOk result (λ group_read. AreEntriesOf stream.now.entries group_read.entries) }
    ensures made { IfOk result (λ group_read. IsMade group.old group.new group_read.delivery) }
    ensures err { OnErr result (group.new ≡ group.old) }
{
    match from {
        ReadFrom::New => group.deliver(alloc, stream, &read.consumer, now, read.limit, read.noack),
        ReadFrom::After(id) => group.history(alloc, stream, &read.consumer, now, id, read.limit),
    }
}

/// Appends the entries of the rows of a read.
fn push_rows(
    tokens: &mut Tokens,
    alloc: Global,
    stream: &Stream,
    group_read: &GroupRead<'_>,
) -> Result<(), AllocError>
    requires { AreEntriesOf stream.now.entries group_read.now.entries }
    ensures { OnOk result (tokens.new ≡ tokens.old
        ++ flat_map tokens_of (map (entry_reply stream.now.entries) (row_ids group_read.now.delivery.rows))) }
{
    let rows = group_read.delivery.rows.as_slice();
    let lent = group_read.entries.as_slice();
    tokens.reserve(rows.len().saturating_mul(ENTRY_TOKENS))?;
    for (place, row) in rows.iter().enumerate() {
        push_along(tokens, alloc, stream, lent, place, row.id)?;
    }
    Ok(())
}

/// Appends a key, and the entries of the rows of a read.
fn push_stream(
    tokens: &mut Tokens,
    alloc: Global,
    stream: &Stream,
    key: &Bytes,
    group_read: &GroupRead<'_>,
) -> Result<(), AllocError>
    requires { AreEntriesOf stream.now.entries group_read.now.entries }
    ensures { OnOk result (tokens.new ≡ tokens.old
        ++ tokens_of (stream_part key.now stream.now.entries (row_ids group_read.now.delivery.rows))) }
{
    tokens.push_array(2)?;
    tokens.push_bulk(key.as_slice())?;
    tokens.push_array(group_read.delivery.rows.len())?;
    push_rows(tokens, alloc, stream, group_read)
}

/// Appends a read's part of the reply, and returns the number of parts: a read without new entries has none.
fn push_part(
    tokens: &mut Tokens,
    alloc: Global,
    stream: &Stream,
    key: &Bytes,
    from: ReadFrom,
    group_read: &GroupRead<'_>,
) -> Result<usize, AllocError>
    requires { AreEntriesOf stream.now.entries group_read.now.entries }
    ensures { let shown = part_of from key.now stream.now.entries (row_ids group_read.now.delivery.rows) in
        IfOk result (λ parts. IsShown shown parts tokens.old tokens.new) }
{
    if matches!(from, ReadFrom::New) && group_read.delivery.rows.is_empty() {
        return Ok(0);
    }
    push_stream(tokens, alloc, stream, key, group_read)?;
    Ok(1)
}

/// Serves one read among the keys, and appends its part of the reply. If memory runs out for that, the read is undone.
fn serve_at(
    keys: &mut Keys,
    alloc: Global,
    now: Moment,
    read: &ReadGroupCommand,
    one: &ReadOne,
    tokens: &mut Tokens,
) -> Result<Served, AllocError>
    requires { is_some (group_in (get keys.old one.now.key) read.now.group) ≡ true }
    ensures ok { IfOk result (IsServedAt now read.now one.now keys.old keys.new tokens.old tokens.new) }
    ensures err { OnErr result (keys.new ≡ keys.old) }
{
    let_group!(slot, group = keys, &one.key, &read.group, else { unreachable!() });
    let before = group.room();
    let group_read = read_group(group, alloc, &slot.stream, now, read, one.from)?;
    match push_part(tokens, alloc, &slot.stream, &one.key, one.from, &group_read) {
        Ok(parts) => {
            keys.account.change(before, group.room());
            Ok(Served {
                delivery: group_read.delivery,
                parts,
            })
        }
        Err(error) => {
            group.undo(group_read.delivery);
            Err(error)
        }
    }
}

/// Undoes a read of a group of one of these keys, if it was the last one.
fn undo_at(keys: &mut Keys, key: &Bytes, group: &Bytes, delivery: Delivery)
    requires { (before : Content) × IsMadeAt group.now key.now before keys.old delivery }
    ensures { (before : Content) → IsMadeAt group.now key.now before keys.old delivery → keys.new ≡ before }
{
    let_group!(slot, group = keys, key, group, else { unreachable!() });
    let before = group.room();
    group.undo(delivery);
    keys.account.change(before, group.room());
}

/// Undoes reads, the last first.
fn undo_all(keys: &mut Keys, reads: &[ReadOne], group: &Bytes, deliveries: Vec<Delivery>)
    requires { (first : Content) × AreMade group.now reads.now deliveries.items first keys.old }
    ensures { (first : Content) → AreMade group.now reads.now deliveries.items first keys.old → keys.new ≡ first }
{
    let mut left = deliveries;
    while let Some(delivery) = left.pop() {
        undo_at(keys, &reads[left.len()].key, group, delivery);
    }
}

/// Serves the reads one after the other. If memory runs out, all of them are undone.
fn serve_all(
    keys: &mut Keys,
    alloc: Global,
    now: Moment,
    read: &ReadGroupCommand,
) -> Result<Reply, AllocError>
    requires { has_all_groups_in keys.old read.now ≡ true }
    ensures content { OnOk result (keys.new ≡ after_reads keys.old now read.now read.now.reads) }
    ensures answer { IfOk result (λ reply. reply ≡ array_or_null (parts keys.old now read.now read.now.reads)) }
    ensures err { OnErr result (keys.new ≡ keys.old) }
{
    let reads = read.reads.as_slice();
    let mut deliveries = Vec::with_capacity(alloc, reads.len())?;
    let mut tokens = Tokens::new(alloc);
    let mut parts = 0usize;
    for one in reads {
        match serve_at(keys, alloc, now, read, one, &mut tokens) {
            Ok(served) => {
                deliveries.push(served.delivery).unwrap();
                parts += served.parts;
            }
            Err(error) => {
                undo_all(keys, reads, &read.group, deliveries);
                return Err(error);
            }
        }
    }
    if parts == 0 {
        return Ok(Reply::NullArray);
    }
    Ok(Reply::Array(Replies::new(parts, tokens)))
}

/// Whether each key and group of a read exists.
fn all_there(keys: &Keys, read: &ReadGroupCommand) -> bool
    ensures { result ≡ has_all_groups_in keys.now read.now }
{
    for one in read.reads.as_slice() {
        if group_at(keys, &one.key, &read.group).is_none() {
            return false;
        }
    }
    true
}

/// XREADGROUP.
pub fn read(
    keys: &mut Keys,
    alloc: Global,
    now: Moment,
    read: &ReadGroupCommand,
) -> Result<Reply, AllocError>
    ensures { Attempt keys.old now (Command.ReadGroup read.now) result keys.new }
{
    if !all_there(keys, read) {
        return Ok(Reply::Error(Fault::NoGroup));
    }
    serve_all(keys, alloc, now, read)
}

/// One, unless the limit is zero: the first new entry shows whether a read delivers any.
fn at_most_one(limit: Option<u64>) -> Option<u64>
    ensures { result ≡ at_most_one limit }
{
    let Some(count) = limit else {
        return Some(1);
    };
    if count == 0 {
        return Some(0);
    }
    Some(1)
}

/// Whether a read past this cursor would deliver nothing.
fn has_none_past(
    stream: &Stream,
    alloc: Global,
    cursor: Id,
    limit: Option<u64>,
) -> Result<bool, AllocError>
    ensures { IfOk result (λ none. none ≡ (length (new_ids limit cursor (ids_of stream.now.entries)) == 0)) }
{
    let first = stream.past(alloc, cursor, at_most_one(limit))?;
    Ok(first.is_empty())
}

/// Whether one key is read from `>`, the group exists, and nothing is new to it.
fn finds_none(
    keys: &Keys,
    alloc: Global,
    read: &ReadGroupCommand,
    one: &ReadOne,
) -> Result<bool, AllocError>
    ensures { IfOk result (λ none. none ≡ finds_none_in read.now one.now (get keys.now one.now.key)) }
{
    let ReadFrom::New = one.from else {
        return Ok(false);
    };
    let Some(slot) = keys.get(&one.key) else {
        return Ok(false);
    };
    let Some(group) = slot.groups.get(&read.group) else {
        return Ok(false);
    };
    has_none_past(&slot.stream, alloc, group.cursor(), read.limit)
}

/// Whether each key is read from `>`, each group exists, and nothing is new to any. Memory is taken only for a key that
/// has something new.
pub fn finds_nothing(
    keys: &Keys,
    alloc: Global,
    read: &ReadGroupCommand,
) -> Result<bool, AllocError>
    ensures { IfOk result (λ nothing. nothing ≡ finds_nothing keys.now read.now) }
{
    for one in read.reads.as_slice() {
        if !finds_none(keys, alloc, read, one)? {
            return Ok(false);
        }
    }
    Ok(true)
}
