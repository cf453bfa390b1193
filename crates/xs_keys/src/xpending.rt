//! XPENDING.
ghost use Rattle.std.specs.Prelude.{◌≡◌, ◌++◌, map, IfOk, OnOk};
ghost use Rattle.std.specs.List.{flat_map};
ghost use Rattle.std.specs.Option.{option_map_or};
ghost use Rattle.xs_group.specs.Report as report;
ghost use Rattle.xs_resp.specs.ReplyItems.{tokens_of};
ghost use Rattle.xs_keys.specs.ReplyParts.{array, array_or_null, id_reply, owner_reply, row_reply, summary_reply};
ghost use Rattle.xs_keys.specs.Step.{Attempt, AttemptAtAnyTime};

use crate::keys::{Keys, group_at};
use crate::showing::push_id;
use std::alloc::{AllocError, Global};
use xs_bytes::{Bytes, decimal_text};
use xs_command::{Command, PendingRowsCommand};
use xs_group::{Group, GroupSummary, OwnerCount, PendingRow};
use xs_resp::{Fault, Replies, Reply, Tokens};
use xs_stream::{Id, Moment};

/// The number of tokens of the short form, without its consumers.
const SUMMARY_TOKENS: usize = 4;

/// The number of tokens of a consumer and its count.
const OWNER_TOKENS: usize = 3;

/// The number of tokens of a row of the long form.
const ROW_TOKENS: usize = 5;

/// Appends an id, or the null string if there is none.
fn push_id_or_null(tokens: &mut Tokens, alloc: Global, id: Option<Id>) -> Result<(), AllocError>
    ensures { OnOk result (tokens.new ≡ tokens.old
        ++ tokens_of (option_map_or id_reply id Reply.NullBulk)) }
{
    match id {
        Some(id) => push_id(tokens, alloc, id),
        None => tokens.push_null_bulk(),
    }
}

/// Appends a consumer and its count.
fn push_owner(tokens: &mut Tokens, alloc: Global, owner: OwnerCount) -> Result<(), AllocError>
    ensures { OnOk result (tokens.new ≡ tokens.old ++ tokens_of (owner_reply owner)) }
{
    let OwnerCount { consumer, count } = owner;
    tokens.push_array(2)?;
    tokens.push_bulk(consumer.as_slice())?;
    let count = decimal_text(alloc, count)?;
    tokens.push_bulk(count.as_slice())
}

/// Appends consumers with their counts.
fn push_owners(
    tokens: &mut Tokens,
    alloc: Global,
    owners: Vec<OwnerCount>,
) -> Result<(), AllocError>
    ensures { OnOk result (tokens.new ≡ tokens.old
        ++ tokens_of (array_or_null (map owner_reply owners.items))) }
{
    if owners.is_empty() {
        return tokens.push_null_array();
    }
    tokens.push_array(owners.len())?;
    for owner in owners {
        push_owner(tokens, alloc, owner)?;
    }
    Ok(())
}

/// The short form.
fn summary_shown(alloc: Global, summary: GroupSummary) -> Result<Reply, AllocError>
    ensures { IfOk result (λ reply. reply ≡ summary_reply summary) }
{
    let owners = summary.owners.into_vec();
    let room = owners
        .len()
        .saturating_mul(OWNER_TOKENS)
        .saturating_add(SUMMARY_TOKENS);
    let mut tokens = Tokens::with_capacity(alloc, room)?;
    tokens.push_int(summary.total)?;
    push_id_or_null(&mut tokens, alloc, summary.least)?;
    push_id_or_null(&mut tokens, alloc, summary.greatest)?;
    push_owners(&mut tokens, alloc, owners)?;
    Ok(Reply::Array(Replies::new(4, tokens)))
}

/// Appends a row of the long form.
fn push_row(tokens: &mut Tokens, alloc: Global, row: PendingRow) -> Result<(), AllocError>
    ensures { OnOk result (tokens.new ≡ tokens.old ++ tokens_of (row_reply row)) }
{
    tokens.push_array(4)?;
    push_id(tokens, alloc, row.id)?;
    tokens.push_bulk(row.consumer.as_slice())?;
    tokens.push_int(row.idle)?;
    tokens.push_int(row.count)
}

/// Appends rows of the long form.
fn push_rows(tokens: &mut Tokens, alloc: Global, rows: Vec<PendingRow>) -> Result<(), AllocError>
    ensures { OnOk result (tokens.new ≡ tokens.old ++ flat_map tokens_of (map row_reply rows.items)) }
{
    for row in rows {
        push_row(tokens, alloc, row)?;
    }
    Ok(())
}

/// The long form.
fn rows_shown(alloc: Global, rows: Vec<PendingRow>) -> Result<Reply, AllocError>
    ensures { IfOk result (λ reply. reply ≡ array (map row_reply rows.items)) }
{
    let count = rows.len();
    let mut tokens = Tokens::with_capacity(alloc, count.saturating_mul(ROW_TOKENS))?;
    push_rows(&mut tokens, alloc, rows)?;
    Ok(Reply::Array(Replies::new(count, tokens)))
}

/// What is pending in a group, in the short form.
fn summary_of(alloc: Global, group: &Group) -> Result<Reply, AllocError>
    ensures { IfOk result (λ reply. reply ≡ summary_reply (report.summary_of group.now)) }
{
    let summary = group.summary(alloc)?;
    summary_shown(alloc, summary)
}

/// XPENDING, the short form.
pub fn summary(keys: &Keys, alloc: Global, key: &Bytes, group: &Bytes) -> Result<Reply, AllocError>
    ensures { AttemptAtAnyTime keys.now (Command.Pending key.now group.now) result keys.now }
{
    let Some(group) = group_at(keys, key, group) else {
        return Ok(Reply::Error(Fault::NoGroup));
    };
    summary_of(alloc, group)
}

/// The pending entries of a group that a command asks for.
fn rows_of(
    alloc: Global,
    group: &Group,
    now: Moment,
    command: &PendingRowsCommand,
) -> Result<Reply, AllocError>
    ensures { let asked = command.now in
        let rows = report.pending_of asked.range asked.min_idle now asked.limit asked.consumer group.now in
        IfOk result (λ reply. reply ≡ array (map row_reply rows)) }
{
    let rows = group.pending(
        alloc,
        command.range,
        command.min_idle,
        now,
        command.limit,
        command.consumer.as_ref(),
    )?;
    rows_shown(alloc, rows)
}

/// XPENDING, the long form.
pub fn rows(
    keys: &Keys,
    alloc: Global,
    now: Moment,
    command: &PendingRowsCommand,
) -> Result<Reply, AllocError>
    ensures { Attempt keys.now now (Command.PendingRows command.now) result keys.now }
{
    let Some(group) = group_at(keys, &command.key, &command.group) else {
        return Ok(Reply::Error(Fault::NoGroup));
    };
    rows_of(alloc, group, now, command)
}
