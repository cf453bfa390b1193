//! The parts of replies: ids and entries, as the tokens that are appended for them.
ghost use Rattle.std.specs.Prelude.{◌≡◌, ◌++◌, IfOk, OnOk, map};
ghost use Rattle.std.specs.List.{flat_map};
ghost use Rattle.xs_stream.specs.StreamContent.{AreEntriesOf};
ghost use Rattle.xs_resp.specs.ReplyItems.{tokens_of};
ghost use Rattle.xs_keys.specs.ReplyParts.{array, field_replies, id_reply, entry_reply, present_reply, taken_item};

use std::alloc::{AllocError, Global};
use xs_resp::{Replies, Reply, Tokens};
use xs_stream::{Entry, Id, PackedFields, Stream};

/// The number of tokens of an entry with one field.
pub const ENTRY_TOKENS: usize = 5;

/// Appends an id.
pub fn push_id(tokens: &mut Tokens, alloc: Global, id: Id) -> Result<(), AllocError>
    ensures { OnOk result (tokens.new ≡ tokens.old ++ tokens_of (id_reply id)) }
{
    let text = id.text(alloc)?;
    tokens.push_bulk(text.as_slice())
}

/// Appends the names and values of fields in order.
fn push_fields(tokens: &mut Tokens, fields: PackedFields<'_>) -> Result<(), AllocError>
    ensures { OnOk result (tokens.new ≡ tokens.old
        ++ tokens_of (array (flat_map field_replies fields.entry))) }
{
    let Some(count) = (fields.count_left() as usize).checked_mul(2) else {
        return Err(AllocError);
    };
    tokens.push_array(count)?;
    for field in fields {
        tokens.push_bulk(field.name())?;
        tokens.push_bulk(field.value())?;
    }
    Ok(())
}

/// Appends an entry: its id, and its fields, or the null array if it isn't in the stream.
fn push_entry(tokens: &mut Tokens, alloc: Global, stream: &Stream, id: Id) -> Result<(), AllocError>
    ensures { OnOk result (tokens.new ≡ tokens.old ++ tokens_of (entry_reply stream.now.entries id)) }
{
    tokens.push_array(2)?;
    push_id(tokens, alloc, id)?;
    match stream.get(id) {
        Some(fields) => push_fields(tokens, fields),
        None => tokens.push_null_array(),
    }
}

/// Appends an entry that its stream lends.
pub fn push_present(tokens: &mut Tokens, alloc: Global, entry: &Entry<'_>) -> Result<(), AllocError>
    ensures { OnOk result (tokens.new ≡ tokens.old ++ tokens_of (present_reply entry.now)) }
{
    tokens.push_array(2)?;
    push_id(tokens, alloc, entry.id())?;
    push_fields(tokens, entry.fields())
}

/// Appends the entry with this id, or its id with the null array. If it is at this place among entries that are lent,
/// it isn't looked up.
pub fn push_along(
    tokens: &mut Tokens,
    alloc: Global,
    stream: &Stream,
    lent: &[Entry<'_>],
    place: usize,
    id: Id,
) -> Result<(), AllocError>
    requires { AreEntriesOf stream.now.entries lent.now }
    ensures { OnOk result (tokens.new ≡ tokens.old ++ tokens_of (entry_reply stream.now.entries id)) }
{
    if let Some(entry) = lent.get(place) {
        if entry.id() == id {
            return push_present(tokens, alloc, entry);
        }
    }
    push_entry(tokens, alloc, stream, id)
}

/// Appends the entries with these ids.
fn push_entries(
    tokens: &mut Tokens,
    alloc: Global,
    stream: &Stream,
    ids: &[Id],
) -> Result<(), AllocError>
    ensures { OnOk result (tokens.new ≡ tokens.old
        ++ flat_map tokens_of (map (entry_reply stream.now.entries) ids.now)) }
{
    tokens.reserve(ids.len().saturating_mul(ENTRY_TOKENS))?;
    let lent = stream.entries_along(alloc, ids)?;
    for (place, id) in ids.iter().enumerate() {
        push_along(tokens, alloc, stream, lent.as_slice(), place, *id)?;
    }
    Ok(())
}

/// Appends entries that their stream lends.
pub fn push_lent_entries(
    tokens: &mut Tokens,
    alloc: Global,
    entries: &[Entry<'_>],
) -> Result<(), AllocError>
    ensures { OnOk result (tokens.new ≡ tokens.old ++ flat_map tokens_of (map present_reply entries.now)) }
{
    tokens.reserve(entries.len().saturating_mul(ENTRY_TOKENS))?;
    for entry in entries {
        push_present(tokens, alloc, entry)?;
    }
    Ok(())
}

/// The entries that a stream lends.
pub fn lent_entries(alloc: Global, entries: &[Entry<'_>]) -> Result<Reply, AllocError>
    ensures { IfOk result (λ reply. reply ≡ array (map present_reply entries.now)) }
{
    let mut tokens = Tokens::new(alloc);
    push_lent_entries(&mut tokens, alloc, entries)?;
    Ok(Reply::Array(Replies::new(entries.len(), tokens)))
}

/// Appends these ids.
pub fn push_ids(tokens: &mut Tokens, alloc: Global, ids: &[Id]) -> Result<(), AllocError>
    ensures { OnOk result (tokens.new ≡ tokens.old ++ flat_map tokens_of (map id_reply ids.now)) }
{
    tokens.reserve(ids.len())?;
    for id in ids {
        push_id(tokens, alloc, *id)?;
    }
    Ok(())
}

/// Appends what a claim took: the entries, or only their ids.
pub fn push_taken(
    tokens: &mut Tokens,
    alloc: Global,
    stream: &Stream,
    just_id: bool,
    ids: &[Id],
) -> Result<(), AllocError>
    ensures { OnOk result (tokens.new ≡ tokens.old
        ++ flat_map tokens_of (map (taken_item just_id stream.now.entries) ids.now)) }
{
    if just_id {
        return push_ids(tokens, alloc, ids);
    }
    push_entries(tokens, alloc, stream, ids)
}
