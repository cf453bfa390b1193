//! Entries as they are stored in bytes.
ghost use Rattle.std.specs.Prelude.{◌≡◌, ◌++◌, ◌+◌, ◌<◌, ◌≤◌, ℕ, IfSome, OnOk, OnErr, length, take, vec_len};
ghost use Rattle.std.specs.Prelude.{true, false};
ghost use Rattle.std.specs.List.{flat_map};
ghost use Rattle.xs_stream.specs.Packed.{names_code, has_names, field_code, body_code, mark_of, entry_code};
ghost use Rattle.xs_stream.specs.Packed.{entry_id, entry_body, after_entry, first_ms, ms_code};
ghost use Rattle.xs_stream.specs.PackedNumber.{number_code, after_number};
ghost use Rattle.xs_stream.specs.PackedText.{text_code};

use crate::field::Field;
use crate::id::Id;
use crate::packed::number::{number_size, push_number, read_number, read_wide_number};
use crate::packed::text::{push_text, read_text, text_size};
use std::alloc::AllocError;

/// An entry that bytes begin with.
#[derive(Drop)]
pub(crate) struct PackedEntry<'a> {
    pub(crate) id: Id,
    pub(crate) body: &'a [u8],
    pub(crate) rest: &'a [u8],
}

/// The entry that bytes begin with.
#[tactic(auto, unfolding(crate::specs::Packed::entry_id, crate::specs::Packed::entry_body, crate::specs::Packed::after_entry, crate::specs::PackedText::first_text, crate::specs::PackedText::after_text, crate::specs::PackedNumber::first_number, crate::specs::PackedNumber::after_number))]
#[inline(always)]
pub(crate) fn read_entry<'a>(base: u64, bytes: &'a [u8]) -> PackedEntry<'a>
    ensures id { result.id ≡ entry_id base bytes.now }
    ensures body { result.body.now ≡ entry_body bytes.now }
    ensures rest { result.rest.now ≡ after_entry bytes.now }
{
    // Most entries have numbers of one byte, and a walk reads many entries.
    if let [ms, seq, len, rest @ ..] = bytes {
        if *ms < 253 && *seq < 253 && *len < 253 && usize::from(*len) <= rest.len() {
            let (body, rest) = rest.split_at(usize::from(*len));
            let ms = base.wrapping_add(u64::from(*ms));
            let seq = u64::from(*seq);
            return PackedEntry {
                id: Id { ms, seq },
                body,
                rest,
            };
        }
    }
    read_any_entry(base, bytes)
}

/// Like `read_entry`, for numbers of any size.
#[tactic(auto, unfolding(crate::specs::Packed::entry_id, crate::specs::Packed::entry_body, crate::specs::Packed::after_entry))]
#[inline(always)]
fn read_any_entry<'a>(base: u64, bytes: &'a [u8]) -> PackedEntry<'a>
    ensures id { result.id ≡ entry_id base bytes.now }
    ensures body { result.body.now ≡ entry_body bytes.now }
    ensures rest { result.rest.now ≡ after_entry bytes.now }
{
    let (ms, after_ms) = read_ms(base, bytes);
    let (seq, after_seq) = read_number(after_ms);
    let (body, rest) = read_text(after_seq);
    PackedEntry {
        id: Id { ms, seq },
        body,
        rest,
    }
}

/// The bytes after an entry that takes one byte for each number, and is fewer than `ms` milliseconds above the base, or
/// exactly `ms` with a sequence number below `seq`. None for any other entry, and near the end of a block.
#[tactic(auto, unfolding(crate::specs::Packed::first_ms, crate::specs::Packed::entry_id, crate::specs::Packed::after_entry, crate::specs::PackedText::after_text, crate::specs::PackedNumber::first_number, crate::specs::PackedNumber::after_number))]
#[inline(always)]
pub(crate) fn after_early_entry(bytes: &[u8], ms: u8, seq: u8) -> Option<&[u8]>
    requires ms { ms < 253 }
    requires seq { seq ≤ 253 }
    ensures rest { IfSome result (λ rest. rest.now ≡ after_entry bytes.now) }
    ensures ms { IfSome result (λ _. (base : ℕ) → (entry_id base bytes.now).ms ≤ base + ms) }
    ensures seq { IfSome result (λ _. (base : ℕ) → base + ms ≤ (entry_id base bytes.now).ms
        → (entry_id base bytes.now).seq < seq) }
{
    // If this many bytes are left, no length of one byte leads beyond the end: this one test is enough for the whole
    // entry.
    if bytes.len() < 255 {
        return None;
    }
    if let [above, number, len, rest @ ..] = bytes {
        let early = *above < ms && *number < 253 || *above == ms && *number < seq;
        if early && *len < 253 {
            return rest.get(usize::from(*len)..);
        }
    }
    None
}

fn read_ms(base: u64, bytes: &[u8]) -> (u64, &[u8])
    ensures number { result.0 ≡ first_ms base bytes.now }
    ensures rest { result.1.now ≡ after_number bytes.now }
{
    let (above, rest) = read_wide_number(bytes);
    (base.wrapping_add(above), rest)
}

/// Whether fields have these names, which aren't missing.
pub(crate) fn has_names(names: &[u8], fields: &[Field]) -> bool
    ensures { result ≡ has_names names.now fields.now }
{
    if names.is_empty() {
        return false;
    }
    let (count, mut rest) = read_number(names);
    if count != fields.len() as u64 {
        return false;
    }
    for field in fields {
        let (name, others) = read_text(rest);
        if name != field.name.as_slice() {
            return false;
        }
        rest = others;
    }
    true
}

/// The number of bytes of the names of fields.
fn names_size(fields: &[Field]) -> Option<u64>
    ensures { IfSome result (λ size. size ≡ length (names_code fields.now)) }
{
    let mut size = number_size(fields.len() as u64);
    for field in fields {
        size = size.checked_add(text_size(field.name.as_slice())?)?;
    }
    Some(size)
}

/// Appends the names of fields after their length. If memory runs out, a part may be appended.
pub(crate) fn push_names(out: &mut Vec<u8>, fields: &[Field]) -> Result<(), AllocError>
    ensures { OnOk result (out.new.items ≡ out.old.items ++ text_code (names_code fields.now)) }
{
    let Some(size) = names_size(fields) else {
        return Err(AllocError);
    };
    push_number(out, size)?;
    push_number(out, fields.len() as u64)?;
    for field in fields {
        push_text(out, field.name.as_slice())?;
    }
    Ok(())
}

/// The number before the fields of an entry.
fn mark_of(shared: bool, fields: &[Field]) -> Option<u64>
    ensures { IfSome result (λ mark. mark ≡ mark_of shared fields.now) }
{
    if shared {
        return Some(0);
    }
    (fields.len() as u64).checked_add(1)
}

/// The number of bytes of the values of fields, each after its length. None if they are too many for a number.
pub(crate) fn values_size(fields: &[Field]) -> Option<u64>
    ensures { IfSome result (λ size. size ≡ length (flat_map (field_code true) fields.now)) }
{
    let mut size = 0u64;
    for field in fields {
        size = size.checked_add(text_size(field.value.as_slice())?)?;
    }
    Some(size)
}

/// The number of bytes of the fields of an entry whose values take `values` bytes.
#[tactic(auto, unfolding(crate::specs::Packed::body_code, crate::specs::PackedNumber::number_code))]
fn body_size(shared: bool, values: u64, fields: &[Field]) -> Option<u64>
    requires { values ≡ length (flat_map (field_code true) fields.now) }
    ensures { IfSome result (λ size. size ≡ length (body_code shared fields.now)) }
{
    if shared {
        return values.checked_add(1);
    }
    full_size(fields)
}

/// The number of bytes of the fields of an entry with their names.
fn full_size(fields: &[Field]) -> Option<u64>
    ensures { IfSome result (λ size. size ≡ length (body_code false fields.now)) }
{
    let mut size = number_size(mark_of(false, fields)?);
    for field in fields {
        size = size.checked_add(field_size(field)?)?;
    }
    Some(size)
}

fn field_size(field: &Field) -> Option<u64>
    ensures { IfSome result (λ size. size ≡ length (field_code false field.now)) }
{
    let size = text_size(field.value.as_slice())?;
    text_size(field.name.as_slice())?.checked_add(size)
}

/// Appends a field, or only its value. If memory runs out, a part may be appended.
fn push_field(out: &mut Vec<u8>, shared: bool, field: &Field) -> Result<(), AllocError>
    ensures ok { OnOk result (out.new.items ≡ out.old.items ++ field_code shared field.now) }
    ensures err { OnErr result (take (vec_len out.old) out.new.items ≡ out.old.items) }
{
    if !shared {
        push_text(out, field.name.as_slice())?;
    }
    push_text(out, field.value.as_slice())
}

/// Appends the fields of an entry. If memory runs out, a part may be appended.
fn push_body(out: &mut Vec<u8>, shared: bool, fields: &[Field]) -> Result<(), AllocError>
    ensures ok { OnOk result (out.new.items ≡ out.old.items ++ body_code shared fields.now) }
    ensures err { OnErr result (take (vec_len out.old) out.new.items ≡ out.old.items) }
{
    let Some(mark) = mark_of(shared, fields) else {
        return Err(AllocError);
    };
    push_number(out, mark)?;
    for field in fields {
        push_field(out, shared, field)?;
    }
    Ok(())
}

/// Appends an entry whose values take `values` bytes. If memory runs out, a part may be appended.
pub(crate) fn push_entry(
    out: &mut Vec<u8>,
    base: u64,
    shared: bool,
    id: Id,
    values: u64,
    fields: &[Field],
) -> Result<(), AllocError>
    requires { values ≡ length (flat_map (field_code true) fields.now) }
    ensures ok { OnOk result (out.new.items ≡ out.old.items ++ entry_code base shared (id, fields.now)) }
    ensures err { OnErr result (take (vec_len out.old) out.new.items ≡ out.old.items) }
{
    let Some(size) = body_size(shared, values, fields) else {
        return Err(AllocError);
    };
    push_number(out, id.ms.wrapping_sub(base))?;
    push_number(out, id.seq)?;
    push_number(out, size)?;
    push_body(out, shared, fields)?;
    Ok(())
}

/// Appends an entry whose fields are packed. If memory runs out, a part may be appended.
pub(crate) fn push_packed(
    out: &mut Vec<u8>,
    base: u64,
    id: Id,
    body: &[u8],
) -> Result<(), AllocError>
    ensures ok { OnOk result (out.new.items
        ≡ out.old.items ++ (ms_code base id.ms ++ (number_code id.seq ++ text_code body.now))) }
    ensures err { OnErr result (take (vec_len out.old) out.new.items ≡ out.old.items) }
{
    push_number(out, id.ms.wrapping_sub(base))?;
    push_number(out, id.seq)?;
    push_text(out, body)?;
    Ok(())
}
