//! The words that spell a piece, after the one of its kind.
ghost use Rattle.std.specs.Prelude.{◌≡◌, ◌∷◌, ◌++◌, [], ◌/◌, ◌%◌, ◌^◌, decimal, IfOk, OnOk};
ghost use Rattle.xs_replay.specs.Pieces as content;
ghost use Rattle.xs_replay.specs.SnapshotWords.{id_words, wide_words, field_words, values_of};

use std::alloc::{AllocError, Global};
use xs_bytes::{Bytes, U63, decimal_text};
use xs_stream::{Id, Moment, PackedFields};

/// The quotient of a number of 128 bits by 2^64.
fn high_part(number: u128) -> u64
    ensures { result ≡ number / 2 ^ 64 }
{
    (number >> 64) as u64
}

/// The remainder of the number.
fn low_part(number: u128) -> u64
    ensures { result ≡ number % 2 ^ 64 }
{
    (number % (1 << 64)) as u64
}

/// The words of an id.
fn id_values(alloc: Global, id: Id) -> Result<(Bytes, Bytes), AllocError>
    ensures { IfOk result (λ values. values.0 ∷ values.1 ∷ [] ≡ id_words id) }
{
    let ms = decimal_text(alloc, id.ms)?;
    let seq = decimal_text(alloc, id.seq)?;
    Ok((ms, seq))
}

/// The words of a number of 128 bits.
fn wide_values(alloc: Global, number: u128) -> Result<(Bytes, Bytes), AllocError>
    ensures { IfOk result (λ values. values.0 ∷ values.1 ∷ [] ≡ wide_words number) }
{
    let high = decimal_text(alloc, high_part(number))?;
    let low = decimal_text(alloc, low_part(number))?;
    Ok((high, low))
}

/// The words of a key.
pub(crate) fn key_values(
    alloc: Global,
    name: &[u8],
    top: Id,
    added: u128,
    deleted: Id,
) -> Result<[Bytes; 7], AllocError>
    ensures { IfOk result (λ values. values ≡ values_of (content.of_key name.now top added deleted)) }
{
    let name = Bytes::from_slice(alloc, name)?;
    let (top_ms, top_seq) = id_values(alloc, top)?;
    let (high, low) = wide_values(alloc, added)?;
    let (deleted_ms, deleted_seq) = id_values(alloc, deleted)?;
    Ok([name, top_ms, top_seq, high, low, deleted_ms, deleted_seq])
}

/// Replaces `words` by the words of an entry.
pub(crate) fn entry_values(
    alloc: Global,
    words: &mut Vec<Bytes>,
    id: Id,
    fields: PackedFields<'_>,
) -> Result<(), AllocError>
    ensures { OnOk result (words.new.items ≡ values_of (content.of_entry id fields.entry)) }
{
    words.clear();
    words.push(decimal_text(alloc, id.ms)?)?;
    words.push(decimal_text(alloc, id.seq)?)?;
    for field in fields {
        words.push(Bytes::from_slice(alloc, field.name())?)?;
        words.push(Bytes::from_slice(alloc, field.value())?)?;
    }
    Ok(())
}

/// The words of a group.
pub(crate) fn group_values(alloc: Global, name: &[u8], cursor: Id) -> Result<[Bytes; 3], AllocError>
    ensures { IfOk result (λ values. values ≡ values_of (content.of_group name.now cursor)) }
{
    let name = Bytes::from_slice(alloc, name)?;
    let (ms, seq) = id_values(alloc, cursor)?;
    Ok([name, ms, seq])
}

/// The words of a consumer.
pub(crate) fn consumer_values(
    alloc: Global,
    name: &[u8],
    moment: Moment,
) -> Result<[Bytes; 2], AllocError>
    ensures { IfOk result (λ values. values ≡ values_of (content.of_consumer name.now moment)) }
{
    let name = Bytes::from_slice(alloc, name)?;
    let moment = decimal_text(alloc, moment.get())?;
    Ok([name, moment])
}

/// The words of a pending row.
pub(crate) fn row_values(
    alloc: Global,
    id: Id,
    consumer: &[u8],
    time: Moment,
    count: U63,
) -> Result<[Bytes; 5], AllocError>
    ensures { IfOk result (λ values. values
        ≡ values_of (content.of_row id (record { consumer = consumer.now; time = time; count = count }))) }
{
    let (ms, seq) = id_values(alloc, id)?;
    let consumer = Bytes::from_slice(alloc, consumer)?;
    let time = decimal_text(alloc, time.get())?;
    let count = decimal_text(alloc, count.get())?;
    Ok([ms, seq, consumer, time, count])
}
