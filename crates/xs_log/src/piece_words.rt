//! The piece that words spell.
ghost use Rattle.std.specs.Prelude.{◌≡◌, ◌∷◌, IfOk, bytes_eq};
ghost use Rattle.std.specs.Option.{option_map};
ghost use Rattle.xs_replay.specs.PieceReading.{id_of_words, wide_of_words, small_of_word, fields_of_words};
ghost use Rattle.xs_replay.specs.PieceReading.{key_of_words, entry_of_words, group_of_words, consumer_of_words};
ghost use Rattle.xs_replay.specs.PieceReading.{row_of_words, piece_of_words};
ghost use Rattle.xs_log.specs.PieceOf.{piece_of};

use crate::piece::Piece;
use std::alloc::{AllocError, Global};
use xs_bytes::{Bytes, List, U63, natural};
use xs_stream::{Field, Id, Moment};

/// The first word of a key.
pub(crate) const KEY: &[u8] = b"KEY";

/// The first word of an entry.
pub(crate) const ENTRY: &[u8] = b"ENTRY";

/// The first word of a group.
pub(crate) const GROUP: &[u8] = b"GROUP";

/// The first word of a consumer.
pub(crate) const CONSUMER: &[u8] = b"CONSUMER";

/// The first word of a pending row.
pub(crate) const ROW: &[u8] = b"ROW";

/// The id that two words spell.
fn id_of(ms: &Bytes, seq: &Bytes) -> Option<Id>
    ensures { result ≡ id_of_words ms.now seq.now }
{
    let ms = natural(ms.as_slice())?;
    let seq = natural(seq.as_slice())?;
    Some(Id { ms, seq })
}

/// The number of 128 bits that two words spell.
fn wide_of(high: &Bytes, low: &Bytes) -> Option<u128>
    ensures { result ≡ wide_of_words high.now low.now }
{
    let high = natural(high.as_slice())?;
    let low = natural(low.as_slice())?;
    Some(((high as u128) << 64) + low as u128)
}

/// The moment that a word spells.
fn moment_of(word: &Bytes) -> Option<Moment>
    ensures { result ≡ small_of_word word.now }
{
    let number = natural(word.as_slice())?;
    Moment::new(number)
}

/// The count of deliveries that a word spells.
fn count_of(word: &Bytes) -> Option<U63>
    ensures { result ≡ small_of_word word.now }
{
    let number = natural(word.as_slice())?;
    U63::checked(number)
}

/// A copy of a word.
fn copy_of(alloc: Global, word: &Bytes) -> Result<Bytes, AllocError>
    ensures { IfOk result (λ copy. copy ≡ word.now) }
{
    Bytes::from_slice(alloc, word.as_slice())
}

/// The fields that words spell, names and values in order.
fn fields_of(alloc: Global, words: &[Bytes]) -> Result<Option<List<Field>>, AllocError>
    ensures { IfOk result (λ fields. fields ≡ fields_of_words words.now) }
{
    let mut fields = Vec::with_capacity(alloc, words.len() / 2)?;
    let mut left = words;
    while let Some((name, more)) = left.split_first() {
        let Some((value, behind)) = more.split_first() else {
            return Ok(None);
        };
        fields.push(Field {
            name: copy_of(alloc, name)?,
            value: copy_of(alloc, value)?,
        })?;
        left = behind;
    }
    Ok(Some(List::new(fields)))
}

/// The key that words spell.
fn key_of(alloc: Global, values: &[Bytes]) -> Result<Option<Piece>, AllocError>
    ensures { IfOk result (λ found. option_map piece_of found ≡ key_of_words values.now) }
{
    let [name, ms, seq, high, low, deleted_ms, deleted_seq] = values else {
        return Ok(None);
    };
    let Some(top) = id_of(ms, seq) else {
        return Ok(None);
    };
    let Some(added) = wide_of(high, low) else {
        return Ok(None);
    };
    let Some(deleted) = id_of(deleted_ms, deleted_seq) else {
        return Ok(None);
    };
    let name = copy_of(alloc, name)?;
    Ok(Some(Piece::Key {
        name,
        top,
        added,
        deleted,
    }))
}

/// The entry that words spell.
fn entry_of(alloc: Global, values: &[Bytes]) -> Result<Option<Piece>, AllocError>
    ensures { IfOk result (λ found. option_map piece_of found ≡ entry_of_words values.now) }
{
    let [ms, seq, words @ ..] = values else {
        return Ok(None);
    };
    let Some(id) = id_of(ms, seq) else {
        return Ok(None);
    };
    match fields_of(alloc, words) {
        Ok(Some(fields)) => Ok(Some(Piece::Entry { id, fields })),
        Ok(None) => Ok(None),
        Err(refused) => Err(refused),
    }
}

/// The group that words spell.
fn group_of(alloc: Global, values: &[Bytes]) -> Result<Option<Piece>, AllocError>
    ensures { IfOk result (λ found. option_map piece_of found ≡ group_of_words values.now) }
{
    let [name, ms, seq] = values else {
        return Ok(None);
    };
    let Some(cursor) = id_of(ms, seq) else {
        return Ok(None);
    };
    let name = copy_of(alloc, name)?;
    Ok(Some(Piece::Group { name, cursor }))
}

/// The consumer that words spell.
fn consumer_of(alloc: Global, values: &[Bytes]) -> Result<Option<Piece>, AllocError>
    ensures { IfOk result (λ found. option_map piece_of found ≡ consumer_of_words values.now) }
{
    let [name, word] = values else {
        return Ok(None);
    };
    let Some(moment) = moment_of(word) else {
        return Ok(None);
    };
    let name = copy_of(alloc, name)?;
    Ok(Some(Piece::Consumer { name, moment }))
}

/// The pending row that words spell.
fn row_of(alloc: Global, values: &[Bytes]) -> Result<Option<Piece>, AllocError>
    ensures { IfOk result (λ found. option_map piece_of found ≡ row_of_words values.now) }
{
    let [ms, seq, consumer, time, count] = values else {
        return Ok(None);
    };
    let Some(id) = id_of(ms, seq) else {
        return Ok(None);
    };
    let Some(time) = moment_of(time) else {
        return Ok(None);
    };
    let Some(count) = count_of(count) else {
        return Ok(None);
    };
    let consumer = copy_of(alloc, consumer)?;
    Ok(Some(Piece::Row {
        id,
        consumer,
        time,
        count,
    }))
}

/// Whether a first word is the one of a kind.
fn is_kind(word: &[u8], kind: &[u8]) -> bool
    ensures { result ≡ bytes_eq word.now kind.now }
{
    word == kind
}

/// The piece that a first word and the words after the checksum spell. None if they spell none.
pub(crate) fn piece_from(
    alloc: Global,
    kind: &[u8],
    values: &[Bytes],
) -> Result<Option<Piece>, AllocError>
    ensures { IfOk result (λ found. option_map piece_of found ≡ piece_of_words (kind.now ∷ values.now)) }
{
    if is_kind(kind, KEY) {
        return key_of(alloc, values);
    }
    if is_kind(kind, ENTRY) {
        return entry_of(alloc, values);
    }
    if is_kind(kind, GROUP) {
        return group_of(alloc, values);
    }
    if is_kind(kind, CONSUMER) {
        return consumer_of(alloc, values);
    }
    if is_kind(kind, ROW) {
        return row_of(alloc, values);
    }
    Ok(None)
}
