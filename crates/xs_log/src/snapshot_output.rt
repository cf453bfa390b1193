//! The records of a snapshot, written to a tape one by one.
ghost use Rattle.std.specs.Prelude.{◌≡◌, ◌≢◌, ◌∷◌, [], ◌++◌, ℕ, List, Option, false, true, decimal, length};
ghost use Rattle.std.specs.Prelude.{◌≤◌, ◌<◌, ◌+◌, ◌-◌, ◌^◌, IfOk, OnOk, Err};
ghost use Rattle.xs_tape.specs.Records.{CanBeSpelled, record_words, record_text};
ghost use Rattle.xs_tape.specs.Writing.{Has, Puts};
ghost use Rattle.xs_replay.specs.Pieces as content;
ghost use Rattle.xs_replay.specs.SnapshotWords.{kind_of, values_of, Fits};
ghost use Rattle.xs_replay.specs.Snapshot.{header_values};
ghost use Rattle.xs_log.specs.SnapshotPieces.{AreShort, MomentFits};
ghost use Rattle.xs_log.specs.SnapshotWriting.{HasPut, KeepsPieces};

use crate::header::MODEL_NUMBER;
use crate::snapshot_header::{FORMAT, NAME};
use crate::snapshot_record::END;
use std::alloc::{AllocError, Global};
use thiserror::Error;
use xs_bytes::{Bytes, decimal_text};
use xs_stream::Moment;
use xs_tape::{LogWriter, Tape, can_be_record};

/// After this many bytes more the tape keeps what was written, so the last sync is short.
pub(crate) const KEPT_EACH: u64 = 4_194_304;

/// The most bytes of a word that a record can always have, since escaping at most doubles it.
const SHORT_WORD: usize = 268_435_456;

/// The most words after the first of a record.
const FEW_WORDS: usize = 1_048_573;

/// Why a snapshot isn't written.
#[derive(Clone, Copy, Debug, PartialEq, Eq, Error)]
pub enum WriteFault {
    /// Out of memory.
    #[error("out of memory")]
    Memory,
    /// The tape failed.
    #[error("can't be written")]
    Device,
    /// A piece has more words, or longer ones, than a record may have, or there are more pieces than a number of 64
    /// bits can count.
    #[error("has a piece that is too long")]
    TooLong,
}

/// Whether words are so few and so short that a record may have them, whatever their bytes are.
#[tactic(auto, using(crate::proofs::ShortWords::short_more))]
fn are_short(words: &[Bytes]) -> bool
    ensures yes { result ≡ true → AreShort words.now }
    ensures no { result ≡ false → AreShort words.now → ⊥ }
{
    for word in words {
        if word.len() > SHORT_WORD {
            return false;
        }
    }
    words.len() <= FEW_WORDS
}

/// Whether a record may have these words after its first, if the first is short.
fn may_be_record(rest: &[Bytes]) -> bool
    ensures yes { result ≡ true → (first : List ℕ) → length first ≤ 64 → CanBeSpelled (record_words first rest.now) }
    ensures no { result ≡ false → AreShort rest.now → ⊥ }
{
    if are_short(rest) {
        return true;
    }
    can_be_record(rest)
}

/// Appends a record.
fn put_record<T: Tape + Drop>(
    writer: &mut LogWriter<T>,
    first: &[u8],
    rest: &[Bytes],
) -> Result<(), WriteFault>
    requires sound { writer.old.broken ≡ false }
    requires short { length first.now ≤ 64 }
    ensures puts { OnOk result (Puts writer.old writer.new (record_text first.now rest.now)) }
    ensures spelled { OnOk result (CanBeSpelled (record_words first.now rest.now)) }
    ensures sound { OnOk result (writer.new.broken ≡ false) }
    ensures device { result ≡ Err WriteFault.Device → writer.new.broken ≡ true }
    ensures long { result ≡ Err WriteFault.TooLong → AreShort rest.now → ⊥ }
{
    if !may_be_record(rest) {
        return Err(WriteFault::TooLong);
    }
    match writer.push(first, rest) {
        Ok(()) => Ok(()),
        Err(_) => Err(WriteFault::Device),
    }
}

/// Has the tape keep what was put, if it has at least `keep_at` bytes.
fn keep_some<T: Tape + Drop>(writer: &mut LogWriter<T>, keep_at: &mut u64) -> Result<(), WriteFault>
    requires sound { writer.old.broken ≡ false }
    ensures has { (closed : List (List ℕ)) (text : List ℕ) → Has writer.old closed text 0 →
        OnOk result (Has writer.new closed text 0) }
    ensures sound { OnOk result (writer.new.broken ≡ false) }
    ensures device { result ≡ Err WriteFault.Device → writer.new.broken ≡ true }
    ensures short { result ≢ Err WriteFault.TooLong }
{
    let size = writer.size();
    if size < *keep_at {
        return Ok(());
    }
    *keep_at = size.saturating_add(KEPT_EACH);
    match writer.commit() {
        Ok(()) => Ok(()),
        Err(_) => Err(WriteFault::Device),
    }
}

/// The words of a header after the name and the checksum.
fn header_words(
    alloc: Global,
    number: u64,
    moment: Option<Moment>,
) -> Result<Vec<Bytes>, AllocError>
    ensures values { IfOk result (λ words. words.items ≡ header_values number moment) }
    ensures fits { MomentFits moment }
{
    let mut words = Vec::with_capacity(alloc, 4)?;
    words.push(Bytes::from_slice(alloc, FORMAT)?)?;
    words.push(decimal_text(alloc, number)?)?;
    words.push(decimal_text(alloc, MODEL_NUMBER)?)?;
    if let Some(moment) = moment {
        words.push(decimal_text(alloc, moment.get())?)?;
    }
    Ok(words)
}

/// Puts the header of a snapshot with this number, and the moment of the last event before it.
pub(crate) fn put_header<T: Tape + Drop>(
    alloc: Global,
    writer: &mut LogWriter<T>,
    number: u64,
    moment: Option<Moment>,
) -> Result<(), WriteFault>
    requires sound { writer.old.broken ≡ false }
    ensures has { (closed : List (List ℕ)) → Has writer.old closed [] 0 →
        OnOk result (HasPut number closed (record { writing = writer.new; count = 0 }) moment []) }
    ensures sound { OnOk result (writer.new.broken ≡ false) }
    ensures short { result ≢ Err WriteFault.TooLong }
{
    let Ok(words) = header_words(alloc, number, moment) else {
        return Err(WriteFault::Memory);
    };
    put_record(writer, NAME, words.as_slice())
}

/// Puts a piece: the word of its kind, and its values.
pub(crate) fn put_piece<T: Tape + Drop>(
    writer: &mut LogWriter<T>,
    count: &mut u64,
    keep_at: &mut u64,
    kind: &[u8],
    values: &[Bytes],
) -> Result<(), WriteFault>
    requires sound { writer.old.broken ≡ false }
    requires short { length kind.now ≤ 64 }
    ensures has { (number : ℕ) (closed : List (List ℕ)) (moment : Option ℕ) (pieces : List content.Piece)
        (piece : content.Piece) →
        HasPut number closed (record { writing = writer.old; count = count.old }) moment pieces →
        kind.now ≡ kind_of piece → values.now ≡ values_of piece → Fits piece →
        OnOk result (HasPut number closed (record { writing = writer.new; count = count.new }) moment
        (pieces ++ piece ∷ [])) }
    ensures count { OnOk result (count.new ≡ count.old + 1) }
    ensures sound { OnOk result (writer.new.broken ≡ false) }
    ensures device { result ≡ Err WriteFault.Device → writer.new.broken ≡ true }
    ensures long { result ≡ Err WriteFault.TooLong → AreShort values.now → count.old < 2 ^ 64 - 1 → ⊥ }
{
    let Some(more) = count.checked_add(1) else {
        return Err(WriteFault::TooLong);
    };
    match put_record(writer, kind, values) {
        Ok(()) => {}
        Err(fault) => return Err(fault),
    }
    match keep_some(writer, keep_at) {
        Ok(()) => {}
        Err(fault) => return Err(fault),
    }
    *count = more;
    Ok(())
}

/// Puts the end after `count` pieces, and has the tape keep all.
pub(crate) fn put_end<T: Tape + Drop>(
    alloc: Global,
    writer: &mut LogWriter<T>,
    count: u64,
) -> Result<(), WriteFault>
    requires sound { writer.old.broken ≡ false }
    ensures keeps { (number : ℕ) (closed : List (List ℕ)) (moment : Option ℕ) (pieces : List content.Piece) →
        HasPut number closed (record { writing = writer.old; count = count }) moment pieces →
        OnOk result (KeepsPieces number closed writer.new.holds moment pieces) }
    ensures sound { OnOk result (writer.new.broken ≡ false) }
    ensures device { result ≡ Err WriteFault.Device → writer.new.broken ≡ true }
    ensures short { result ≢ Err WriteFault.TooLong }
{
    let Ok(word) = decimal_text(alloc, count) else {
        return Err(WriteFault::Memory);
    };
    match put_record(writer, END, &[word]) {
        Ok(()) => {}
        Err(fault) => return Err(fault),
    }
    match writer.commit() {
        Ok(()) => Ok(()),
        Err(_) => Err(WriteFault::Device),
    }
}
