//! The event of a record.
ghost use Rattle.std.specs.Prelude.{◌≡◌, ◌≢◌, ◌<◌, ◌^◌, [], ℕ, List, Err, decimal, true, false, length, map};
ghost use Rattle.std.specs.Prelude.{IfOk, MatchOption};
ghost use Rattle.xs_resp.specs.Grammar.{spelling};
ghost use Rattle.xs_keys.specs.Event.{Event};
ghost use Rattle.xs_tape.specs.Escape.{escaped};
ghost use Rattle.xs_tape.specs.Records.{with_checksum, with_size};
ghost use Rattle.xs_replay.specs.Log.{IsRecordOf};

use std::alloc::Global;
use xs_bytes::{Bytes, natural};
use xs_command::{Command, Refusal, read_command};
use xs_resp::Request;
use xs_stream::Moment;
use xs_tape::{checksum_of, sized_words, unescaped};

/// Why a record isn't read.
#[derive(Clone, Copy, Debug, PartialEq, Eq)]
pub enum RecordFault {
    /// Out of memory.
    Memory,
    /// It isn't as it was written.
    Damaged,
}

/// The words of a record, as they were before they were escaped.
#[tactic(auto, using(crate::proofs::PlainWords::word_more, crate::proofs::PlainWords::words_done))]
fn plain_words(alloc: Global, sent: Request<'_>) -> Result<Vec<Bytes>, RecordFault>
    ensures ok { IfOk result (λ words. sent.entry ≡ map escaped words.items) }
    ensures damaged { result ≡ Err RecordFault.Damaged → (words : List (List ℕ)) → sent.entry ≢ map escaped words }
{
    let Ok(mut words) = Vec::with_capacity(alloc, sent.len()) else {
        return Err(RecordFault::Memory);
    };
    let mut left = sent;
    while let Some((text, behind)) = left.split_first() {
        match unescaped(alloc, text) {
            Ok(Some(word)) => {
                if words.push(word).is_err() {
                    return Err(RecordFault::Memory);
                }
            }
            Ok(None) => return Err(RecordFault::Damaged),
            Err(_) => return Err(RecordFault::Memory),
        }
        left = behind;
    }
    Ok(words)
}

/// The words after the size of a record of `len` bytes, as they were before they were escaped.
pub(crate) fn record_of(
    alloc: Global,
    sent: &Request<'_>,
    len: usize,
) -> Result<Vec<Bytes>, RecordFault>
    requires { sent.now ≢ [] → len ≡ length (spelling sent.now) }
    ensures ok { IfOk result (λ words. sent.now ≡ with_size (map escaped words.items)) }
    ensures damaged { result ≡ Err RecordFault.Damaged →
        (words : List (List ℕ)) → sent.now ≢ with_size (map escaped words) }
{
    let Some(behind) = sized_words(sent, len) else {
        return Err(RecordFault::Damaged);
    };
    plain_words(alloc, behind)
}

/// Whether a word is a number.
#[tactic(auto, using(crate::proofs::Naturals::naturals))]
pub(crate) fn is_number(word: &[u8], number: u64) -> bool
    ensures yes { result ≡ true → word.now ≡ decimal number }
    ensures no { result ≡ false → word.now ≢ decimal number }
{
    let Some(found) = natural(word) else {
        return false;
    };
    if found == number {
        return true;
    }
    false
}

/// The first word, and those after the checksum. None if there is no checksum, or it is wrong.
pub(crate) fn checked_words(words: &[Bytes]) -> Option<(&Bytes, &[Bytes])>
    ensures { MatchOption result
        ((first : List ℕ) (rest : List (List ℕ)) → words.now ≢ with_checksum first rest)
        (λ parts. words.now ≡ with_checksum parts.0.now parts.1.now) }
{
    match words {
        [first, sum, rest @ ..] => {
            if is_number(sum.as_slice(), checksum_of(first.as_slice(), rest) as u64) {
                return Some((first, rest));
            }
            None
        }
        _ => None,
    }
}

/// The moment that a word spells.
pub(crate) fn moment_of(word: &Bytes) -> Option<Moment>
    ensures { MatchOption result ((now : ℕ) → now < 2 ^ 63 → word.now ≢ decimal now)
        (λ now. (word.now ≡ decimal now) × (now < 2 ^ 63)) }
{
    let Some(number) = natural(word.as_slice()) else {
        return None;
    };
    let Some(now) = Moment::new(number) else {
        return None;
    };
    Some(now)
}

/// The event of a record of `len` bytes.
pub(crate) fn read_record(
    alloc: Global,
    sent: &Request<'_>,
    len: usize,
) -> Result<(Moment, Command), RecordFault>
    requires { sent.now ≢ [] → len ≡ length (spelling sent.now) }
    ensures ok { IfOk result (λ event. IsRecordOf sent.now event) }
    ensures damaged { result ≡ Err RecordFault.Damaged → (event : Event) → IsRecordOf sent.now event → ⊥ }
{
    let words = match record_of(alloc, sent, len) {
        Ok(words) => words,
        Err(fault) => return Err(fault),
    };
    let Some((first, rest)) = checked_words(words.as_slice()) else {
        return Err(RecordFault::Damaged);
    };
    let Some(now) = moment_of(first) else {
        return Err(RecordFault::Damaged);
    };
    if rest.is_empty() {
        return Err(RecordFault::Damaged);
    }
    match read_command(alloc, rest) {
        Ok(command) => Ok((now, command)),
        Err(Refusal::Said(_)) => Err(RecordFault::Damaged),
        Err(Refusal::Memory) => Err(RecordFault::Memory),
    }
}
