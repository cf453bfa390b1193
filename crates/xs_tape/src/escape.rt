//! Words as a log has them.
ghost use Rattle.std.specs.Prelude.{◌≡◌, ◌≢◌, ◌++◌, ◌+◌, ◌*◌, ◌<◌, ◌≤◌, ℕ, List, length, take, IfOk, MatchOption};
ghost use Rattle.xs_tape.specs.Escape.{escape, escaped};

use memchr::memchr2;
use std::alloc::{AllocError, Global};
use xs_bytes::Bytes;

/// The number of bytes that a byte takes in a log.
#[tactic(auto, using(crate::proofs::Walks::escape_two, crate::proofs::Walks::escape_single))]
fn escape_len(byte: u8) -> usize
    ensures value { result ≡ length (escape byte) }
    ensures small { result ≤ 2 }
{
    if byte <= 1 { 2 } else { 1 }
}

/// The number of bytes before the first that is 0 or 1.
pub(crate) fn plain_len(text: &[u8]) -> usize
    ensures within { result ≤ length text.now }
    ensures plain { escaped (take result text.now) ≡ take result text.now }
{
    memchr2(0, 1, text).unwrap_or(text.len())
}

/// The number of bytes that a word takes in a log, counted byte by byte.
fn counted_len(word: &[u8]) -> usize
    ensures { result ≡ length (escaped word.now) }
{
    let mut size: usize = 0;
    for byte in word {
        size += escape_len(*byte);
    }
    size
}

/// The number of bytes that a word takes in a log.
pub(crate) fn escaped_len(word: &[u8]) -> usize
    ensures { result ≡ length (escaped word.now) }
{
    let plain = plain_len(word);
    if plain == word.len() {
        return plain;
    }
    counted_len(word)
}

/// The byte at the front of an escaped word, and the bytes after it. None if there is no such byte.
fn first_byte(rest: &[u8]) -> Option<(u8, &[u8])>
    ensures some { MatchOption result
        ((byte : ℕ) (more : List ℕ) → rest.now ≢ escape byte ++ more)
        (λ r. rest.now ≡ escape r.0 ++ r.1.now) }
{
    match rest {
        [0, ..] => None,
        [1, 1, behind @ ..] => Some((0, behind)),
        [1, 2, behind @ ..] => Some((1, behind)),
        [1, ..] => None,
        [byte, behind @ ..] => Some((*byte, behind)),
        [] => None,
    }
}

/// The word whose escaped text this is. None if there is no such word.
pub fn unescaped(alloc: Global, text: &[u8]) -> Result<Option<Bytes>, AllocError>
    ensures { IfOk result (λ r. MatchOption r
        ((word : List ℕ) → text.now ≢ escaped word) (λ word. text.now ≡ escaped word)) }
{
    let plain = plain_len(text);
    if plain == text.len() {
        return Ok(Some(Bytes::from_slice(alloc, text)?));
    }
    unescaped_behind(alloc, text, plain)
}

/// Like `unescaped`, for a text whose first `plain` bytes are unchanged by escaping.
fn unescaped_behind(alloc: Global, text: &[u8], plain: usize) -> Result<Option<Bytes>, AllocError>
    requires within { plain ≤ length text.now }
    requires plain { escaped (take plain text.now) ≡ take plain text.now }
    ensures { IfOk result (λ r. MatchOption r
        ((word : List ℕ) → text.now ≢ escaped word) (λ word. text.now ≡ escaped word)) }
{
    let mut word = Vec::with_capacity(alloc, text.len())?;
    let (front, mut rest) = text.split_at(plain);
    word.extend_from_slice(front)?;
    while !rest.is_empty() {
        let Some((byte, behind)) = first_byte(rest) else {
            return Ok(None);
        };
        word.push(byte)?;
        rest = behind;
    }
    Ok(Some(Bytes::new(word)))
}
