//! The content of a line of a script.
ghost use Rattle.std.specs.Prelude.{◌≡◌, ◌<◌, ◌≤◌, ◌∷◌, length, IfOk, IfSome};
ghost use Rattle.std.specs.Option.{option_map, option_copied};
ghost use Rattle.xs_script.specs.Line.{parts_of, parts_behind, full_parts, moment_of, line_of, line_limit};

use memchr::memchr;
use std::alloc::{AllocError, Global};
use xs_bytes::{Bytes, natural};
use xs_stream::Moment;

/// The most words of most lines: there is room for them at once.
const MOST_WORDS: usize = 16;

/// The part before the first space, and what follows the space. None if there is no space.
fn split_space(text: &[u8]) -> (&[u8], Option<&[u8]>)
    ensures parts { parts_of text.now ≡ result.0.now ∷ parts_behind (option_copied result.1) }
    ensures shorter { IfSome result.1 (λ rest. length rest.now < length text.now) }
{
    match memchr(b' ', text) {
        Some(at) => (&text[..at], Some(&text[at + 1..])),
        None => (text, None),
    }
}

/// The parts of a text between spaces. None if one is empty.
fn words_of(alloc: Global, text: &[u8]) -> Result<Option<Vec<Bytes>>, AllocError>
    ensures { IfOk result (λ words. option_map (λ w. w.items) words
        ≡ full_parts (parts_of text.now)) }
{
    let mut words = Vec::with_capacity(alloc, MOST_WORDS)?;
    let mut left = Some(text);
    while let Some(text) = left {
        let (word, rest) = split_space(text);
        if word.is_empty() {
            return Ok(None);
        }
        words.push(Bytes::from_slice(alloc, word)?)?;
        left = rest;
    }
    Ok(Some(words))
}

/// A moment in milliseconds, without leading zeros.
fn moment(text: &[u8]) -> Option<Moment>
    ensures { result ≡ moment_of text.now }
{
    Moment::new(natural(text)?)
}

/// The moment and the words of a script line. None if it isn't a script line.
pub fn read_line(alloc: Global, line: &[u8]) -> Result<Option<(Moment, Vec<Bytes>)>, AllocError>
    requires { length line.now ≤ line_limit }
    ensures { IfOk result (λ read. option_map (λ r. (r.0, r.1.items)) read ≡ line_of line.now) }
{
    let (first, behind) = split_space(line);
    let Some(client) = behind else {
        return Ok(None);
    };
    let (name, behind) = split_space(client);
    let Some(request) = behind else {
        return Ok(None);
    };
    let Some(now) = moment(first) else {
        return Ok(None);
    };
    if name.is_empty() {
        return Ok(None);
    }
    match words_of(alloc, request)? {
        Some(words) => Ok(Some((now, words))),
        None => Ok(None),
    }
}
