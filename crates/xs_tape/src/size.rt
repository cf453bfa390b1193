//! The number of bytes of words as they are sent.
ghost use Rattle.std.specs.Prelude.{◌≡◌, ◌≢◌, ◌^◌, ◌<◌, ◌≤◌, ◌∷◌, [], ℕ, List, length, map, MatchOption};
ghost use Rattle.xs_resp.specs.Line.{line};
ghost use Rattle.xs_resp.specs.Grammar.{sent_word, sent_words, spelling};
ghost use Rattle.xs_tape.specs.Escape.{escaped};
ghost use Rattle.xs_tape.specs.Records.{with_size};

use crate::escape::escaped_len;
use itoa::Buffer;
use xs_bytes::{Bytes, natural};
use xs_resp::Request;

/// The number of bytes of a line with a number.
fn line_len(number: usize) -> usize
    ensures value { (marker : ℕ) → result ≡ length (line marker number) }
    ensures small { result ≤ 23 }
{
    let mut buffer = Buffer::new();
    buffer.format(number as u64).len() + 3
}

/// The number of bytes of a word as it is sent.
fn sent_len(word: &[u8]) -> usize
    requires { length (sent_word (escaped word.now)) < 2 ^ 64 }
    ensures { result ≡ length (sent_word (escaped word.now)) }
{
    let size = escaped_len(word);
    line_len(size) + size + 2
}

/// The number of bytes of words as they are sent.
fn words_len(words: &[Bytes]) -> usize
    requires { length (sent_words (map escaped words.now)) < 2 ^ 64 }
    ensures { result ≡ length (sent_words (map escaped words.now)) }
{
    let mut size: usize = 0;
    for word in words {
        size += sent_len(word.as_slice());
    }
    size
}

/// The number of bytes of a first word, a checksum and further words as they are sent.
pub(crate) fn record_size(first: &[u8], sum: &[u8], rest: &[Bytes]) -> usize
    requires { length (sent_words (map escaped (first.now ∷ sum.now ∷ rest.now))) < 2 ^ 64 }
    ensures { result ≡ length (sent_words (map escaped (first.now ∷ sum.now ∷ rest.now))) }
{
    sent_len(first) + sent_len(sum) + words_len(rest)
}

/// The words after the first of a request of `len` bytes, if the first is their size.
pub fn sized_words<'a>(sent: &Request<'a>, len: usize) -> Option<Request<'a>>
    requires { sent.now ≢ [] → len ≡ length (spelling sent.now) }
    ensures { MatchOption result ((words : List (List ℕ)) → sent.now ≢ with_size words)
        (λ words. sent.now ≡ with_size words) }
{
    let Some((word, behind)) = sent.split_first() else {
        return None;
    };
    let head = line_len(sent.len()) + line_len(word.len()) + word.len() + 2;
    let Some(size) = natural(word) else {
        return None;
    };
    if size != (len - head) as u64 {
        return None;
    }
    Some(behind)
}
