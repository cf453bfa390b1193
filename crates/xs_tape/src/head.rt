//! Heads of records, and where a crash may have cut a record.
ghost use Rattle.std.specs.Prelude.{◌≡◌, ◌≢◌, ◌^◌, ◌<◌, ◌++◌, ℕ, List, true, decimal, length, take, slice_index};
ghost use Rattle.std.specs.Prelude.{IfSome, MatchOption};
ghost use Rattle.xs_resp.specs.Line.{crlf, line};
ghost use Rattle.xs_resp.specs.Grammar.{HasNoCr};
ghost use Rattle.xs_tape.specs.Heads.{HasHead, MayBeCut, IsCut};

use xs_bytes::natural;

/// The most bytes of a head: 10 for the number of words, 5 for the number of digits of the size, and 15 digits with
/// their line end.
const LONGEST_HEAD: usize = 32;

/// The place of the first CR.
#[tactic(auto, using(crate::proofs::Heads::no_cr_more))]
fn cr_at(text: &[u8]) -> Option<usize>
    ensures { MatchOption result (HasNoCr text.now)
        (λ at. (at < length text.now) × HasNoCr (take at text.now) × (slice_index text.now at ≡ 13)) }
{
    for at in 0..text.len() {
        if text[at] == b'\r' {
            return Some(at);
        }
    }
    None
}

/// The bytes after the line end at the front.
fn behind_line_end(rest: &[u8]) -> Option<&[u8]>
    ensures { MatchOption result ((behind : List ℕ) → rest.now ≢ crlf ++ behind)
        (λ behind. rest.now ≡ crlf ++ behind.now) }
{
    match rest {
        [b'\r', b'\n', behind @ ..] => Some(behind),
        _ => None,
    }
}

/// The number at the front, and the bytes after its line end.
fn number_line(text: &[u8]) -> Option<(u64, &[u8])>
    ensures line { MatchOption result
        ((number : ℕ) (behind : List ℕ) → number < 2 ^ 64 → text.now ≢ decimal number ++ (crlf ++ behind))
        (λ found. text.now ≡ decimal found.0 ++ (crlf ++ found.1.now)) }
    ensures small { IfSome result (λ found. found.0 < 2 ^ 64) }
{
    let Some(at) = cr_at(text) else {
        return None;
    };
    let (digits, rest) = text.split_at(at);
    let Some(number) = natural(digits) else {
        return None;
    };
    let Some(behind) = behind_line_end(rest) else {
        return None;
    };
    Some((number, behind))
}

/// The number of the line with this marker at the front, and the bytes after the line.
fn marked_line(marker: u8, bytes: &[u8]) -> Option<(u64, &[u8])>
    ensures line { MatchOption result
        ((number : ℕ) (behind : List ℕ) → number < 2 ^ 64 → bytes.now ≢ line marker number ++ behind)
        (λ found. bytes.now ≡ line marker found.0 ++ found.1.now) }
    ensures small { IfSome result (λ found. found.0 < 2 ^ 64) }
{
    let Some((first, text)) = bytes.split_first() else {
        return None;
    };
    if *first != marker {
        return None;
    }
    number_line(text)
}

/// The size in the head of a record, and the bytes after the head. None if there is no complete head.
fn size_in_head(part: &[u8]) -> Option<(u64, &[u8])>
    ensures { MatchOption result ((size : ℕ) (behind : List ℕ) → HasHead part.now size behind → ⊥)
        (λ found. HasHead part.now found.0 found.1.now) }
{
    let Some((_count, words)) = marked_line(b'*', part) else {
        return None;
    };
    let Some((_digits, text)) = marked_line(b'$', words) else {
        return None;
    };
    number_line(text)
}

/// Whether a record may have been cut after these bytes. It is false if a complete record is there whose lengths have
/// changed, so that it looks unfinished.
pub fn may_be_cut(part: &[u8]) -> bool
    ensures yes { result ≡ true → MayBeCut part.now }
    ensures cut { IsCut part.now → result ≡ true }
{
    let Some((size, behind)) = size_in_head(part) else {
        return part.len() < LONGEST_HEAD;
    };
    (behind.len() as u64) < size
}
