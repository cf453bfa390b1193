//! What a client may send before it has given the password.
ghost use Rattle.std.specs.Prelude.{◌≡◌, Ok};
ghost use Rattle.xs_resp.specs.HeldBytes.{Held, Ready};
ghost use Rattle.xs_session.specs.Strangers.{are_short, is_small, is_too_much};

use xs_resp::{Request, Requests};

/// The most words of a request.
const MOST_WORDS: usize = 10;

/// The most bytes of a word.
const MOST_BYTES: usize = 16_384;

/// The number of bytes of the largest such request: `*10`, and ten times `$16384` and a word, with their line ends.
const MOST_HELD: usize = 163_945;

/// Whether no word is above the limit.
fn are_short(words: Request<'_>) -> bool
    ensures { result ≡ are_short words.entry }
{
    let mut left = words;
    while let Some((word, behind)) = left.split_first() {
        if word.len() > MOST_BYTES {
            return false;
        }
        left = behind;
    }
    true
}

/// Whether a request is within the limits.
fn is_small(words: Request<'_>) -> bool
    ensures { result ≡ is_small words.entry }
{
    words.len() <= MOST_WORDS && are_short(words)
}

/// Whether more is held than a client may send before it has given the password. `is_whole` has to be whether a
/// complete request is held.
pub fn is_too_much(requests: &Requests, is_whole: bool) -> bool
    requires looked { (old : Held) × Ready old (Ok is_whole) requests.now }
    ensures { result ≡ is_too_much requests.now }
{
    if is_whole {
        return !is_small(requests.front());
    }
    requests.held_bytes().len() > MOST_HELD
}
