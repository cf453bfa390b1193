//! Which words can be a record.
ghost use Rattle.std.specs.Prelude.{◌≡◌, ◌≤◌, ℕ, List, true, length, map};
ghost use Rattle.xs_resp.specs.declared.header.Part.TheVariants.{Size};
ghost use Rattle.xs_resp.specs.HeaderPart.{limit};
ghost use Rattle.xs_resp.specs.Grammar.{AreSizes};
ghost use Rattle.xs_tape.specs.Escape.{escaped};
ghost use Rattle.xs_tape.specs.Records.{CanBeSpelled, record_words};

use crate::escape::escaped_len;
use xs_bytes::Bytes;

/// The most words of a record, its size and its checksum among them.
const MOST_WORDS: usize = 1_048_576;

/// The most bytes that a word takes in a log.
const MOST_BYTES: usize = 536_870_912;

#[tactic(auto, using(crate::proofs::Walks::sizes_more))]
fn are_short(words: &[Bytes]) -> bool
    ensures { result ≡ true → AreSizes (map escaped words.now) }
{
    for word in words {
        if escaped_len(word.as_slice()) > MOST_BYTES {
            return false;
        }
    }
    true
}

/// Whether a log may have a record with these words after its first, if the first is short. They have to be fewer than
/// 1048574, and each may take at most 512 MiB in a log, where the bytes 0 and 1 take two.
pub fn can_be_record(rest: &[Bytes]) -> bool
    ensures { result ≡ true → (first : List ℕ) → length (escaped first) ≤ limit Size →
        CanBeSpelled (record_words first rest.now) }
{
    rest.len() < MOST_WORDS - 2 && are_short(rest)
}
