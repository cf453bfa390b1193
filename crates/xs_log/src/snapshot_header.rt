//! The header of a snapshot.
ghost use Rattle.std.specs.Prelude.{◌≡◌, ◌≢◌, ◌⊎◌, ◌∷◌, [], ℕ, Option, None, codes, decimal, length};
ghost use Rattle.std.specs.Prelude.{IfOk, IfErr, OnOk, OnErr, MatchOption};
ghost use Rattle.xs_resp.specs.Grammar.{spelling};
ghost use Rattle.xs_replay.specs.Log.{model_number};
ghost use Rattle.xs_replay.specs.Snapshot.{moment_words, header_values, snapshot_header};
ghost use Rattle.xs_log.specs.SnapshotFault.{HasRunOut};
ghost use Rattle.xs_log.specs.SnapshotPieces.{MomentFits};

use crate::header::{MODEL_NUMBER, is_text};
use crate::record::{RecordFault, checked_words, is_number, moment_of, record_of};
use crate::snapshot_fault::SnapshotFault;
use std::alloc::Global;
use xs_bytes::{Bytes, natural};
use xs_resp::Request;
use xs_stream::Moment;

/// The first word of a snapshot.
pub(crate) const NAME: &[u8] = b"xs-snapshot";

/// The word of the format.
pub(crate) const FORMAT: &[u8] = b"1";

/// The moment that the last words of a header spell, if there is one.
fn last_moment(words: &[Bytes]) -> Result<Option<Moment>, SnapshotFault>
    ensures ok { IfOk result (λ moment. (words.now ≡ moment_words moment) × MomentFits moment) }
    ensures err { OnErr result ((moment : Option ℕ) → MomentFits moment → words.now ≢ moment_words moment) }
{
    match words {
        [] => Ok(None),
        [word] => match moment_of(word) {
            Some(moment) => Ok(Some(moment)),
            None => Err(SnapshotFault::Foreign),
        },
        _ => Err(SnapshotFault::Foreign),
    }
}

/// The moment of a header, if the words after its name are those of a snapshot with this number.
fn moment_behind(number: u64, rest: &[Bytes]) -> Result<Option<Moment>, SnapshotFault>
    ensures ok { IfOk result (λ moment. (rest.now ≡ header_values number moment) × MomentFits moment) }
    ensures err { OnErr result ((moment : Option ℕ) → MomentFits moment → rest.now ≢ header_values number moment) }
{
    let [format, log_number, model, words @ ..] = rest else {
        return Err(SnapshotFault::Foreign);
    };
    if !is_text(format.as_slice(), FORMAT) {
        return Err(SnapshotFault::OtherFormat);
    }
    if !is_number(log_number.as_slice(), number) {
        return Err(SnapshotFault::OtherNumber);
    }
    if !is_number(model.as_slice(), MODEL_NUMBER) {
        return Err(SnapshotFault::OtherModel(natural(model.as_slice()).unwrap_or(0)));
    }
    last_moment(words)
}

/// The moment in the header of a snapshot with this number, whose words take `len` bytes.
pub(crate) fn read_header(
    alloc: Global,
    number: u64,
    sent: &Request<'_>,
    len: usize,
) -> Result<Option<Moment>, SnapshotFault>
    requires { sent.now ≢ [] → len ≡ length (spelling sent.now) }
    ensures ok { IfOk result (λ moment. (sent.now ≡ snapshot_header number moment) × MomentFits moment) }
    ensures err { IfErr result (λ fault. HasRunOut fault
        ⊎ ((moment : Option ℕ) → MomentFits moment → sent.now ≢ snapshot_header number moment)) }
{
    let words = match record_of(alloc, sent, len) {
        Ok(words) => words,
        Err(RecordFault::Memory) => return Err(SnapshotFault::Memory),
        Err(RecordFault::Damaged) => return Err(SnapshotFault::Foreign),
    };
    let Some((name, rest)) = checked_words(words.as_slice()) else {
        return Err(SnapshotFault::Foreign);
    };
    if !is_text(name.as_slice(), NAME) {
        return Err(SnapshotFault::Foreign);
    }
    moment_behind(number, rest)
}
