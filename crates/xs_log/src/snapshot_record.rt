//! The records of a snapshot after its header.
ghost use Rattle.std.specs.Prelude.{◌≡◌, ◌≢◌, ◌∷◌, [], true, false, Err, decimal, length, IfOk, MatchOption};
ghost use Rattle.xs_resp.specs.Grammar.{spelling};
ghost use Rattle.xs_replay.specs.SnapshotWords.{Fits};
ghost use Rattle.xs_replay.specs.Snapshot.{piece_record};
ghost use Rattle.xs_log.specs.PieceOf.{piece_of};
ghost use Rattle.xs_log.specs.SnapshotPieces.{end_record};
ghost use Rattle.xs_log.specs.SnapshotReading.{MayStandBehind};

use crate::header::is_text;
use crate::piece::Piece;
use crate::piece_words::piece_from;
use crate::record::{RecordFault, checked_words, is_number, record_of};
use std::alloc::Global;
use xs_bytes::Bytes;
use xs_resp::Request;

/// The first word of the end.
pub(crate) const END: &[u8] = b"END";

/// Whether the words of an end have this count.
fn says_count(values: &[Bytes], count: u64) -> bool
    ensures yes { result ≡ true → values.now ≡ decimal count ∷ [] }
    ensures no { result ≡ false → values.now ≢ decimal count ∷ [] }
{
    match values {
        [word] => is_number(word.as_slice(), count),
        _ => false,
    }
}

/// The piece of a record of `len` bytes, or None at the end after `count` pieces.
pub(crate) fn read_piece(
    alloc: Global,
    count: u64,
    sent: &Request<'_>,
    len: usize,
) -> Result<Option<Piece>, RecordFault>
    requires { sent.now ≢ [] → len ≡ length (spelling sent.now) }
    ensures ok { IfOk result (λ found. MatchOption found (sent.now ≡ end_record count)
        (λ piece. (sent.now ≡ piece_record (piece_of piece)) × Fits (piece_of piece))) }
    ensures damaged { result ≡ Err RecordFault.Damaged → MayStandBehind count sent.now → ⊥ }
{
    let words = match record_of(alloc, sent, len) {
        Ok(words) => words,
        Err(fault) => return Err(fault),
    };
    let Some((kind, values)) = checked_words(words.as_slice()) else {
        return Err(RecordFault::Damaged);
    };
    if is_text(kind.as_slice(), END) {
        if says_count(values, count) {
            return Ok(None);
        }
        return Err(RecordFault::Damaged);
    }
    match piece_from(alloc, kind.as_slice(), values) {
        Ok(Some(piece)) => Ok(Some(piece)),
        Ok(None) => Err(RecordFault::Damaged),
        Err(_) => Err(RecordFault::Memory),
    }
}
