//! The requests of a snapshot, read from a source one by one.
ghost use Rattle.std.specs.Prelude.{◌≡◌, ◌∷◌, [], ◌++◌, ℕ, List, Option, Ok, true, false, length};
ghost use Rattle.std.specs.Prelude.{IfOk, IfErr, OnOk, MatchOption};
ghost use Rattle.xs_io.specs.Passing.{Passing, Consumes, IsAtEnd};
ghost use Rattle.xs_resp.specs.HeldBytes.{HasNext};
ghost use Rattle.xs_resp.specs.Reading.{request};
ghost use Rattle.xs_tape.specs.Records.{spellings};
ghost use Rattle.xs_replay.specs.SnapshotWords.{Fits};
ghost use Rattle.xs_replay.specs.Snapshot.{snapshot_header, piece_record};
ghost use Rattle.xs_log.specs.PieceOf.{piece_of};
ghost use Rattle.xs_log.specs.SnapshotFault.{HasRunOut};
ghost use Rattle.xs_log.specs.SnapshotPieces.{end_record, MomentFits};
ghost use Rattle.xs_log.specs.SnapshotReading.{HasTaken, Gives, MayStandBehind};

use crate::piece::Piece;
use crate::record::RecordFault;
use crate::snapshot_fault::SnapshotFault;
use crate::snapshot_header::read_header;
use crate::snapshot_record::read_piece;
use std::alloc::Global;
use xs_io::{Fill, FillFault, Source};
use xs_resp::Requests;
use xs_stream::Moment;

/// Reads until a complete request is at the front, and returns whether there is one. There is none if the source has
/// ended.
pub(crate) fn await_request<R: Source>(
    requests: &mut Requests,
    source: &mut R,
    at: u64,
) -> Result<bool, SnapshotFault>
    ensures ok { (first : Passing) (done : List (List (List ℕ))) →
        HasTaken first (R.rest source.old) requests.old done →
        OnOk result (HasTaken first (R.rest source.new) requests.new done) }
    ensures yes { result ≡ Ok true → HasNext requests.new }
    ensures no { result ≡ Ok false → IsAtEnd (R.rest source.new)
        × ((rest : List ℕ) × (requests.new ≡ Ok rest) × (request rest ≡ Ok None)) }
    // What can be spelled is never refused.
    ensures err { (first : Passing) (done written : List (List (List ℕ))) →
        HasTaken first (R.rest source.old) requests.old done → Gives first written → IfErr result HasRunOut }
{
    for _ in 0..u64::MAX {
        match requests.has_next() {
            Ok(true) => return Ok(true),
            Ok(false) => {}
            Err(_) => return Err(SnapshotFault::Damaged(at)),
        }
        match requests.fill(source) {
            Ok(0) => return Ok(false),
            Ok(_) => {}
            Err(FillFault::Memory) => return Err(SnapshotFault::Memory),
            Err(FillFault::Read) => return Err(SnapshotFault::Device),
        }
    }
    Err(SnapshotFault::TooLong)
}

/// Takes the header of a snapshot with this number. Returns its moment, and the number of its bytes.
pub(crate) fn take_header<R: Source>(
    alloc: Global,
    number: u64,
    requests: &mut Requests,
    source: &mut R,
) -> Result<(Option<Moment>, u64), SnapshotFault>
    ensures ok { (first : Passing) → HasTaken first (R.rest source.old) requests.old [] →
        IfOk result (λ found. HasTaken first (R.rest source.new) requests.new (snapshot_header number found.0 ∷ [])
        × MomentFits found.0) }
    ensures err { (first : Passing) (moment : Option ℕ) (others : List (List (List ℕ))) →
        HasTaken first (R.rest source.old) requests.old [] → Gives first (snapshot_header number moment ∷ others) →
        MomentFits moment → IfErr result HasRunOut }
{
    match await_request(requests, source, 0) {
        Ok(true) => {}
        Ok(false) => return Err(SnapshotFault::Foreign),
        Err(fault) => return Err(fault),
    }
    let len = requests.front_len();
    let sent = requests.front();
    let moment = match read_header(alloc, number, &sent, len) {
        Ok(moment) => moment,
        Err(fault) => return Err(fault),
    };
    requests.skip();
    Ok((moment, len as u64))
}

/// Takes the record at a byte, after `count` pieces. Returns its piece, or None at the end.
pub(crate) fn take_piece<R: Source>(
    alloc: Global,
    count: u64,
    at: &mut u64,
    requests: &mut Requests,
    source: &mut R,
) -> Result<Option<Piece>, SnapshotFault>
    ensures ok { (first : Passing) (done : List (List (List ℕ))) →
        HasTaken first (R.rest source.old) requests.old done →
        IfOk result (λ found. MatchOption found
        (HasTaken first (R.rest source.new) requests.new (done ++ end_record count ∷ []))
        (λ piece. HasTaken first (R.rest source.new) requests.new (done ++ piece_record (piece_of piece) ∷ [])
        × Fits (piece_of piece))) }
    ensures err { (first : Passing) (done others : List (List (List ℕ))) (words : List (List ℕ)) →
        HasTaken first (R.rest source.old) requests.old done → Gives first (done ++ words ∷ others) →
        MayStandBehind count words → IfErr result HasRunOut }
{
    match await_request(requests, source, *at) {
        Ok(true) => {}
        Ok(false) => return Err(SnapshotFault::Damaged(*at)),
        Err(fault) => return Err(fault),
    }
    let len = requests.front_len();
    let sent = requests.front();
    let found = match read_piece(alloc, count, &sent, len) {
        Ok(found) => found,
        Err(RecordFault::Memory) => return Err(SnapshotFault::Memory),
        Err(RecordFault::Damaged) => return Err(SnapshotFault::Damaged(*at)),
    };
    requests.skip();
    *at = at.saturating_add(len as u64);
    Ok(found)
}

/// Reads to the end of the source. Nothing may follow the last record.
pub(crate) fn take_end<R: Source>(
    at: u64,
    requests: &mut Requests,
    source: &mut R,
) -> Result<(), SnapshotFault>
    ensures ok { (first : Passing) (done : List (List (List ℕ))) →
        HasTaken first (R.rest source.old) requests.old done →
        OnOk result (Consumes first (R.rest source.new) (spellings done) × IsAtEnd (R.rest source.new)) }
    ensures err { (first : Passing) (done : List (List (List ℕ))) →
        HasTaken first (R.rest source.old) requests.old done → Gives first done → IfErr result HasRunOut }
{
    match await_request(requests, source, at) {
        Ok(true) => return Err(SnapshotFault::Damaged(at)),
        Ok(false) => {}
        Err(fault) => return Err(fault),
    }
    if requests.partial() {
        return Err(SnapshotFault::Damaged(at));
    }
    Ok(())
}
