//! A reader of a snapshot, piece by piece.
ghost use Rattle.std.specs.Prelude.{◌≡◌, ◌∷◌, [], ◌++◌, ℕ, List, Option, Some, IfOk, IfErr, MatchOption};
ghost use Rattle.xs_io.specs.Passing.{Passing, known_by};
ghost use Rattle.xs_replay.specs.Pieces as content;
ghost use Rattle.xs_log.specs.PieceOf.{piece_of};
ghost use Rattle.xs_log.specs.SnapshotFault.{HasRunOut};
ghost use Rattle.xs_log.specs.SnapshotPieces.{HasPieces};
ghost use Rattle.xs_log.specs.SnapshotReading.{HasRead, HasReadAll};

use crate::piece::Piece;
use crate::snapshot_fault::SnapshotFault;
use crate::snapshot_input::{take_end, take_header, take_piece};
use std::alloc::Global;
use std::marker::Model;
use xs_io::Source;
use xs_resp::Requests;
use xs_stream::Moment;

/// A reader of a snapshot. It owns the source, and holds one piece at a time.
#[derive(Drop)]
pub struct SnapshotReader<R: Source + Drop> {
    alloc: Global,
    source: R,
    requests: Requests,
    // The number of bytes of complete records that were read.
    at: u64,
    // The number of pieces that were returned.
    count: u64,
}

impl<R: Source + Drop> Model for SnapshotReader<R> {
    ghost use Rattle.xs_log.specs.SnapshotReading.{SnapshotReading};

    ghost Value = { SnapshotReading };

    ghost view = { λ r. record { source = R.rest r.source; held = r.requests; count = r.count } };
}

impl<R: Source + Drop> SnapshotReader<R> {
    /// Reads the header of the snapshot with this number. Returns a reader of the pieces after it, and the moment of
    /// the last event before the snapshot, if there was one.
    ///
    /// # Errors
    /// A `SnapshotFault`.
    pub fn open(
        alloc: Global,
        number: u64,
        source: R,
    ) -> Result<(Self, Option<Moment>), SnapshotFault>
        ensures ok { IfOk result (λ opened. HasRead number (R.rest source) opened.0 opened.1 []) }
        // A snapshot with this number is never refused, unless memory, the source or a number of 64 bits runs out.
        ensures err { (bytes : List ℕ) (moment : Option ℕ) (pieces : List content.Piece) →
            known_by R.rest source ≡ Some bytes → HasPieces number bytes moment pieces → IfErr result HasRunOut }
    {
        let mut source = source;
        let mut requests = Requests::new(alloc);
        let (moment, at) = match take_header(alloc, number, &mut requests, &mut source) {
            Ok(header) => header,
            Err(fault) => return Err(fault),
        };
        let reader = Self {
            alloc,
            source,
            requests,
            at,
            count: 0,
        };
        Ok((reader, moment))
    }

    /// The next piece. None at the end, whose count has to be right and after which nothing may follow. After that, or
    /// after an error, the reader must not be used any more.
    ///
    /// # Errors
    /// A `SnapshotFault`. The pieces so far must not be used then.
    pub fn next_piece(&mut self) -> Result<Option<Piece>, SnapshotFault>
        // What was read is the header and the pieces that were returned; at the end it is a complete snapshot of them.
        ensures ok { (number : ℕ) (first : Passing) (moment : Option ℕ) (pieces : List content.Piece) →
            HasRead number first self.old moment pieces →
            IfOk result (λ found. MatchOption found (HasReadAll number first self.new moment pieces)
            (λ piece. HasRead number first self.new moment (pieces ++ piece_of piece ∷ []))) }
        // A snapshot with this number is never refused, unless memory, the source or a number of 64 bits runs out.
        ensures err { (number : ℕ) (first : Passing) (moment last : Option ℕ) (pieces all : List content.Piece)
            (bytes : List ℕ) → HasRead number first self.old moment pieces → first.known ≡ Some bytes →
            HasPieces number bytes last all → IfErr result HasRunOut }
    {
        let found = match take_piece(
            self.alloc,
            self.count,
            &mut self.at,
            &mut self.requests,
            &mut self.source,
        ) {
            Ok(found) => found,
            Err(fault) => return Err(fault),
        };
        let Some(piece) = found else {
            match take_end(self.at, &mut self.requests, &mut self.source) {
                Ok(()) => return Ok(None),
                Err(fault) => return Err(fault),
            }
        };
        let Some(count) = self.count.checked_add(1) else {
            return Err(SnapshotFault::TooLong);
        };
        self.count = count;
        Ok(Some(piece))
    }
}
