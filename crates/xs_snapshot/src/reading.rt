//! Reads a keyspace from a snapshot.
ghost use Rattle.std.specs.Prelude.{◌≡◌, ◌++◌, ◌∷◌, [], ℕ, List, Some, true, IfOk, IfErr, OnOk};
ghost use Rattle.xs_io.specs.Passing.{known_by};
ghost use Rattle.xs_replay.specs.After.{ServerState};
ghost use Rattle.xs_replay.specs.Pieces.{pieces_of};
ghost use Rattle.xs_replay.specs.Snapshot.{IsSnapshotFile};
ghost use Rattle.xs_log.specs.PieceOf.{piece_of};
ghost use Rattle.xs_log.specs.SnapshotFault.{HasRunOut};
ghost use Rattle.xs_snapshot.specs.Building.{pieces_so_far};
ghost use Rattle.xs_snapshot.specs.NextPiece.{is_whole, may_follow, IsInOrder};
ghost use Rattle.xs_snapshot.specs.Restorable.{IsRestorable};

use crate::keyspace_builder::KeyspaceBuilder;
use std::alloc::{AllocError, Global};
use xs_io::Source;
use xs_keys::Keyspace;
use xs_log::{Piece, SnapshotFault, SnapshotReader};
use xs_stream::Moment;

/// Appends the next piece, after `count` others.
fn put_next(builder: &mut KeyspaceBuilder, piece: Piece, count: u64) -> Result<(), SnapshotFault>
    ensures ok { OnOk result (pieces_so_far builder.new ≡ pieces_so_far builder.old ++ piece_of piece ∷ []) }
    ensures order { IsInOrder builder.new }
    ensures err { may_follow builder.old (piece_of piece) ≡ true → IfErr result HasRunOut }
{
    match builder.put(piece) {
        Ok(true) => Ok(()),
        Ok(false) => Err(SnapshotFault::Inconsistent(count)),
        Err(AllocError) => Err(SnapshotFault::Memory),
    }
}

/// The keyspace of all pieces, `count` in number.
fn finish(builder: KeyspaceBuilder, count: u64) -> Result<Keyspace, SnapshotFault>
    ensures ok { IfOk result (λ keyspace. pieces_of keyspace ≡ pieces_so_far builder) }
    ensures restorable { IfOk result IsRestorable }
    ensures err { is_whole builder ≡ true → IfErr result HasRunOut }
{
    match builder.finish() {
        Ok(Some(keyspace)) => Ok(keyspace),
        Ok(None) => Err(SnapshotFault::Inconsistent(count)),
        Err(AllocError) => Err(SnapshotFault::Memory),
    }
}

/// Reads the snapshot with this number to its end. Returns the keyspace, and the moment of the last event before the
/// snapshot, if there was one.
///
/// # Errors
/// A `SnapshotFault`.
pub fn read_snapshot<R: Source + Drop>(
    alloc: Global,
    number: u64,
    source: R,
) -> Result<(Keyspace, Option<Moment>), SnapshotFault>
    // All bytes of the source are a snapshot of what is returned.
    ensures ok { (bytes : List ℕ) → known_by R.rest source ≡ Some bytes →
        IfOk result (λ read. IsSnapshotFile number bytes (record { content = read.0; moment = read.1 })) }
    // If the content of the source isn't known, what was read is a snapshot all the same.
    ensures whole { IfOk result (λ read. (bytes : List ℕ)
        × IsSnapshotFile number bytes (record { content = read.0; moment = read.1 })) }
    // Its content is restorable.
    ensures restorable { IfOk result (λ read. IsRestorable read.0) }
    // A snapshot with this number is never refused if its content is restorable, unless memory, the source or a number
    // of 64 bits runs out.
    ensures err { (bytes : List ℕ) (state : ServerState) → known_by R.rest source ≡ Some bytes →
        IsSnapshotFile number bytes state → IsRestorable state.content → IfErr result HasRunOut }
{
    let (mut reader, moment) = SnapshotReader::open(alloc, number, source)?;
    let mut builder = KeyspaceBuilder::new(alloc);
    for count in 0..u64::MAX {
        let Some(piece) = reader.next_piece()? else {
            let keyspace = finish(builder, count)?;
            return Ok((keyspace, moment));
        };
        put_next(&mut builder, piece, count)?;
    }
    Err(SnapshotFault::TooLong)
}
