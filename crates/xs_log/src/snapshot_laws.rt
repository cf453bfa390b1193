//! Laws of snapshots by their pieces. Each is a function with an empty body.
ghost use Rattle.std.specs.Prelude.{◌≡◌, ℕ, List, [], ◌++◌, Option};
ghost use Rattle.xs_replay.specs.After.{ServerState};
ghost use Rattle.xs_replay.specs.Pieces as content;
ghost use Rattle.xs_replay.specs.Snapshot.{IsSnapshotFile};
ghost use Rattle.xs_log.specs.SnapshotPieces.{HasPieces};

/// A snapshot of a state has the pieces of its content, and its moment; and a snapshot with these is one of the state.
pub fn a_snapshot_has_its_pieces()
    ensures has { (number : ℕ) (bytes : List ℕ) (state : ServerState) → IsSnapshotFile number bytes state →
        HasPieces number bytes state.moment (content.pieces_of state.content) }
    ensures is { (number : ℕ) (bytes : List ℕ) (state : ServerState) →
        HasPieces number bytes state.moment (content.pieces_of state.content) → IsSnapshotFile number bytes state }
{}

/// The bytes of a snapshot determine its number, its moment and its pieces. If they are cut, or anything follows them,
/// they aren't a snapshot.
pub fn the_pieces_are_whole()
    ensures { (number other : ℕ) (bytes more : List ℕ) (moment last : Option ℕ) (pieces all : List content.Piece) →
        HasPieces number bytes moment pieces → HasPieces other (bytes ++ more) last all →
        (number ≡ other) × (moment ≡ last) × (pieces ≡ all) × (more ≡ []) }
{}
