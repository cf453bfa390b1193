//! Laws of reading snapshots. Each is a function with an empty body.
ghost use Rattle.std.specs.Prelude.{List};
ghost use Rattle.std.specs.List.{AllByRecursion};
ghost use Rattle.xs_bytes.specs.SortedMap.{empty};
ghost use Rattle.xs_keys.specs.Event.{Event};
ghost use Rattle.xs_keys.specs.Content.{Content};
ghost use Rattle.xs_replay.specs.After.{contents_after};
ghost use Rattle.xs_replay.specs.Pieces.{pieces_of};
ghost use Rattle.xs_replay.specs.Ranges.{EventFits};
ghost use Rattle.xs_snapshot.specs.NextPiece.{AreFitting};
ghost use Rattle.xs_snapshot.specs.Restorable.{IsRestorable};

/// Each of the pieces of a restorable content may follow those before it, and the end may follow the last.
pub fn the_pieces_of_a_restorable_content_fit()
    ensures { (content : Content) → IsRestorable content → AreFitting (pieces_of content) }
{}

/// The content after events is restorable, if their numbers are in range. So a snapshot of it is never refused, unless
/// memory, the source or a number of 64 bits runs out (`read_snapshot`).
pub fn what_events_leave_is_restorable()
    ensures { (events : List Event) → AllByRecursion EventFits events → IsRestorable (contents_after empty events) }
{}
