//! Examples of the definitions, with expected values worked out by hand.
#![tactic(auto, unfolding(crate::proofs::Computing::example_functions))]

ghost use Rattle.xs_replay.specs.ExamplesPieces.{Written, Said};
ghost use Rattle.xs_replay.specs.ExamplesFolder.{Starts, Left, Standing};
ghost use Rattle.xs_replay.specs.ExamplesRanges.{Events};
ghost use Rattle.xs_replay.specs.ExamplesSnapshot.{Words, Readings, InRange, Snapshots};

/// The pieces of a content.
pub fn written()
    ensures { Written }
{}

/// The content of pieces.
pub fn said()
    ensures { Said }
{}

/// What a start finds.
pub fn starts()
    ensures { Starts }
{}

/// What logs leave.
pub fn left()
    ensures { Left }
{}

/// Which logs a snapshot replaces, and what a folder has served.
pub fn standing()
    ensures { Standing }
{}

/// The words of pieces, and of a header.
pub fn words()
    ensures { Words }
{}

/// The piece that words spell.
pub fn readings()
    ensures { Readings }
{}

/// Which numbers a piece may have.
pub fn in_range()
    ensures { InRange }
{}

/// Which requests are a snapshot.
pub fn snapshots()
    ensures { Snapshots }
{}

/// Which events have their numbers in range.
pub fn events()
    ensures { Events }
{}
