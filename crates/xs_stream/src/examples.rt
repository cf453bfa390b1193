//! Examples of the definitions, with expected values from outside.
#![tactic(auto, unfolding(crate::proofs::Computing::example_functions))]

ghost use Rattle.xs_stream.specs.Examples.{Order, Bounds, Numbers, Neighbours, Assigned, Texts, Ends};
ghost use Rattle.xs_stream.specs.ExamplesKept.{Entries, Trims, Ranges};

/// Which id is below which.
pub fn order()
    ensures { Order }
{}

/// The least and the greatest id.
pub fn bounds()
    ensures { Bounds }
{}

/// The numbers of an id.
pub fn numbers()
    ensures { Numbers }
{}

/// The ids next to one.
pub fn neighbours()
    ensures { Neighbours }
{}

/// The id that an added entry gets.
pub fn assigned_ids()
    ensures { Assigned }
{}

/// Ids in words.
pub fn id_texts()
    ensures { Texts }
{}

/// The ends of ranges in words.
pub fn range_ends()
    ensures { Ends }
{}

/// Entries, their order, and deletions.
pub fn entries()
    ensures { Entries }
{}

/// What a trim keeps.
pub fn trims()
    ensures { Trims }
{}

/// What a range shows.
pub fn ranges()
    ensures { Ranges }
{}
