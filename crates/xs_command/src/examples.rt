//! Examples of commands and the words that spell them, proved of the definition that `read_command` follows.
#![tactic(auto, unfolding(crate::proofs::Computing::example_functions))]

ghost use Rattle.xs_command.specs.Examples.{StreamExamples, GroupExamples};
ghost use Rattle.xs_command.specs.ExamplesWords.{Integers, AddIds, Counts, Given};
ghost use Rattle.xs_command.specs.ExamplesStreams.{Additions, Removals, Scans};
ghost use Rattle.xs_command.specs.ExamplesGroups as groups;
ghost use Rattle.xs_command.specs.ExamplesEmpty.{EmptyWords};
ghost use Rattle.xs_command.specs.ExamplesFormed.{Formed};

/// Commands of streams without groups.
pub fn stream_examples()
    ensures { StreamExamples }
{}

/// Commands of groups.
pub fn group_examples()
    ensures { GroupExamples }
{}

/// Whole numbers.
pub fn integers()
    ensures { Integers }
{}

/// The ids of additions.
pub fn add_ids()
    ensures { AddIds }
{}

/// How many words a command may have.
pub fn counts()
    ensures { Counts }
{}

/// What a call that reads may return.
pub fn given()
    ensures { Given }
{}

/// XADD.
pub fn additions()
    ensures { Additions }
{}

/// XDEL, XTRIM and DEL.
pub fn removals()
    ensures { Removals }
{}

/// XRANGE and XREVRANGE.
pub fn scans()
    ensures { Scans }
{}

/// XGROUP.
pub fn groups()
    ensures { groups.Groups }
{}

/// XREADGROUP.
pub fn reads()
    ensures { groups.Reads }
{}

/// XACK and XPENDING.
pub fn pending()
    ensures { groups.Pending }
{}

/// XCLAIM.
pub fn claims()
    ensures { groups.Claims }
{}

/// XAUTOCLAIM.
pub fn auto_claims()
    ensures { groups.Scans }
{}

/// Empty words.
pub fn empty_words()
    ensures { EmptyWords }
{}

/// Commands that words can't give.
pub fn formed()
    ensures { Formed }
{}
