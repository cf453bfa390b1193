//! Examples of the definitions, with expected values from outside.
#![tactic(auto, unfolding(crate::proofs::Computing::example_functions))]

ghost use Rattle.xs_group.specs.ExamplesRead.{Counts, Members, Acknowledged, New, Own};
ghost use Rattle.xs_group.specs.ExamplesClaims.{ByIds, ByScan, TimesAndCounts, Settled};
ghost use Rattle.xs_group.specs.ExamplesDelivered.{Answers, TakenBack, Verdicts, Consistent};
ghost use Rattle.xs_group.specs.ExamplesIndexes.{Indexes, Listed, Left};
ghost use Rattle.xs_group.specs.ExamplesReport.{Summaries, Reports, Rows};
ghost use Rattle.xs_group.specs.ExamplesMoments.{Moments};

/// Idle times and counts of deliveries.
pub fn counts()
    ensures { Counts }
{}

/// Consumers that join and leave.
pub fn consumers()
    ensures { Members }
{}

/// Acknowledgements.
pub fn acknowledged()
    ensures { Acknowledged }
{}

/// Reads of new entries.
pub fn new_entries()
    ensures { New }
{}

/// Reads of a consumer's own entries.
pub fn own_entries()
    ensures { Own }
{}

/// Claims of ids.
pub fn claims_by_ids()
    ensures { ByIds }
{}

/// Claims by a scan.
pub fn claims_by_scan()
    ensures { ByScan }
{}

/// The time and the count of a claimed row.
pub fn times_and_counts()
    ensures { TimesAndCounts }
{}

/// A group after a claim.
pub fn settled()
    ensures { Settled }
{}

/// The summary of what is pending.
pub fn summaries()
    ensures { Summaries }
{}

/// The moments of consumers.
pub fn moments()
    ensures { Moments }
{}

/// The reports of consumers.
pub fn reports()
    ensures { Reports }
{}

/// The rows of what is pending.
pub fn rows()
    ensures { Rows }
{}

/// What reads return.
pub fn answers()
    ensures { Answers }
{}

/// Reads that are undone.
pub fn taken_back()
    ensures { TakenBack }
{}

/// What a claim does with one id.
pub fn verdicts()
    ensures { Verdicts }
{}

/// What is true of every group.
pub fn consistent()
    ensures { Consistent }
{}

/// The index by consumer.
pub fn indexes()
    ensures { Indexes }
{}

/// Reports as they are made.
pub fn listed()
    ensures { Listed }
{}

/// A group after a read.
pub fn left()
    ensures { Left }
{}
