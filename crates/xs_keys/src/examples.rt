//! Examples of what clients see, computed from the definitions of the model.
#![tactic(auto, unfolding(crate::proofs::Computing::example_functions))]

ghost use Rattle.xs_keys.specs.Examples.{Streams, Words, Deliveries, Claims, Lives, Remains, Reads, Reports, Edges};
ghost use Rattle.xs_keys.specs.ExamplesHistory as history;
ghost use Rattle.xs_keys.specs.ExamplesGroupEvents as group_events;
ghost use Rattle.xs_keys.specs.ExamplesAsks as asked;
ghost use Rattle.xs_keys.specs.ExamplesContent as content;
ghost use Rattle.xs_keys.specs.ExamplesHeadline as headline;
ghost use Rattle.xs_keys.specs.ExamplesInspections.{Inspections};
ghost use Rattle.xs_keys.specs.ExamplesJob as job;
ghost use Rattle.xs_keys.specs.ExamplesPresence as presence;
ghost use Rattle.xs_keys.specs.ExamplesReplies.{ReportedAdditions, ReportedReads, ReportedClaims, ReportedNumbers};
ghost use Rattle.xs_keys.specs.ExamplesTelling as telling;
ghost use Rattle.xs_keys.specs.ExamplesWaiting as waiting;

/// Ids, ranges and trims.
pub fn streams()
    ensures { Streams }
{}

/// The meaning of words, and their first fault.
pub fn words()
    ensures { Words }
{}

/// New deliveries, own pending entries, acknowledgements.
pub fn deliveries()
    ensures { Deliveries }
{}

/// Claims, by ids and by a scan.
pub fn claims()
    ensures { Claims }
{}

/// Consumers, groups and keys that end and begin again.
pub fn lives()
    ensures { Lives }
{}

/// What is left after the last one of something is removed.
pub fn remains()
    ensures { Remains }
{}

/// Reads with NOACK, and of several streams.
pub fn reads()
    ensures { Reads }
{}

/// What is pending.
pub fn reports()
    ensures { Reports }
{}

/// The greatest counts, precedence of options, every field, ends and starts.
pub fn edges()
    ensures { Edges }
{}

/// Streams by looking back over a history.
pub fn key_lives()
    ensures { history.Keys }
{}

/// The lives of groups.
pub fn group_lives()
    ensures { history.Groups }
{}

/// What was delivered in the life of a group.
pub fn deliveries_by_history()
    ensures { history.Deliveries }
{}

/// What one event delivers.
pub fn events()
    ensures { history.Events }
{}

/// The commands that take no memory.
pub fn memory()
    ensures { history.Memory }
{}

/// What replies report about entries.
pub fn reported()
    ensures { history.Reported }
{}

/// Whose turn it was.
pub fn turns_of_entries()
    ensures { group_events.Turns }
{}

/// Consumers by looking back.
pub fn consumers()
    ensures { group_events.Consumers }
{}

/// The moments of consumers by looking back.
pub fn moments_of_consumers()
    ensures { group_events.Moments }
{}

/// The owner of an entry.
pub fn owners()
    ensures { group_events.Owners }
{}

/// What settles an entry.
pub fn settling()
    ensures { group_events.Settling }
{}

/// What is pending.
pub fn rows()
    ensures { group_events.Rows }
{}

/// What each command asks of its own group, and of no other.
pub fn asked_of_a_group()
    ensures { asked.Asked }
{}

/// What last touched an entry, and what a claim asks for.
pub fn last_touches()
    ensures { asked.Touches }
{}

/// When a content is that of a history, and when it isn't.
pub fn contents()
    ensures { content.Contents }
{}

/// Each way in which an owner can change.
pub fn owners_go_on()
    ensures { headline.OwnersGoOn }
{}

/// How a life continues with what an event delivers.
pub fn lives_go_on()
    ensures { headline.LivesGoOn }
{}

/// What is a reply to an event.
pub fn answers_go_on()
    ensures { headline.AnswersGoOn }
{}

/// How an addition and the creation of a group can end.
pub fn endings()
    ensures { headline.Endings }
{}

/// What the replies to reads of groups report.
pub fn reported_reads()
    ensures { ReportedReads }
{}

/// What the replies to additions report.
pub fn reported_additions()
    ensures { ReportedAdditions }
{}

/// What the replies to claims report.
pub fn reported_claims()
    ensures { ReportedClaims }
{}

/// How many an acknowledgement, a deletion and a trim remove, and what XPENDING and XLEN count.
pub fn reported_numbers()
    ensures { ReportedNumbers }
{}

/// How an entry is reported.
pub fn telling_of_entries()
    ensures { telling.Telling }
{}

/// What the first of some ids are.
pub fn first_ids()
    ensures { telling.Firsts }
{}

/// The place of an entry.
pub fn places_of_a_job()
    ensures { job.Places }
{}

/// The meaning of each place.
pub fn standings_of_a_job()
    ensures { job.Standings }
{}

/// What moves an entry, and to which place.
pub fn arrows_of_a_job()
    ensures { job.Arrows }
{}

/// What doesn't move it.
pub fn no_arrows_of_a_job()
    ensures { job.NoArrows }
{}

/// How an entry comes, moves and stays.
pub fn comings_of_a_job()
    ensures { job.Comings }
{}

/// What removes an entry from its stream.
pub fn removals_from_a_stream()
    ensures { presence.Removals }
{}

/// What may begin the life of a job.
pub fn beginnings_of_a_job()
    ensures { presence.Beginnings }
{}

/// What creates a group.
pub fn creations_of_a_group()
    ensures { presence.Creations }
{}

/// The events after which a group is still open.
pub fn lasting_lives()
    ensures { job.Lasting }
{}

/// Which entries are at which place.
pub fn books_of_a_group()
    ensures { job.Books }
{}

/// Which reads find nothing.
pub fn reads_that_find_nothing()
    ensures { waiting.NothingNew }
{}

/// When the reply is the null array.
pub fn null_replies()
    ensures { waiting.NullReplies }
{}

/// How long a command may wait.
pub fn blocks()
    ensures { waiting.Blocks }
{}

/// Questions about a content.
pub fn inspections()
    ensures { Inspections }
{}
