//! Laws of the calls of desks.
ghost use Rattle.std.specs.Prelude.{◌≡◌, ◌≤◌, ◌++◌, [], ℕ, List, take, slice_get, Some};
ghost use mathlib.Core.List.{IsPrefix};
ghost use Rattle.xs_bytes.specs.SortedMap.{empty};
ghost use Rattle.xs_keys.specs.Event.{Event, History};
ghost use Rattle.xs_keys.specs.Content.{Content, IsContent};
ghost use Rattle.xs_keys.specs.AtEach.{AtEach};
ghost use Rattle.xs_command.specs.declared.command.Command.{Command};
ghost use Rattle.xs_keys.specs.Headline.{AreWellFormed, Headline, LivesAreApart};
ghost use Rattle.xs_keys.specs.JobMove.{EachMovesAlong};
ghost use Rattle.xs_replay.specs.Calls.{Call, Serves, log_of, survivors};
ghost use Rattle.xs_desk.specs.declared.lane_end.LaneEnd.{LaneEnd};
ghost use Rattle.xs_desk.specs.ServedCalls.{ServedCall, Desk, AreCallsOf, of_lane, events_of, replies_of, answers_of};
ghost use Rattle.xs_desk.specs.LaneEnds.{handed_out};
ghost use Rattle.xs_desk.specs.Durable.{AreMarked, IsDurable};
ghost use Rattle.xs_desk.specs.KeeperTurns.{ServesAll};

use crate::journal::Journal;

/// Only one list is that of the calls of a desk.
pub fn calls_are_unique()
    ensures { (desk : Desk) (one other : List ServedCall) → AreCallsOf one desk → AreCallsOf other desk → one ≡ other }
{}

/// The calls that a turn serves (`Keeper::turn`) come after those before it, and nothing else is added.
pub fn calls_grow_by_what_is_served()
    ensures { (old new : Desk) (calls more : List ServedCall) → AreCallsOf calls old → ServesAll old more new
        → AreCallsOf (calls ++ more) new }
{}

/// The headline holds for what a desk that began empty has served, from the first call on, and for each event: its
/// command is well formed, it leaves the lives of other groups unchanged, and each job goes along an arrow.
pub fn what_is_served_has_the_headline()
    ensures { (desk : Desk) (calls : List ServedCall) → AreCallsOf calls desk → desk.start ≡ empty → (events : History)
        × Headline [] (events_of calls) (replies_of calls) events × AreWellFormed events
        × AtEach events (λ earlier e. LivesAreApart earlier e × EachMovesAlong earlier e) }
{}

/// The headline holds for what a desk has served over any past that left the content at its start.
pub fn what_is_served_goes_on()
    ensures { (desk : Desk) (calls : List ServedCall) (past : History) → AreCallsOf calls desk →
        IsContent desk.start past → (events : History)
        × Headline past (events_of calls) (replies_of calls) events × IsContent desk.keyspace events }
{}

/// Whatever a crash leaves of a log that has what a keeper noted, the calls that survive include each answer that was
/// handed out: they are the calls before the first event that is lost, including all that are settled.
pub fn what_was_handed_out_survives<J: Journal>()
    ensures { (calls : List ServedCall) (ends : List LaneEnd) (start content : Content) (journal : J) →
        IsDurable J.has calls ends start content journal →
        (marked : List Call) × (kept : ℕ) × AreMarked marked calls × Serves start marked content
        × J.has journal (log_of marked) kept × ((found : ℕ) → kept ≤ found → (settled : ℕ)
        × ((more : List Call) × (survivors found marked ≡ take settled marked ++ more))
        × ((k : ℕ) (lane_end : LaneEnd) → slice_get ends k ≡ Some lane_end →
        IsPrefix (handed_out lane_end) (answers_of (of_lane k (take settled calls))))) }
{}
