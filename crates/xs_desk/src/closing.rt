//! Closing a desk.
ghost use Rattle.std.specs.Prelude.{◌≡◌, ℕ, ◌<◌, ◌≤◌, [], List, length, map, IfOk, IfErr, IfSome, IfNone, IsTrue};
ghost use Rattle.std.specs.Prelude.{IsFalse, slice_get, Some, vec_capacity};
ghost use Rattle.xs_bytes.specs.SortedMap.{empty};
ghost use Rattle.xs_keys.specs.Headline.{RunsOn};
ghost use Rattle.xs_desk.specs.ServedCalls.{ServedCall, AreCallsOf, events_of, replies_of};
ghost use Rattle.xs_desk.specs.LaneEnds.{lane_of};
ghost use Rattle.xs_desk.specs.Callers.{Caller, AreEndsOfLanes, HasEndOfLane, IsSide};
ghost use Rattle.xs_desk.specs.Closing.{SumsUp, SumUp, AreEven, IsRefused};

use crate::client::Ended;
use crate::keeper::Keeper;
use crate::lane_end::LaneEnd;
use crate::summary::{LaneSummary, Summary};
use std::alloc::Global;

/// Why a desk wasn't closed. Both arguments are returned unchanged. The first cause that applies is reported.
#[derive(Drop)]
pub enum CloseError {
    /// The end of a lane is missing.
    Unfinished(Keeper, Vec<Ended>),
    /// Out of memory.
    Memory(Keeper, Vec<Ended>),
}

/// The place of the first end of the lane.
fn end_of(ended: &Vec<Ended>, lane: usize) -> Option<usize>
    ensures found { IfSome result (λ i. (i < length ended.now.items)
        × ((end : Caller) × (slice_get ended.now.items i ≡ Some end) × (end.lane ≡ lane))) }
    ensures none { IfNone result (HasEndOfLane ended.now.items lane → ⊥) }
{
    for i in 0..ended.len() {
        let end = &ended[i];
        if end.lane == lane {
            return Some(i);
        }
    }
    None
}

fn has_all(ended: &Vec<Ended>, lanes: usize) -> bool
    ensures yes { IsTrue result → (k : ℕ) → k < lanes → HasEndOfLane ended.now.items k }
    ensures no { IsFalse result → (k : ℕ) × (k < lanes) × (HasEndOfLane ended.now.items k → ⊥) }
{
    for k in 0..lanes {
        if end_of(ended, k).is_none() {
            return false;
        }
    }
    true
}

/// Looks at both rings of a lane with both ends of each.
fn sum_up(lane_end: &mut LaneEnd, end: &mut Ended) -> LaneSummary
    requires side { IsSide (lane_of lane_end.old) end.old }
    requires even { length (lane_of lane_end.old).sent ≡ length (lane_of lane_end.old).popped }
    ensures lane_end { lane_of lane_end.new ≡ lane_of lane_end.old }
    ensures end { end.new ≡ end.old }
    ensures summary { SumsUp (lane_of lane_end.old) end.old result }
{
    let left = lane_end.calls.slots_beside(&mut end.calls);
    let untaken = end.answers.slots_beside(&mut lane_end.answers.ring)
        + lane_end.answers.held_back.len();
    LaneSummary {
        served: lane_end.ticket,
        left: left as u64,
        untaken: untaken as u64,
    }
}

/// Sums up each lane. There has to be room for the summaries, and no end may be missing.
fn sum_up_all(lane_ends: &mut Vec<LaneEnd>, ended: &mut Vec<Ended>, lanes: &mut Vec<LaneSummary>)
    requires room { (lanes.old.items ≡ []) × (length lane_ends.old.items ≤ vec_capacity lanes.old) }
    requires ends { AreEndsOfLanes (map lane_of lane_ends.old.items) ended.old.items }
    requires all { (k : ℕ) → k < length lane_ends.old.items → HasEndOfLane ended.old.items k }
    requires even { AreEven (map lane_of lane_ends.old.items) }
    ensures { SumUp (map lane_of lane_ends.old.items) ended.old.items (length lane_ends.old.items) lanes.new.items }
{
    for k in 0..lane_ends.len() {
        let Some(at) = end_of(ended, k) else {
            unreachable!();
        };
        let end = &mut ended[at];
        let lane_end = &mut lane_ends[k];
        let summary = sum_up(lane_end, end);
        if lanes.push(summary).is_err() {
            unreachable!();
        }
    }
}

/// Closes a desk whose clients have finished. Each end has to be one of the desk's: its rings are those of the keeper's
/// lane with its number.
///
/// # Errors
/// A `CloseError`.
pub fn close(alloc: Global, keeper: Keeper, ended: Vec<Ended>) -> Result<Summary, CloseError>
    requires { AreEndsOfLanes keeper.lanes ended.items }
    ensures lanes { IfOk result (λ summary. SumUp keeper.lanes ended.items (length keeper.lanes) summary.lanes.items) }
    ensures calls { IfOk result (λ summary. (calls : List ServedCall) × AreCallsOf calls keeper
        × RunsOn empty (events_of calls) (replies_of calls) summary.keyspace) }
    ensures refused { IfErr result (IsRefused keeper ended.items) }
{
    let count = keeper.lanes();
    if !has_all(&ended, count) {
        return Err(CloseError::Unfinished(keeper, ended));
    }
    let Ok(mut lanes) = Vec::with_capacity(alloc, count) else {
        return Err(CloseError::Memory(keeper, ended));
    };
    let (mut lane_ends, keyspace) = keeper.into_parts();
    let mut ended = ended;
    sum_up_all(&mut lane_ends, &mut ended, &mut lanes);
    Ok(Summary { lanes, keyspace })
}
