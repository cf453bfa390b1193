//! The keeper's side of a lane.
ghost use Rattle.std.specs.Prelude.{◌≡◌, ◌≤◌, ◌<◌, ◌⊎◌, true, false, length, IfSome};
ghost use Rattle.rtrb.specs.Ring.{known_items};
ghost use Rattle.xs_keys.specs.Waiting.{ChangesNothing};
ghost use Rattle.xs_desk.specs.Calls.{asked_by};
ghost use Rattle.xs_desk.specs.Noting.{KeepsAtOnce};
ghost use Rattle.xs_desk.specs.Outbox.{given, HasRoom, IsFull};

use crate::answer::{Answer, Call, Formed, next_place};
use crate::blocked::{Wish, keys_touched, wish_of};
use crate::journal::Journal;
use crate::outbox::Outbox;
use crate::wait_marks::WaitMarks;
use crate::waiting::Waker;
use rtrb::Consumer;
use std::alloc::Global;
use std::sync::Arc;
use xs_command::Command;
use xs_keys::{Clock, Keyspace};
use xs_stream::Moment;

/// The keeper's side of a lane.
#[derive(Drop)]
pub(crate) struct LaneEnd {
    pub calls: Consumer<Call, Global, Formed>,
    pub answers: Outbox,
    // The number of answers that were given.
    pub ticket: u64,
    pub waker: Waker,
    pub marks: Arc<WaitMarks>,
    ghost counted: { ticket ≡ length (given answers) },
}

/// How a look at a lane works.
#[derive(Clone, Copy, Debug, PartialEq, Eq)]
pub(crate) struct Manner {
    /// Whether its call may wait.
    pub may_wait: bool,
    /// Whether others wait, so the touched keys are needed.
    pub others_wait: bool,
}

/// How a call is served.
#[derive(Clone, Copy, Debug, PartialEq, Eq)]
struct Serving {
    /// Whether others wait, so the touched keys are needed.
    others_wait: bool,
    /// Whether its answer is held back.
    holds_back: bool,
}

/// A call that was served.
#[derive(Clone, Copy, Debug, PartialEq, Eq)]
pub(crate) struct Done {
    /// The moment at which it was applied.
    pub moment: Moment,
    /// If others wait, the keys that it touched, by their bits.
    pub touched: u64,
}

/// The result of a look at a lane.
#[derive(Clone, Copy, Debug, PartialEq, Eq)]
pub(crate) enum Look {
    Idle,
    /// The next call may wait, and stays in its ring.
    Blocked(Wish),
    /// A call was served.
    Served(Done),
    Exhausted,
}

/// Whether a command is a read that finds nothing and changes nothing, if `is_asked` is true; else false. Idle
/// consumers send many such reads.
fn is_in_vain(keyspace: &Keyspace, command: &Command, is_asked: bool) -> bool
    ensures { result ≡ true → ChangesNothing keyspace.now command.now }
{
    if !is_asked {
        return false;
    }
    let Command::ReadGroup(read) = command else {
        return false;
    };
    match keyspace.reads_in_vain(read) {
        Ok(vain) => vain,
        Err(_) => false,
    }
}

/// Whether a call may wait.
fn is_blocking(command: &Command) -> bool {
    matches!(command, Command::ReadGroup(read) if read.block.is_some())
}

impl LaneEnd {
    ghost use Rattle.xs_desk.specs.LaneEnds.{lane_of, handed_out, scene, Looks, FindsNothing, MayWait, IsService};

    /// Serves the next call of the lane, if there is one, if it doesn't wait, and if there is room for its answer.
    pub fn serve<C: Clock, J: Journal>(
        &mut self,
        keyspace: &mut Keyspace,
        place: &mut u64,
        clock: &mut C,
        journal: &mut J,
        manner: Manner,
    ) -> Look
        requires { length (given self.old.answers) ≤ place.old }
        ensures looks { Looks C.gives J.has result (scene self.old keyspace.old place.old clock.old journal.old)
            (scene self.new keyspace.new place.new clock.new journal.new) }
        ensures start { J.start journal.new ≡ J.start journal.old }
        ensures idle { FindsNothing result keyspace.new self.new }
    {
        let holds_back = J::holds_back();
        if !self.can_serve(holds_back) {
            return Look::Idle;
        }
        if manner.may_wait {
            if let Some(wish) = self.wish(keyspace) {
                self.marks.found_blocked(self.ticket);
                return Look::Blocked(wish);
            }
        }
        let serving = Serving {
            others_wait: manner.others_wait,
            holds_back,
        };
        let look = self.serve_next(keyspace, place, clock, journal, serving);
        if !holds_back && self.waker.finds_asleep() && !self.has_next() {
            self.waker.wake();
        }
        look
    }

    /// Whether there is a call, and room for its answer.
    fn can_serve(&mut self, holds_back: bool) -> bool
        ensures lane { lane_of self.new ≡ lane_of self.old }
        ensures handed { handed_out self.new ≡ handed_out self.old }
        ensures ticket { self.new.ticket ≡ self.old.ticket }
        ensures yes { result ≡ true → (0 < length (known_items self.new.calls)) × HasRoom holds_back self.new.answers }
        ensures no { result ≡ false → (length (known_items self.new.calls) ≡ 0) ⊎ IsFull self.new.answers }
    {
        !self.calls.is_empty() && self.answers.has_room(holds_back)
    }

    /// Whether the next look at the lane serves a further call in any case, so its client needn't be woken before.
    fn has_next(&mut self) -> bool
        ensures lane { lane_of self.new ≡ lane_of self.old }
        ensures handed { handed_out self.new ≡ handed_out self.old }
    {
        self.can_serve(false) && !is_blocking(&self.calls.peek_known().command)
    }

    /// Sends the answers that were held back. Returns whether there were any.
    pub fn release(&mut self) -> bool
        ensures lane { lane_of self.new ≡ lane_of self.old }
        ensures handed { handed_out self.new ≡ (lane_of self.old).sent }
    {
        let some = self.answers.release();
        if some {
            self.waker.wake_if_asleep();
        }
        some
    }

    /// What the next call waits for, if it may wait: it is a read with BLOCK that would be answered with the null
    /// array.
    #[tactic(auto, using(crate::proofs::Lists::prefix_map))]
    fn wish(&self, keyspace: &Keyspace) -> Option<Wish>
        requires { 0 < length (known_items self.now.calls) }
        ensures { IfSome result (λ _. MayWait keyspace.now (asked_by (known_items self.now.calls))) }
    {
        let Command::ReadGroup(read) = &self.calls.peek_known().command else {
            return None;
        };
        let millis = read.block?;
        if !self.marks.may_wait(self.ticket) {
            return None;
        }
        match keyspace.finds_nothing(read) {
            Ok(true) => Some(wish_of(read, millis)),
            _ => None,
        }
    }

    /// Serves the next call of a lane. There has to be one, and room for its answer. It is a function of its own, so
    /// the many looks that find nothing stay short.
    #[inline(never)]
    fn serve_next<C: Clock, J: Journal>(
        &mut self,
        keyspace: &mut Keyspace,
        place: &mut u64,
        clock: &mut C,
        journal: &mut J,
        serving: Serving,
    ) -> Look
        requires { (length (given self.old.answers) ≤ place.old) × (0 < length (known_items self.old.calls))
            × HasRoom serving.holds_back self.old.answers × (serving.holds_back ≡ false → KeepsAtOnce J.has) }
        ensures looks { Looks C.gives J.has result (scene self.old keyspace.old place.old clock.old journal.old)
            (scene self.new keyspace.new place.new clock.new journal.new) }
        ensures start { J.start journal.new ≡ J.start journal.old }
        ensures busy { IsService result }
    {
        let Some(next) = next_place(*place) else {
            return Look::Exhausted;
        };
        let call = self.calls.pop_known();
        let touched = if serving.others_wait {
            keys_touched(&call.command)
        } else {
            0
        };
        let in_vain = is_in_vain(keyspace, &call.command, serving.holds_back);
        let moment = clock.now();
        let reply = keyspace.apply(moment, &call.command);
        journal.note(moment, &call, &reply, in_vain);
        self.answers.give(
            Answer {
                reply,
                moment,
                ticket: self.ticket,
                place: *place,
            },
            serving.holds_back,
        );
        self.ticket += 1;
        *place = next;
        Look::Served(Done { moment, touched })
    }
}
