//! How a lane and its keeper wait for each other. No contract depends on it.
//!
//! A side that finds nothing looks again at once, then, while calls follow fast, after yielding the processor, and then
//! it parks. A yield lets the other side run if it waits for the same processor. But if other work fills all
//! processors, a side that has yielded gets its own back only after that work's turn, milliseconds later. Then calls
//! don't follow fast any more, and the side parks after a few looks, without a yield, until they have followed fast for
//! a while. A lane whose call the keeper lets wait parks at once.
//!
//! Before the look after which it may park a side sets the flag that it sleeps, and the other side gives its token only
//! then. No token is lost, since all loads and stores have one order, those of the rings too, which the ported `rtrb`
//! ensures: a side stores the flag, looks, and parks; the other side pushes or takes something, and loads the flag. If
//! the look came before the push, so did the store, and the load finds the flag set: the token is given, and ends the
//! park, even one that begins later. If the look came after the push, it has found what was pushed; at a lane at rest
//! the keeper looks at its notice, which comes before the load too (`poll_set.rt`). A token that wasn't needed ends one
//! park too early, after which the side looks again.
use crate::call_rate::CallRate;
use crossbeam_utils::sync::{Parker, Unparker};
use std::alloc::{AllocError, Global};
use std::sync::atomic::{AtomicBool, Ordering};
use std::sync::{Arc, Wait};
use std::time::{Clock, Duration, Instant};
use std::{hint, thread};
use xs_stream::Moment;

/// The number of looks that find nothing, one right after the other, while calls follow fast.
const SPINS: u32 = 96;

/// The same while they don't: a call that comes later than these looks costs a wake-up in any case.
const FEW_SPINS: u32 = 8;

/// The number of further looks of a lane while calls follow fast, each after the processor was yielded: its answer is
/// on its way.
const YIELDS_OF_LANE: u32 = 10;

/// The same for the keeper: its next call comes from a client, which may be behind a socket.
const YIELDS_OF_KEEPER: u32 = 100;

/// The calls of a lane follow fast if each comes within milliseconds of the one before.
const BATCH_OF_LANE: u32 = 1;

/// Those of the keeper if the next one comes before its yields are over, which take some tens of microseconds.
const BATCH_OF_KEEPER: u32 = 16;

/// How one side waits: it looks again, then yields the processor, then parks.
#[derive(Drop)]
pub(crate) struct Backoff {
    // The number of looks that found nothing, one after the other, including the one begun; at most `last_look`.
    looks: u32,
    // The look after which it parks.
    last_look: u32,
    sleeps: Arc<AtomicBool>,
    parker: Parker,
    // The rate of the calls that this side serves, or whose answers it takes.
    call_rate: CallRate,
}

/// Wakes the other side: an idle keeper, or a lane.
#[derive(Drop)]
pub struct Waker {
    sleeps: Arc<AtomicBool>,
    unparker: Unparker,
}

impl Backoff {
    /// How a lane waits for an answer.
    pub fn of_lane(alloc: Global) -> Result<Backoff, AllocError> {
        Backoff::new(alloc, YIELDS_OF_LANE, BATCH_OF_LANE)
    }

    /// How the keeper waits for a call.
    pub fn of_keeper(alloc: Global) -> Result<Backoff, AllocError> {
        Backoff::new(alloc, YIELDS_OF_KEEPER, BATCH_OF_KEEPER)
    }

    fn new(alloc: Global, yields: u32, batch: u32) -> Result<Backoff, AllocError> {
        let sleeps = Arc::new(alloc, AtomicBool::new(false))?;
        let parker = Parker::new(alloc)?;
        Ok(Backoff {
            looks: 0,
            last_look: SPINS.saturating_add(yields).saturating_add(1),
            sleeps,
            parker,
            call_rate: CallRate::new(batch),
        })
    }

    pub fn waker(&self) -> Result<Waker, AllocError> {
        let sleeps = Arc::try_clone(&self.sleeps)?;
        let unparker = self.parker.unparker().clone()?;
        Ok(Waker { sleeps, unparker })
    }

    /// Begins a look. It has to be called before the look itself.
    pub fn begin_look(&mut self) {
        if self.looks < self.last_look {
            self.looks += 1;
        }
        if self.looks > FEW_SPINS && !self.call_rate.is_high() {
            self.looks = self.last_look;
        }
        if self.may_sleep() {
            self.sleeps.store(true, Ordering::SeqCst);
        }
    }

    /// Begins the look after which it parks.
    pub fn begin_last_look(&mut self) {
        self.looks = self.last_look;
        self.begin_look();
    }

    /// The look has found a call, or the answer to one, that was applied at this moment.
    pub fn found(&mut self, moment: Moment) {
        self.begin_anew();
        self.call_rate.call_at(moment);
    }

    /// Begins again to count looks that find nothing.
    pub fn begin_anew(&mut self) {
        if self.may_sleep() {
            self.sleeps.store(false, Ordering::SeqCst);
        }
        self.looks = 0;
    }

    /// Whether this is the look after which it parks.
    pub fn may_sleep(&self) -> bool {
        self.looks == self.last_look
    }

    /// Waits a little after a look that has found nothing; after the last look it waits for the token.
    pub fn snooze<R: Wait>(&self, rt: &R) {
        if self.may_sleep() {
            self.parker.park(rt);
        } else if self.looks > SPINS {
            thread::yield_now();
        } else {
            hint::spin_loop();
        }
    }

    /// Waits like `snooze`, but for the token at most up to the deadline, if there is one.
    pub fn snooze_until<R: Wait + Clock>(&self, rt: &R, deadline: Option<Instant>) {
        match deadline {
            Some(deadline) if self.may_sleep() => self.parker.park_deadline(rt, deadline),
            _ => self.snooze(rt),
        }
    }

    /// Waits like `snooze`, but for the token at most for this time. Returns whether that time has passed.
    pub fn snooze_for<R: Wait + Clock>(&self, rt: &R, time: Duration) -> bool {
        if !self.may_sleep() {
            self.snooze(rt);
            return false;
        }
        let begin = Instant::now(rt);
        self.parker.park_timeout(rt, time);
        match begin {
            Ok(begin) => begin.elapsed(rt).map_or(true, |passed| passed >= time),
            Err(_) => true,
        }
    }
}

impl Waker {
    /// Whether the other side may sleep.
    pub(crate) fn finds_asleep(&self) -> bool {
        self.sleeps.load(Ordering::SeqCst)
    }

    /// Gives the token if the other side may sleep.
    pub(crate) fn wake_if_asleep(&self) {
        if self.finds_asleep() {
            self.unparker.unpark();
        }
    }

    /// Gives the token in any case.
    pub fn wake(&self) {
        self.unparker.unpark();
    }
}
