//! Calls that wait: reads with BLOCK that would be answered with the null array. Such a call stays in its ring, and the
//! keeper looks at it again once a call was served that may change its answer, once its time is over, or once its
//! client reports that it needn't wait. No contract depends on this file: a look at a lane determines itself whether
//! its next call may wait (`lane_end.rt`).
//!
//! Calls that are due are looked at before all others, each in a turn of its own, in the order in which they began to
//! wait. So the call that has waited longest gets what has come, and no other overtakes it. Once one finds nothing,
//! those that read the same keys by the same group aren't looked at: they would find nothing either. A turn that serves
//! a call for which others wait ends there, and is resumed after them.
use crate::lane_set::LaneSet;
use std::alloc::{AllocError, Global};
use std::hash::{DefaultHasher, Hasher};
use std::time::{Clock, Duration, Instant};
use xs_bytes::Bytes;
use xs_command::{Command, ReadGroupCommand};

/// How long a call whose client has left still waits, in milliseconds.
const LEFT_MILLIS: u64 = 1000;

/// What a call waits for, and how long.
#[derive(Clone, Copy, Debug, PartialEq, Eq)]
pub(crate) struct Wish {
    /// How long it waits, in milliseconds; 0 is without limit.
    pub millis: u64,
    /// The keys that it reads, by their bits.
    pub keys: u64,
    /// The keys and the group that it reads, by their hash: calls with the same one find something at the same moments.
    pub source: u64,
}

/// The end of a wait.
#[derive(Clone, Copy, Debug, PartialEq, Eq)]
enum Until {
    /// This many milliseconds after the clock is read next.
    Fresh(u64),
    At(Instant),
    Forever,
}

/// Whether a call that waits has to be looked at.
#[derive(Clone, Copy, Debug, PartialEq, Eq)]
enum State {
    Waits,
    /// Something that it waits for has changed.
    Due,
    /// Its time is over.
    Over,
}

/// A call that waits: the next one of its lane.
#[derive(Clone, Copy, Debug, PartialEq, Eq)]
struct BlockedCall {
    lane: usize,
    keys: u64,
    source: u64,
    until: Until,
    state: State,
}

/// A call that has to be looked at.
#[derive(Clone, Copy, Debug, PartialEq, Eq)]
pub(crate) struct DueCall {
    pub lane: usize,
    /// Whether it may wait on.
    pub may_wait: bool,
}

/// All calls that wait.
#[derive(Drop)]
pub(crate) struct BlockedCalls {
    // In the order in which they began to wait. The room for all lanes is made at the start.
    calls: Vec<BlockedCall>,
    lanes: LaneSet,
    // The first of them that may have to be looked at.
    due_from: usize,
    // Whether one of them is fresh.
    has_fresh: bool,
    // The first moment at which the time of one that isn't fresh is over.
    next_end: Option<Instant>,
    // The lane at which the turn that was cut short is resumed.
    resume_at: usize,
}

/// Adds a name to a hash, with its length, so two names aren't taken for two others.
fn hash_name(hasher: &mut DefaultHasher, name: &Bytes) {
    hasher.write_usize(name.as_slice().len());
    hasher.write(name.as_slice());
}

/// The bit of a key.
fn bit_of_key(key: &Bytes) -> u64 {
    let mut hasher = DefaultHasher::new();
    hash_name(&mut hasher, key);
    1u64.wrapping_shl((hasher.finish() % 64) as u32)
}

/// What a read waits for, during `millis` milliseconds.
pub(crate) fn wish_of(read: &ReadGroupCommand, millis: u64) -> Wish {
    let mut keys = 0;
    let mut source = DefaultHasher::new();
    hash_name(&mut source, &read.group);
    for one in read.reads.as_slice() {
        keys |= bit_of_key(&one.key);
        hash_name(&mut source, &one.key);
    }
    Wish {
        millis,
        keys,
        source: source.finish(),
    }
}

/// The keys, by their bits, for which a command may change the answer to a read of new entries that found none: it adds
/// an entry, or removes the key or its group.
pub(crate) fn keys_touched(command: &Command) -> u64 {
    match command {
        Command::Add(add) => bit_of_key(&add.key),
        Command::GroupDestroy { key, .. } => bit_of_key(key),
        Command::DropKeys { keys: names } => {
            let mut keys = 0;
            for name in names.as_slice() {
                keys |= bit_of_key(name);
            }
            keys
        }
        _ => 0,
    }
}

/// The earlier one of two moments.
fn earlier(one: Option<Instant>, other: Instant) -> Option<Instant> {
    match one {
        Some(one) if one <= other => Some(one),
        _ => Some(other),
    }
}

impl BlockedCall {
    /// Begins its time, if it is fresh, and ends its wait if that time is over. Returns the end of its wait.
    fn see_clock(&mut self, now: Instant) -> Option<Instant> {
        if let Until::Fresh(millis) = self.until {
            self.until = match now.checked_add(Duration::from_millis(millis)) {
                Some(end) if millis > 0 => Until::At(end),
                _ => Until::Forever,
            };
        }
        let Until::At(end) = self.until else {
            return None;
        };
        if end <= now {
            self.state = State::Over;
        }
        Some(end)
    }
}

impl BlockedCalls {
    /// No call waits. There is room for one call of each lane.
    pub fn new(alloc: Global, lanes: usize) -> Result<BlockedCalls, AllocError> {
        Ok(BlockedCalls {
            calls: Vec::with_capacity(alloc, lanes)?,
            lanes: LaneSet::new(),
            due_from: 0,
            has_fresh: false,
            next_end: None,
            resume_at: 0,
        })
    }

    /// The number of calls that wait.
    pub fn len(&self) -> usize {
        self.calls.len()
    }

    /// Whether no call waits.
    pub fn is_empty(&self) -> bool {
        self.calls.is_empty()
    }

    /// Whether the call of this lane waits.
    pub fn has(&self, lane: usize) -> bool {
        self.lanes.has(lane)
    }

    /// A look has found that the call of this lane, which doesn't wait yet, may wait. Returns whether it waits now.
    pub fn begin(&mut self, lane: usize, wish: Wish) -> bool {
        let call = BlockedCall {
            lane,
            keys: wish.keys,
            source: wish.source,
            until: Until::Fresh(wish.millis),
            state: State::Waits,
        };
        if self.calls.push(call).is_err() {
            return false;
        }
        self.lanes.insert(lane);
        self.has_fresh = true;
        true
    }

    /// A look has found that a call that waits, with this wish, still finds nothing. Those with the same source find
    /// nothing either.
    pub fn found_nothing(&mut self, wish: Wish) {
        for call in self.calls.iter_mut() {
            if call.source == wish.source && call.state == State::Due {
                call.state = State::Waits;
            }
        }
    }

    /// A call of this lane was served, which touched these keys. Returns whether a call is due now, so the turn ends,
    /// to be resumed at the next lane later.
    pub fn served(&mut self, lane: usize, touched: u64, next: usize) -> bool {
        if self.calls.is_empty() {
            return false;
        }
        if self.lanes.has(lane) {
            self.forget(lane);
        }
        if touched == 0 {
            return false;
        }
        let mut is_due = false;
        for call in self.calls.iter_mut() {
            if call.keys & touched != 0 && call.state == State::Waits {
                call.state = State::Due;
                is_due = true;
            }
        }
        if is_due {
            self.due_from = 0;
            if self.resume_at == 0 {
                self.resume_at = next;
            }
        }
        is_due
    }

    /// The call of this lane waits no longer.
    fn forget(&mut self, lane: usize) {
        self.lanes.remove(lane);
        let place = self.calls.iter().position(|call| call.lane == lane);
        if place.is_some_and(|place| place < self.due_from) {
            self.due_from = self.due_from.saturating_sub(1);
        }
        self.calls.retain(|call| call.lane != lane);
    }

    /// The call that is looked at next.
    pub fn next_due(&self) -> Option<DueCall> {
        let calls = self.calls.get(self.due_from..)?;
        let call = calls.iter().find(|call| call.state != State::Waits)?;
        Some(DueCall {
            lane: call.lane,
            may_wait: call.state == State::Due,
        })
    }

    /// Whether a turn looks at all lanes from the first on: no call waits, and no turn was cut short.
    pub fn is_quiet(&self) -> bool {
        self.calls.is_empty() && self.resume_at == 0
    }

    /// The call that is looked at now. It is due no longer.
    pub fn take_due(&mut self) -> Option<DueCall> {
        let mut place = self.due_from;
        for call in self.calls.iter_mut().skip(place) {
            place = place.saturating_add(1);
            if call.state != State::Waits {
                let may_wait = call.state == State::Due;
                call.state = State::Waits;
                self.due_from = place;
                return Some(DueCall {
                    lane: call.lane,
                    may_wait,
                });
            }
        }
        self.due_from = self.calls.len();
        None
    }

    /// The lane at which a turn begins: 0, or the one at which the last turn is to be resumed.
    pub fn take_start(&mut self) -> usize {
        let start = self.resume_at;
        self.resume_at = 0;
        start
    }

    fn set_state(&mut self, lane: usize, state: State) {
        if let Some(call) = self.calls.iter_mut().find(|call| call.lane == lane) {
            call.state = state;
        }
        if state != State::Waits {
            self.due_from = 0;
        }
    }

    /// Ends the waits whose time is over, or all waits if the clock can't be read.
    pub fn read_clock<S: Clock>(&mut self, system: &S) {
        if self.calls.is_empty() {
            return;
        }
        let Ok(now) = Instant::now(system) else {
            self.end_all();
            return;
        };
        if self.has_fresh || self.next_end.is_some_and(|end| end <= now) {
            self.see_clock(now);
        }
    }

    fn see_clock(&mut self, now: Instant) {
        self.has_fresh = false;
        self.next_end = None;
        for call in self.calls.iter_mut() {
            if let Some(end) = call.see_clock(now) {
                self.next_end = earlier(self.next_end, end);
            }
            if call.state == State::Over {
                self.due_from = 0;
            }
        }
    }

    fn end_all(&mut self) {
        for call in self.calls.iter_mut() {
            call.state = State::Over;
            self.due_from = 0;
        }
    }

    /// The client of this lane, whose call is due, has left: the calls after it come first, and its wait ends soon.
    pub fn postpone<S: Clock>(&mut self, system: &S, lane: usize) {
        let end = match Instant::now(system) {
            Ok(now) => now.checked_add(Duration::from_millis(LEFT_MILLIS)),
            Err(_) => None,
        };
        let Some(end) = end else {
            self.set_state(lane, State::Over);
            return;
        };
        self.set_state(lane, State::Waits);
        if let Some(call) = self.calls.iter_mut().find(|call| call.lane == lane) {
            let until = call.until;
            call.until = match until {
                Until::At(sooner) if sooner < end => until,
                _ => Until::At(end),
            };
        }
        self.next_end = earlier(self.next_end, end);
    }

    /// The moment at which the clock has to be read again, if a call waits.
    pub fn next_end(&self) -> Option<Instant> {
        if self.calls.is_empty() {
            return None;
        }
        self.next_end
    }
}
