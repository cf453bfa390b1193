//! A pending entry.
ghost use Rattle.std.specs.Prelude.{◌≡◌, ◌<◌, ◌^◌, IfOk};
ghost use Rattle.xs_group.specs.GroupState.{next_count, idle_time};
ghost use Rattle.xs_group.specs.Claims.{claimed_row, claim_time, claim_count};

use crate::claims::{ClaimTerms, ClaimTime};
use crate::delivery::Touch;
use crate::name::Name;
use std::alloc::AllocError;
use std::marker::Model;
use xs_bytes::{Bytes, U63};
use xs_stream::Moment;

/// The count after one more delivery; the greatest count stays.
pub(crate) fn next_count(count: U63) -> U63
    ensures { result ≡ next_count count }
{
    U63::checked(count.get() + 1).unwrap_or(count)
}

/// A pending entry: its consumer, when it was last delivered, and how often.
#[derive(Drop)]
pub(crate) struct PendingEntry {
    consumer: Name,
    time: Moment,
    count: U63,
}

impl Model for PendingEntry {
    ghost use Rattle.xs_group.specs.GroupState.{RowState};
    ghost use Rattle.xs_group.specs.Indexes.{coded_row};

    ghost Value = { RowState };

    ghost coded = { coded_row };

    ghost view = { λ e. record { consumer = e.consumer; time = e.time; count = e.count } };
}

impl PendingEntry {
    pub(crate) fn new(consumer: Name, time: Moment, count: U63) -> Self
        ensures { result ≡ record { consumer = consumer; time = time; count = count } }
    {
        Self {
            consumer,
            time,
            count,
        }
    }

    pub(crate) fn consumer(&self) -> &Bytes
        ensures { result.now ≡ self.now.consumer }
    {
        self.consumer.text()
    }

    /// A second handle of the consumer's name.
    pub(crate) fn share_name(&self) -> Result<Name, AllocError>
        ensures { IfOk result (λ name. name ≡ self.now.consumer) }
    {
        self.consumer.share()
    }

    pub(crate) fn touch(&self) -> Touch
        ensures { result ≡ record { time = self.now.time; count = self.now.count } }
    {
        Touch {
            time: self.time,
            count: self.count,
        }
    }

    pub(crate) fn set_touch(&mut self, touch: Touch)
        ensures { self.new ≡ record { consumer = self.old.consumer; time = touch.time; count = touch.count } }
    {
        self.time = touch.time;
        self.count = touch.count;
    }

    /// The idle time of the entry in milliseconds: since its last delivery, or since the time that a claim gave it.
    pub(crate) fn idle(&self, now: Moment) -> u64
        ensures value { result ≡ idle_time now self.now.time }
        ensures small { result < 2 ^ 63 }
    {
        now.get().saturating_sub(self.time.get())
    }

    /// Changes the entry as a claim does.
    pub(crate) fn claim(&mut self, consumer: Name, terms: &ClaimTerms)
        ensures { self.new ≡ claimed_row consumer terms.now.moment terms.now.rule self.old }
    {
        self.consumer = consumer;
        let rule = &terms.rule;
        self.time = claim_time(rule.when, terms.moment);
        self.count = claim_count(rule.retry, rule.just_id, self.count);
    }
}

/// The time that a claimed entry gets.
fn claim_time(when: ClaimTime, now: Moment) -> Moment
    ensures { result ≡ claim_time when now }
{
    match when {
        ClaimTime::Now => now,
        ClaimTime::Idle(millis) => { Moment::new(now.get().saturating_sub(millis)).unwrap_or(now) }
        ClaimTime::At(millis) => {
            if now.get() <= millis {
                return now;
            }
            Moment::new(millis).unwrap_or(now)
        }
    }
}

/// The count that a claimed entry gets.
fn claim_count(retry: Option<U63>, just_id: bool, count: U63) -> U63
    ensures { result ≡ claim_count retry just_id count }
{
    if let Some(retry) = retry {
        return retry;
    }
    if just_id {
        return count;
    }
    next_count(count)
}
