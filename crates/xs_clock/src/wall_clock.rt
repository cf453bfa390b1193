//! The clock of the server.
ghost use Rattle.std.specs.Prelude.{◌≡◌, ◌+◌, ◌/◌, ◌≤◌, ◌<◌, ◌^◌, ℕ, IfSome, IsSome};
ghost use Rattle.std.specs.Duration.{as_nanos, FitsDuration};
ghost use Rattle.xs_clock.specs.WallTime.{IsNextReading, IsReadingAfter, time_after};

use std::marker::Model;
use std::time;
use std::time::Duration;
use xs_keys::Clock;
use xs_stream::Moment;

/// The time catches up with the wall clock by at most this part of the time that passes: one tenth.
const GAIN: u32 = 10;

/// The time `elapsed` after the last one: later by that, and while the wall clock is ahead of it, by up to a tenth
/// more. None above the greatest duration.
fn time_after(last: Duration, elapsed: Duration, wall: Duration) -> Option<Duration>
    ensures time { IfSome result (λ time. as_nanos time
        ≡ time_after (as_nanos last) (as_nanos elapsed) (as_nanos wall)) }
    ensures some { FitsDuration (as_nanos last + as_nanos elapsed + as_nanos elapsed / 10) → IsSome result }
{
    let least = last.checked_add(elapsed)?;
    let most = least.checked_add(elapsed / GAIN)?;
    if wall <= least {
        Some(least)
    } else if wall <= most {
        Some(wall)
    } else {
        Some(most)
    }
}

/// A time, since 1970, and the value of the monotonic clock then.
#[derive(Drop)]
struct LastReading {
    time: Duration,
    since: Duration,
}

impl Model for LastReading {
    ghost use Rattle.std.specs.Prelude.{◌/◌, ◌<◌, ◌^◌};
    ghost use Rattle.std.specs.Duration.{as_nanos};
    ghost use Rattle.xs_clock.specs.WallTime.{Reading};

    ghost Value = { Reading };

    ghost view = { λ r. record { time = as_nanos r.time; since = as_nanos r.since } };

    ghost invariant = { λ r. as_nanos r.time / 1_000_000 < 2 ^ 63 };
}

impl LastReading {
    /// The first reading: the time of the wall clock, or 1970 if it can't be read; but not before `last`, if there is
    /// one.
    fn first<S: time::Clock>(system: &S, last: Option<Moment>) -> Self
        ensures { IfSome last (λ moment. moment ≤ result.time / 1_000_000) }
    {
        let least = match last {
            Some(moment) => Duration::from_millis(moment.get()),
            None => Duration::ZERO,
        };
        // The wall clock comes first, so the time is never ahead of it.
        let wall = system.since_1970().ok().and_then(within_moments);
        let time = wall.unwrap_or(Duration::ZERO).max(least);
        let since = system.monotonic().unwrap_or(Duration::ZERO);
        Self { time, since }
    }

    /// The next reading, if the clocks have these values. None if it is not a moment.
    fn after(&self, wall: Duration, since: Duration) -> Option<Self>
        ensures { IfSome result (IsReadingAfter self.now (as_nanos wall) (as_nanos since)) }
    {
        let elapsed = since.saturating_sub(self.since);
        let time = within_moments(time_after(self.time, elapsed, wall)?)?;
        Some(Self { time, since })
    }

    /// The next reading. None if it is not a moment, or the monotonic clock can't be read.
    fn next<S: time::Clock>(&self, system: &S) -> Option<Self>
        ensures { IfSome result (IsNextReading self.now) }
    {
        let wall = system.since_1970().unwrap_or(Duration::ZERO);
        let since = system.monotonic().ok()?;
        self.after(wall, since)
    }

    fn moment(&self) -> Moment
        ensures { result ≡ self.now.time / 1_000_000 }
    {
        Moment::new(self.time.as_millis() as u64).unwrap()
    }
}

/// The same time, if its milliseconds are a moment.
fn within_moments(time: Duration) -> Option<Duration>
    ensures same { IfSome result (λ same. same ≡ time) }
    ensures small { IfSome result (λ same. as_nanos same / 1_000_000 < 2 ^ 63) }
    ensures some { as_nanos time / 1_000_000 < 2 ^ 63 → IsSome result }
{
    if time.as_millis() > u128::from(Moment::MAX_MILLIS) {
        return None;
    }
    Some(time)
}

/// The time of the server, in milliseconds since 1970: the time of its start, and what has passed since by the
/// monotonic clock. While the wall clock is ahead of it, it gains at most one millisecond in ten on it. So it never
/// goes back, and it goes on whatever the wall clock is set to. If the clocks can't be read, the last moment is
/// returned again, at the start 0.
#[derive(Drop)]
pub struct WallClock<S: time::Clock + Drop> {
    system: S,
    last: LastReading,
}

impl<S: time::Clock + Drop> WallClock<S> {
    /// The clock of this system, from now on.
    pub fn new(system: S) -> Self {
        Self::not_before(system, None)
    }

    /// The clock of this system, from now on; it begins at the later of its time and this moment.
    pub fn not_before(system: S, last: Option<Moment>) -> Self
        ensures { IfSome last (λ moment. moment ≤ result.last.time / 1_000_000) }
    {
        let last = LastReading::first(&system, last);
        Self { system, last }
    }
}

impl<S: time::Clock + Drop> Clock for WallClock<S> {
    /// A moment comes that isn't before the last one, and is after it by the time of the monotonic clock, and at most a
    /// tenth of that more.
    ghost gives = { λ old now new. IsNextReading old.last new.last
        × (old.last.time ≤ new.last.time) × (now ≡ new.last.time / 1_000_000) };

    fn now(&mut self) -> Moment {
        if let Some(next) = self.last.next(&self.system) {
            self.last = next;
        }
        self.last.moment()
    }
}
