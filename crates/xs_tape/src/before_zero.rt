//! A reader of the bytes before the first zero.
ghost use Rattle.std.specs.Prelude.{◌≡◌, ◌++◌, ◌∷◌, ◌<◌, ◌≤◌, false, length, take, drop, MatchOption};
ghost use Rattle.std.specs.Option.{option_map};
ghost use Rattle.xs_tape.specs.Crash.{HasNoZero, before_zero};
ghost use Rattle.xs_io.specs.Passing.{at_first};
ghost use Rattle.xs_tape.specs.BeforeZero.{rest_before};

use memchr::memchr;
use xs_io::{Failed, Source};
use xs_trace::Trace;

/// Gives the bytes of a reader up to the first zero.
#[derive(Drop)]
pub struct BeforeZero<R: Source + Drop> {
    inner: R,
    met: bool,
    calls: u64,
    broken: bool,
    ended: bool,
    passed: Trace<u8>,
}

/// The place of the first zero.
fn zero_at(bytes: &[u8]) -> Option<usize>
    ensures { MatchOption result (HasNoZero bytes.now)
        (λ at. (at < length bytes.now) × HasNoZero (take at bytes.now) × (before_zero bytes.now ≡ take at bytes.now)) }
{
    memchr(0, bytes)
}

impl<R: Source + Drop> BeforeZero<R> {
    /// The reader, before its first call. It takes no memory.
    pub fn new(inner: R) -> Self
        ensures rest { ⟦<BeforeZero<R> as Source>⟧.rest result
            ≡ at_first (option_map before_zero (R.rest inner).known) }
    {
        Self {
            inner,
            met: false,
            calls: 0,
            broken: false,
            ended: false,
            passed: Trace::new(),
        }
    }
}

impl<R: Source + Drop> Source for BeforeZero<R> {
    ghost rest = { λ s. record { known = rest_before s.met (R.rest s.inner).known; passed = s.passed } };

    ghost calls = { λ s. s.calls };

    ghost broken = { λ s. s.broken };

    ghost ended = { λ s. s.ended };

    fn read(&mut self, into: &mut [u8]) -> Result<usize, Failed> {
        self.calls = self.calls.saturating_add(1);
        let room = !into.is_empty();
        if self.met {
            self.ended = self.ended || room;
            return Ok(0);
        }
        match self.inner.read(into) {
            Err(_) => {
                self.broken = true;
                Err(Failed)
            }
            Ok(count) => {
                let given = match zero_at(&into[..count]) {
                    Some(at) => {
                        self.met = true;
                        at
                    }
                    None => count,
                };
                self.passed.add_all(&into[..given]);
                if given == 0 && room {
                    self.ended = true;
                }
                Ok(given)
            }
        }
    }
}
