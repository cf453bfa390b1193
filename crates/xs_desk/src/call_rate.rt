//! How fast calls follow one another. No contract depends on it.
use xs_stream::Moment;

/// A batch of calls is fast if it takes at most this many milliseconds.
const NEAR: u64 = 2;

/// This many calls in a row have to come in fast batches after a batch has been slow.
const CALLS: u32 = 16;

/// How fast the calls of one side follow one another, by their moments.
#[derive(Clone, Copy)]
pub(crate) struct CallRate {
    // The number of calls in a batch.
    batch: u32,
    // Calls since the last complete batch.
    calls: u32,
    // The moment of the last call of the last complete batch.
    last: Option<Moment>,
    // Calls in a row that came in fast batches, at most CALLS.
    fast: u32,
}

impl CallRate {
    /// Calls count as fast until a batch of `batch` calls has been slow.
    pub fn new(batch: u32) -> CallRate {
        CallRate {
            batch,
            calls: 0,
            last: None,
            fast: CALLS,
        }
    }

    /// A call was applied at a moment.
    pub fn call_at(&mut self, moment: Moment) {
        self.calls = self.calls.saturating_add(1);
        if self.calls < self.batch {
            return;
        }
        let is_near = match self.last {
            Some(last) => moment.get().abs_diff(last.get()) <= NEAR,
            None => true,
        };
        self.fast = if is_near {
            self.fast.saturating_add(self.calls).min(CALLS)
        } else {
            0
        };
        self.last = Some(moment);
        self.calls = 0;
    }

    /// Whether the last calls all came in fast batches, or no batch has been slow yet.
    pub fn is_high(&self) -> bool {
        self.fast >= CALLS
    }
}
