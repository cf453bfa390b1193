//! The source of moments.
ghost use Rattle.std.specs.Prelude.{ℕ};

use xs_stream::Moment;

/// A clock. Moments may repeat and go back. Each implementation defines which moments it may give.
pub trait Clock {
    /// In this state the clock may give this moment and go on to that state.
    ghost gives: { Self → ℕ → Self → Type 0 };

    /// The moment now.
    fn now(&mut self) -> Moment
        ensures { gives self.old result self.new };
}
