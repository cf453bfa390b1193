//! A clock that stands still.
ghost use Rattle.std.specs.Prelude.{◌≡◌};

use xs_keys::Clock;
use xs_stream::Moment;

/// A clock that gives the same moment each time.
#[derive(Clone, Copy)]
pub struct Still {
    pub moment: Moment,
}

impl Clock for Still {
    ghost gives = { λ old now new. (now ≡ old.moment) × (new ≡ old) };

    fn now(&mut self) -> Moment {
        self.moment
    }
}
