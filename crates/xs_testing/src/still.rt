//! A clock that doesn't advance.
ghost use Rattle.std.specs.Prelude.{◌≡◌};

use xs_keys::Clock;
use xs_stream::Moment;

/// A clock that always gives the same moment.
#[derive(Clone, Copy)]
pub struct Still {
    pub moment: Moment,
}

impl Still {
    /// A clock at this number of milliseconds. None above 9223372036854775807.
    pub fn at(millis: u64) -> Option<Still> {
        Some(Still {
            moment: Moment::new(millis)?,
        })
    }
}

impl Clock for Still {
    ghost gives = { λ old now new. (now ≡ old.moment) × (new ≡ old) };

    fn now(&mut self) -> Moment {
        self.moment
    }
}
