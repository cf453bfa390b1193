//! Moments: when something happens.
ghost use Rattle.std.specs.Prelude.{◌≡◌, ◌<◌, ◌^◌, Some, None, nat_lt, if◌then◌else◌};

use std::marker::Model;
use xs_bytes::U63;

/// A moment, in milliseconds, from 0 to 9223372036854775807. Moments come from the caller and may go back.
#[derive(Clone, Copy, Debug, PartialEq, Eq, PartialOrd, Ord)]
pub struct Moment {
    millis: U63,
}

impl Model for Moment {
    ghost use Rattle.std.specs.Prelude.{ℕ};

    ghost Value = { ℕ };

    ghost view = { λ m. m.millis };

    ghost inverse = { λ n. record { millis = n } };
}

impl Moment {
    /// The greatest moment in milliseconds.
    pub const MAX_MILLIS: u64 = U63::MAX;

    /// The moment at this number of milliseconds. None above 9223372036854775807.
    pub fn new(millis: u64) -> Option<Moment>
        ensures { result ≡ (if nat_lt millis (2 ^ 63) then Some millis else None) }
    {
        let millis = U63::checked(millis)?;
        Some(Moment { millis })
    }

    /// In milliseconds.
    pub fn get(self) -> u64
        ensures value { result ≡ self }
        ensures small { self < 2 ^ 63 }
    {
        self.millis.get()
    }
}
