//! Numbers of 63 bits.
ghost use Rattle.std.specs.Prelude.{◌≡◌, ◌<◌, ◌^◌, Some, None, nat_lt, if◌then◌else◌};

use std::marker::Model;

/// A number from 0 to 9223372036854775807, which a signed integer of 64 bits can hold. Integers in replies are such
/// numbers.
#[derive(Clone, Copy, Debug, PartialEq, Eq, PartialOrd, Ord)]
pub struct U63 {
    value: u64,
}

impl Model for U63 {
    ghost use Rattle.std.specs.Prelude.{ℕ, ◌<◌, ◌^◌};

    ghost Value = { ℕ };

    ghost view = { λ u. u.value };

    ghost invariant = { λ u. u.value < 2 ^ 63 };

    ghost inverse = { λ n. record { value = n } };
}

impl U63 {
    /// The greatest one.
    pub const MAX: u64 = 9_223_372_036_854_775_807;

    /// Makes it from a number below 2^63.
    pub fn new(value: u64) -> U63
        requires { value < 2 ^ 63 }
        ensures { result ≡ value }
    {
        U63 { value }
    }

    /// Makes it from a number. None above 9223372036854775807.
    pub fn checked(value: u64) -> Option<U63>
        ensures { result ≡ (if nat_lt value (2 ^ 63) then Some value else None) }
    {
        if value > Self::MAX {
            return None;
        }
        Some(U63::new(value))
    }

    /// As a number of 64 bits.
    pub fn get(self) -> u64
        ensures value { result ≡ self }
        ensures small { self < 2 ^ 63 }
    {
        self.value
    }
}
