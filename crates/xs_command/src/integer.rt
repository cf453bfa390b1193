//! Whole numbers in the words of a command.
ghost use Rattle.std.specs.Prelude.{◌≡◌};

use xs_bytes::{U63, natural};

/// An integer of a command. No command uses the value of a negative number.
#[derive(Clone, Copy, Debug, PartialEq, Eq)]
pub enum Integer {
    /// A number below 0.
    Negative,
    /// Any other number.
    Natural(U63),
}

impl Integer {
    ghost use Rattle.xs_command.specs.Integer.{integer_of, at_least_zero};

    /// The integer that a text spells: `0`, or an optional `-` and then a digit from 1 to 9 and
    /// further digits, from -9223372036854775808 to 9223372036854775807. None for any other text.
    pub fn parse(text: &[u8]) -> Option<Self>
        ensures { result ≡ integer_of text.now }
    {
        let (first, digits) = text.split_first()?;
        if *first != b'-' {
            let value = U63::checked(natural(text)?)?;
            return Some(Self::Natural(value));
        }
        let size = natural(digits)?;
        (0 < size && size <= 1 << 63).then_some(Self::Negative)
    }

    /// The number, with 0 for a negative one.
    pub fn at_least_zero(self) -> u64
        ensures { result ≡ at_least_zero self }
    {
        match self {
            Self::Negative => 0,
            Self::Natural(value) => value.get(),
        }
    }
}
