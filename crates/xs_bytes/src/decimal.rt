//! Decimal numbers in text.
ghost use Rattle.std.specs.Prelude.{◌≡◌, ◌++◌, IfOk, OnOk, OnErr, decimal};
ghost use Rattle.xs_bytes.specs.Number.{number_of, natural_of};

use crate::bytes::Bytes;
use itoa::Buffer;
use std::alloc::{AllocError, Global};

/// The number that a text of decimal digits spells, if it is below 2^64. Leading zeros are accepted. None for any other
/// text, the empty one included.
pub fn number(text: &[u8]) -> Option<u64>
    ensures { result ≡ number_of text.now }
{
    if text.is_empty() {
        return None;
    }
    let mut value = 0u64;
    for byte in text {
        if *byte < b'0' || b'9' < *byte {
            return None;
        }
        value = value.checked_mul(10)?.checked_add(u64::from(*byte - b'0'))?;
    }
    Some(value)
}

/// The number below 2^64 that a text spells as a number is printed: without leading zeros.
pub fn natural(text: &[u8]) -> Option<u64>
    ensures { result ≡ natural_of text.now }
{
    match text {
        [b'0', _, ..] => None,
        _ => number(text),
    }
}

/// Appends a number in decimal. If memory runs out, `out` is unchanged.
pub fn push_decimal(out: &mut Vec<u8>, value: u64) -> Result<(), AllocError>
    ensures ok { OnOk result (out.new.items ≡ out.old.items ++ decimal value) }
    ensures err { OnErr result (out.new.items ≡ out.old.items) }
{
    let mut buffer = Buffer::new();
    out.extend_from_slice(buffer.format(value).as_bytes())
}

/// The text of a number in decimal.
pub fn decimal_text(alloc: Global, value: u64) -> Result<Bytes, AllocError>
    ensures { IfOk result (λ text. text ≡ decimal value) }
{
    let mut buffer = Buffer::new();
    Bytes::from_slice(alloc, buffer.format(value).as_bytes())
}
