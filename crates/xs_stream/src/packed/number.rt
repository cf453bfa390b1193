//! Numbers in few bytes: one byte below 253, otherwise a byte that determines how many follow.
ghost use Rattle.std.specs.Prelude.{◌≡◌, ◌≤◌, ◌++◌, ◌∷◌, OnOk, OnErr, length, drop, slice_index};
ghost use Rattle.std.specs.Int.{w16, w32, w64, from_le_bytes};
ghost use Rattle.xs_stream.specs.PackedNumber.{number_code, first_number, after_number};

use std::alloc::AllocError;

/// The number of bytes that a number takes.
#[tactic(auto, unfolding(crate::specs::PackedNumber::number_code))]
pub(crate) fn number_size(n: u64) -> u64
    ensures { result ≡ length (number_code n) }
{
    if n < 253 {
        return 1;
    }
    if n < 0x1_0000 {
        return 3;
    }
    if n < 0x1_0000_0000 {
        return 5;
    }
    9
}

/// Appends a number. If memory runs out, `out` is unchanged.
#[tactic(auto, unfolding(crate::specs::PackedNumber::number_code))]
#[inline(always)]
pub(crate) fn push_number(out: &mut Vec<u8>, n: u64) -> Result<(), AllocError>
    ensures ok { OnOk result (out.new.items ≡ out.old.items ++ number_code n) }
    ensures err { OnErr result (out.new.items ≡ out.old.items) }
{
    if n < 253 {
        return out.extend_from_slice(&[n as u8]);
    }
    push_long_number(out, n)
}

/// Appends a number that takes more than one byte. If memory runs out, `out` is unchanged.
#[tactic(auto, unfolding(crate::specs::PackedNumber::number_code))]
fn push_long_number(out: &mut Vec<u8>, n: u64) -> Result<(), AllocError>
    requires { 253 ≤ n }
    ensures ok { OnOk result (out.new.items ≡ out.old.items ++ number_code n) }
    ensures err { OnErr result (out.new.items ≡ out.old.items) }
{
    if n < 0x1_0000 {
        let [a, b] = (n as u16).to_le_bytes();
        return out.extend_from_slice(&[253, a, b]);
    }
    if n < 0x1_0000_0000 {
        let [a, b, c, d] = (n as u32).to_le_bytes();
        return out.extend_from_slice(&[254, a, b, c, d]);
    }
    let [a, b, c, d, e, f, g, h] = n.to_le_bytes();
    out.extend_from_slice(&[255, a, b, c, d, e, f, g, h])
}

/// The number that bytes begin with, and the bytes after it.
#[tactic(auto, unfolding(crate::specs::PackedNumber::first_number, crate::specs::PackedNumber::after_number))]
#[inline(always)]
pub(crate) fn read_number(bytes: &[u8]) -> (u64, &[u8])
    ensures number { result.0 ≡ first_number bytes.now }
    ensures rest { result.1.now ≡ after_number bytes.now }
{
    match bytes {
        [] => (0, bytes),
        [first, rest @ ..] => {
            if *first < 253 {
                return (u64::from(*first), rest);
            }
            read_long_number(*first, rest)
        }
    }
}

/// Like `read_number`, for numbers that mostly take two bytes more.
#[tactic(auto, unfolding(crate::specs::PackedNumber::first_number, crate::specs::PackedNumber::after_number))]
#[inline(always)]
pub(crate) fn read_wide_number(bytes: &[u8]) -> (u64, &[u8])
    ensures number { result.0 ≡ first_number bytes.now }
    ensures rest { result.1.now ≡ after_number bytes.now }
{
    if let [first, low, high, rest @ ..] = bytes {
        if *first == 253 {
            return (u64::from(u16::from_le_bytes([*low, *high])), rest);
        }
    }
    read_number(bytes)
}

/// The number after a byte that determines its length, and the bytes after it.
#[tactic(auto, unfolding(crate::specs::PackedNumber::first_number, crate::specs::PackedNumber::after_number))]
#[cold]
fn read_long_number(first: u8, rest: &[u8]) -> (u64, &[u8])
    requires { 253 ≤ first }
    ensures number { result.0 ≡ first_number (first ∷ rest.now) }
    ensures rest { result.1.now ≡ after_number (first ∷ rest.now) }
{
    if first == 253 {
        return (u64::from(first_u16(rest)), after(rest, 2));
    }
    if first == 254 {
        return (u64::from(first_u32(rest)), after(rest, 4));
    }
    (first_u64(rest), after(rest, 8))
}

fn first_u16(bytes: &[u8]) -> u16
    ensures { result ≡ from_le_bytes w16 bytes.now }
{
    u16::from_le_bytes([byte(bytes, 0), byte(bytes, 1)])
}

fn first_u32(bytes: &[u8]) -> u32
    ensures { result ≡ from_le_bytes w32 bytes.now }
{
    u32::from_le_bytes([
        byte(bytes, 0),
        byte(bytes, 1),
        byte(bytes, 2),
        byte(bytes, 3),
    ])
}

fn first_u64(bytes: &[u8]) -> u64
    ensures { result ≡ from_le_bytes w64 bytes.now }
{
    u64::from_le_bytes([
        byte(bytes, 0),
        byte(bytes, 1),
        byte(bytes, 2),
        byte(bytes, 3),
        byte(bytes, 4),
        byte(bytes, 5),
        byte(bytes, 6),
        byte(bytes, 7),
    ])
}

/// A byte, or 0 beyond the end.
fn byte(bytes: &[u8], at: usize) -> u8
    ensures { result ≡ slice_index bytes.now at }
{
    match bytes.get(at) {
        Some(byte) => *byte,
        None => 0,
    }
}

/// The bytes after the first `count`.
pub(crate) fn after(bytes: &[u8], count: usize) -> &[u8]
    ensures { result.now ≡ drop count bytes.now }
{
    match bytes.get(count..) {
        Some(rest) => rest,
        None => &[],
    }
}
