//! Headers of requests: a marker, a number, CR and LF (RESP protocol specification, version 2).
ghost use Rattle.std.specs.Prelude.{◌≡◌, ◌≤◌, ◌<◌, ◌+◌, ◌-◌, ◌^◌, min, option_map, if◌then◌else◌, Some, None};
ghost use Rattle.std.specs.Prelude.{length};
ghost use Rattle.std.specs.List.{list_all};
ghost use Rattle.xs_bytes.specs.Number.{is_digit, value_of};
ghost use Rattle.xs_resp.specs.HeaderPart.{marker, limit, is_natural, number_in};
ghost use Rattle.xs_resp.specs.Header.{text_len, within_limit, line_at, header};

use crate::read_fault::ProtocolFault;

/// What the number of a header counts.
#[derive(Clone, Copy, Debug, PartialEq, Eq)]
pub enum Part {
    /// The words of a request.
    Count,
    /// The bytes of a word.
    Size,
}

/// A header that was read.
#[derive(Clone, Copy, Debug, PartialEq, Eq)]
pub struct Header {
    /// Its number.
    pub number: usize,
    /// The index after its LF.
    pub end: usize,
}

/// The greatest length of a header's text; its line then has 32 bytes.
const TEXT_LIMIT: usize = 29;

fn marker(part: Part) -> u8
    ensures { result ≡ marker part }
{
    match part {
        Part::Count => b'*',
        Part::Size => b'$',
    }
}

fn limit(part: Part) -> u64
    ensures { result ≡ limit part }
{
    match part {
        Part::Count => 1_048_576,
        Part::Size => 536_870_912,
    }
}

/// Reads the header at the front. None if more bytes decide.
#[tactic(auto, unfolding(crate::specs::Header::header))]
pub fn read_header(part: Part, bytes: &[u8]) -> Result<Option<Header>, ProtocolFault>
    ensures { result ≡ header part bytes.now }
{
    let Some((first, line)) = bytes.split_first() else {
        return Ok(None);
    };
    if *first != marker(part) {
        return Err(ProtocolFault::Shape);
    }
    read_line(part, line)
}

/// Reads a header after its marker.
#[tactic(auto, unfolding(crate::specs::Header::line_at))]
fn read_line(part: Part, line: &[u8]) -> Result<Option<Header>, ProtocolFault>
    ensures { result ≡ line_at part line.now (text_len line.now) }
{
    let cr = find_cr(line);
    if cr > TEXT_LIMIT {
        return Err(ProtocolFault::Limit);
    }
    if line.len() < cr + 2 {
        return Ok(None);
    }
    if line[cr + 1] != b'\n' {
        return Err(ProtocolFault::Shape);
    }
    limited(part, cr + 3, number_in(part, &line[..cr]))
}

/// The number of bytes before the first CR; at most 30, which is too many for a header.
fn find_cr(line: &[u8]) -> usize
    ensures { result ≡ min 30 (text_len line.now) }
{
    let mut cr = 0;
    for byte in line {
        if cr > TEXT_LIMIT || *byte == b'\r' {
            return cr;
        }
        cr += 1;
    }
    cr
}

/// A header with this number, if there is one and it is within the limit. The number is saturated.
fn limited(part: Part, end: usize, number: Option<u64>) -> Result<Option<Header>, ProtocolFault>
    ensures { result ≡ within_limit part end number }
{
    let number = number.ok_or(ProtocolFault::Length)?;
    if number > limit(part) {
        return Err(ProtocolFault::Limit);
    }
    Ok(Some(Header {
        number: number as usize,
        end,
    }))
}

/// The number that a header's text spells, saturated.
#[tactic(auto, unfolding(crate::specs::HeaderPart::number_in))]
fn number_in(part: Part, text: &[u8]) -> Option<u64>
    ensures { result ≡ option_map (min (2 ^ 64 - 1)) (number_in part text.now) }
{
    if part == Part::Count && text.len() == 2 && text[0] == b'-' && text[1] == b'1' {
        return Some(0);
    }
    natural(text)
}

/// The number that a text spells without leading zeros, saturated.
#[tactic(auto, unfolding(crate::specs::HeaderPart::is_natural))]
fn natural(text: &[u8]) -> Option<u64>
    ensures { result ≡ (if is_natural text.now then Some (min (2 ^ 64 - 1) (value_of text.now)) else None) }
{
    match text {
        [] => None,
        [b'0', _, ..] => None,
        _ => digits(text),
    }
}

/// The value of a text of digits, saturated.
fn digits(text: &[u8]) -> Option<u64>
    ensures { result ≡ (if list_all is_digit text.now then Some (min (2 ^ 64 - 1) (value_of text.now)) else None) }
{
    let mut value = 0u64;
    for byte in text {
        if *byte < b'0' || b'9' < *byte {
            return None;
        }
        value = value
            .saturating_mul(10)
            .saturating_add(u64::from(*byte - b'0'));
    }
    Some(value)
}
