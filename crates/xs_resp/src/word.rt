//! The words of a request (RESP protocol specification, version 2).
ghost use Rattle.std.specs.Prelude.{◌≡◌, ◌≤◌, ◌+◌, length, drop, IfOk, IfSome};
ghost use Rattle.xs_resp.specs.Reading.{span_before_crlf, bulk_string};

use crate::header::{Part, read_header};
use crate::read_fault::ProtocolFault;

/// The place of a word in some bytes.
#[derive(Clone, Copy, Debug, PartialEq, Eq)]
pub struct Span {
    /// The index of its first byte.
    pub start: usize,
    /// The index after its last byte.
    pub end: usize,
}

/// The bytes from an index on.
pub fn rest_of(bytes: &[u8], at: usize) -> &[u8]
    requires { at ≤ length bytes.now }
    ensures { result.now ≡ drop at bytes.now }
{
    bytes.split_at(at).1
}

/// Reads the word at the front, with its header and its line end. None if more bytes decide.
#[tactic(auto, using(crate::proofs::Reading::header_ends), unfolding(crate::specs::Reading::bulk_string))]
pub fn read_word(bytes: &[u8]) -> Result<Option<Span>, ProtocolFault>
    ensures value { result ≡ bulk_string bytes.now }
    ensures ends { IfOk result (λ found. IfSome found (λ span. (span.start ≤ span.end)
        × (span.end + 2 ≤ length bytes.now))) }
{
    let Some(header) = read_header(Part::Size, bytes)? else {
        return Ok(None);
    };
    let end = header.end + header.number;
    if bytes.len() < end {
        return Ok(None);
    }
    read_closing(header.end, end, rest_of(bytes, end))
}

/// Reads the line end after the bytes of a word, which are between these indices.
fn read_closing(start: usize, end: usize, rest: &[u8]) -> Result<Option<Span>, ProtocolFault>
    ensures { result ≡ span_before_crlf start end rest.now }
{
    match rest {
        [] | [b'\r'] => Ok(None),
        [b'\r', b'\n', ..] => Ok(Some(Span { start, end })),
        _ => Err(ProtocolFault::Shape),
    }
}
