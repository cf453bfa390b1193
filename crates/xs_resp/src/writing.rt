//! Replies as bytes (RESP protocol specification, version 2).
ghost use Rattle.std.specs.Prelude.{◌≡◌, ◌++◌, ◌∷◌, OnOk, OnErr, length, ◌+◌, ◌<◌, ◌≤◌, vec_len, vec_capacity, IsOk};
ghost use Rattle.std.specs.List.{flat_map};
ghost use Rattle.xs_resp.specs.ReplyText.{text, token_text, simple_text, Writes};
ghost use Rattle.xs_resp.specs.Line.{line, crlf};
ghost use Rattle.xs_resp.specs.FaultText.{fault_text};
ghost use Rattle.xs_resp.specs.Marks.{token_in, tokens_in, strings_length};
ghost use Rattle.xs_resp.specs.LeftToWrite.{string_of};

use crate::fault::Fault;
use crate::mark::Mark;
use crate::reply::{Replies, Reply, Simple};
use itoa::Buffer;
use std::alloc::AllocError;

/// The most bytes that a token has in addition to its string.
pub(crate) const SHORT: usize = 128;

/// Appends the text of a reply. If memory runs out, `out` is unchanged.
pub fn encode(reply: &Reply, out: &mut Vec<u8>) -> Result<(), AllocError>
    ensures ok { OnOk result (out.new.items ≡ out.old.items ++ text reply.now) }
    ensures err { OnErr result (out.new.items ≡ out.old.items) }
{
    let before = out.len();
    let written = write_reply(reply, out);
    if written.is_err() {
        out.truncate(before);
    }
    written
}

#[tactic(auto, unfolding(crate::specs::ReplyText::text))]
fn write_reply(reply: &Reply, out: &mut Vec<u8>) -> Result<(), AllocError>
    ensures { Writes result out.old.items out.new.items (text reply.now) }
{
    match reply {
        Reply::Simple(simple) => write_simple(*simple, out),
        Reply::Error(fault) => write_fault(*fault, out),
        Reply::ErrorText(text) => write_error_text(text.as_slice(), out),
        Reply::Int(number) => write_line(b':', number.get(), out),
        Reply::Bulk(bytes) => write_bulk(bytes.as_slice(), out),
        Reply::NullBulk => out.extend_from_slice(b"$-1\r\n"),
        Reply::Array(items) => write_items(items, out),
        Reply::Opening(count) => write_line(b'*', *count as u64, out),
        Reply::NullArray => out.extend_from_slice(b"*-1\r\n"),
    }
}

/// Appends the header of an array, and then its items.
fn write_items(items: &Replies, out: &mut Vec<u8>) -> Result<(), AllocError>
    ensures { Writes result out.old.items out.new.items
        (line 42 items.now.count ++ flat_map token_text items.now.tokens) }
{
    write_line(b'*', items.count() as u64, out)?;
    let (marks, strings) = items.tokens().parts();
    write_tokens(marks, strings, out)
}

/// Appends tokens, whose strings are one after the other.
fn write_tokens(marks: &[Mark], strings: &[u8], out: &mut Vec<u8>) -> Result<(), AllocError>
    requires { strings_length marks.now ≡ length strings.now }
    ensures { Writes result out.old.items out.new.items (flat_map token_text (tokens_in marks.now strings.now)) }
{
    let mut rest = strings;
    for mark in marks {
        let (string, behind) = rest.split_at(mark.string_length());
        write_token(*mark, string, out)?;
        rest = behind;
    }
    Ok(())
}

pub(crate) fn write_token(mark: Mark, string: &[u8], out: &mut Vec<u8>) -> Result<(), AllocError>
    ensures text { Writes result out.old.items out.new.items (token_text (token_in mark string.now)) }
    ensures grows { vec_capacity out.old ≤ vec_capacity out.new }
    ensures fits { vec_len out.old + (length string.now + 128) ≤ vec_capacity out.old → IsOk result }
{
    match mark {
        Mark::Simple(simple) => write_simple(simple, out),
        Mark::Error(fault) => write_fault(fault, out),
        Mark::ErrorText(_) => write_error_text(string, out),
        Mark::Int(number) => write_line(b':', number, out),
        Mark::Bulk(_) => write_bulk(string, out),
        Mark::NullBulk => out.extend_from_slice(b"$-1\r\n"),
        Mark::Array(count) => write_line(b'*', count as u64, out),
        Mark::NullArray => out.extend_from_slice(b"*-1\r\n"),
    }
}

/// Appends what comes before the string of a token that has one.
#[tactic(auto, unfolding(crate::specs::ReplyText::text))]
pub(crate) fn write_header(mark: Mark, string: &[u8], out: &mut Vec<u8>) -> Result<(), AllocError>
    requires string { string_of (token_in mark string.now) ≡ string.now }
    requires some { 0 < length string.now }
    ensures text { IsOk result → out.new.items ++ string.now ++ crlf
        ≡ out.old.items ++ token_text (token_in mark string.now) }
    ensures some { IsOk result → 0 < length out.new.items }
    ensures grows { vec_capacity out.old ≤ vec_capacity out.new }
    ensures fits { vec_len out.old + 32 ≤ vec_capacity out.old → IsOk result }
{
    match mark {
        Mark::ErrorText(_) => out.extend_from_slice(b"-"),
        _ => write_line(b'$', string.len() as u64, out),
    }
}

/// Appends a marker, a digit and the end of the line.
fn write_digit(marker: u8, digit: u8, out: &mut Vec<u8>) -> Result<(), AllocError>
    ensures text { Writes result out.old.items out.new.items (marker ∷ digit ∷ crlf) }
    ensures grows { vec_capacity out.old ≤ vec_capacity out.new }
    ensures fits { vec_len out.old + 8 ≤ vec_capacity out.old → IsOk result }
    ensures short { vec_len out.new ≤ vec_len out.old + 8 }
{
    out.extend_from_slice(&[marker, digit, b'\r', b'\n'])
}

/// Appends a marker, two digits and the end of the line.
fn write_two_digits(marker: u8, ten: u8, one: u8, out: &mut Vec<u8>) -> Result<(), AllocError>
    ensures text { Writes result out.old.items out.new.items (marker ∷ ten ∷ one ∷ crlf) }
    ensures grows { vec_capacity out.old ≤ vec_capacity out.new }
    ensures fits { vec_len out.old + 8 ≤ vec_capacity out.old → IsOk result }
    ensures short { vec_len out.new ≤ vec_len out.old + 8 }
{
    out.extend_from_slice(&[marker, ten, one, b'\r', b'\n'])
}

/// Appends a marker, a number and the end of the line.
pub(crate) fn write_line(marker: u8, number: u64, out: &mut Vec<u8>) -> Result<(), AllocError>
    ensures text { Writes result out.old.items out.new.items (line marker number) }
    ensures grows { vec_capacity out.old ≤ vec_capacity out.new }
    ensures fits { vec_len out.old + 32 ≤ vec_capacity out.old → IsOk result }
    ensures short { vec_len out.new ≤ vec_len out.old + 32 }
{
    if number < 10 {
        // Most lengths and counts have one digit or two.
        return write_digit(marker, b'0' + number as u8, out);
    }
    if number < 100 {
        let number = number as u8;
        return write_two_digits(marker, b'0' + number / 10, b'0' + number % 10, out);
    }
    out.push(marker)?;
    let mut digits = Buffer::new();
    out.extend_from_slice(digits.format(number).as_bytes())?;
    out.extend_from_slice(b"\r\n")
}

fn write_bulk(bytes: &[u8], out: &mut Vec<u8>) -> Result<(), AllocError>
    ensures text { Writes result out.old.items out.new.items
        (line 36 (length bytes.now) ++ bytes.now ++ crlf) }
    ensures grows { vec_capacity out.old ≤ vec_capacity out.new }
    ensures fits { vec_len out.old + (length bytes.now + 128) ≤ vec_capacity out.old → IsOk result }
{
    write_line(b'$', bytes.len() as u64, out)?;
    out.extend_from_slice(bytes)?;
    out.extend_from_slice(b"\r\n")
}

fn write_simple(simple: Simple, out: &mut Vec<u8>) -> Result<(), AllocError>
    ensures text { Writes result out.old.items out.new.items (43 ∷ simple_text simple ++ crlf) }
    ensures grows { vec_capacity out.old ≤ vec_capacity out.new }
    ensures fits { vec_len out.old + 128 ≤ vec_capacity out.old → IsOk result }
{
    match simple {
        Simple::Okay => out.extend_from_slice(b"+OK\r\n"),
        Simple::Pong => out.extend_from_slice(b"+PONG\r\n"),
        Simple::Stream => out.extend_from_slice(b"+stream\r\n"),
        Simple::Nothing => out.extend_from_slice(b"+none\r\n"),
        Simple::Reset => out.extend_from_slice(b"+RESET\r\n"),
        Simple::Queued => out.extend_from_slice(b"+QUEUED\r\n"),
    }
}

#[tactic(auto, using(crate::proofs::FaultLengths::fault_length))]
fn write_fault(fault: Fault, out: &mut Vec<u8>) -> Result<(), AllocError>
    ensures text { Writes result out.old.items out.new.items (45 ∷ fault_text fault ++ crlf) }
    ensures grows { vec_capacity out.old ≤ vec_capacity out.new }
    ensures fits { vec_len out.old + 128 ≤ vec_capacity out.old → IsOk result }
{
    out.push(b'-')?;
    out.extend_from_slice(fault.text().as_bytes())?;
    out.extend_from_slice(b"\r\n")
}

fn write_error_text(text: &[u8], out: &mut Vec<u8>) -> Result<(), AllocError>
    ensures text { Writes result out.old.items out.new.items (45 ∷ text.now ++ crlf) }
    ensures grows { vec_capacity out.old ≤ vec_capacity out.new }
    ensures fits { vec_len out.old + (length text.now + 128) ≤ vec_capacity out.old → IsOk result }
{
    out.push(b'-')?;
    out.extend_from_slice(text)?;
    out.extend_from_slice(b"\r\n")
}
