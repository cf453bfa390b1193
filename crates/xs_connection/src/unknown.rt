//! Errors that name an unknown command.
ghost use Rattle.std.specs.Prelude.{◌≡◌, ◌++◌, ◌≤◌, IfOk, OnOk, take};
ghost use Rattle.xs_connection.specs.Unknown.{escaped_byte, escaped, quoted, arguments, hex_digit, unknown_text};

use std::alloc::{AllocError, Global};
use xs_bytes::Bytes;
use xs_command::Words;

/// The most bytes of a name, and of the words after it.
const MOST: usize = 128;

/// A hexadecimal digit.
fn hex_digit(value: u8) -> u8
    requires { value ≤ 15 }
    ensures { result ≡ hex_digit value }
{
    if value < 10 {
        b'0' + value
    } else {
        b'a' - 10 + value
    }
}

/// Appends a byte; a control byte as its number. If memory runs out, a part may be appended, here and below.
fn push_byte(text: &mut Vec<u8>, byte: u8) -> Result<(), AllocError>
    ensures { OnOk result (text.new.items ≡ text.old.items ++ escaped_byte byte) }
{
    if byte < 32 || byte == 127 {
        return text.extend_from_slice(&[b'\\', b'x', hex_digit(byte / 16), hex_digit(byte % 16)]);
    }
    text.extend_from_slice(&[byte])
}

/// Appends bytes.
fn push_escaped(text: &mut Vec<u8>, bytes: &[u8]) -> Result<(), AllocError>
    ensures { OnOk result (text.new.items ≡ text.old.items ++ escaped bytes.now) }
{
    for byte in bytes {
        push_byte(text, *byte)?;
    }
    Ok(())
}

/// Appends a word in quotes.
fn push_quoted(text: &mut Vec<u8>, word: &[u8]) -> Result<(), AllocError>
    ensures { OnOk result (text.new.items ≡ text.old.items ++ quoted word.now) }
{
    text.extend_from_slice(b"'")?;
    push_escaped(text, word)?;
    text.extend_from_slice(b"' ")
}

/// The first bytes, at most `most`.
fn first_bytes(bytes: &[u8], most: usize) -> &[u8]
    ensures { result.now ≡ take most bytes.now }
{
    if bytes.len() <= most {
        return bytes;
    }
    &bytes[..most]
}

/// Appends the words after a name.
#[tactic(auto, unfolding(xs_command::specs::Words::word))]
fn push_arguments(text: &mut Vec<u8>, words: &Words<'_>) -> Result<(), AllocError>
    ensures { OnOk result (text.new.items ≡ text.old.items ++ arguments 0 words.now) }
{
    let mut used = 0;
    let mut left = words.again();
    while used < MOST {
        let Ok((word, rest)) = left.word() else {
            return Ok(());
        };
        let cut = first_bytes(word.as_slice(), MOST - used);
        push_quoted(text, cut)?;
        used += cut.len() + 3;
        left = rest;
    }
    Ok(())
}

/// The text of the error for words whose command is unknown.
#[tactic(auto, unfolding(xs_command::specs::Words::word))]
pub fn unknown_text(alloc: Global, words: &Words<'_>) -> Result<Bytes, AllocError>
    ensures { IfOk result (λ text. text ≡ unknown_text words.now) }
{
    let Ok((name, rest)) = words.word() else {
        return Bytes::from_slice(alloc, b"ERR unknown command");
    };
    let mut text = Vec::new(alloc);
    text.extend_from_slice(b"ERR unknown command '")?;
    push_escaped(&mut text, first_bytes(name.as_slice(), MOST))?;
    text.extend_from_slice(b"', with args beginning with: ")?;
    push_arguments(&mut text, &rest)?;
    Ok(Bytes::new(text))
}
