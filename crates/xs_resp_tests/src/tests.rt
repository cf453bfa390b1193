//! Replies that are written in pieces.
use std::alloc::{AllocError, Global};
use std::test::Fail;
use xs_bytes::Bytes;
use xs_resp::{Encoder, Replies, Reply, Simple, Tokens};

/// A string of `length` bytes, no two neighbours of which are equal.
fn string(alloc: Global, length: usize) -> Result<Vec<u8>, AllocError> {
    let mut bytes = Vec::with_capacity(alloc, length)?;
    for index in 0..length {
        bytes.push((index % 251) as u8)?;
    }
    Ok(bytes)
}

/// An array of this string, five times.
#[tactic(auto, unfolding(xs_resp::specs::Whole::AreItems))]
fn five(alloc: Global, bytes: &[u8]) -> Result<Reply, AllocError> {
    let mut tokens = Tokens::new(alloc);
    tokens.push_bulk(bytes)?;
    tokens.push_bulk(bytes)?;
    tokens.push_bulk(bytes)?;
    tokens.push_bulk(bytes)?;
    tokens.push_bulk(bytes)?;
    Ok(Reply::Array(Replies::new(5, tokens)))
}

/// Its text.
fn text_of_five(alloc: Global, bytes: &[u8]) -> Result<Vec<u8>, AllocError> {
    let mut text = Vec::from_slice(alloc, b"*5\r\n")?;
    for _ in 0..5 {
        text.extend_from_slice(format!(in alloc; "${}\r\n", bytes.len())?.as_bytes())?;
        text.extend_from_slice(bytes)?;
        text.extend_from_slice(b"\r\n")?;
    }
    Ok(text)
}

/// Takes all pieces that are left. Returns the bytes, and the number of pieces.
fn pieces(alloc: Global, encoder: &mut Encoder) -> Result<(Vec<u8>, usize), AllocError> {
    let mut bytes = Vec::new(alloc);
    for count in 0..1_000 {
        if encoder.piece().is_empty() {
            return Ok((bytes, count));
        }
        bytes.extend_from_slice(encoder.piece())?;
        encoder.advance();
    }
    Ok((bytes, 1_000))
}

#[test]
fn writes_strings_at_each_border(rt: HostRuntime) -> Result<(), Fail> {
    let alloc = rt.alloc();
    let mut encoder = Encoder::new(alloc)?;
    // Five strings just fit into the buffer, or a string is just short enough to be copied.
    for (from, to) in [(0, 4), (13_050, 13_100), (32_760, 32_775)] {
        for length in from..to {
            let bytes = string(alloc, length)?;
            encoder.clear();
            encoder.begin(five(alloc, bytes.as_slice())?);
            let (written, _) = pieces(alloc, &mut encoder)?;
            let wanted = text_of_five(alloc, bytes.as_slice())?;
            assert!(rt; written == wanted, "strings of {length} bytes");
        }
    }
    Ok(())
}

#[test]
fn gathers_short_tokens_and_lends_long_strings(rt: HostRuntime) -> Result<(), Fail> {
    let alloc = rt.alloc();
    let mut encoder = Encoder::new(alloc)?;
    // A lent string makes two pieces: the one in front of it, and itself.
    for (length, wanted) in [
        (0, 1),
        (13_000, 1),
        (14_000, 2),
        (32_769, 11),
        (100_000, 11),
    ] {
        let bytes = string(alloc, length)?;
        encoder.clear();
        encoder.begin(five(alloc, bytes.as_slice())?);
        let (_, count) = pieces(alloc, &mut encoder)?;
        assert_eq!(rt; count, wanted, "strings of {length} bytes");
    }
    Ok(())
}

#[test]
fn gathers_replies_in_one_piece(rt: HostRuntime) -> Result<(), Fail> {
    let alloc = rt.alloc();
    let mut encoder = Encoder::new(alloc)?;
    encoder.begin(Reply::Simple(Simple::Okay));
    assert!(rt; encoder.is_gathered());
    encoder.begin(Reply::Simple(Simple::Pong));
    assert!(rt; encoder.is_gathered());
    let long = string(alloc, 32_769)?;
    encoder.begin(Reply::Bulk(Bytes::from_slice(alloc, long.as_slice())?));
    assert!(rt; !encoder.is_gathered());
    assert_eq!(rt; encoder.piece(), b"+OK\r\n+PONG\r\n$32769\r\n".as_slice());
    encoder.advance();
    assert_eq!(rt; encoder.piece(), long.as_slice());
    assert!(rt; !encoder.is_gathered());
    encoder.advance();
    assert!(rt; encoder.is_gathered());
    assert_eq!(rt; encoder.piece(), b"\r\n".as_slice());
    Ok(())
}

#[test]
fn lends_the_text_of_a_long_error(rt: HostRuntime) -> Result<(), Fail> {
    let alloc = rt.alloc();
    let mut encoder = Encoder::new(alloc)?;
    encoder.begin(Reply::Simple(Simple::Reset));
    assert!(rt; encoder.is_gathered());
    let long = string(alloc, 32_769)?;
    encoder.begin(Reply::ErrorText(Bytes::from_slice(alloc, long.as_slice())?));
    assert_eq!(rt; encoder.piece(), b"+RESET\r\n-".as_slice());
    encoder.advance();
    assert_eq!(rt; encoder.piece(), long.as_slice());
    encoder.advance();
    assert_eq!(rt; encoder.piece(), b"\r\n".as_slice());
    encoder.advance();
    assert!(rt; encoder.is_gathered());
    encoder.begin(Reply::ErrorText(Bytes::from_slice(alloc, b"ERR no")?));
    assert_eq!(rt; encoder.piece(), b"-ERR no\r\n".as_slice());
    Ok(())
}
