//! Replies as bytes, in pieces: writing takes no memory.
ghost use Rattle.std.specs.Prelude.{◌≡◌, ◌≢◌, ◌+◌, ◌<◌, ◌≤◌, [], ◌++◌, true, false, length, take, drop, vec_capacity, IfOk};
ghost use Rattle.std.specs.List.{flat_map};
ghost use Rattle.xs_resp.specs.ReplyText.{text, token_text};
ghost use Rattle.xs_resp.specs.Marks.{token_in};
ghost use Rattle.xs_resp.specs.LeftToWrite.{bytes_left, left_of, string_of, strings_of};
ghost use Rattle.xs_resp.specs.Position.{IsEncoding};
ghost use Rattle.xs_resp.specs.TokenFit.{Appends};

use crate::mark::Mark;
use crate::reply::Reply;
use crate::sequence::Sequence;
use crate::writing::{SHORT, write_header, write_token};
use std::alloc::{AllocError, Global};
use std::marker::Model;

/// How many bytes of a piece are gathered.
const GATHERED: usize = 65_536;

/// A string of more bytes is lent and not copied.
const COPIED: usize = 32_768;

/// How far a reply is written.
#[derive(Clone, Copy)]
pub(crate) struct Position {
    /// The number of tokens that are written.
    taken: usize,
    /// The number of bytes of their strings.
    at: usize,
    /// Whether the next token's string is lent. Its header is gathered then.
    is_lent: bool,
}

impl Position {
    fn new(taken: usize, at: usize, is_lent: bool) -> Self
        ensures { result ≡ record { taken = taken; at = at; is_lent = is_lent } }
    {
        Self { taken, at, is_lent }
    }
}

/// The end of a reply of one token.
const END: Position = Position {
    taken: 1,
    at: 0,
    is_lent: false,
};

/// Replies that are being written. Their bytes are given in pieces: short tokens are gathered in a buffer, of several
/// replies if there is room, and a long string is lent from its place.
#[derive(Drop)]
pub struct Encoder {
    gathered: Vec<u8>,
    reply: Reply,
    position: Position,
}

impl Model for Encoder {
    ghost use Rattle.std.specs.Prelude.{◌≡◌, ◌≤◌, [], false, drop, vec_capacity};
    ghost use Rattle.xs_resp.specs.ReplyItems.{tokens_of};
    ghost use Rattle.xs_resp.specs.LeftToWrite.{Left, pieces};
    ghost use Rattle.xs_resp.specs.Position.{IsEncoding};

    ghost Value = { Left };

    ghost view = { λ e. pieces e.gathered.items e.position.is_lent (drop e.position.taken (tokens_of e.reply)) };

    ghost invariant = { λ e. (65536 ≤ vec_capacity e.gathered)
        × IsEncoding e.gathered.items (tokens_of e.reply) e.position };
}

impl Encoder {
    /// An encoder with nothing to write. This is the only call that takes memory.
    pub fn new(alloc: Global) -> Result<Self, AllocError>
        ensures { IfOk result (λ encoder. bytes_left encoder ≡ []) }
    {
        Ok(Self {
            gathered: Vec::with_capacity(alloc, GATHERED)?,
            reply: Reply::NullArray,
            position: END,
        })
    }

    /// Whether all that is left is in the piece.
    pub fn is_gathered(&self) -> bool
        ensures gathered { result ≡ true → self.now.behind ≡ [] }
        ensures more { result ≡ false → self.now.behind ≢ [] }
    {
        !self.position.is_lent && self.position.taken >= Sequence::new(&self.reply).len()
    }

    /// Begins to write this reply, after what is gathered.
    pub fn begin(&mut self, reply: Reply)
        requires { self.old.behind ≡ [] }
        ensures { bytes_left self.new ≡ bytes_left self.old ++ text reply }
    {
        self.reply = reply;
        self.position = gather(&Sequence::new(&self.reply), 0, 0, &mut self.gathered);
    }

    /// The front of what is left. It is empty only if nothing is left.
    pub fn piece(&self) -> &[u8]
        ensures piece { result.now ≡ self.now.piece }
        ensures all { self.now.piece ≡ [] → self.now.behind ≡ [] }
    {
        if self.position.is_lent && self.gathered.is_empty() {
            return Sequence::new(&self.reply)
                .token(self.position.taken, self.position.at)
                .string;
        }
        self.gathered.as_slice()
    }

    /// The piece is written. The reply is dropped once all of it is written.
    pub fn advance(&mut self)
        ensures { bytes_left self.new ≡ self.old.behind }
    {
        let Position { taken, at, is_lent } = self.position;
        let was_lent = is_lent && self.gathered.is_empty();
        self.gathered.clear();
        if was_lent {
            let tokens = Sequence::new(&self.reply);
            let written = tokens.token(taken, at);
            let _ = self.gathered.extend_from_slice(b"\r\n");
            self.position = gather(&tokens, written.next, written.end, &mut self.gathered);
        } else if !is_lent {
            self.position = gather(&Sequence::new(&self.reply), taken, at, &mut self.gathered);
            if self.gathered.is_empty() {
                self.clear();
            }
        }
    }

    /// Drops all that is left.
    pub fn clear(&mut self)
        ensures { bytes_left self.new ≡ [] }
    {
        self.gathered.clear();
        self.reply = Reply::NullArray;
        self.position = END;
    }
}

/// How much of a token fitted.
enum Fit {
    /// The complete token.
    Whole,
    /// Its header; its string is lent.
    Header,
    /// Nothing.
    Nothing,
}

/// Appends tokens from this one on, as many as there is room for.
fn gather(tokens: &Sequence<'_>, start: usize, begin: usize, out: &mut Vec<u8>) -> Position
    requires room { 65536 ≤ vec_capacity out.old }
    requires within { start ≤ length tokens.now }
    requires strings { begin ≡ length (strings_of (take start tokens.now)) }
    ensures room { 65536 ≤ vec_capacity out.new }
    ensures position { IsEncoding out.new.items tokens.now result }
    ensures header { result.is_lent ≡ true → 0 < length out.new.items }
    ensures text { out.new.items ++ left_of result.is_lent (drop result.taken tokens.now)
        ≡ out.old.items ++ flat_map token_text (drop start tokens.now) }
{
    let mut taken = start;
    let mut at = begin;
    while taken < tokens.len() {
        let found = tokens.token(taken, at);
        match append(found.mark, found.string, out) {
            Fit::Whole => {
                taken = found.next;
                at = found.end;
            }
            Fit::Header => return Position::new(taken, at, true),
            Fit::Nothing => return Position::new(taken, at, false),
        }
    }
    Position::new(taken, at, false)
}

/// Appends a token, or the header of a long string, if there is room.
fn append(mark: Mark, string: &[u8], out: &mut Vec<u8>) -> Fit
    requires room { 65536 ≤ vec_capacity out.old }
    requires string { string_of (token_in mark string.now) ≡ string.now }
    ensures room { 65536 ≤ vec_capacity out.new }
    ensures appended { Appends result out.old.items out.new.items (token_in mark string.now) }
{
    let room = GATHERED.saturating_sub(out.len());
    if string.len() > COPIED {
        if room < SHORT {
            return Fit::Nothing;
        }
        let _ = write_header(mark, string, out);
        return Fit::Header;
    }
    if room < string.len() + SHORT {
        return Fit::Nothing;
    }
    let _ = write_token(mark, string, out);
    Fit::Whole
}
