//! The tokens of a reply, one after another, in their place.
ghost use Rattle.std.specs.Prelude.{◌≡◌, ◌+◌, ◌<◌, ◌≤◌, [], ◌∷◌, length, take, drop, slice_index_or};
ghost use Rattle.xs_resp.specs.ReplyItems.{tokens_of};
ghost use Rattle.xs_resp.specs.Marks.{token_in, string_length};
ghost use Rattle.xs_resp.specs.LeftToWrite.{string_of, strings_of};

use crate::mark::Mark;
use crate::reply::Reply;
use std::marker::Model;

/// The tokens of a reply.
#[derive(Drop)]
pub(crate) struct Sequence<'a> {
    first: Mark,
    marks: &'a [Mark],
    strings: &'a [u8],
}

impl<'a> Model for Sequence<'a> {
    ghost use Rattle.std.specs.Prelude.{◌≡◌, List, ◌∷◌, length};
    ghost use Rattle.xs_resp.specs.Token.{Token};
    ghost use Rattle.xs_resp.specs.Marks.{tokens_in, strings_length};

    ghost Value = { List Token };

    ghost view = { λ s. tokens_in (s.first ∷ s.marks.now) s.strings.now };

    ghost invariant = { λ s. strings_length (s.first ∷ s.marks.now) ≡ length s.strings.now };
}

/// A token of a sequence.
#[derive(Clone, Copy)]
pub(crate) struct Found<'a> {
    /// The token without its string.
    pub mark: Mark,
    /// Its string.
    pub string: &'a [u8],
    /// The index of the token after it.
    pub next: usize,
    /// The number of bytes of the strings, up to the end of its own.
    pub end: usize,
}

impl<'a> Sequence<'a> {
    /// The tokens of a reply.
    pub fn new(reply: &'a Reply) -> Self
        ensures { result ≡ tokens_of reply.now }
    {
        match reply {
            Reply::Simple(simple) => Self::single(Mark::Simple(*simple)),
            Reply::Error(fault) => Self::single(Mark::Error(*fault)),
            Reply::ErrorText(text) => Self {
                first: Mark::ErrorText(text.len()),
                marks: &[],
                strings: text.as_slice(),
            },
            Reply::Int(number) => Self::single(Mark::Int(number.get())),
            Reply::Bulk(bytes) => Self {
                first: Mark::Bulk(bytes.len()),
                marks: &[],
                strings: bytes.as_slice(),
            },
            Reply::NullBulk => Self::single(Mark::NullBulk),
            Reply::Array(items) => {
                let (marks, strings) = items.tokens().parts();
                Self {
                    first: Mark::Array(items.count()),
                    marks,
                    strings,
                }
            }
            Reply::Opening(count) => Self::single(Mark::Array(*count)),
            Reply::NullArray => Self::single(Mark::NullArray),
        }
    }

    /// The sequence of one token that has no string.
    fn single(first: Mark) -> Self
        requires { string_length first ≡ 0 }
        ensures { result ≡ token_in first [] ∷ [] }
    {
        Self {
            first,
            marks: &[],
            strings: &[],
        }
    }

    /// The number of tokens.
    pub fn len(&self) -> usize
        ensures { result ≡ length self.now }
    {
        self.marks.len() + 1
    }

    /// The token at `index`. The strings of those before it have `at` bytes.
    pub fn token(&self, index: usize, at: usize) -> Found<'a>
        requires within { index < length self.now }
        requires strings { at ≡ length (strings_of (take index self.now)) }
        ensures token { drop index self.now ≡ token_in result.mark result.string.now ∷ drop (index + 1) self.now }
        ensures string { string_of (token_in result.mark result.string.now) ≡ result.string.now }
        ensures next { result.next ≡ index + 1 }
        ensures end { result.end ≡ at + length result.string.now }
    {
        let mark = mark_at(self.first, self.marks, index);
        let (string, behind) = self.strings.split_at(at).1.split_at(mark.string_length());
        Found {
            mark,
            string,
            next: index + 1,
            end: self.strings.len() - behind.len(),
        }
    }
}

/// The mark at `index`, the first one included.
fn mark_at(first: Mark, marks: &[Mark], index: usize) -> Mark
    requires { index ≤ length marks.now }
    ensures { result ≡ slice_index_or (first ∷ marks.now) index first }
{
    match index {
        0 => first,
        _ => marks[index - 1],
    }
}
