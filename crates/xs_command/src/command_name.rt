//! The names of the commands.
ghost use Rattle.std.specs.Prelude.{◌≡◌, filter, length, ◌==◌};
ghost use Rattle.xs_command.specs.CommandName.{is_within_bounds};

use crate::word::Word;

/// The name of a Redis command that this server has.
#[derive(Clone, Copy, Debug, PartialEq, Eq)]
pub(crate) enum CommandName {
    Ping,
    Quit,
    Xadd,
    Xdel,
    Xtrim,
    Xlen,
    Xrange,
    Xrevrange,
    Xgroup,
    Xreadgroup,
    Xack,
    Xpending,
    Xclaim,
    Xautoclaim,
    Del,
    Xinfo,
    Exists,
    KeyType,
    Dbsize,
}

impl CommandName {
    ghost use Rattle.xs_command.specs.CommandName.{names, name_among, name_of, has_rare_length, word_counts};

    /// The command that a word names, in upper or lower case.
    pub(crate) fn of(word: &Word<'_>) -> Option<Self>
        ensures { result ≡ name_of word.now }
    {
        let length = word.as_slice().len();
        if length == 4 {
            return Self::of_four(word);
        }
        if length == 6 {
            return Self::of_six(word);
        }
        if length == 10 {
            return Self::of_ten(word);
        }
        Self::of_another_length(word)
    }

    /// The command whose name has four letters.
    fn of_four(word: &Word<'_>) -> Option<Self>
        ensures { result ≡ name_among (filter (λ entry. length entry.0 == 4) names) word.now }
    {
        if word.is(b"ping") {
            Some(Self::Ping)
        } else if word.is(b"quit") {
            Some(Self::Quit)
        } else if word.is(b"xadd") {
            Some(Self::Xadd)
        } else if word.is(b"xdel") {
            Some(Self::Xdel)
        } else if word.is(b"xlen") {
            Some(Self::Xlen)
        } else if word.is(b"xack") {
            Some(Self::Xack)
        } else {
            word.is(b"type").then_some(Self::KeyType)
        }
    }

    /// The command whose name has six letters.
    fn of_six(word: &Word<'_>) -> Option<Self>
        ensures { result ≡ name_among (filter (λ entry. length entry.0 == 6) names) word.now }
    {
        if word.is(b"xrange") {
            Some(Self::Xrange)
        } else if word.is(b"xgroup") {
            Some(Self::Xgroup)
        } else if word.is(b"xclaim") {
            Some(Self::Xclaim)
        } else if word.is(b"exists") {
            Some(Self::Exists)
        } else {
            word.is(b"dbsize").then_some(Self::Dbsize)
        }
    }

    /// The command whose name has ten letters.
    fn of_ten(word: &Word<'_>) -> Option<Self>
        ensures { result ≡ name_among (filter (λ entry. length entry.0 == 10) names) word.now }
    {
        if word.is(b"xreadgroup") {
            Some(Self::Xreadgroup)
        } else {
            word.is(b"xautoclaim").then_some(Self::Xautoclaim)
        }
    }

    /// The command whose name has neither four, six nor ten letters.
    fn of_another_length(word: &Word<'_>) -> Option<Self>
        ensures { result ≡ name_among (filter (λ entry. has_rare_length (length entry.0)) names) word.now }
    {
        if word.is(b"xtrim") {
            Some(Self::Xtrim)
        } else if word.is(b"xrevrange") {
            Some(Self::Xrevrange)
        } else if word.is(b"xpending") {
            Some(Self::Xpending)
        } else if word.is(b"del") {
            Some(Self::Del)
        } else {
            word.is(b"xinfo").then_some(Self::Xinfo)
        }
    }

    /// The number of words of the command, its name included: the least, and the greatest, if there is a limit.
    pub(crate) fn counts(self) -> (usize, Option<usize>)
        ensures { result ≡ word_counts self }
    {
        match self {
            Self::Ping => (1, Some(2)),
            Self::Quit => (1, None),
            Self::Xadd => (5, None),
            Self::Xdel => (3, None),
            Self::Xtrim => (4, None),
            Self::Xlen => (2, Some(2)),
            Self::Xrange => (4, None),
            Self::Xrevrange => (4, None),
            Self::Xgroup => (2, None),
            Self::Xreadgroup => (7, None),
            Self::Xack => (4, None),
            Self::Xpending => (3, None),
            Self::Xclaim => (6, None),
            Self::Xautoclaim => (6, None),
            Self::Del => (2, None),
            Self::Xinfo => (2, None),
            Self::Exists => (2, None),
            Self::KeyType => (2, Some(2)),
            Self::Dbsize => (1, Some(1)),
        }
    }
}

/// Whether a number of words is at least the first of these numbers, and at most the second, if there is one.
pub(crate) fn allows(counts: (usize, Option<usize>), count: usize) -> bool
    ensures { result ≡ is_within_bounds counts count }
{
    match counts.1 {
        Some(most) => counts.0 <= count && count <= most,
        None => counts.0 <= count,
    }
}
