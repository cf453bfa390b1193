//! The words of a request, read one after the other.
ghost use Rattle.std.specs.Prelude.{◌≡◌, ◌∷◌, [], ◌<◌, ◌≤◌, ◌^◌, IfOk, MatchOption, length, take, drop};
ghost use Rattle.xs_command.specs.Words.{Gives, word, behind_sign, integer, natural, id_of_word, low, high};
ghost use Rattle.xs_command.specs.Syntax.{only, leading_ids, ids};

use crate::command::Command;
use crate::integer::Integer;
use crate::operands::Operands;
use crate::refusal::Refusal;
use crate::word::Word;
use std::alloc::{AllocError, Global};
use std::marker::Model;
use xs_bytes::{Bytes, List, U63};
use xs_resp::{Fault, Request};
use xs_stream::Id;
use xs_stream::range::{parse_high, parse_low};

/// The words that are still to be read: those of a list, and then those of a request. One of the two is empty. A
/// contract sees the list of all of them.
#[derive(Drop)]
pub struct Words<'a> {
    listed: &'a [Bytes],
    sent: Request<'a>,
}

impl<'a> Model for Words<'a> {
    ghost use Rattle.std.specs.Prelude.{List, ℕ, ◌++◌};

    ghost Value = { List (List ℕ) };

    ghost view = { λ w. w.listed.now ++ w.sent };
}

impl<'a> Words<'a> {
    /// The words of a list.
    pub fn of_list(listed: &'a [Bytes]) -> Self
        ensures { result ≡ listed.now }
    {
        Self {
            listed,
            sent: Request::none(),
        }
    }

    /// The words of a request.
    pub fn of_request(sent: Request<'a>) -> Self
        ensures { result ≡ sent.entry }
    {
        Self { listed: &[], sent }
    }

    /// The number of words left.
    #[inline(always)]
    pub fn len(&self) -> usize
        ensures count { result ≡ length self.now }
        ensures small { result < 2 ^ 63 }
    {
        self.listed.len() + self.sent.len()
    }

    /// The first word, and those after it.
    #[inline(always)]
    fn split_first(&self) -> Option<(&'a [u8], Words<'a>)>
        ensures { MatchOption result (self.now ≡ []) (λ first. self.now ≡ first.0.now ∷ first.1) }
    {
        if let Some((first, listed)) = self.listed.split_first() {
            let sent = self.sent.again();
            return Some((first.as_slice(), Words { listed, sent }));
        }
        let (first, sent) = self.sent.split_first()?;
        let listed = self.listed;
        Some((first, Words { listed, sent }))
    }

    /// The next word, and those after it.
    #[inline(always)]
    #[tactic(auto, unfolding(crate::specs::Words::word))]
    pub fn word(&self) -> Result<(Word<'a>, Words<'a>), Fault>
        ensures { result ≡ word self.now }
    {
        match self.split_first() {
            Some((first, rest)) => Ok((Word::new(first), rest)),
            None => Err(Fault::Syntax),
        }
    }

    /// The words after `=` or `~`, if they begin with one.
    #[tactic(auto, unfolding(crate::specs::Words::behind_sign))]
    pub(crate) fn behind_sign(self) -> Words<'a>
        ensures { result ≡ behind_sign self.entry }
    {
        let Some((first, rest)) = self.split_first() else {
            return self;
        };
        let word = Word::new(first);
        if word.is(b"=") || word.is(b"~") {
            return rest;
        }
        self
    }

    /// The first `count` words, copied, and those after them.
    pub(crate) fn names(
        &self,
        alloc: Global,
        count: usize,
    ) -> Result<(List<Bytes>, Words<'a>), AllocError>
        requires { count ≤ length self.now }
        ensures { IfOk result (λ read. (read.0 ≡ take count self.now) × (read.1 ≡ drop count self.now)) }
    {
        let mut names = Vec::with_capacity(alloc, count)?;
        let mut left = self.again();
        for _name in 0..count {
            let (word, behind) = left.split_first().unwrap();
            names.push_reserved(Bytes::from_slice(alloc, word)?);
            left = behind;
        }
        Ok((List::new(names), left))
    }

    /// A second view of these words.
    #[inline(always)]
    pub fn again(&self) -> Words<'a>
        ensures { result ≡ self.now }
    {
        Words {
            listed: self.listed,
            sent: self.sent.again(),
        }
    }

    /// The next word as a name, copied.
    #[inline(always)]
    pub fn name(&self, alloc: Global) -> Result<(Bytes, Words<'a>), Refusal>
        ensures { Gives result (word self.now) }
    {
        let (word, words) = self.word()?;
        let name = word.copy(alloc)?;
        Ok((name, words))
    }

    /// The next word, an integer.
    #[tactic(auto, unfolding(crate::specs::Words::integer))]
    pub fn integer(&self) -> Result<(Integer, Words<'a>), Fault>
        ensures { result ≡ integer self.now }
    {
        let (word, words) = self.word()?;
        let integer = Integer::parse(word.as_slice()).ok_or(Fault::NotInteger)?;
        Ok((integer, words))
    }

    /// The next word, an integer of at least 0.
    #[tactic(auto, unfolding(crate::specs::Words::natural))]
    pub(crate) fn natural(&self) -> Result<(U63, Words<'a>), Fault>
        ensures { result ≡ natural self.now }
    {
        let (integer, words) = self.integer()?;
        match integer {
            Integer::Natural(value) => Ok((value, words)),
            Integer::Negative => Err(Fault::NotInteger),
        }
    }

    /// The next word, an id. A missing sequence is 0.
    #[tactic(auto, unfolding(crate::specs::Words::id_of_word))]
    pub(crate) fn id(&self) -> Result<(Id, Words<'a>), Fault>
        ensures { result ≡ id_of_word self.now }
    {
        let (word, words) = self.word()?;
        let id = Id::parse(word.as_slice(), 0).ok_or(Fault::BadId)?;
        Ok((id, words))
    }

    /// The next word, the low end of a range.
    #[tactic(auto, unfolding(crate::specs::Words::low))]
    pub(crate) fn low(&self) -> Result<(Id, Words<'a>), Fault>
        ensures { result ≡ low self.now }
    {
        let (word, words) = self.word()?;
        let low = parse_low(word.as_slice()).ok_or(Fault::BadId)?;
        Ok((low, words))
    }

    /// The next word, the high end of a range.
    #[tactic(auto, unfolding(crate::specs::Words::high))]
    pub(crate) fn high(&self) -> Result<(Id, Words<'a>), Fault>
        ensures { result ≡ high self.now }
    {
        let (word, words) = self.word()?;
        let high = parse_high(word.as_slice()).ok_or(Fault::BadId)?;
        Ok((high, words))
    }

    /// The command if no word is left, and else the fault.
    #[tactic(auto, unfolding(crate::specs::Syntax::only, crate::specs::Words::word))]
    pub(crate) fn only(&self, command: Command, fault: Fault) -> Result<Command, Refusal>
        ensures { Gives result (only command fault self.now) }
    {
        match self.word() {
            Ok(_) => Err(Refusal::Said(fault)),
            Err(_) => Ok(command),
        }
    }

    /// This id, and the ids that the words begin with. Room for words that aren't ids is given back.
    fn ids_behind(self, alloc: Global, first: Id) -> Result<(Operands<Id>, Words<'a>), AllocError>
        ensures { IfOk result (λ found. found ≡ (first ∷ (leading_ids self.entry).0, (leading_ids self.entry).1)) }
    {
        let mut items = Vec::with_capacity(alloc, self.len() + 1)?;
        items.push(first)?;
        let mut left = self;
        for _id in 0..left.len() {
            let Ok((id, behind)) = left.id() else {
                items.shrink_to_fit();
                return Ok((Operands::many(items), left));
            };
            items.push(id)?;
            left = behind;
        }
        Ok((Operands::many(items), left))
    }

    /// One id or more, while words are ids. A single one takes no memory.
    #[tactic(auto, unfolding(crate::specs::Syntax::ids), using(crate::proofs::IdSteps::single))]
    pub(crate) fn ids(&self, alloc: Global) -> Result<(Operands<Id>, Words<'a>), Refusal>
        ensures { Gives result (ids self.now) }
    {
        let (first, words) = self.id()?;
        match words.id() {
            Ok(_) => Ok(words.ids_behind(alloc, first)?),
            Err(_) => Ok((Operands::one(first), words)),
        }
    }
}
