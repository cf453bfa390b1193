//! XADD.
ghost use Rattle.std.specs.Prelude.{◌≡◌};
ghost use Rattle.xs_command.specs.Words.{Gives};
ghost use Rattle.xs_command.specs.AddId.{add_id_of, add_id};
ghost use Rattle.xs_command.specs.Fields.{field, pairs, fields};
ghost use Rattle.xs_command.specs.Xadd.{xadd};
ghost use Rattle.xs_stream.specs.IdText.{id_number};

use crate::command::{AddCommand, Command};
use crate::options::{Options, read_options};
use crate::refusal::Refusal;
use crate::word::Word;
use crate::words::Words;
use std::alloc::Global;
use xs_bytes::{List, number};
use xs_resp::Fault;
use xs_stream::{AddId, Field, Id, Trim};

/// The options of XADD that were read.
#[derive(Clone, Copy, Debug, PartialEq, Eq)]
pub(crate) struct AddOptions {
    /// Whether a missing key is created.
    make: bool,
    trim: Option<Trim>,
}

impl Options for AddOptions {
    ghost use Rattle.xs_command.specs.Xadd.{add_option};

    ghost option = { add_option };

    /// `NOMKSTREAM`, or a trim.
    #[tactic(auto, unfolding(crate::specs::Xadd::add_option))]
    fn option<'a>(
        self,
        alloc: Global,
        name: Word<'a>,
        words: Words<'a>,
    ) -> Result<(Self, Option<Words<'a>>), Refusal> {
        let Self { make, trim } = self;
        if name.is(b"nomkstream") {
            return Ok((Self { make: false, trim }, Some(words)));
        }
        let (trim, words) = trim.option(alloc, name, words)?;
        Ok((Self { make, trim }, words))
    }
}

/// `XADD key [NOMKSTREAM] [trim] id field value [field value ..]`
#[tactic(auto, unfolding(crate::specs::Xadd::xadd))]
pub(crate) fn read(alloc: Global, words: &Words<'_>) -> Result<Command, Refusal>
    ensures { Gives result (xadd words.now) }
{
    let (key, words) = words.name(alloc)?;
    let none = AddOptions {
        make: true,
        trim: None,
    };
    let (AddOptions { make, trim }, words) = read_options(alloc, none, words)?;
    let (id, words) = read_add_id(&words)?;
    let fields = read_fields(alloc, words)?;
    Ok(Command::Add(AddCommand {
        key,
        make,
        trim,
        id,
        fields,
    }))
}

/// The next word, the id of an addition: `*`, `ms-*`, `ms-seq` or `ms`.
#[tactic(auto, unfolding(crate::specs::AddId::add_id))]
fn read_add_id<'a>(words: &Words<'a>) -> Result<(AddId, Words<'a>), Fault>
    ensures { result ≡ add_id words.now }
{
    let (word, words) = words.word()?;
    let id = parse_add_id(word.as_slice())?;
    Ok((id, words))
}

/// Reads the id of an addition. A missing sequence is 0, and `0-0` is refused.
fn parse_add_id(text: &[u8]) -> Result<AddId, Fault>
    ensures { result ≡ add_id_of text.now }
{
    if text == b"*".as_slice() {
        return Ok(AddId::Auto);
    }
    if let Some(millis) = text.strip_suffix(b"-*") {
        let millis = parse_millis(millis).ok_or(Fault::BadId)?;
        return Ok(AddId::AutoSeq(millis));
    }
    let id = Id::parse(text, 0).ok_or(Fault::BadId)?;
    if id == Id::ZERO {
        return Err(Fault::ZeroId);
    }
    Ok(AddId::Exact(id))
}

/// A number of an id: one to twenty digits, below 2^64.
fn parse_millis(text: &[u8]) -> Option<u64>
    ensures { result ≡ id_number text.now }
{
    if text.len() > 20 {
        return None;
    }
    number(text)
}

/// The next two words, a name and its value.
#[inline(always)]
#[tactic(auto, unfolding(crate::specs::Fields::field))]
fn read_field<'a>(alloc: Global, words: &Words<'a>) -> Result<(Field, Words<'a>), Refusal>
    ensures { Gives result (field words.now) }
{
    let (name, words) = words.name(alloc)?;
    let (value, words) = words.name(alloc)?;
    Ok((Field { name, value }, words))
}

/// The words as names and values, one after the other.
fn read_pairs(alloc: Global, words: Words<'_>) -> Result<List<Field>, Refusal>
    ensures { Gives result (Ok (pairs words.entry)) }
{
    let count = words.len() / 2;
    let mut items = Vec::with_capacity(alloc, count)?;
    let mut left = words;
    for _pair in 0..count {
        let (field, behind) = read_field(alloc, &left)?;
        items.push_reserved(field);
        left = behind;
    }
    Ok(List::new(items))
}

/// All the words, each name before its value, one pair or more.
#[tactic(auto, unfolding(crate::specs::Fields::fields))]
fn read_fields(alloc: Global, words: Words<'_>) -> Result<List<Field>, Refusal>
    ensures { Gives result (fields words.entry) }
{
    let count = words.len();
    if count == 0 {
        return Err(Refusal::Said(Fault::Arity));
    }
    if count % 2 != 0 {
        return Err(Refusal::Said(Fault::Arity));
    }
    read_pairs(alloc, words)
}
