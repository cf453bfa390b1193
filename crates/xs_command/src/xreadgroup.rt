//! XREADGROUP.
ghost use Rattle.std.specs.Prelude.{◌≡◌, IfOk, length};
ghost use Rattle.xs_command.specs.Words.{Gives};
ghost use Rattle.xs_command.specs.Streams.{is_distinct, from_of, read_from, each_from, streams};
ghost use Rattle.xs_command.specs.Xreadgroup.{limit_of, reader, behind_streams, xreadgroup};

use crate::command::{Command, ReadFrom, ReadGroupCommand, ReadOne};
use crate::integer::Integer;
use crate::operands::Operands;
use crate::options::{Options, read_options};
use crate::refusal::Refusal;
use crate::word::Word;
use crate::words::Words;
use std::alloc::{AllocError, Global};
use std::collections::BTreeSet;
use xs_bytes::{Bytes, List};
use xs_resp::Fault;
use xs_stream::Id;

/// The group and the consumer that read.
#[derive(Debug, Drop)]
pub(crate) struct Reader {
    group: Bytes,
    consumer: Bytes,
}

/// The options of XREADGROUP that were read.
#[derive(Debug, Drop)]
pub(crate) struct ReadOptions {
    reader: Option<Reader>,
    limit: Option<u64>,
    block: Option<u64>,
    noack: bool,
}

impl Options for ReadOptions {
    ghost use Rattle.xs_command.specs.Xreadgroup.{read_option};

    ghost option = { read_option };

    /// `GROUP group consumer`, `COUNT n`, `BLOCK ms` or `NOACK`.
    #[tactic(auto, unfolding(crate::specs::Xreadgroup::read_option))]
    fn option<'a>(
        self,
        alloc: Global,
        name: Word<'a>,
        words: Words<'a>,
    ) -> Result<(Self, Option<Words<'a>>), Refusal> {
        let mut options = self;
        if name.is(b"group") {
            let (reader, words) = read_reader(alloc, &words)?;
            options.reader = Some(reader);
            return Ok((options, Some(words)));
        }
        if name.is(b"count") {
            let (count, words) = words.integer()?;
            options.limit = limit_of(count);
            return Ok((options, Some(words)));
        }
        if name.is(b"block") {
            let (millis, words) = words.natural()?;
            options.block = Some(millis.get());
            return Ok((options, Some(words)));
        }
        if name.is(b"noack") {
            options.noack = true;
            return Ok((options, Some(words)));
        }
        Ok((options, None))
    }
}

/// `group consumer`, after GROUP.
#[tactic(auto, unfolding(crate::specs::Xreadgroup::reader))]
fn read_reader<'a>(alloc: Global, words: &Words<'a>) -> Result<(Reader, Words<'a>), Refusal>
    ensures { Gives result (reader words.now) }
{
    let (group, words) = words.name(alloc)?;
    let (consumer, words) = words.name(alloc)?;
    Ok((Reader { group, consumer }, words))
}

/// 0 or a negative number sets no limit.
fn limit_of(count: Integer) -> Option<u64>
    ensures { result ≡ limit_of count }
{
    match count {
        Integer::Negative => None,
        Integer::Natural(count) => (count.get() != 0).then_some(count.get()),
    }
}

/// `XREADGROUP GROUP group consumer [COUNT n] [BLOCK ms] [NOACK] STREAMS key [key ..] from [from ..]`
#[tactic(auto, unfolding(crate::specs::Xreadgroup::xreadgroup))]
pub(crate) fn read(alloc: Global, words: &Words<'_>) -> Result<Command, Refusal>
    ensures { Gives result (xreadgroup words.now) }
{
    let none = ReadOptions {
        reader: None,
        limit: None,
        block: None,
        noack: false,
    };
    let (options, words) = read_options(alloc, none, words.again())?;
    let (name, words) = words.word()?;
    if !name.is(b"streams") {
        return Err(Refusal::Said(Fault::Syntax));
    }
    read_command(alloc, options, words)
}

/// Reads what follows STREAMS.
fn read_command(alloc: Global, options: ReadOptions, words: Words<'_>) -> Result<Command, Refusal>
    ensures { Gives result (behind_streams options options.reader words.entry) }
{
    let ReadOptions {
        reader,
        limit,
        block,
        noack,
    } = options;
    let Some(Reader { group, consumer }) = reader else {
        return Err(Refusal::Said(Fault::Syntax));
    };
    let reads = read_reads(alloc, &words)?;
    Ok(Command::ReadGroup(ReadGroupCommand {
        group,
        consumer,
        limit,
        block,
        noack,
        reads,
    }))
}

/// As many keys as starts, one or more, and no key twice.
#[tactic(auto, unfolding(crate::specs::Streams::streams))]
fn read_reads(alloc: Global, words: &Words<'_>) -> Result<Operands<ReadOne>, Refusal>
    ensures { Gives result (streams words.now) }
{
    let count = words.len();
    if count == 0 {
        return Err(Refusal::Said(Fault::Syntax));
    }
    if count % 2 != 0 {
        return Err(Refusal::Said(Fault::Syntax));
    }
    if count == 2 {
        return read_single(alloc, words);
    }
    let (keys, starts) = words.names(alloc, count / 2)?;
    if !is_distinct(alloc, keys.as_slice())? {
        return Err(Refusal::Said(Fault::Unsupported));
    }
    each_from(alloc, keys, starts)
}

/// One key and its start. The read takes no memory.
#[tactic(auto, unfolding(crate::specs::Streams::streams, crate::specs::Streams::each_from, crate::specs::Streams::is_distinct, crate::specs::Words::word))]
fn read_single(alloc: Global, words: &Words<'_>) -> Result<Operands<ReadOne>, Refusal>
    requires { length words.now ≡ 2 }
    ensures { Gives result (streams words.now) }
{
    let (key, starts) = words.name(alloc)?;
    let (from, _) = read_from(&starts)?;
    Ok(Operands::one(ReadOne { key, from }))
}

/// Whether no key is repeated. A single key needs no memory.
fn is_distinct(alloc: Global, keys: &[Bytes]) -> Result<bool, AllocError>
    ensures { IfOk result (λ answer. answer ≡ is_distinct keys.now) }
{
    if keys.len() < 2 {
        return Ok(true);
    }
    let mut seen = BTreeSet::new(alloc);
    for key in keys {
        if !seen.insert(key.as_slice())? {
            return Ok(false);
        }
    }
    Ok(true)
}

/// Each of these keys with its start.
fn each_from(
    alloc: Global,
    keys: List<Bytes>,
    starts: Words<'_>,
) -> Result<Operands<ReadOne>, Refusal>
    ensures { Gives result (each_from keys starts.entry) }
{
    let mut reads = Vec::with_capacity(alloc, keys.len())?;
    let mut starts = starts;
    for key in keys.into_vec() {
        let (from, more_starts) = read_from(&starts)?;
        reads.push(ReadOne { key, from })?;
        starts = more_starts;
    }
    Ok(Operands::many(reads))
}

/// The next word, the start of the read of a stream.
#[tactic(auto, unfolding(crate::specs::Streams::read_from))]
fn read_from<'a>(words: &Words<'a>) -> Result<(ReadFrom, Words<'a>), Fault>
    ensures { result ≡ read_from words.now }
{
    let (word, words) = words.word()?;
    let from = parse_from(word.as_slice()).ok_or(Fault::BadId)?;
    Ok((from, words))
}

/// `>`, or an id. A missing sequence is 0.
fn parse_from(text: &[u8]) -> Option<ReadFrom>
    ensures { result ≡ from_of text.now }
{
    if text == b">".as_slice() {
        return Some(ReadFrom::New);
    }
    let id = Id::parse(text, 0)?;
    Some(ReadFrom::After(id))
}
