//! What a crash may leave of a log, for each of its bytes.
ghost use Rattle.std.specs.Prelude.{IfOk};
ghost use Rattle.xs_command.specs.WellFormed.{IsWellFormed};

use crate::tests::log_text::{LogText, record_numbered};
use std::alloc::Global;
use std::process::Abort;
use std::test::Fail;
use xs_bytes::Bytes;
use xs_command::{Command, read_command};
use xs_io::FromRead;
use xs_keys::Keyspace;
use xs_log::{Extent, LogFault, Recovered, read_last_log};
use xs_resp::encode;
use xs_stream::Moment;

/// The commands with which keyspaces are compared. The last two change the keyspace, and show its cursor and its top
/// id.
const QUESTIONS: [&str; 6] = [
    "XRANGE s - +",
    "XPENDING s g",
    "XPENDING s g - + 10",
    "XREADGROUP GROUP g a STREAMS s 0",
    "XREADGROUP GROUP g z STREAMS s >",
    "XADD s * f v",
];

pub fn command_of(alloc: Global, line: &str) -> Result<Command, Fail>
    ensures { IfOk result IsWellFormed }
{
    let mut words = Vec::new(alloc);
    for word in line.split(' ') {
        words.push(Bytes::from_slice(alloc, word.as_bytes())?)?;
    }
    if words.is_empty() {
        return Err("no words".into());
    }
    match read_command(alloc, words.as_slice()) {
        Ok(command) => Ok(command),
        Err(_) => Err("no command".into()),
    }
}

/// The replies of a keyspace to the questions.
pub fn answers_of(alloc: Global, keyspace: &mut Keyspace) -> Result<Vec<u8>, Fail> {
    let now = Moment::new(5).ok_or("a moment")?;
    let mut answers = Vec::new(alloc);
    for line in QUESTIONS {
        let command = command_of(alloc, line)?;
        let reply = keyspace.apply(now, &command);
        encode(&reply, &mut answers)?;
    }
    Ok(answers)
}

/// The replies of a keyspace after the first `count` commands.
fn answers_after(alloc: Global, count: usize) -> Result<Vec<u8>, Fail> {
    let mut keyspace = Keyspace::new(alloc);
    for number in 0..count {
        let record = record_numbered(number).ok_or("a record")?;
        let command = command_of(alloc, record.words)?;
        let now = Moment::new(record.moment).ok_or("a moment")?;
        let _ = keyspace.apply(now, &command);
    }
    answers_of(alloc, &mut keyspace)
}

/// The replies after no commands, after the first, after the first two, ..
pub fn all_answers(alloc: Global, log: &LogText) -> Result<Vec<Vec<u8>>, Fail> {
    let mut answers = Vec::new(alloc);
    for count in 0..log.ends.len() {
        answers.push(answers_after(alloc, count)?)?;
    }
    Ok(answers)
}

/// What is recovered of a last log.
pub fn recover(alloc: Global, file: &[u8]) -> Result<(Recovered, Extent), LogFault> {
    let mut recovered = Recovered::new(alloc);
    let extent = read_last_log(alloc, 1, &mut recovered, FromRead::new(file))?;
    Ok((recovered, extent))
}

/// The number of records that end at this byte or before it.
pub fn records_within(log: &LogText, size: usize) -> usize {
    let mut count = 0usize;
    for end in log.ends.as_slice() {
        if *end <= size {
            count = count.saturating_add(1);
        }
    }
    count.saturating_sub(1)
}

/// A file of which this many bytes reached the disk has the records that are complete.
fn has_whole_records<R: Abort>(
    rt: &R,
    alloc: Global,
    log: &LogText,
    answers: &[Vec<u8>],
    file: &[u8],
    size: usize,
) -> Result<(), Fail> {
    let Ok((mut recovered, extent)) = recover(alloc, file) else {
        return Err("a log that a crash left is refused".into());
    };
    let count = records_within(log, size);
    let header = log.ends.first().ok_or("a header")?;
    let whole = if size < *header {
        0
    } else {
        *log.ends.get(count).ok_or("an end")?
    };
    assert_eq!(rt; extent.whole, whole as u64);
    assert_eq!(rt; extent.part, size.saturating_sub(whole) as u64);
    let wanted = answers.get(count).ok_or("answers")?;
    let found = answers_of(alloc, &mut recovered.keyspace)?;
    assert!(rt; found.as_slice() == wanted.as_slice());
    Ok(())
}

/// This many bytes of a log, and after them zeros.
pub fn with_zeros(alloc: Global, bytes: &[u8], size: usize) -> Result<Vec<u8>, Fail> {
    let mut file = Vec::new(alloc);
    for (place, byte) in bytes.iter().enumerate() {
        file.push(if place < size { *byte } else { 0 })?;
    }
    Ok(file)
}

/// A log in which these bits of the byte at this place are inverted.
pub fn with_turned_bits(alloc: Global, bytes: &[u8], at: usize, bits: u8) -> Result<Vec<u8>, Fail> {
    let mut file = Vec::new(alloc);
    for (place, byte) in bytes.iter().enumerate() {
        file.push(if place == at { *byte ^ bits } else { *byte })?;
    }
    Ok(file)
}

#[test]
fn a_log_that_ends_anywhere_has_its_whole_records(rt: HostRuntime) -> Result<(), Fail> {
    let alloc = rt.alloc();
    let log = LogText::new(alloc)?;
    let answers = all_answers(alloc, &log)?;
    for size in 0..log.bytes.len().saturating_add(1) {
        let file = log.bytes.get(..size).ok_or("a beginning")?;
        has_whole_records(&rt, alloc, &log, answers.as_slice(), file, size)?;
    }
    Ok(())
}

#[test]
fn a_log_with_zeros_from_anywhere_has_its_whole_records(rt: HostRuntime) -> Result<(), Fail> {
    let alloc = rt.alloc();
    let log = LogText::new(alloc)?;
    let answers = all_answers(alloc, &log)?;
    for size in 0..log.bytes.len() {
        let file = with_zeros(alloc, log.bytes.as_slice(), size)?;
        has_whole_records(&rt, alloc, &log, answers.as_slice(), file.as_slice(), size)?;
    }
    Ok(())
}

#[test]
fn a_log_that_lost_one_byte_has_the_records_before_it(rt: HostRuntime) -> Result<(), Fail> {
    let alloc = rt.alloc();
    let log = LogText::new(alloc)?;
    let answers = all_answers(alloc, &log)?;
    for (place, byte) in log.bytes.iter().enumerate() {
        let file = with_turned_bits(alloc, log.bytes.as_slice(), place, *byte)?;
        has_whole_records(&rt, alloc, &log, answers.as_slice(), file.as_slice(), place)?;
    }
    Ok(())
}
