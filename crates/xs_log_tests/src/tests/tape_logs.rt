//! Logs on a tape that fails at a call, and what a crash leaves of them.
ghost use Rattle.std.specs.Prelude.{◌≡◌, false, true, decimal, IfOk};
ghost use Rattle.xs_tape.specs.Records.{CanBeSpelled, record_words};

use crate::tests::crash_points::{all_answers, answers_of, with_zeros};
use crate::tests::log_text::{LogText, record_numbered};
use std::alloc::Global;
use std::process::Abort;
use std::test::Fail;
use xs_bytes::Bytes;
use xs_io::FromRead;
use xs_log::{TapeLog, restart};
use xs_replay::EventLog;
use xs_stream::Moment;
use xs_tape::{MemoryTape, can_be_record};

/// The number of records.
const RECORDS: usize = 14;

/// More calls than are made.
const ALL: u64 = 1_000;

/// Words, separated by spaces.
fn words_of(alloc: Global, line: &str) -> Result<Vec<Bytes>, Fail> {
    let mut words = Vec::new(alloc);
    for word in line.split(' ') {
        words.push(Bytes::from_slice(alloc, word.as_bytes())?)?;
    }
    Ok(words)
}

/// Notes an event and keeps it. Returns whether that worked.
fn note_and_keep(log: &mut TapeLog<MemoryTape>, now: Moment, words: &[Bytes]) -> bool
    requires sound { ⟦<TapeLog<MemoryTape> as EventLog>⟧.broken log.old ≡ false }
    requires short { CanBeSpelled (record_words (decimal now) words.now) }
    ensures { result ≡ true → ⟦<TapeLog<MemoryTape> as EventLog>⟧.broken log.new ≡ false }
{
    match log.note(now, words) {
        Ok(()) => {}
        Err(_) => return false,
    }
    match log.keep() {
        Ok(()) => true,
        Err(_) => false,
    }
}

/// Notes the record with a number and keeps it. Returns whether that worked.
fn keep_numbered(alloc: Global, log: &mut TapeLog<MemoryTape>, number: usize) -> Result<bool, Fail>
    requires sound { ⟦<TapeLog<MemoryTape> as EventLog>⟧.broken log.old ≡ false }
    ensures { IfOk result (λ fine. fine ≡ true → ⟦<TapeLog<MemoryTape> as EventLog>⟧.broken log.new ≡ false) }
{
    let record = record_numbered(number).ok_or("a record")?;
    let now = Moment::new(record.moment).ok_or("a moment")?;
    let owned = words_of(alloc, record.words)?;
    let words = owned.as_slice();
    // A moment has 63 bits, so its record is short.
    let _millis = now.get();
    if !can_be_record(words) {
        return Err("too long".into());
    }
    Ok(note_and_keep(log, now, words))
}

/// Keeps the records, one after the other, until a call fails. Returns how many were kept.
fn keep_records(alloc: Global, log: &mut TapeLog<MemoryTape>) -> Result<usize, Fail>
    requires { ⟦<TapeLog<MemoryTape> as EventLog>⟧.broken log.old ≡ false }
{
    for number in 0..RECORDS {
        let fine = keep_numbered(alloc, log, number)?;
        if !fine {
            return Ok(number);
        }
    }
    Ok(RECORDS)
}

/// These files have at least this many records, and no others than those that were noted.
fn has_kept_records<R: Abort>(
    rt: &R,
    alloc: Global,
    answers: &[Vec<u8>],
    closed: &[Vec<u8>],
    last: &[u8],
    kept: usize,
) -> Result<(), Fail> {
    let mut readers = Vec::new(alloc);
    for bytes in closed {
        readers.push(FromRead::new(bytes.as_slice()))?;
    }
    let Ok((mut recovered, _)) = restart(alloc, readers, FromRead::new(last)) else {
        return Err("logs that a crash left are refused".into());
    };
    assert!(rt; kept as u64 <= recovered.records);
    let count = usize::try_from(recovered.records).or(Err("a count"))?;
    let wanted = answers.get(count).ok_or("answers")?;
    let found = answers_of(alloc, &mut recovered.keyspace)?;
    assert!(rt; found.as_slice() == wanted.as_slice());
    Ok(())
}

/// Whether a file that ends at this byte is tried: not all are, since each takes its time.
fn is_tried(size: usize, first: usize, end: usize) -> bool {
    size == end || size.saturating_sub(first) % 9 == 0
}

/// Whatever a crash leaves of these logs has the kept records: the last file may end after what is kept, and be zero
/// from anywhere there.
fn survives<R: Abort>(
    rt: &R,
    alloc: Global,
    answers: &[Vec<u8>],
    log: &TapeLog<MemoryTape>,
    kept: usize,
) -> Result<(), Fail> {
    let tape = log.tape();
    let end = tape.bytes().len();
    for size in tape.kept()..end.saturating_add(1) {
        if !is_tried(size, tape.kept(), end) {
            continue;
        }
        let file = tape.bytes().get(..size).ok_or("a beginning")?;
        has_kept_records(rt, alloc, answers, tape.closed(), file, kept)?;
        let faded = with_zeros(alloc, tape.bytes(), size)?;
        has_kept_records(rt, alloc, answers, tape.closed(), faded.as_slice(), kept)?;
    }
    Ok(())
}

/// Over a tape that fails at each of its calls, what was kept survives, in logs of `full` bytes.
fn survives_each_failure<R: Abort>(rt: &R, alloc: Global, full: u64) -> Result<(), Fail> {
    let answers = all_answers(alloc, &LogText::new(alloc)?)?;
    for calls in 2..50 {
        if let Ok(mut log) = TapeLog::new(alloc, MemoryTape::new(alloc, calls), 1, full) {
            let kept = keep_records(alloc, &mut log)?;
            survives(rt, alloc, answers.as_slice(), &log, kept)?;
        }
    }
    Ok(())
}

#[test]
fn a_log_is_written_as_another_program_wrote_it(rt: HostRuntime) -> Result<(), Fail> {
    let alloc = rt.alloc();
    let wanted = LogText::new(alloc)?;
    let tape = MemoryTape::new(alloc, ALL);
    let mut log = TapeLog::new(alloc, tape, 1, u64::MAX).or(Err("a log"))?;
    assert_eq!(rt; keep_records(alloc, &mut log)?, RECORDS);
    assert!(rt; log.tape().bytes() == wanted.bytes.as_slice());
    assert_eq!(rt; log.tape().kept(), wanted.bytes.len());
    Ok(())
}

#[test]
fn what_was_kept_in_one_log_survives(rt: HostRuntime) -> Result<(), Fail> {
    survives_each_failure(&rt, rt.alloc(), u64::MAX)
}

#[test]
fn what_was_kept_in_many_logs_survives(rt: HostRuntime) -> Result<(), Fail> {
    survives_each_failure(&rt, rt.alloc(), 300)
}
