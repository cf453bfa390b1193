//! Inverted bits, in closed logs and in the last one: each is noticed, unless it makes a zero in the last one. There a
//! crash may leave a zero.
use crate::tests::crash_points::{recover, with_turned_bits};
use crate::tests::log_text::LogText;
use std::alloc::Global;
use std::process::Abort;
use std::test::Fail;
use xs_io::FromRead;
use xs_log::{Extent, LogFault, Recovered};

/// The bits of a byte.
const BITS: [u8; 8] = [1, 2, 4, 8, 16, 32, 64, 128];

/// The first byte of the header or the record that has this byte.
fn begin_of(log: &LogText, place: usize) -> usize {
    let mut begin = 0;
    for end in log.ends.as_slice() {
        if *end <= place {
            begin = *end;
        }
    }
    begin
}

/// Whether a fault reports an inverted bit in the part that begins at this byte: for a header it may be more specific.
fn tells_of(fault: LogFault, begin: usize) -> bool {
    match fault {
        LogFault::Damaged(at) => at == begin as u64,
        LogFault::Foreign
        | LogFault::OtherFormat
        | LogFault::OtherNumber
        | LogFault::OtherModel(_) => begin == 0,
        LogFault::Memory | LogFault::Device | LogFault::TooLong => false,
    }
}

/// The fault of a closed log.
fn fault_of_closed(alloc: Global, file: &[u8]) -> Result<Option<LogFault>, Fail> {
    let mut closed = Vec::new(alloc);
    closed.push(FromRead::new(file))?;
    let told = xs_log::recover(
        alloc,
        1,
        Recovered::new(alloc),
        closed,
        FromRead::new(b"" as &[u8]),
    )
    .err();
    Ok(told.map(|refusal| refusal.fault))
}

/// Whether an inverted bit of the last log at this place was noticed. If it made a zero, the log ends there, as after a
/// crash.
fn is_noticed(file: &[u8], read: Result<Extent, LogFault>, place: usize, begin: usize) -> bool {
    let is_zero = file.get(place) == Some(&0);
    match read {
        Ok(extent) => is_zero && extent.whole == begin as u64,
        Err(fault) => !is_zero && tells_of(fault, begin),
    }
}

/// Each inverted bit of the byte at this place is noticed, in a closed log and in the last one.
fn refuses_each_bit<R: Abort>(
    rt: &R,
    alloc: Global,
    log: &LogText,
    place: usize,
    is_closed: bool,
) -> Result<(), Fail> {
    let begin = begin_of(log, place);
    for bits in BITS {
        let turned = with_turned_bits(alloc, log.bytes.as_slice(), place, bits)?;
        let file = turned.as_slice();
        let noticed = if is_closed {
            fault_of_closed(alloc, file)?.is_some_and(|fault| tells_of(fault, begin))
        } else {
            let last = recover(alloc, file).map(|found| found.1);
            is_noticed(file, last, place, begin)
        };
        assert!(rt; noticed);
    }
    Ok(())
}

/// Each inverted bit of the log with these records is noticed.
fn refuses_turned_bits<R: Abort>(
    rt: &R,
    alloc: Global,
    from: usize,
    end: usize,
    is_closed: bool,
) -> Result<(), Fail> {
    let log = LogText::part(alloc, from, end)?;
    for place in 0..log.bytes.len() {
        refuses_each_bit(rt, alloc, &log, place, is_closed)?;
    }
    Ok(())
}

#[test]
fn each_turned_bit_of_a_header_refuses_a_last_log(rt: HostRuntime) -> Result<(), Fail> {
    refuses_turned_bits(&rt, rt.alloc(), 0, 0, false)
}

#[test]
fn each_turned_bit_of_a_short_record_refuses_a_last_log(rt: HostRuntime) -> Result<(), Fail> {
    refuses_turned_bits(&rt, rt.alloc(), 12, 13, false)
}

#[test]
fn each_turned_bit_of_escaped_words_refuses_a_last_log(rt: HostRuntime) -> Result<(), Fail> {
    refuses_turned_bits(&rt, rt.alloc(), 6, 7, false)
}

#[test]
fn each_turned_bit_of_some_records_refuses_a_last_log(rt: HostRuntime) -> Result<(), Fail> {
    refuses_turned_bits(&rt, rt.alloc(), 12, 14, false)
}

#[test]
fn each_turned_bit_refuses_a_closed_log(rt: HostRuntime) -> Result<(), Fail> {
    refuses_turned_bits(&rt, rt.alloc(), 11, 13, true)
}
