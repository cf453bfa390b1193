//! A closed log and the last one.
use crate::tests::crash_points::{all_answers, answers_of, records_within};
use crate::tests::log_text::LogText;
use std::alloc::Global;
use std::test::Fail;
use xs_io::FromRead;
use xs_log::{Extent, LogFault, LogsFault, Recovered, recover};

/// The number of records of the closed log.
const CLOSED: usize = 6;

/// What is recovered of these logs, the last of which is open.
fn recovered_from(
    alloc: Global,
    logs: &[&[u8]],
    last: &[u8],
) -> Result<Result<(Recovered, Extent), LogsFault>, Fail> {
    let mut closed = Vec::new(alloc);
    for bytes in logs {
        closed.push(FromRead::new(*bytes))?;
    }
    Ok(recover(alloc, 1, Recovered::new(alloc), closed, FromRead::new(last)))
}

#[test]
fn a_closed_log_stands_before_the_last_one(rt: HostRuntime) -> Result<(), Fail> {
    let alloc = rt.alloc();
    let answers = all_answers(alloc, &LogText::new(alloc)?)?;
    let closed = LogText::first(alloc, CLOSED)?;
    let last = LogText::second(alloc, CLOSED)?;
    for size in 0..last.bytes.len().saturating_add(1) {
        let file = last.bytes.get(..size).ok_or("a beginning")?;
        let Ok((mut recovered, _)) = recovered_from(alloc, &[closed.bytes.as_slice()], file)? else {
            return Err("logs that a crash left are refused".into());
        };
        let count = CLOSED.saturating_add(records_within(&last, size));
        let wanted = answers.get(count).ok_or("answers")?;
        let found = answers_of(alloc, &mut recovered.keyspace)?;
        assert!(rt; found.as_slice() == wanted.as_slice());
    }
    Ok(())
}

#[test]
fn a_closed_log_with_a_torn_end_is_refused(rt: HostRuntime) -> Result<(), Fail> {
    let alloc = rt.alloc();
    let closed = LogText::first(alloc, CLOSED)?;
    let last = LogText::second(alloc, CLOSED)?;
    for size in 0..closed.bytes.len() {
        let file = closed.bytes.get(..size).ok_or("a beginning")?;
        let whole_records = closed.ends.iter().any(|end| *end == size);
        let told = recovered_from(alloc, &[file], last.bytes.as_slice())?.err();
        let is_refused = matches!(
            told,
            Some(LogsFault {
                number: 1,
                fault: LogFault::Damaged(_)
            })
        );
        assert_eq!(rt; is_refused, !whole_records);
    }
    Ok(())
}

#[test]
fn a_gap_in_the_numbers_is_refused(rt: HostRuntime) -> Result<(), Fail> {
    let alloc = rt.alloc();
    let first = LogText::first(alloc, CLOSED)?;
    let second = LogText::second(alloc, CLOSED)?;
    let gap = recovered_from(alloc, &[], second.bytes.as_slice())?.err();
    assert!(rt;
        matches!(
            gap,
            Some(LogsFault {
                number: 1,
                fault: LogFault::OtherNumber
            })
        )
    );
    let twice = recovered_from(alloc, &[first.bytes.as_slice()], first.bytes.as_slice())?.err();
    assert!(rt;
        matches!(
            twice,
            Some(LogsFault {
                number: 2,
                fault: LogFault::OtherNumber
            })
        )
    );
    Ok(())
}
