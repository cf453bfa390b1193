//! Consumers of one group in threads of their own: each entry is delivered to one of them.
use super::asking::{Asking, Told, by_place, is_in_order};
use super::desks::reply_of;
use super::lines::Line;
use std::alloc::{AllocError, Global};
use std::process::Abort;
use std::sync::Wait;
use std::test::Fail;
use std::thread::Threads;
use xs_command::Refusal;
use xs_keys::Keyspace;
use xs_testing::{Still, Trial, read};

/// The read of each lane.
const READS: [&str; 8] = [
    "XREADGROUP GROUP g a COUNT 1 STREAMS s >",
    "XREADGROUP GROUP g b COUNT 1 STREAMS s >",
    "XREADGROUP GROUP g c COUNT 1 STREAMS s >",
    "XREADGROUP GROUP g d COUNT 1 STREAMS s >",
    "XREADGROUP GROUP g e COUNT 1 STREAMS s >",
    "XREADGROUP GROUP g f COUNT 1 STREAMS s >",
    "XREADGROUP GROUP g g COUNT 1 STREAMS s >",
    "XREADGROUP GROUP g h COUNT 1 STREAMS s >",
];

/// The number of entries, and the number of reads.
const ENTRIES: u64 = 150;

const ALL_READS: u64 = 200;

/// Whether a line has its answer on lane 0, in one turn.
fn is_answered(
    alloc: Global,
    trial: &mut Trial,
    clock: &mut Still,
    line: &str,
) -> Result<bool, Refusal> {
    let command = read(alloc, line)?;
    Ok(trial.call(0, clock, command).is_some())
}

/// A desk with a stream of all entries, from 1-0 on, and a group that has read none.
fn with_entries<R: Abort>(
    rt: &R,
    alloc: Global,
    lanes: usize,
    depth: usize,
    clock: &mut Still,
) -> Result<Trial, Fail> {
    let mut trial = Trial::new(alloc, lanes, depth)?;
    for millis in 1..ENTRIES + 1 {
        let line = format!(in alloc; "XADD s {millis}-0 f v")?;
        assert!(rt; is_answered(alloc, &mut trial, clock, line.as_str())?);
    }
    assert!(rt; is_answered(alloc, &mut trial, clock, "XGROUP CREATE s g 0")?);
    Ok(trial)
}

/// The reply that delivers the entry.
fn delivery(alloc: Global, millis: u64) -> Result<String, AllocError> {
    let id = format!(in alloc; "{millis}-0")?;
    format!(in alloc;
        "*1\r\n*2\r\n$1\r\ns\r\n*1\r\n*2\r\n${}\r\n{}\r\n*2\r\n$1\r\nf\r\n$1\r\nv\r\n",
        id.len(),
        id
    )
}

/// The reads in the order of their places deliver the entries in the order of their ids, and then nothing.
fn reads_all<R: Abort>(rt: &R, alloc: Global, told: &Vec<Told>) -> Result<(), Fail> {
    let mut millis = 0u64;
    for one in told {
        millis = millis.saturating_add(1);
        assert_eq!(rt; one.place, ENTRIES.saturating_add(millis));
        if millis <= ENTRIES {
            assert_eq!(rt; one.text.as_slice(), delivery(alloc, millis)?.as_bytes());
        } else {
            assert_eq!(rt; one.text.as_slice(), b"*-1\r\n".as_slice());
        }
    }
    assert_eq!(rt; millis, ALL_READS);
    Ok(())
}

/// Closes the desk. Each lane has read `each` times, and lane 0 has also added the entries before.
fn closes<R: Abort>(rt: &R, alloc: Global, trial: Trial, each: u64) -> Result<Keyspace, Fail> {
    let summary = trial.close(alloc).ok_or("a summary")?;
    let mut served = each.saturating_add(ENTRIES + 1);
    for lane in &summary.lanes {
        assert_eq!(rt; (lane.served, lane.left, lane.untaken), (served, 0, 0));
        served = each;
    }
    Ok(summary.keyspace)
}

/// The jobs of this number of lanes.
fn readers(alloc: Global, lanes: usize, each: u64) -> Result<Vec<Asking>, AllocError> {
    let mut jobs = Vec::new(alloc);
    for line in READS.iter().take(lanes) {
        jobs.push(Asking::new(alloc, Line::Given(line), each))?;
    }
    Ok(jobs)
}

/// Whether each reader has had its calls in order. Lane 0 has added the entries before.
fn are_in_order(jobs: &Vec<Asking>) -> bool {
    let mut before = ENTRIES + 1;
    for job in jobs {
        if !is_in_order(job, before) {
            return false;
        }
        before = 0;
    }
    true
}

fn read_by_turns<R: Abort + Threads + Wait + Sync>(
    rt: &R,
    alloc: Global,
    lanes: usize,
    depth: usize,
    each: u64,
) -> Result<(), Fail> {
    let mut clock = Still::at(1000).ok_or("a moment")?;
    let trial = with_entries(rt, alloc, lanes, depth, &mut clock)?;
    let jobs = readers(alloc, lanes, each)?;
    let (trial, jobs) = trial.together(rt, alloc, clock, jobs)?;
    assert!(rt; are_in_order(&jobs));
    reads_all(rt, alloc, &by_place(alloc, jobs)?)?;
    let keyspace = closes(rt, alloc, trial, each)?;
    let pending = reply_of(alloc, keyspace, clock.moment, "XPENDING s g")?;
    assert!(rt; pending.starts_with(b"*4\r\n:150\r\n"));
    Ok(())
}

#[test]
fn each_entry_is_delivered_once(rt: HostRuntime) -> Result<(), Fail> {
    let alloc = rt.alloc();
    for (lanes, depth, each) in [(2, 4, 100), (2, 1, 100), (8, 4, 25), (8, 1, 25)] {
        read_by_turns(&rt, alloc, lanes, depth, each)?;
    }
    Ok(())
}
