//! Commands of all kinds, made at random, from many lanes at once: in the order of their places they are one run.
use super::one_run::{Seen, ask_at_random};
use std::alloc::Global;
use std::io::Print;
use std::process::Abort;
use std::sync::Wait;
use std::test::Fail;
use std::thread::Threads;
use std::time::{Clock, SystemTime};

/// The number of commands that are made for each number of lanes.
const COMMANDS: u64 = 1_000_000;

/// A number that another run is unlikely to have.
fn seed<R: Clock>(rt: &R) -> Result<u64, Fail> {
    let since = SystemTime::now(rt)?.duration_since(SystemTime::UNIX_EPOCH)?;
    let nanos = since.as_secs().wrapping_mul(1_000_000_000);
    Ok(nanos.wrapping_add(u64::from(since.subsec_nanos())))
}

/// Submits all commands from this number of lanes at once, as many from each.
fn are_one_run<R: Abort + Clock + Print + Threads + Wait + Sync>(
    rt: &R,
    alloc: Global,
    lanes: usize,
    each: u64,
) -> Result<(), Fail> {
    let seed = seed(rt)?;
    println!(rt; "seed {seed}")?;
    let (seen, summary) = ask_at_random(rt, alloc, lanes, each, seed).ok_or("a desk")?;
    let Seen::OneRun { calls, errors } = seen else {
        panic!(rt; "{lanes} lanes: {seen:?}");
    };
    assert_eq!(rt; calls, COMMANDS);
    assert!(rt; errors < COMMANDS / 2);
    for lane in &summary.lanes {
        assert_eq!(rt; (lane.served, lane.left, lane.untaken), (each, 0, 0));
    }
    Ok(())
}

#[test]
fn one_lane_is_one_run(rt: HostRuntime) -> Result<(), Fail> {
    are_one_run(&rt, rt.alloc(), 1, COMMANDS)
}

#[test]
fn two_lanes_are_one_run(rt: HostRuntime) -> Result<(), Fail> {
    are_one_run(&rt, rt.alloc(), 2, COMMANDS / 2)
}

#[test]
fn eight_lanes_are_one_run(rt: HostRuntime) -> Result<(), Fail> {
    are_one_run(&rt, rt.alloc(), 8, COMMANDS / 8)
}

#[test]
fn all_lanes_are_one_run(rt: HostRuntime) -> Result<(), Fail> {
    are_one_run(&rt, rt.alloc(), 64, COMMANDS / 64)
}
