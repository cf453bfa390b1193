//! Lanes that have had no call while others had so many that the keeper looks at them only once their clients give
//! notice.
use std::process::Abort;
use std::test::Fail;
use xs_command::Command;
use xs_testing::{Still, Trial};

/// More calls than others make before a lane is at rest.
const MANY: u64 = 200;

/// Whether there was room for a call.
fn asks(trial: &mut Trial, lane: usize) -> bool {
    trial.submit(lane, Command::Ping(None)).is_ok()
}

/// The place of a lane's next answer.
fn takes(trial: &mut Trial, lane: usize) -> Option<u64> {
    Some(trial.take(lane)?.place)
}

/// The place of a call that is served in the next turn.
fn calls(trial: &mut Trial, clock: &mut Still, lane: usize) -> Option<u64> {
    Some(trial.call(lane, clock, Command::Ping(None))?.place)
}

/// The calls of one lane, each in a turn of its own.
fn pass<R: Abort>(rt: &R, trial: &mut Trial, clock: &mut Still, lane: usize, times: u64) {
    for _ in 0..times {
        assert!(rt; calls(trial, clock, lane).is_some());
    }
}

/// A lane comes to rest three times, and calls twice each time.
fn rests<R: Abort>(rt: &R, trial: &mut Trial, clock: &mut Still, lane: usize) {
    for place in [MANY, 2 * MANY + 2, 3 * MANY + 4] {
        pass(rt, trial, clock, 2, MANY);
        assert_eq!(rt; calls(trial, clock, lane), Some(place));
        assert_eq!(rt; calls(trial, clock, lane), Some(place + 1));
    }
}

// A lane at rest is served in the first turn after its call, and in the next ones.
#[test]
fn a_lane_at_rest_is_served_at_once(rt: HostRuntime) -> Result<(), Fail> {
    let mut clock = Still::at(1000).ok_or("a moment")?;
    for lane in [0, 1, 31, 32, 63] {
        let mut trial = Trial::new(rt.alloc(), 64, 1)?;
        rests(&rt, &mut trial, &mut clock, lane);
    }
    Ok(())
}

// A call is served in the next turn, whether the lane is at rest, comes to rest in that turn, or is awake.
#[test]
fn a_call_is_served_however_many_others_came_before(rt: HostRuntime) -> Result<(), Fail> {
    let mut clock = Still::at(1000).ok_or("a moment")?;
    let mut trial = Trial::new(rt.alloc(), 2, 1)?;
    for times in 0..MANY {
        pass(&rt, &mut trial, &mut clock, 0, times);
        pass(&rt, &mut trial, &mut clock, 1, 1);
    }
    Ok(())
}

fn all_ask<R: Abort>(rt: &R, trial: &mut Trial) {
    for lane in (0..64).rev() {
        assert!(rt; asks(trial, lane));
    }
}

// All lanes that call are served in one turn, in their order. All but one were at rest.
#[test]
fn lanes_at_rest_are_served_in_order(rt: HostRuntime) -> Result<(), Fail> {
    let mut clock = Still::at(1000).ok_or("a moment")?;
    let mut trial = Trial::new(rt.alloc(), 64, 1)?;
    pass(&rt, &mut trial, &mut clock, 2, MANY);
    all_ask(&rt, &mut trial);
    assert_eq!(rt; trial.turn(&mut clock), Ok(64));
    for lane in 0..64 {
        assert_eq!(rt; takes(&mut trial, lane), Some(MANY + lane as u64));
    }
    Ok(())
}

// A call that waited at a lane at rest for a place for its answer is served once the place is free.
#[test]
fn a_free_place_ends_the_rest(rt: HostRuntime) -> Result<(), Fail> {
    let mut clock = Still::at(1000).ok_or("a moment")?;
    let mut trial = Trial::new(rt.alloc(), 2, 1)?;
    assert!(rt; asks(&mut trial, 1));
    assert_eq!(rt; trial.turn(&mut clock), Ok(1));
    assert!(rt; asks(&mut trial, 1));
    pass(&rt, &mut trial, &mut clock, 0, MANY);
    assert!(rt; takes(&mut trial, 1).is_some());
    assert_eq!(rt; trial.turn(&mut clock), Ok(1));
    assert!(rt; takes(&mut trial, 1).is_some());
    Ok(())
}

/// Each lane is served in the turn after its call.
fn are_served<R: Abort>(rt: &R, trial: &mut Trial, clock: &mut Still) {
    for lane in [1023, 0, 63, 64, 127, 128, 960, 1023] {
        pass(rt, trial, clock, lane, 1);
    }
}

// On a wide desk, whose lanes have bits in several words, each lane is served in the turn after its call.
#[test]
fn a_lane_of_a_wide_desk_is_served_at_once(rt: HostRuntime) -> Result<(), Fail> {
    let mut clock = Still::at(1000).ok_or("a moment")?;
    let mut trial = Trial::wide(rt.alloc(), 1024, 1)?;
    pass(&rt, &mut trial, &mut clock, 2, MANY);
    are_served(&rt, &mut trial, &mut clock);
    for lane in [64, 1023, 5] {
        assert!(rt; asks(&mut trial, lane));
    }
    assert_eq!(rt; trial.turn(&mut clock), Ok(3));
    Ok(())
}
