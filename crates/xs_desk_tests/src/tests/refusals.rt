//! Desks for which memory is refused.
use super::desks::{new_desk, serve, turn};
use super::pinging::{ask_beside, is_told_gone};
use std::alloc::Global;
use std::sync::Wait;
use std::test::Fail;
use xs_command::Command;
use xs_desk::{Client, DeskError, Full, Keeper, Lane, LaneSummary, Waker};
use xs_resp::{Reply, Simple};
use xs_testing::{Still, Trial};

/// More turns that find nothing than a keeper makes before it parks.
const LOOKS: u32 = 1000;

/// A desk, made a second time if memory was refused.
fn new_trial(alloc: Global, lanes: usize, depth: usize) -> Result<Trial, DeskError> {
    match Trial::new(alloc, lanes, depth) {
        Err(DeskError::Memory) => Trial::new(alloc, lanes, depth),
        made => made,
    }
}

/// Whether a lane has its first answer, at this place.
fn is_first_answer(trial: &mut Trial, clock: &mut Still, lane: usize, place: u64) -> bool {
    match trial.call(lane, clock, Command::Ping(None)) {
        Some(answer) => {
            (answer.ticket, answer.place) == (0, place)
                && matches!(answer.reply, Reply::Simple(Simple::Pong))
        }
        None => false,
    }
}

// With any one allocation refused, a desk that was refused can be made, and one that wasn't closed can be closed.
#[test]
fn a_refused_desk_is_made_and_closed_again(rt: HostRuntime) -> Result<(), Fail> {
    let mut clock = Still::at(1000).ok_or("a moment")?;
    let mut trial = new_trial(rt.alloc(), 2, 1)?;
    assert!(rt; is_first_answer(&mut trial, &mut clock, 0, 0));
    assert!(rt; is_first_answer(&mut trial, &mut clock, 1, 1));
    assert!(rt; trial.waker().is_ok() || trial.waker().is_ok());
    let summary = trial.close(rt.alloc()).ok_or("a summary")?;
    let wanted = LaneSummary {
        served: 1,
        left: 0,
        untaken: 0,
    };
    assert_eq!(rt; summary.lanes.as_slice(), [wanted, wanted].as_slice());
    Ok(())
}

/// Whether there is room for one call, and none for a second.
fn has_one_place(client: &mut Client) -> bool {
    matches!(client.submit(Command::Ping(None)), Ok(0))
        && matches!(client.submit(Command::Quit), Err(Full(Command::Quit)))
}

fn takes_pong(client: &mut Client) -> bool {
    match client.take() {
        Some(answer) => matches!(answer.reply, Reply::Simple(Simple::Pong)),
        None => false,
    }
}

/// Whether a number of turns find nothing, with a waker that wakes the keeper each time.
fn find_nothing<R: Wait>(rt: &R, keeper: &mut Keeper, waker: &Waker) -> bool {
    for _ in 0..LOOKS {
        if turn(keeper) != Some(0) {
            return false;
        }
        waker.wake();
        keeper.idle(rt);
    }
    true
}

// With all allocations refused from any one on, a desk that was made makes those calls that take no memory.
#[test]
fn calls_of_a_desk_take_no_memory(rt: HostRuntime) -> Result<(), Fail> {
    let Ok((mut keeper, mut clients)) = new_desk(rt.alloc(), 1, 1) else {
        return Ok(());
    };
    let Ok(waker) = keeper.waker() else {
        return Ok(());
    };
    let mut client = clients.pop().ok_or("a client")?;
    assert!(rt; has_one_place(&mut client));
    assert_eq!(rt; turn(&mut keeper), Some(1));
    assert!(rt; takes_pong(&mut client));
    assert!(rt; find_nothing(&rt, &mut keeper, &waker));
    drop(keeper);
    let mut lane = Lane::new(client);
    assert!(rt; is_told_gone(&rt, &mut lane));
    let _ended = lane.end().finish();
    Ok(())
}

// The same for a lane that is answered.
#[test]
fn asking_takes_no_memory(rt: HostRuntime) -> Result<(), Fail> {
    let Ok((mut keeper, mut clients)) = new_desk(rt.alloc(), 1, 1) else {
        return Ok(());
    };
    let client = clients.pop().ok_or("a client")?;
    let Some(lane) = ask_beside(rt, client, 10) else {
        return Ok(());
    };
    assert_eq!(rt; serve(&rt, &mut keeper, 10), 10);
    assert!(rt; lane.join(&rt));
    Ok(())
}
