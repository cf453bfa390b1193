//! A lane that finds older answers before its own.
use super::desks::{new_desk, serve, turn};
use super::pinging::are_answered;
use std::alloc::Global;
use std::sync::Wait;
use std::test::Fail;
use std::thread;
use std::thread::{JoinHandle, Threads};
use std::time::{Clock, Duration};
use xs_command::Command;
use xs_desk::{Client, Keeper, Lane, Port};
use xs_resp::{Reply, Simple};
use xs_testing::read;

/// Whether a QUIT and a PING are answered as such a while later, when the keeper is idle.
fn are_answered_late<R: Wait + Clock>(rt: &R, client: Client) -> bool {
    thread::sleep(rt, Duration::from_millis(10));
    let mut lane = Lane::new(client);
    matches!(lane.ask(rt, Command::Quit), Ok(Reply::Simple(Simple::Okay)))
        && are_answered(rt, lane.end(), 1)
}

/// The same in a thread of its own.
fn ask_late<R: Threads + Wait + Clock + Copy + Send + Drop + 'static>(
    rt: R,
    client: Client,
) -> Option<JoinHandle<bool>> {
    thread::spawn(&rt, move || are_answered_late(&rt, client)).ok()
}

/// Submits a PING, and returns its ticket.
fn submit(alloc: Global, client: &mut Client) -> Result<Option<u64>, Fail> {
    let command = read(alloc, "PING older")?;
    Ok(client.submit(command).ok())
}

/// Submits a number of calls, with a turn after each. Returns how many were served.
fn submit_older(
    alloc: Global,
    keeper: &mut Keeper,
    client: &mut Client,
    older: u64,
) -> Result<u64, Fail> {
    let mut served = 0u64;
    for number in 0..older {
        if submit(alloc, client)? != Some(number) {
            return Err(Fail::from("a ticket"));
        }
        served = served.saturating_add(turn(keeper).unwrap_or(0));
    }
    Ok(served)
}

// Calls were submitted before: as many as there are places were answered, and the others wait in the lane. The lane
// takes these answers before its own ones. Until it does no call is served, and the keeper has to be notified when it
// does.
#[test]
fn a_lane_takes_older_answers_first(rt: HostRuntime) -> Result<(), Fail> {
    let alloc = rt.alloc();
    for (depth, older) in [(1, 1u64), (1, 2), (2, 2), (2, 4), (16, 3)] {
        let (mut keeper, mut clients) = new_desk(alloc, 1, depth)?;
        let mut client = clients.pop().ok_or("a client")?;
        let served = submit_older(alloc, &mut keeper, &mut client, older)?;
        let left = older.saturating_add(2).saturating_sub(served);
        let lane = ask_late(rt, client).ok_or("a thread")?;
        assert_eq!(rt; serve(&rt, &mut keeper, left), left);
        assert!(rt; lane.join(&rt), "{older} older ones, {depth} places");
    }
    Ok(())
}
