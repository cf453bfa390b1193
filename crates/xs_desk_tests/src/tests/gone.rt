//! A keeper that is dropped while its lanes wait.
use super::desks::{new_desk, serve};
use super::pinging::is_told_gone;
use std::alloc::Global;
use std::sync::Wait;
use std::test::Fail;
use std::thread;
use std::thread::{JoinHandle, Threads};
use std::time::Duration;
use xs_command::Command;
use xs_desk::{Client, Lane, Port, PortFault};
use xs_resp::{Reply, Simple};
use xs_testing::MOST_TURNS;

/// Asks until the keeper is reported as gone, and once more. Returns the number of calls that were answered before.
fn ask_until_gone<R: Wait>(rt: &R, client: Client) -> Option<u64> {
    let mut lane = Lane::new(client);
    for answered in 0..MOST_TURNS {
        match lane.ask(rt, Command::Ping(None)) {
            Ok(Reply::Simple(Simple::Pong)) => {}
            Ok(_) => return None,
            Err(PortFault::Gone) => return is_told_gone(rt, &mut lane).then_some(answered),
        }
    }
    None
}

/// The same in a thread for each client.
fn ask_beside<R: Threads + Wait + Copy + Send + Drop + 'static>(
    rt: R,
    alloc: Global,
    clients: Vec<Client>,
) -> Result<Vec<JoinHandle<Option<u64>>>, Fail> {
    let mut lanes = Vec::new(alloc);
    for client in clients {
        lanes.push(thread::spawn(&rt, move || ask_until_gone(&rt, client))?)?;
    }
    Ok(lanes)
}

/// The number of calls that were answered over all lanes, if the keeper was reported as gone to each.
fn answered<R: Threads + Wait>(rt: &R, lanes: Vec<JoinHandle<Option<u64>>>) -> Option<u64> {
    let mut all = 0u64;
    for lane in lanes {
        all = all.checked_add(lane.join(rt)?)?;
    }
    Some(all)
}

// Each lane has the answers to its calls that were served, and then the keeper is reported as gone: if all of them wait
// when it is dropped, and if it is dropped as soon as it has served.
#[test]
fn lanes_that_wait_are_told(rt: HostRuntime) -> Result<(), Fail> {
    for (depth, late) in [(1, true), (4, true), (1, false), (4, false)] {
        let (mut keeper, clients) = new_desk(rt.alloc(), 8, depth)?;
        let lanes = ask_beside(rt, rt.alloc(), clients)?;
        let served = serve(&rt, &mut keeper, 1000);
        if late {
            thread::sleep(&rt, Duration::from_millis(100));
        }
        drop(keeper);
        assert_eq!(rt; answered(&rt, lanes), Some(served));
    }
    Ok(())
}

// The same in one thread: the keeper is gone before the lane asks.
#[test]
fn a_lane_of_a_dropped_keeper_is_told(rt: HostRuntime) -> Result<(), Fail> {
    let (keeper, mut clients) = new_desk(rt.alloc(), 1, 1)?;
    drop(keeper);
    let mut lane = Lane::new(clients.pop().ok_or("a client")?);
    for _ in 0..3 {
        assert!(rt; is_told_gone(&rt, &mut lane));
    }
    Ok(())
}
