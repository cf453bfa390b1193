//! A lane that takes nothing, beside others in threads of their own.
use super::desks::{new_desk, serve};
use super::pinging::ask_beside;
use std::alloc::Global;
use std::sync::Wait;
use std::test::Fail;
use std::thread;
use std::thread::{JoinHandle, Threads};
use xs_command::Command;
use xs_desk::Client;
use xs_testing::MOST_TURNS;

/// How often each of the other lanes submits.
const TIMES: u64 = 1000;

/// Whether there was room for a QUIT.
fn submits(client: &mut Client) -> bool {
    client.submit(Command::Quit).is_ok()
}

/// Submits as many calls as both rings have room for, and takes nothing. Returns whether there is no room for a further
/// one.
fn fill(client: Client, depth: u64) -> bool {
    let mut client = client;
    let wanted = depth.saturating_mul(2);
    let mut submitted = 0u64;
    for _ in 0..MOST_TURNS {
        if submits(&mut client) {
            submitted = submitted.saturating_add(1);
        } else {
            thread::yield_now();
        }
        if submitted >= wanted {
            break;
        }
    }
    submitted == wanted && !submits(&mut client)
}

/// Each of these clients submits this often, in a thread of its own.
fn all_ask<R: Threads + Wait + Copy + Send + Drop + 'static>(
    rt: R,
    alloc: Global,
    clients: Vec<Client>,
) -> Result<Vec<JoinHandle<bool>>, Fail> {
    let mut lanes = Vec::new(alloc);
    for client in clients {
        lanes.push(ask_beside(rt, client, TIMES).ok_or("a thread")?)?;
    }
    Ok(lanes)
}

fn are_answered<R: Threads + Wait>(rt: &R, lanes: Vec<JoinHandle<bool>>) -> bool {
    for lane in lanes {
        if !lane.join(rt) {
            return false;
        }
    }
    true
}

// It fills its rings, and doesn't hold up others.
#[test]
fn a_lane_that_takes_nothing_holds_up_nobody(rt: HostRuntime) -> Result<(), Fail> {
    for depth in [1, 4] {
        let (mut keeper, mut clients) = new_desk(rt.alloc(), 4, depth as usize)?;
        let stuck = clients.pop().ok_or("a client")?;
        let filling = thread::spawn(&rt, move || fill(stuck, depth))?;
        let lanes = all_ask(rt, rt.alloc(), clients)?;
        let wanted = depth.saturating_add(TIMES.saturating_mul(3));
        assert_eq!(rt; serve(&rt, &mut keeper, wanted), wanted);
        assert!(rt; are_answered(&rt, lanes) && filling.join(&rt));
    }
    Ok(())
}
