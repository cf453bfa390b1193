//! Clients that submit a PING.
use std::sync::Wait;
use std::thread;
use std::thread::{JoinHandle, Threads};
use xs_command::Command;
use xs_desk::{Client, Lane, Port, PortFault};
use xs_resp::{Reply, Simple};

/// Whether a PING without a message is answered as such.
pub fn is_answered<R: Wait>(rt: &R, lane: &mut Lane) -> bool {
    matches!(
        lane.ask(rt, Command::Ping(None)),
        Ok(Reply::Simple(Simple::Pong))
    )
}

/// Whether a PING fails because the keeper is gone.
pub fn is_told_gone<R: Wait>(rt: &R, lane: &mut Lane) -> bool {
    matches!(lane.ask(rt, Command::Ping(None)), Err(PortFault::Gone))
}

/// Whether a PING without a message is answered as such `times` times, over a lane with this client.
pub fn are_answered<R: Wait>(rt: &R, client: Client, times: u64) -> bool {
    let mut lane = Lane::new(client);
    for _ in 0..times {
        if !is_answered(rt, &mut lane) {
            return false;
        }
    }
    true
}

/// The same in a thread of its own.
pub fn ask_beside<R: Threads + Wait + Copy + Send + Drop + 'static>(
    rt: R,
    client: Client,
    times: u64,
) -> Option<JoinHandle<bool>> {
    thread::spawn(&rt, move || are_answered(&rt, client, times)).ok()
}
