//! The door of a server that runs until it is stopped: one thread takes connections from the listener, another closes
//! those for which no worker was free in time. Nothing that these sent is executed.
use crate::hall::{Hall, Overdue};
use crate::serve_gate::{AfterFailure, after_failure};
use std::alloc::{AllocError, Global};
use std::io::{ErrorKind, Read, Write};
use std::net::{Shutdown, TcpListener, TcpStream};
use std::sync::{Arc, Wait};
use std::thread::Threads;
use std::time::{Clock, Duration, Instant};
use std::{io, thread};

/// The error for a connection for which no worker is free.
const FULL: &[u8] = b"-ERR max number of clients reached\r\n";

/// How long bytes that such a connection still sends are read and dropped, in milliseconds: else the system might drop
/// the error before the client has read it.
const FAREWELL_MILLIS: u64 = 100;

/// How long the door waits before it calls `accept` again after a failure, in milliseconds.
const PAUSE_MILLIS: u64 = 100;

/// Linux's numbers of the errors of `accept` if there is no descriptor: in the process, in the system.
const EMFILE: i32 = 24;

const ENFILE: i32 = 23;

/// A connection that was refused.
#[derive(Drop)]
struct Leaving {
    stream: TcpStream,
    since: Instant,
}

/// Reports to a connection that it can't be served, and shuts this side down. Nothing here waits.
fn tell_to_leave(mut stream: &TcpStream) {
    let _ = stream.set_nonblocking(true);
    let _ = stream.write(FULL);
    let _ = stream.shutdown(Shutdown::Write);
}

/// Drops what the connection has sent. Returns whether the client has gone.
fn drop_bytes(mut stream: &TcpStream) -> bool {
    let mut piece = [0u8; 4096];
    for _ in 0..16 {
        match stream.read(&mut piece) {
            Ok(0) => return true,
            Ok(_) => {}
            Err(error) if error.kind() == ErrorKind::Interrupted => {}
            Err(error) => return error.kind() != ErrorKind::WouldBlock,
        }
    }
    false
}

/// Whether a connection that was refused can be closed.
fn is_gone<S: Clock>(system: &S, leaving: &Leaving) -> bool {
    drop_bytes(&leaving.stream)
        || leaving.since.elapsed(system).map_or(
            true,
            |waited| waited >= Duration::from_millis(FAREWELL_MILLIS),
        )
}

/// Refuses connections for which no worker was free in time, until the hall is closed.
fn show_out<R: Wait + Clock>(rt: &R, alloc: Global, hall: &Hall) {
    let mut leaving: Vec<Leaving> = Vec::new(alloc);
    for _ in rt.forever() {
        match hall.next_overdue(rt, !leaving.is_empty()) {
            Overdue::Leaves(stream) => {
                tell_to_leave(&stream);
                if let Ok(since) = Instant::now(rt) {
                    // Without memory it is closed at once.
                    let _ = leaving.push(Leaving { stream, since });
                }
            }
            Overdue::Nobody => leaving.retain(|one| !is_gone(rt, one)),
            Overdue::Closed => return,
        }
    }
}

/// Refuses a connection, and waits until it can be closed.
fn see_off<S: Clock>(system: &S, stream: &TcpStream) {
    tell_to_leave(stream);
    for _ in 0..FAREWELL_MILLIS / 10 {
        if drop_bytes(stream) {
            return;
        }
        thread::sleep(system, Duration::from_millis(10));
    }
}

/// Refuses a connection, if one waits. It is taken with the descriptor that is reserved for this, since no other is
/// left.
fn turn_away<S: Clock>(system: &S, listener: &TcpListener, spare: &mut Option<TcpListener>) {
    *spare = None;
    // Without a descriptor `accept` fails before it waits, so perhaps no connection waits.
    let _ = listener.set_nonblocking(true);
    let accepted = listener.accept();
    let _ = listener.set_nonblocking(false);
    match accepted {
        Ok((stream, _)) => see_off(system, &stream),
        Err(_) => thread::sleep(system, Duration::from_millis(PAUSE_MILLIS)),
    }
    *spare = listener.try_clone().ok();
}

/// What the door does after this error of `accept`. Returns whether it goes on.
fn after_error<R: Clock>(
    rt: &R,
    error: &io::Error,
    listener: &TcpListener,
    spare: &mut Option<TcpListener>,
) -> bool {
    if matches!(error.raw_os_error(), Some(EMFILE | ENFILE)) && spare.is_some() {
        turn_away(rt, listener, spare);
        return true;
    }
    match after_failure(error) {
        AfterFailure::Retry => true,
        AfterFailure::Pause => {
            thread::sleep(rt, Duration::from_millis(PAUSE_MILLIS));
            if spare.is_none() {
                *spare = listener.try_clone().ok();
            }
            true
        }
        AfterFailure::End => false,
    }
}

/// Lets connections into the hall until the listener gives none any more; then it closes the hall.
fn let_in<R: Wait + Clock>(rt: &R, listener: &TcpListener, hall: &Hall) {
    let mut spare = listener.try_clone().ok();
    for _ in rt.forever() {
        match listener.accept() {
            Ok((stream, _)) => {
                if let Ok(now) = Instant::now(rt) {
                    hall.enter(rt, stream, now);
                }
            }
            Err(error) => {
                if !after_error(rt, &error, listener, &mut spare) {
                    break;
                }
            }
        }
    }
    hall.close(rt);
}

/// Opens the door: starts both threads. The end of the program doesn't wait for them.
///
/// # Errors
/// A thread can't be started.
pub fn open_door<R: Threads + Wait + Clock + Copy + Send + Drop + 'static>(
    rt: &R,
    alloc: Global,
    listener: TcpListener,
    hall: &Arc<Hall>,
) -> Result<(), AllocError> {
    let handle = *rt;
    let (one, other) = (Arc::try_clone(hall)?, Arc::try_clone(hall)?);
    let shows_out = thread::spawn(rt, move || show_out(&handle, alloc, &one)).is_ok();
    if !shows_out || thread::spawn(rt, move || let_in(&handle, &listener, &other)).is_err() {
        return Err(AllocError);
    }
    Ok(())
}
