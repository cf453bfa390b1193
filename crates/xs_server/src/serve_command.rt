//! The program's command `serve`.
ghost use Rattle.std.specs.Prelude.{◌≡◌, ◌⊎◌, ℕ, List, length, All, IfOk};
ghost use Rattle.xs_work.specs.Texts.{Says};
ghost use Rattle.xs_server.specs.Report.{IsServeCause};
ghost use Rattle.xs_session.specs.declared.manner.Manner.TheVariants as manner;
ghost use Rattle.xs_work.specs.Gates.{new_gate};
ghost use Rattle.xs_work.specs.WorkOutcome.{HasServed};

use crate::command_line::ServeOptions;
use crate::report::{report_listening, report_memory, report_ready, report_worked};
use std::alloc::{AllocError, Global};
use std::io::ErrorKind;
use std::net::{Ipv4Addr, Net, TcpListener, TcpStream};
use std::sync::{Arc, Wait};
use std::thread::Threads;
use std::time::Clock;
use xs_clock::WallClock;
use xs_io::{Sink, ToWrite};
use xs_tcp::announcement::Announcement;
use xs_tcp::serve_gate::TcpGate;
use xs_work::{Gate, work};

/// The number of places of the rings of a lane.
pub const DEPTH: usize = 32;

/// A gate for each worker, with its memory. They share the listener and the announcement of its port.
fn gates_of<S: Clock + Wait + Copy + Send + Drop>(
    system: S,
    alloc: Global,
    listener: TcpListener,
    options: ServeOptions,
    announcement: &Announcement,
) -> Result<Vec<TcpGate<S>>, AllocError>
    ensures count { IfOk result (λ gates. length gates.items ≡ options.workers) }
    ensures new { IfOk result (λ gates.
        All (λ gate. ⟦<TcpGate<S> as Gate>⟧.trace gate ≡ new_gate manner.Plain) gates.items) }
{
    let listener = Arc::new(alloc, listener)?;
    let mut gates = Vec::new(alloc);
    for _worker in 0..options.workers {
        let (listener, announcement) = (Arc::try_clone(&listener)?, announcement.again()?);
        let gate = TcpGate::new(alloc, system, listener, announcement, options.each)?;
        gates.push(gate)?;
    }
    Ok(gates)
}

/// The line with the port on which the server listens.
fn ready_line(alloc: Global, port: u16) -> Vec<u8> {
    let mut line = ToWrite::new(Vec::new(alloc));
    report_ready(&mut line, port);
    line.into_inner()
}

/// Listens on a port of 127.0.0.1, and serves the connections that come, as many as the options give. The port is
/// announced on `out` once every thread has started. Returns the status of the program: 0 if the work succeeded, else
/// 1, and the cause is reported on `errors`.
pub fn serve_and_report<
    W: Sink + Send + Drop + 'static,
    E: Sink,
    R: Net<Listener = TcpListener, Stream = TcpStream>
        + Threads
        + Wait
        + Clock
        + Copy
        + Send
        + Drop
        + 'static,
>(rt: &R, alloc: Global, options: ServeOptions, out: W, errors: &mut E) -> u8
    ensures served { result ≡ 0 → HasServed manner.Plain options.workers }
    ensures reported { ((result ≡ 0) × (errors.new ≡ errors.old))
        ⊎ ((result ≡ 1) × (cause : List ℕ) × IsServeCause cause
        × Says cause (E.held errors.old) (E.held errors.new) (E.broken errors.new)) }
{
    let listener = match TcpListener::bind(rt, (Ipv4Addr::LOCALHOST, options.port)) {
        Ok(listener) => listener,
        Err(error) if error.kind() == ErrorKind::OutOfMemory => return report_memory(errors),
        Err(_) => return report_listening(errors),
    };
    let line = ready_line(alloc, options.port);
    let Ok(announcement) = Announcement::new(rt, alloc, out, line) else {
        return report_memory(errors);
    };
    let Ok(gates) = gates_of(*rt, alloc, listener, options, &announcement) else {
        return report_memory(errors);
    };
    let worked = work(rt, alloc, gates, DEPTH, WallClock::new(*rt));
    report_worked(errors, &worked)
}
