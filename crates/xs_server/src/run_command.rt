//! The program's command `run`: a server that runs until it is stopped.
ghost use Rattle.std.specs.Prelude.{◌≡◌, length, All, IfOk, IfErr};
ghost use Rattle.xs_session.specs.declared.manner.Manner.TheVariants as manner;
ghost use Rattle.xs_work.specs.Gates.{new_gate};
ghost use Rattle.xs_work.specs.WorkOutcome.{HasServed};

use crate::command_line::RunOptions;
use crate::report::{report_memory, report_text, report_worked};
use crate::serve_command::DEPTH;
use crate::version::VERSION;
use std::alloc::{AllocError, Global};
use std::io;
use std::io::ErrorKind;
use std::net::{Net, SocketAddr, TcpListener, TcpStream};
use std::sync::{Arc, Wait};
use std::thread::Threads;
use std::time::{Clock, Duration};
use xs_clock::WallClock;
use xs_connection::Password;
use xs_io::Sink;
use xs_tcp::announcement::Announcement;
use xs_tcp::door::open_door;
use xs_tcp::hall::Hall;
use xs_tcp::information::{LogSettings, Settings};
use xs_tcp::limits::{OTHER_FILES, open_files, waiting_room};
use xs_tcp::patience::Patience;
use xs_tcp::run_gate::{RunGate, again};
use xs_work::{Gate, work_with};

/// The text for an error of listening.
fn name_of(error: &io::Error) -> &'static str {
    match error.kind() {
        ErrorKind::AddrInUse => "address in use",
        ErrorKind::AddrNotAvailable => "address not available",
        ErrorKind::PermissionDenied => "permission denied",
        ErrorKind::OutOfMemory => "out of memory",
        _ => "the system refused it",
    }
}

/// A gate for each worker. They share the hall and the announcement.
fn gates_of<S: Clock + Wait + Copy + Send + Drop>(
    system: S,
    alloc: Global,
    hall: &Arc<Hall>,
    announcement: &Announcement,
    options: &RunOptions,
    password: &Option<Password>,
) -> Result<Vec<RunGate<S>>, AllocError>
    ensures count { IfOk result (λ gates. length gates.items ≡ options.now.workers) }
    ensures new { IfOk result (λ gates.
        All (λ gate. ⟦<RunGate<S> as Gate>⟧.trace gate ≡ new_gate (manner.Full password.now)) gates.items) }
{
    let idle = if options.idle == 0 {
        None
    } else {
        Some(Duration::from_secs(options.idle))
    };
    let mut gates = Vec::new(alloc);
    for _worker in 0..options.workers {
        let (hall, announcement) = (Arc::try_clone(hall)?, announcement.again()?);
        let gate = RunGate::new(system, alloc, hall, announcement, idle, again(password))?;
        gates.push(gate)?;
    }
    Ok(gates)
}

/// The line that reports that the server listens, and its limits.
fn ready_line(
    alloc: Global,
    address: SocketAddr,
    workers: u64,
    files: Option<u64>,
) -> Result<Vec<u8>, AllocError> {
    let text = match files {
        Some(files) => format!(in alloc;
            "xs_server {VERSION}: listening on {address}, {workers} workers, {files} descriptors\n"
        )?,
        None => {
            format!(in alloc; "xs_server {VERSION}: listening on {address}, {workers} workers\n")?
        }
    };
    Ok(text.into_bytes())
}

/// The settings of these options, and of a log, for INFO.
fn settings_of<S: Clock>(system: &S, options: &RunOptions, log: Option<LogSettings>) -> Settings {
    Settings {
        version: VERSION,
        port: options.port,
        workers: options.workers,
        max_memory: options.max_memory,
        log,
        started: system.monotonic().unwrap_or(Duration::ZERO),
    }
}

/// What is made before the first connection is served.
#[derive(Drop)]
pub struct Ready<S: Clock + Wait + Drop> {
    /// A gate for each worker.
    pub gates: Vec<RunGate<S>>,
    /// How they are served.
    pub patience: Patience<S>,
}

/// Listens, and makes what the workers need. Connections wait in the hall from now on.
///
/// # Errors
/// The status of the program, 1. The cause was reported on `errors`.
pub fn make_ready<
    W: Sink + Send + Drop + 'static,
    E: Sink,
    R: Net<Listener = TcpListener, Stream = TcpStream>
        + Threads
        + Wait
        + Clock
        + Copy
        + Send
        + Drop
        + 'static,
>(
    rt: &R,
    files: &HostRuntime,
    options: &RunOptions,
    log: Option<LogSettings>,
    password: &Option<Password>,
    out: W,
    errors: &mut E,
) -> Result<Ready<R>, u8>
    ensures gates { IfOk result (λ ready. length ready.gates.items ≡ options.now.workers) }
    ensures new { IfOk result (λ ready.
        All (λ gate. ⟦<RunGate<R> as Gate>⟧.trace gate ≡ new_gate (manner.Full password.now)) ready.gates.items) }
    ensures status { IfErr result (λ status. status ≡ 1) }
{
    let alloc = files.alloc();
    let most = open_files(files);
    let Some(room) = waiting_room(options.workers, most) else {
        return Err(report_few_files(alloc, options.workers, errors));
    };
    let address = SocketAddr::new(options.bind, options.port);
    let listener = match TcpListener::bind(rt, address) {
        Ok(listener) => listener,
        Err(error) => return Err(report_listening_failed(alloc, address, &error, errors)),
    };
    let Ok(line) = ready_line(alloc, address, options.workers, most) else {
        return Err(report_memory(errors));
    };
    let Ok(hall) = hall_of(alloc, room, options.workers) else {
        return Err(report_memory(errors));
    };
    let Ok(announcement) = Announcement::new(rt, alloc, out, line) else {
        return Err(report_memory(errors));
    };
    let Ok(gates) = gates_of(*rt, alloc, &hall, &announcement, options, password) else {
        return Err(report_memory(errors));
    };
    let settings = settings_of(rt, options, log);
    let Ok(patience) = Patience::new(*rt, *files, gates.as_slice(), settings) else {
        return Err(report_memory(errors));
    };
    if open_door(rt, alloc, listener, &hall).is_err() {
        return Err(report_memory(errors));
    }
    Ok(Ready { gates, patience })
}

/// Listens, and serves the connections that come, up to a signal. Returns the status of the program: 1 if something
/// failed, and the cause is reported on `errors`; 0 never in practice, since no gate ends.
pub fn run_server<
    W: Sink + Send + Drop + 'static,
    E: Sink,
    R: Net<Listener = TcpListener, Stream = TcpStream>
        + Threads
        + Wait
        + Clock
        + Copy
        + Send
        + Drop
        + 'static,
>(
    rt: &R,
    files: &HostRuntime,
    options: &RunOptions,
    password: &Option<Password>,
    out: W,
    errors: &mut E,
) -> u8
    ensures served { result ≡ 0 → HasServed (manner.Full password.now) options.now.workers }
{
    let Ready { gates, patience } = match make_ready(
        rt, files, options, None, password, out, errors,
    ) {
        Ok(ready) => ready,
        Err(status) => return status,
    };
    let worked = work_with(
        rt,
        files.alloc(),
        gates,
        DEPTH,
        WallClock::new(*rt),
        patience,
    );
    report_worked(errors, &worked)
}

fn hall_of(alloc: Global, room: u64, workers: u64) -> Result<Arc<Hall>, AllocError> {
    let room = usize::try_from(room).unwrap_or(1);
    let workers = usize::try_from(workers).unwrap_or(0);
    Ok(Arc::new(alloc, Hall::new(alloc, room, workers)?)?)
}

/// Reports that more files have to be open than may be. Returns the status of the program.
fn report_few_files<E: Sink>(alloc: Global, workers: u64, errors: &mut E) -> u8
    ensures { result ≡ 1 }
{
    let needed = workers.saturating_add(OTHER_FILES);
    let text = format!(in alloc;
        "xs_server: {workers} workers need {needed} open files: raise the limit (ulimit -n {needed}, LimitNOFILE of systemd)\n"
    );
    match text {
        Ok(text) => report_text(errors, text.as_bytes()),
        Err(_) => report_memory(errors),
    }
}

/// Reports that the address can't be listened on. Returns the status of the program.
fn report_listening_failed<E: Sink>(
    alloc: Global,
    address: SocketAddr,
    error: &io::Error,
    errors: &mut E,
) -> u8
    ensures { result ≡ 1 }
{
    let cause = name_of(error);
    match format!(in alloc; "xs_server: listening on {address} failed: {cause}\n") {
        Ok(text) => report_text(errors, text.as_bytes()),
        Err(_) => report_memory(errors),
    }
}
