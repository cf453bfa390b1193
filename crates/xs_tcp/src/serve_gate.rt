//! Connections over TCP.
ghost use Rattle.std.specs.Prelude.{◌≡◌, IfOk, IfSome};
ghost use Rattle.xs_session.specs.declared.manner.Manner.TheVariants as manner;
ghost use Rattle.xs_work.specs.Gates.{AreFresh, new_gate};

use crate::announcement::Announcement;
use crate::halves::{Halves, HalvesMemory, Incoming, Outgoing};
use std::alloc::{AllocError, Global};
use std::io::{Error, ErrorKind};
use std::net::{TcpListener, TcpStream};
use std::sync::{Arc, Wait};
use std::thread;
use std::time::{Clock, Duration};
use xs_io::{FromRead, Sink, Source, ToWrite};
use xs_session::Manner;
use xs_work::{Gate, GateFault, Register};

/// Linux's numbers of the errors of `accept` that a listener gives for good: its descriptor is closed, it doesn't
/// listen any more, and its descriptor is another file's.
const EBADF: i32 = 9;

const EINVAL: i32 = 22;

const ENOTSOCK: i32 = 88;

/// How long a gate waits before it calls `accept` again after a failure, in milliseconds.
const PAUSE_MILLIS: u64 = 100;

/// A number of connections of a listener, which other gates may share.
#[derive(Drop)]
pub struct TcpGate<S: Clock + Wait + Drop> {
    memory: HalvesMemory,
    system: S,
    listener: Arc<TcpListener>,
    announcement: Announcement,
    left: u64,
    register: Register<FromRead<Incoming<S>>, ToWrite<Outgoing<S>>>,
}

impl<S: Clock + Wait + Copy + Send + Drop> TcpGate<S> {
    /// A gate that takes a number of connections from the listener, with all the memory that it needs for them. At its
    /// first call it makes the announcement, which other gates may share.
    pub fn new(
        alloc: Global,
        system: S,
        listener: Arc<TcpListener>,
        announcement: Announcement,
        count: u64,
    ) -> Result<Self, AllocError>
        ensures { IfOk result (λ gate. ⟦<TcpGate<S> as Gate>⟧.trace gate ≡ new_gate manner.Plain) }
    {
        Ok(Self {
            memory: HalvesMemory::new(alloc, None)?,
            system,
            listener,
            announcement,
            left: count,
            register: Register::new(),
        })
    }
}

/// What a gate does after `accept` has failed.
#[derive(Clone, Copy, Debug, PartialEq, Eq)]
pub enum AfterFailure {
    /// It calls again at once: a signal came, or the connection has gone meanwhile.
    Retry,
    /// It calls again after a pause: descriptors, buffers or memory have run out, or that one connection failed.
    Pause,
    /// It ends: the listener gives no connection any more.
    End,
}

/// What a gate does after this error of `accept`; accept(2) of Linux lists them.
pub fn after_failure(error: &Error) -> AfterFailure {
    match error.raw_os_error() {
        Some(EBADF | EINVAL | ENOTSOCK) => AfterFailure::End,
        _ => match error.kind() {
            ErrorKind::Interrupted | ErrorKind::ConnectionAborted => AfterFailure::Retry,
            _ => AfterFailure::Pause,
        },
    }
}

/// Waits for the next connection.
fn accept<S: Clock>(system: &S, listener: &TcpListener) -> Result<TcpStream, GateFault> {
    for _ in 0..u64::MAX {
        match listener.accept() {
            Ok((stream, _)) => return Ok(stream),
            Err(error) => match after_failure(&error) {
                AfterFailure::Retry => {}
                AfterFailure::Pause => thread::sleep(system, Duration::from_millis(PAUSE_MILLIS)),
                AfterFailure::End => return Err(GateFault::Refused),
            },
        }
    }
    Err(GateFault::Refused)
}

/// Waits for the next of the connections that are left, and returns its halves. None after the last.
fn take_next<S: Clock + Wait + Copy + Drop>(
    system: &S,
    listener: &TcpListener,
    memory: &HalvesMemory,
    left: &mut u64,
) -> Result<Option<Halves<S>>, GateFault>
    ensures { IfOk result (λ next. IfSome next (λ one. AreFresh (⟦<FromRead<Incoming<S>> as Source>⟧.rest one.0)
        (⟦<ToWrite<Outgoing<S>> as Sink>⟧.held one.1))) }
{
    for _ in 0..*left {
        *left = left.saturating_sub(1);
        let stream = accept(system, listener)?;
        // If this fails replies may be late, which is no reason to refuse the connection.
        let _ = stream.set_nodelay(true);
        if let Some(halves) = memory.halves_of(*system, stream, None) {
            return Ok(Some(halves));
        }
    }
    Ok(None)
}

impl<S: Clock + Wait + Copy + Send + Drop> Gate for TcpGate<S> {
    type Reader = FromRead<Incoming<S>>;

    type Writer = ToWrite<Outgoing<S>>;

    ghost use Rattle.xs_session.specs.declared.manner.Manner.TheVariants.{Plain};
    ghost use Rattle.xs_work.specs.Gates.{with_manner};

    ghost trace = { λ g. with_manner Plain g.register };

    fn manner(&self) -> Manner {
        Manner::Plain
    }

    fn open_next<R: Wait>(&mut self, _rt: &R) -> Result<Option<Halves<S>>, GateFault> {
        self.announcement.make();
        match take_next(&self.system, &self.listener, &self.memory, &mut self.left) {
            Ok(Some(connection)) => {
                self.register.give(&connection);
                Ok(Some(connection))
            }
            Ok(None) => {
                self.register.end();
                Ok(None)
            }
            Err(fault) => {
                self.register.end();
                Err(fault)
            }
        }
    }

    fn close(&mut self, reader: FromRead<Incoming<S>>, writer: ToWrite<Outgoing<S>>) {
        self.register.take_back(&(reader, writer));
    }
}
